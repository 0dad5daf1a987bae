// A future that counts its polls down.
ghost use Rattle.polls.specs.Kinds.{countdown_step};

use super::future::{Future, Poll};

// Pending `left` times more, then Ready with `from`, whatever the words.
#[derive(Clone, Copy)]
pub struct Countdown {
    pub from: u32,
    pub left: u32,
}

impl Future for Countdown {
    type Output = u32;

    ghost step = { countdown_step };

    fn poll(&mut self, _word: u32) -> Poll<u32> {
        if self.left == 0 {
            return Poll::Ready(self.from);
        }
        self.left -= 1;
        Poll::Pending
    }
}
