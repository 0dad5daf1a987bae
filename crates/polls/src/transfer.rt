// A future that plays a tape, a stretch of seconds at a time.
ghost use Rattle.polls.specs.Kinds.{transfer_step};

use super::future::{Future, Poll};

// Each word is a stretch played, in seconds; Ready once `goal` seconds are reached.
#[derive(Clone, Copy)]
pub struct Transfer {
    pub goal: u32,
    pub seconds: u32,
    pub polls: u32,
}

// What a finished transfer gives.
#[derive(Clone, Copy)]
pub struct Recording {
    pub seconds: u32,
    pub polls: u32,
}

impl Future for Transfer {
    type Output = Recording;

    ghost step = { transfer_step };

    fn poll(&mut self, word: u32) -> Poll<Recording> {
        self.seconds = self.seconds.saturating_add(word).min(self.goal);
        self.polls = self.polls.saturating_add(1);
        if self.seconds < self.goal {
            return Poll::Pending;
        }
        Poll::Ready(Recording {
            seconds: self.seconds,
            polls: self.polls,
        })
    }
}
