// Polling a future with one word after another.
ghost use Rattle.polls.specs.Runs.{Plays};

use super::future::{Future, Poll};

// What a list of polls came to: how many were Pending, and the output if one was Ready.
#[derive(Clone, Copy)]
pub struct Played<O> {
    pub pending: usize,
    pub output: Option<O>,
}

// Polls with the words, one after another, until the future is Ready or no word is left.
pub fn play<F: Future>(future: &mut F, words: &[u32]) -> Played<F::Output>
    ensures { Plays F.Future.step future.old words.now result future.new }
{
    for (i, word) in words.iter().enumerate() {
        if let Poll::Ready(output) = future.poll(*word) {
            return Played {
                pending: i,
                output: Some(output),
            };
        }
    }
    Played {
        pending: words.len(),
        output: None,
    }
}
