// A Countdown as a job: started from the number of its polls, which is its output too.
ghost use Rattle.polls.specs.Kinds.{countdown_start};
ghost use Rattle.polls.specs.Runs.{CountsDown};
ghost use Rattle.polls.proofs.Laws.{counts_down};

use super::job::Job;
pub use polls::Countdown;

impl Job for Countdown {
    ghost started = { countdown_start };

    ghost number = { λ n. n };

    ghost comes_to = { CountsDown };

    ghost played = { counts_down };

    fn start(word: u32) -> Countdown {
        Countdown {
            from: word,
            left: word,
        }
    }

    fn shown(output: &u32) -> u32 {
        *output
    }
}
