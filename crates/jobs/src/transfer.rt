// A Transfer as a job: started from the seconds of its tape, and shown by the number of its polls.
ghost use Rattle.polls.specs.Kinds.{transfer_start};
ghost use Rattle.polls.specs.Runs.{Transfers};
ghost use Rattle.polls.proofs.Laws.{transfers};

use super::job::Job;
pub use polls::{Recording, Transfer};

impl Job for Transfer {
    ghost started = { transfer_start };

    ghost number = { λ recording. recording.polls };

    ghost comes_to = { Transfers };

    ghost played = { transfers };

    fn start(word: u32) -> Transfer {
        Transfer {
            goal: word,
            seconds: 0,
            polls: 0,
        }
    }

    fn shown(output: &Recording) -> u32 {
        output.polls
    }
}
