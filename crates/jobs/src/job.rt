// What a job adds to a future.
ghost use Rattle.std.specs.Prelude.{◌≡◌, ℕ, List};
ghost use Rattle.polls.specs.Runs.{Plays};
ghost use Rattle.polls.specs.declared.runs.Played.{Played};

use polls::{Future, Played, play};

// A future that can be started from a word, and whose output is shown as a number.
pub trait Job: Future {
    ghost started: { ℕ → Self };

    ghost number: { Self.Output → ℕ };

    // what playing a new one, from a word, with a list of words comes to
    ghost comes_to: { ℕ → List ℕ → Played Self.Output → Type 0 };

    fn start(word: u32) -> Self
        ensures { result ≡ started word };

    fn shown(output: &Self::Output) -> u32
        ensures { result ≡ number output.now };

    // Polls a new one, started from `word`, with the words, one after another, until it is Ready.
    final fn play(word: u32, words: &[u32]) -> Played<Self::Output>
        ensures { comes_to word words.now result }
    {
        let mut job = Self::start(word);
        play(&mut job, words)
    }

    // that is what the polls of a new one come to
    ghost played: { (word : ℕ) (words : List ℕ) (r : Played Self.Output) (later : Self) → Plays Self.step (started word) words r later → comes_to word words r };
}
