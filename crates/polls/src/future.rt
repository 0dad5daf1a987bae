// What a future is.
ghost use Rattle.std.specs.Prelude.{◌≡◌, ℕ};
ghost use Rattle.polls.specs.Step.{Step, Polls};

// What a poll answers. Not an Option, since Pending is an answer and not the lack of one, and not the library's Poll,
// which is not Copy and belongs to a runtime with threads.
#[derive(Clone, Copy)]
pub enum Poll<T> {
    Pending,
    Ready(T),
}

// A value that can be polled with a word until it is Ready.
pub trait Future: Copy {
    type Output: Copy;

    // one poll: Pending and the value that it leaves, or Ready and the output
    ghost step: { Self → ℕ → Step Self Self.Output };

    fn poll(&mut self, word: u32) -> Poll<Self::Output>
        ensures { Polls (step self.old word) self.new result };
}
