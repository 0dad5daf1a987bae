// The header of a task: its state word and its waiter.
ghost use Rattle.std.specs.Prelude.{◌≡◌};
ghost use Rattle.cell.specs.Cells.{told, untold, unheld, letting_go};

use word::state::{AWAITER, State, TASK};

#[derive(Clone, Copy)]
pub struct Header {
    pub state: State,
    // the number of the waiter that is told when the task ends; the word has the flag AWAITER for it all the same,
    // as in the original
    pub awaiter: Option<u32>,
}

impl Header {
    // Takes the waiter out, if one is registered.
    pub(crate) fn take(&mut self) -> Option<u32>
        ensures value { result ≡ told self.old }
        ensures after { self.new ≡ untold self.old }
    {
        if !self.state.has(AWAITER) {
            return None;
        }
        self.state = self.state.without(AWAITER);
        self.awaiter.take()
    }

    // Drops a reference, a Runnable's or a waker's. True if nothing holds the task any more.
    pub(crate) fn drop_ref(&mut self) -> bool
        ensures value { result ≡ unheld (letting_go self.old).state }
        ensures after { self.new ≡ letting_go self.old }
    {
        self.state = self.state.less();
        self.state.count() == 0 && !self.state.has(TASK)
    }
}
