// A line of bays, and the end at which a new bay joins it.
ghost use Rattle.std.specs.Prelude.{◌≡◌, ◌<◌, ◌≤◌, Bool, true, false, IsOk, OnOk, OnErr};
ghost use Rattle.std.specs.VecDeque.{deque_len, deque_capacity};
ghost use Rattle.schedule.specs.Entries.{distinct, below_64};
ghost use Rattle.queues.specs.Ends.{joined};

use std::alloc::AllocError;
use std::collections::VecDeque;
use std::marker::PhantomData;

// An end of a line.
pub trait End {
    // whether it is the back
    ghost back: { Bool };

    // Whether a new bay joins behind the others, and not before them. Beside `join`, as this cannot fail.
    fn is_back() -> bool
        ensures { result ≡ back };

    // Puts a bay in at this end; where it lacks memory for it, it changes nothing.
    fn join(bays: &mut VecDeque<u32>, bay: u32) -> Result<(), AllocError>
        ensures ok { OnOk result (bays.new.items ≡ joined back bays.old.items bay) }
        ensures err { OnErr result (bays.new.items ≡ bays.old.items) }
        ensures room { deque_len bays.old < deque_capacity bays.old → IsOk result }
        ensures capacity { deque_capacity bays.old ≤ deque_capacity bays.new }
    {
        if Self::is_back() {
            Ok(bays.push_back(bay)?)
        } else {
            Ok(bays.push_front(bay)?)
        }
    }
}

// Behind the others.
pub struct Back;

impl End for Back {
    ghost back = { true };

    fn is_back() -> bool {
        true
    }
}

// Before the others.
pub struct Front;

impl End for Front {
    ghost back = { false };

    fn is_back() -> bool {
        false
    }
}

// Bay numbers, the next to be taken first. Memory for all places is had when the line is made.
#[derive(Drop)]
pub struct Line<E: End> {
    pub(crate) bays: VecDeque<u32>,
    pub(crate) places: usize,
    pub(crate) end: PhantomData<E>,
    ghost single: { distinct bays.items ≡ true },
    ghost below: { below_64 bays.items ≡ true },
    ghost fits: { deque_len bays ≤ places },
    ghost reserved: { places ≤ deque_capacity bays },
    ghost most: { places ≤ 64 },
}
