// The state word of a task cell, seen by its flags and its count.
ghost use Rattle.std.specs.Prelude.{◌≡◌, ◌<◌};
ghost use Rattle.bits.specs.State.{all_flags, has, is_open, with_flags, without_flags};
ghost use Rattle.bits.specs.Words.{read, number, any_of, setting, clearing, referenced, released, still_open};

pub use bits::flags_are_apart;
use std::marker::Model;

// Set if the task is scheduled for running: its Runnable exists and is not being polled,
// or it was woken while it is polled.
pub const SCHEDULED: u32 = 1 << 0;

// Set while the future is polled.
pub const RUNNING: u32 = 1 << 1;

// Set once a poll answered Ready.
pub const COMPLETED: u32 = 1 << 2;

// Set once the task is cancelled, or its output has been taken or dropped.
pub const CLOSED: u32 = 1 << 3;

// Set while the Task handle is out; the count does not include it.
pub const TASK: u32 = 1 << 4;

// Set while a waiter is registered.
pub const AWAITER: u32 = 1 << 5;

// Used by the threaded original while a waiter is being registered; clear on one thread.
pub const REGISTERING: u32 = 1 << 6;

// Used by the threaded original while a waiter is being told; clear on one thread.
pub const NOTIFYING: u32 = 1 << 7;

// One reference, a Runnable's or a Waker's.
pub const REFERENCE: u32 = 1 << 8;

// The flags, the lowest bit first.
pub fn flags() -> [u32; 8]
    ensures { result ≡ all_flags }
{
    [
        SCHEDULED,
        RUNNING,
        COMPLETED,
        CLOSED,
        TASK,
        AWAITER,
        REGISTERING,
        NOTIFYING,
    ]
}

// A word: eight flags and the number of references. Contracts see it by these parts.
#[derive(Clone, Copy)]
pub struct State {
    bits: u32,
}

impl Model for State {
    ghost use Rattle.bits.specs.Words.{Word, read, number};
    ghost use Rattle.bits.proofs.Words.{number_read};
    ghost use Rattle.std.proofs.Common.{ap};

    ghost Value = { Word };

    ghost view = { λ s. read s.bits };

    ghost inverse = { λ w. record { bits = number w } };

    // a word is the sum of its parts
    ghost inverse_ok = { λ s _. ap (λ n. record { bits = n }) (number_read s.bits) };
}

// A word by its number.
impl From<u32> for State {
    ghost from_gives = { λ n s. s ≡ read n };

    fn from(bits: u32) -> State {
        State { bits }
    }
}

// The number of a word.
impl From<State> for u32 {
    ghost from_gives = { λ s n. n ≡ number s };

    fn from(state: State) -> u32 {
        state.bits
    }
}

// Flags are numbers, as in the original. Any number may be passed for them; what is said of the parts holds of the flags.
impl State {
    // Whether one of `flags` is set.
    pub fn has(self, flags: u32) -> bool
        ensures value { result ≡ has (number self) flags }
        ensures parts { flags < 256 → result ≡ any_of flags self }
    {
        self.bits & flags != 0
    }

    // The number of references.
    pub fn count(self) -> u32
        ensures { result ≡ self.count }
    {
        self.bits / REFERENCE
    }

    // Whether the task is neither completed nor closed.
    pub fn is_open(self) -> bool
        ensures value { result ≡ is_open (number self) }
        ensures parts { result ≡ still_open self }
    {
        !self.has(COMPLETED) && !self.has(CLOSED)
    }

    // The word with `flags` set.
    pub fn with(self, flags: u32) -> State
        ensures value { number result ≡ with_flags (number self) flags }
        ensures parts { flags < 256 → result ≡ setting flags self }
    {
        State {
            bits: self.bits | flags,
        }
    }

    // The word with `flags` cleared.
    pub fn without(self, flags: u32) -> State
        ensures value { number result ≡ without_flags (number self) flags }
        ensures parts { flags < 256 → result ≡ clearing flags self }
    {
        State {
            bits: self.bits & !flags,
        }
    }

    // The word with one reference more. At the largest count it stays as it is.
    pub fn more(self) -> State
        ensures { result ≡ referenced self }
    {
        if self.count() == u32::MAX / REFERENCE {
            return self;
        }
        State {
            bits: self.bits + REFERENCE,
        }
    }

    // The word with one reference less. With none it stays as it is.
    pub fn less(self) -> State
        ensures { result ≡ released self }
    {
        if self.count() == 0 {
            return self;
        }
        State {
            bits: self.bits - REFERENCE,
        }
    }
}
