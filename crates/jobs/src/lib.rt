// Jobs: futures that are started from a word, and shown by a number.
#![tactic(auto)]

pub mod countdown;
pub mod job;
pub mod transfer;

pub use job::Job;
pub use polls::{Countdown, Future, Played, Poll, Recording, Transfer, play};
