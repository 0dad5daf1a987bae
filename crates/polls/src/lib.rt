// Futures, and what polling them with one word after another comes to.
#![tactic(auto)]

pub mod countdown;
pub mod future;
pub mod runs;
pub mod transfer;

pub use countdown::Countdown;
pub use future::{Future, Poll};
pub use runs::{Played, play};
pub use transfer::{Recording, Transfer};
