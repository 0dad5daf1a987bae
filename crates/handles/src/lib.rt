// The calls by handle: tokens that hold a bay number and have to be spent.
#![tactic(auto)]

pub mod handle;
pub mod polled;
pub mod refused;
pub mod runnable;
pub mod running;
pub mod task;
pub mod waker;

pub use handle::{Clones, Handle, Wakes};
pub use polled::Polled;
pub use refused::Refused;
pub use runnable::{Runnable, spawn, take};
pub use running::Running;
pub use task::Task;
pub use waker::Waker;
