// Queue and Stack: one line of bays, which a new bay joins at the back or at the front.
#![tactic(auto)]

pub mod line;
pub mod policy;
pub mod queue;
pub mod stack;

pub use line::{Back, End, Front, Line};
pub use queue::Queue;
pub use stack::Stack;
