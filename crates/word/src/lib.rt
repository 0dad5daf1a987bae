// The state word of a task cell.
#![tactic(auto)]

pub mod state;
