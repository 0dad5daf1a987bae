// Policies over policies.
#![tactic(auto)]

pub mod slot;

pub use slot::Slot;
