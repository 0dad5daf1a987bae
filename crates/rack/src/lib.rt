// The transfer rack: bays and a policy side by side.
#![tactic(auto)]

pub mod calls;
pub mod price;
pub mod run;
