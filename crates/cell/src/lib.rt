// The task cell: what a bay holds, and what each call does to it.
#![tactic(auto)]

pub mod act;
pub mod call;
pub mod cases;
pub mod cell;
pub mod header;
pub mod raw;
pub mod register;
pub mod report;
pub mod table;
pub mod task;
