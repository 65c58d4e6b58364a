//! The transaction coordinator as a machine: a running coordinator takes inputs as the coordinator
//! of the definitions does, on a store that may fail.
#![tactic(auto)]

mod machine;

pub use machine::CoordinatorMachine;
