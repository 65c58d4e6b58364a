//! The nodes of a core as they are served together: a node of any kind is one type of machine,
//! which begins with one type of value, so that nodes of all kinds are in one list, under locks,
//! and their traces are audited together.
#![tactic(auto)]

mod making;
mod node;

pub use making::AnyMaking;
pub use node::{LocalMachine, LocalNode, local_machine, local_node};
