//! The machines of every kind behind one type: those that a broker has, and any node's. Beside them
//! the stores in memory on which they keep their logs if there is no disk.
#![tactic(auto)]

mod any;
mod broker;
mod memory;

pub use any::AnyMachine;
pub use broker::BrokerMachine;
pub use memory::{LocalStore, local_coordinator, local_offsets, local_partition, local_server};
