//! The whole system in one process: every node as a machine on a store that can be made to fail,
//! and all messages that were ever sent. Any of them may come to any node, again and in any order,
//! so that loss, delay and repetition are schedules like any other; over every schedule the world
//! keeps the promises of exactly-once semantics (KIP-98, KIP-447, KIP-890).
#![tactic(auto)]

mod clients;
mod count;
mod event;
mod fault;
mod fits;
mod hand;
mod local;
mod nodes;
mod sent;
mod world;

pub use count::PartitionCount;
pub use event::{Event, Happened};
pub use fault::RunFault;
pub use local::{Config, LocalWorld};
pub use sent::Sent;
pub use world::World;
