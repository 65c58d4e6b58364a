//! The requests to append that a partition parks while it asks the coordinator to add it to their
//! transaction (KIP-890). No more than five of one producer's id and epoch wait, each once, and all
//! of them are handed back together when the coordinator has answered.
#![tactic(auto)]

mod guard;
mod request;

pub use guard::{Asked, Guard, PARKED_LIMIT};
pub use request::{Append, Request};
