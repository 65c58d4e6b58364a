//! The messages of a step: a list whose first message needs no memory of its own, and whether two
//! messages are the same.
#![tactic(auto)]

mod messages;
mod same;

pub use messages::Messages;
pub use same::{same_message, same_offsets};
