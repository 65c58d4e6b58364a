//! A server's steps, made again one after the other: each on a machine that was made as the node
//! was, or that earlier steps led to, if its input is a request of a client or what an earlier
//! step sent. What is kept is the machines, and the messages that were sent and not taken yet: so steps may be read from files of
//! any length.
//!
//! In `proofs/`: `Sending` (messages by their frames), `History` (one more step of a history),
//! `Stepping` (one more step of a node), `Ending` (what all steps are).
#![tactic(auto)]

mod fault;
mod followed;
mod follower;
mod pending;

pub use fault::FollowFault;
pub use followed::FollowedNode;
pub use follower::Follower;
