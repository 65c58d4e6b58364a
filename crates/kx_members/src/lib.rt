//! What is kept of consumer groups' members beside the offsets partition's log, so that no call
//! scans it.
#![tactic(auto)]

mod group;
mod law;
mod members;
mod membership;

pub use law::the_groups_follow_the_log;
pub use members::Members;
pub use membership::Membership;
