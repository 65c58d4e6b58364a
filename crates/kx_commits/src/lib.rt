//! What is kept of the offsets that consumer groups commit, beside the offsets partition's log
//! (KIP-447), so that neither a fetch of offsets nor a marker scans the log.
#![tactic(auto)]

mod commits;
mod law;
mod said;
mod slot;
mod slots;
mod waiting;

pub use commits::Commits;
pub use law::the_offsets_follow_the_log;
pub use said::SaidOffset;
