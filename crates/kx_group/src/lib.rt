//! The consumer groups of an offsets partition (KIP-447): members and generations, and offsets that
//! are committed in transactions. Their answers and the partition's log after them are what
//! `kx_model` says of the list of its batches; what is kept beside the log follows it, so that no
//! call but opening scans it.
#![tactic(auto)]

mod commit;
mod content;
mod groups;
mod law;
mod notes;

pub use content::GroupsContent;
pub use groups::Groups;
pub use law::{
    groups_follow_their_log, reopened_groups_are_as_before, unverified_commits_begin_at_0,
};
