//! Cases of consumer groups and of verification: the records of the offsets partition
//! (`kx_offsets`), the requests that a partition parks (`kx_verify`), and the groups themselves
//! (`kx_group`).
#![tactic(auto)]

pub use files::try_groups;

mod files;
mod groups;
mod growth;
mod guard;
mod offsets;
