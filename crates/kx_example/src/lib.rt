//! The example of `docs/USING.md`: a partition, the transaction coordinator and a reader of
//! committed records, put together on one thread and without messages between nodes.
#![tactic(auto)]

mod partition;
mod transaction;

pub use partition::{batch_of, committed, empty_partition};
pub use transaction::{append, new_coordinator, write_marker};
