//! What a partition keeps of producers with an id: the epoch of each, its last batches, which are
//! known when they come again, and the coordinator that ended its last transaction.
#![tactic(auto)]

mod law;
mod noted;
mod producer;
mod producers;
mod verdict;

pub use law::the_table_follows_the_log;
pub use noted::{Noted, RememberedBatch};
pub use producers::Producers;
pub use verdict::Verdict;
