//! A partition: the log of one topic's partition on its store, to which batches of records and
//! transaction markers are appended as its tables judge them, and from which pages are fetched.
//! What it answers, and its log after it, is what `kx_model` says of the list of its batches; what
//! it keeps beside the log follows it, so that no answer scans it.
#![tactic(auto)]

mod answer;
mod batch;
mod content;
mod fault;
mod fetch;
mod law;
mod marker;
mod page;
mod partition;
mod summary;

pub use answer::Produced;
pub use content::PartitionContent;
pub use fault::{FetchFault, ReplyFault};
pub use kx_log::Batches;
pub use law::rebuilt_partitions_are_as_before;
pub use page::FetchPage;
pub use partition::Partition;
