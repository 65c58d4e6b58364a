//! The aborted transactions of a partition, in the order of their markers: which of them a page has
//! to name, and the entries by which an index stores them. What a look-up gives is what `kx_model`
//! says of a whole log.
#![tactic(auto)]

mod aborted;
mod entry;
mod fault;
mod index;

pub use aborted::Aborted;
pub use entry::{entries_are_read_again, put_entry, read_entry};
pub use fault::EntryFault;
pub use index::{AbortedIndex, look_ups_are_those_of_the_log};
