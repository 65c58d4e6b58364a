//! The transaction coordinator (KIP-98, "Transaction Coordinator"; KIP-890): what it answers to the
//! requests that come, what it appends to its log first, and the markers that it sends. What it
//! holds of a transactional id is the last row that its log has of it; a table finds that row
//! without reading the log.
#![tactic(auto)]

mod add_partition;
mod answer;
mod coordinator;
mod draft;
mod end_txn;
mod expiry;
mod fault;
mod init_producer_id;
mod markers;
mod noted;
mod opening;
mod requests;
mod rows;
mod settling;
mod table;

pub use coordinator::Coordinator;
pub use fault::RestartFault;
