//! The words of the wire: the small values that a producer, a consumer group and a transaction
//! coordinator say to each other, each in a type that holds no value out of its range, and the
//! twenty messages that they make up.
//!
//! Everything above reads these types, and none of them knows of logs, groups or coordinators.
#![tactic(auto)]

pub use code::ErrorCode;
pub use fault::ValueFault;
pub use group_id::GroupId;
pub use ids::{ClientId, Epoch, ProducerId};
pub use layout::{LONGEST_FRAME, fields_len, kind};
pub use message::{Held, Message, NodeId, Raised};
pub use outcome::Outcome;
pub use partition::PartitionId;
pub use payload::{AbortedTxn, AbortedTxns, Bytes, Offsets, PartitionOffset};
pub use replies::{
    AddReply, EndReply, FetchReply, InitReply, JoinReply, LeaveReply, MarkerReply,
    OffsetFetchReply, OffsetsReply, ProduceReply,
};
pub use requests::{
    AddPartition, Caller, EndTxn, Fetch, InitProducerId, Join, Leave, OffsetFetch, Produce,
    TxnOffsetCommit, WriteMarker,
};
pub use timeout::Timeout;
pub use txn_id::TxnId;

pub mod code;
mod copies;
mod display;
mod fault;
mod group_id;
mod ids;
mod layout;
pub mod message;
mod name;
pub mod outcome;
mod partition;
pub mod payload;
pub mod replies;
pub mod requests;
mod timeout;
mod txn_id;
