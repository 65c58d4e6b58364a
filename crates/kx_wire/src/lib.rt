//! The frames in which messages go over a stream of bytes: their fields written and read, and the
//! stream cut back into messages. The messages and the small values that they make up are
//! `kx_message`'s, and are given out here too.
#![tactic(auto)]

pub use fault::FrameFault;
pub use fields::Fields;
pub use frames::{
    Frames, frames_are_read, frames_tell_messages_apart, less_than_a_frame_is_held,
    streams_come_as_their_messages,
};
pub use kx_message::{
    AbortedTxn, AbortedTxns, AddPartition, AddReply, Bytes, Caller, ClientId, EndReply, EndTxn,
    Epoch, ErrorCode, Fetch, FetchReply, GroupId, Held, InitProducerId, InitReply, Join, JoinReply,
    Leave, LeaveReply, MarkerReply, Message, NodeId, OffsetFetch, OffsetFetchReply, Offsets,
    OffsetsReply, Outcome, PartitionId, PartitionOffset, Produce, ProduceReply, ProducerId, Raised,
    Timeout, TxnId, TxnOffsetCommit, ValueFault, WriteMarker, code, message, outcome, payload,
    replies, requests,
};
pub use writing::{frame_head, frame_of, put_frame, put_held, put_name, record_batches};

mod fault;
mod fields;
mod frames;
mod reading;
mod writing;
