//! What is answered, each reply with the fields that its frame spells, in the frame's order. A
//! client's reply repeats its [`Caller`]; what is after a code other than 0 is as the answer to
//! the request says.
use crate::payload::{AbortedTxns, Bytes};
use crate::requests::Caller;
use crate::{ErrorCode, Held, PartitionId, Raised, TxnId};

/// Answers an `InitProducerId`.
#[derive(Clone, Copy, PartialEq, Eq)]
pub struct InitReply {
    /// Who asked.
    pub caller: Caller,
    /// How it went.
    pub code: ErrorCode,
    /// The id and the epoch that the producer is handed, if any.
    pub held: Option<Held>,
}

/// Answers an `EndTxn`.
#[derive(Clone, Copy, PartialEq, Eq)]
pub struct EndReply {
    /// Who asked.
    pub caller: Caller,
    /// How it went.
    pub code: ErrorCode,
    /// The id and the epoch that the producer goes on with, if any (KIP-890).
    pub held: Option<Held>,
}

/// Answers a `Produce`.
#[derive(Clone, Copy, PartialEq, Eq)]
pub struct ProduceReply {
    /// Who asked.
    pub caller: Caller,
    /// The partition.
    pub partition: PartitionId,
    /// How it went.
    pub code: ErrorCode,
    /// The offset of the batch's first record, any i64.
    pub offset: i64,
}

/// Answers an `AddPartition`.
#[derive(Clone, Copy, PartialEq, Eq)]
pub struct AddReply {
    /// The partition that asked.
    pub partition: PartitionId,
    /// The transactional id.
    pub txn: TxnId,
    /// The id and the epoch that were asked about.
    pub held: Held,
    /// How it went.
    pub code: ErrorCode,
}

/// Answers a `WriteMarker`.
#[derive(Clone, Copy, PartialEq, Eq)]
pub struct MarkerReply {
    /// The partition that answers.
    pub partition: PartitionId,
    /// The transactional id.
    pub txn: TxnId,
    /// The id and the epoch of the marker.
    pub held: Raised,
    /// How it went.
    pub code: ErrorCode,
}

/// Answers a `Fetch`.
#[derive(Clone, PartialEq, Eq, Drop)]
pub struct FetchReply {
    /// Who asked.
    pub caller: Caller,
    /// The partition.
    pub partition: PartitionId,
    /// How it went.
    pub code: ErrorCode,
    /// The offset to read on from, any i64.
    pub next: i64,
    /// The last stable offset, any i64.
    pub lso: i64,
    /// The end of the log, any i64.
    pub end: i64,
    /// The aborted transactions among the batches.
    pub aborted: AbortedTxns,
    /// The record batches, one after the other.
    pub batches: Bytes,
}

/// Answers a `Join`.
#[derive(Clone, Copy, PartialEq, Eq)]
pub struct JoinReply {
    /// Who asked.
    pub caller: Caller,
    /// How it went.
    pub code: ErrorCode,
    /// The generation that the member joined, any i32.
    pub generation: i32,
    /// The client's place among the members, any u16.
    pub place: u16,
    /// How many members there are, any u16.
    pub count: u16,
}

/// Answers a `Leave`.
#[derive(Clone, Copy, PartialEq, Eq)]
pub struct LeaveReply {
    /// Who asked.
    pub caller: Caller,
    /// How it went.
    pub code: ErrorCode,
}

/// Answers a `TxnOffsetCommit`.
#[derive(Clone, Copy, PartialEq, Eq)]
pub struct OffsetsReply {
    /// Who asked.
    pub caller: Caller,
    /// How it went.
    pub code: ErrorCode,
}

/// Answers an `OffsetFetch`.
#[derive(Clone, Copy, PartialEq, Eq)]
pub struct OffsetFetchReply {
    /// Who asked.
    pub caller: Caller,
    /// How it went.
    pub code: ErrorCode,
    /// The committed offset, any i64.
    pub offset: i64,
}
