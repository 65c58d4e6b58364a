//! What clients and partitions ask, each request with the fields that its frame spells, in the
//! frame's order.
use crate::payload::{Bytes, Offsets};
use crate::{ClientId, GroupId, Held, Outcome, PartitionId, Raised, Timeout, TxnId};

/// Who asks, and the number of the request, which the reply repeats.
#[derive(Clone, Copy, PartialEq, Eq)]
pub struct Caller {
    /// The client.
    pub client: ClientId,
    /// The number that the client gave its request, any u32.
    pub correlation: u32,
}

/// Asks the coordinator for a producer id and an epoch (KIP-98).
#[derive(Clone, Copy, PartialEq, Eq)]
pub struct InitProducerId {
    /// Who asks.
    pub caller: Caller,
    /// The transactional id, none for a producer that is idempotent alone.
    pub txn: Option<TxnId>,
    /// How long a transaction may stay open.
    pub timeout: Timeout,
}

/// Asks the coordinator to end a transaction (KIP-98).
#[derive(Clone, Copy, PartialEq, Eq)]
pub struct EndTxn {
    /// Who asks.
    pub caller: Caller,
    /// The transactional id.
    pub txn: TxnId,
    /// The id and the epoch that the producer holds.
    pub held: Held,
    /// How the transaction is to end.
    pub outcome: Outcome,
}

/// Appends a record batch to a partition.
#[derive(Clone, PartialEq, Eq, Drop)]
pub struct Produce {
    /// Who asks.
    pub caller: Caller,
    /// The transactional id, none outside of transactions.
    pub txn: Option<TxnId>,
    /// The partition.
    pub partition: PartitionId,
    /// The batch as it came.
    pub batch: Bytes,
}

/// A partition asks the coordinator to enter it into a transaction (KIP-890).
#[derive(Clone, Copy, PartialEq, Eq)]
pub struct AddPartition {
    /// The transactional id.
    pub txn: TxnId,
    /// The id and the epoch of the batch that waits at the partition.
    pub held: Held,
    /// The partition.
    pub partition: PartitionId,
}

/// The coordinator ends a transaction in a partition (KIP-98's WriteTxnMarkers).
#[derive(Clone, Copy, PartialEq, Eq)]
pub struct WriteMarker {
    /// The partition.
    pub partition: PartitionId,
    /// The transactional id.
    pub txn: TxnId,
    /// The id and the epoch that the marker carries.
    pub held: Raised,
    /// The epoch of the coordinator that writes, any i32.
    pub coordinator_epoch: i32,
    /// How the transaction ended.
    pub outcome: Outcome,
}

/// Reads records of a partition.
#[derive(Clone, Copy, PartialEq, Eq)]
pub struct Fetch {
    /// Who asks.
    pub caller: Caller,
    /// The partition.
    pub partition: PartitionId,
    /// The offset to read from, any i64.
    pub from: i64,
    /// How many bytes of batches are wanted at most.
    pub max: u32,
    /// Whether records of committed transactions alone are wanted (the isolation level).
    pub committed: bool,
}

/// Joins a consumer group.
#[derive(Clone, Copy, PartialEq, Eq)]
pub struct Join {
    /// Who asks.
    pub caller: Caller,
    /// The group.
    pub group: GroupId,
}

/// Leaves a consumer group.
#[derive(Clone, Copy, PartialEq, Eq)]
pub struct Leave {
    /// Who asks.
    pub caller: Caller,
    /// The group.
    pub group: GroupId,
}

/// Commits offsets of a consumer group within a transaction (KIP-447).
#[derive(Clone, PartialEq, Eq, Drop)]
pub struct TxnOffsetCommit {
    /// Who asks.
    pub caller: Caller,
    /// The transactional id.
    pub txn: TxnId,
    /// The group.
    pub group: GroupId,
    /// The member of the group, any u32.
    pub member: u32,
    /// The generation that the member knows, any i32.
    pub generation: i32,
    /// The id and the epoch that the producer holds.
    pub held: Held,
    /// The sequence of the first offset, any i32.
    pub first_sequence: i32,
    /// The offsets.
    pub offsets: Offsets,
}

/// Reads the offset that a consumer group committed for a partition.
#[derive(Clone, Copy, PartialEq, Eq)]
pub struct OffsetFetch {
    /// Who asks.
    pub caller: Caller,
    /// The group.
    pub group: GroupId,
    /// The partition.
    pub partition: PartitionId,
    /// Whether offsets of open transactions are to be waited for.
    pub stable: bool,
}
