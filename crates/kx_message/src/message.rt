//! The twenty messages that clients, the coordinator and the partitions send each other.
ghost use Rattle.std.specs.Prelude.{◌≡◌, ◌≤◌, MatchResult};
ghost use Rattle.kx_message.specs.Receiver.{receiver_of};
ghost use Rattle.kx_message.specs.declared.fault.ValueFault.{ValueFault};

use crate::fault::ValueFault;
use crate::replies::{
    AddReply, EndReply, FetchReply, InitReply, JoinReply, LeaveReply, MarkerReply,
    OffsetFetchReply, OffsetsReply, ProduceReply,
};
use crate::requests::{
    AddPartition, EndTxn, Fetch, InitProducerId, Join, Leave, OffsetFetch, Produce,
    TxnOffsetCommit, WriteMarker,
};
use crate::{ClientId, Epoch, PartitionId, ProducerId};
use std::marker::Model;

/// The id and the epoch that a producer holds (KIP-98).
#[derive(Clone, Copy, Debug, PartialEq, Eq)]
pub struct Held {
    /// The producer's id.
    pub id: ProducerId,
    /// The epoch of the id.
    pub epoch: Epoch,
}

/// What a transaction marker carries, and the answer to it repeats: the producer's id, and the
/// epoch of the transaction raised by one, so 1 to 32767 (KIP-890).
#[derive(Clone, Copy, Debug, PartialEq, Eq)]
pub struct Raised(Held);

impl Model for Raised {
    ghost use Rattle.std.specs.Prelude.{◌≤◌};
    ghost use Rattle.kx_message.specs.declared.message.Held.{Held};

    ghost Value = { Held };

    ghost view = { λ raised. raised.0 };

    ghost invariant = { λ raised. 1 ≤ raised.0.epoch };

    ghost inverse = { λ held. record { 0 = held } };
}

impl Raised {
    /// The id and the raised epoch.
    pub fn get(self) -> Held
        ensures value { result ≡ self }
        ensures within { 1 ≤ self.epoch }
    {
        self.0
    }
}

/// Takes an id and an epoch, and refuses the epoch 0 with `ValueFault::MarkerEpoch`.
impl TryFrom<Held> for Raised {
    type Error = ValueFault;

    ghost try_from_gives = { λ held r. MatchResult r
        (λ raised. (raised ≡ held) × (1 ≤ held.epoch))
        (λ fault. (held.epoch ≡ 0) × (fault ≡ ValueFault.MarkerEpoch)) };

    fn try_from(held: Held) -> Result<Self, ValueFault> {
        if held.epoch.get() == 0 {
            return Err(ValueFault::MarkerEpoch);
        }
        Ok(Raised(held))
    }
}

/// Where a message goes.
#[derive(Clone, Copy, Debug, PartialEq, Eq)]
pub enum NodeId {
    /// The coordinator of transactions.
    Coordinator,
    /// The server of a partition, the offsets partition among them.
    Partition(PartitionId),
    /// A client.
    Client(ClientId),
}

/// A message, in the order of their numbers in frames.
#[derive(PartialEq, Eq, Drop)]
pub enum Message {
    /// Asks the coordinator for a producer id and an epoch.
    InitProducerId(InitProducerId),
    /// Answers `InitProducerId`.
    InitReply(InitReply),
    /// Asks the coordinator to end a transaction.
    EndTxn(EndTxn),
    /// Answers `EndTxn`.
    EndReply(EndReply),
    /// Appends a record batch to a partition.
    Produce(Produce),
    /// Answers `Produce`, with the offset of the batch's first record.
    ProduceReply(ProduceReply),
    /// A partition asks the coordinator to enter it into a transaction.
    AddPartition(AddPartition),
    /// Answers `AddPartition`.
    AddReply(AddReply),
    /// The coordinator ends a transaction in a partition.
    WriteMarker(WriteMarker),
    /// Answers `WriteMarker`, with the marker's id and epoch.
    MarkerReply(MarkerReply),
    /// Reads records from an offset on.
    Fetch(Fetch),
    /// Answers `Fetch`, with record batches.
    FetchReply(FetchReply),
    /// Joins a consumer group.
    Join(Join),
    /// Answers `Join`, with the client's place among the group's members and their count.
    JoinReply(JoinReply),
    /// Leaves a consumer group.
    Leave(Leave),
    /// Answers `Leave`.
    LeaveReply(LeaveReply),
    /// Commits offsets of a consumer group within a transaction.
    TxnOffsetCommit(TxnOffsetCommit),
    /// Answers `TxnOffsetCommit`.
    OffsetsReply(OffsetsReply),
    /// Reads the offset that a consumer group committed for a partition.
    OffsetFetch(OffsetFetch),
    /// Answers `OffsetFetch`.
    OffsetFetchReply(OffsetFetchReply),
}

impl Message {
    /// Where the message goes: a request to the coordinator, to the partition that it names or to
    /// the offsets partition, a reply to its client or to the coordinator.
    pub fn receiver(&self) -> NodeId
        ensures { result ≡ receiver_of self.now }
    {
        match self {
            Message::InitProducerId(_)
            | Message::EndTxn(_)
            | Message::AddPartition(_)
            | Message::MarkerReply(_) => NodeId::Coordinator,
            Message::Produce(produce) => NodeId::Partition(produce.partition),
            Message::WriteMarker(marker) => NodeId::Partition(marker.partition),
            Message::AddReply(reply) => NodeId::Partition(reply.partition),
            Message::Fetch(fetch) => NodeId::Partition(fetch.partition),
            Message::Join(_)
            | Message::Leave(_)
            | Message::TxnOffsetCommit(_)
            | Message::OffsetFetch(_) => NodeId::Partition(PartitionId::OFFSETS),
            Message::InitReply(reply) => NodeId::Client(reply.caller.client),
            Message::EndReply(reply) => NodeId::Client(reply.caller.client),
            Message::ProduceReply(reply) => NodeId::Client(reply.caller.client),
            Message::FetchReply(reply) => NodeId::Client(reply.caller.client),
            Message::JoinReply(reply) => NodeId::Client(reply.caller.client),
            Message::LeaveReply(reply) => NodeId::Client(reply.caller.client),
            Message::OffsetsReply(reply) => NodeId::Client(reply.caller.client),
            Message::OffsetFetchReply(reply) => NodeId::Client(reply.caller.client),
        }
    }
}
