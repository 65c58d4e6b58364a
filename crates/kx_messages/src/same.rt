//! Whether two messages are the same. The standard library promises of `==` that it is an
//! equivalence; these promise that it is equality.
ghost use Rattle.std.specs.Prelude.{◌≡◌};
ghost use Rattle.std.specs.Bool.{Decides};

use kx_message::{
    AbortedTxns, AddReply, FetchReply, MarkerReply, Message, Offsets, TxnOffsetCommit,
};

/// Whether both are the same offsets of partitions, in the same order.
pub fn same_offsets(a: &Offsets, b: &Offsets) -> bool
    ensures { Decides result (a.now ≡ b.now) }
{
    a == b
}

fn same_aborted(a: &AbortedTxns, b: &AbortedTxns) -> bool
    ensures { Decides result (a.now ≡ b.now) }
{
    a == b
}

fn same_fetch_reply(a: &FetchReply, b: &FetchReply) -> bool
    ensures { Decides result (a.now ≡ b.now) }
{
    a.caller == b.caller
        && a.partition == b.partition
        && a.code == b.code
        && a.next == b.next
        && a.lso == b.lso
        && a.end == b.end
        && same_aborted(&a.aborted, &b.aborted)
        && a.batches == b.batches
}

fn same_commit(a: &TxnOffsetCommit, b: &TxnOffsetCommit) -> bool
    ensures { Decides result (a.now ≡ b.now) }
{
    a.caller == b.caller
        && a.txn == b.txn
        && a.group == b.group
        && a.member == b.member
        && a.generation == b.generation
        && a.held == b.held
        && a.first_sequence == b.first_sequence
        && same_offsets(&a.offsets, &b.offsets)
}

fn same_add_reply(a: &AddReply, b: &AddReply) -> bool
    ensures { Decides result (a.now ≡ b.now) }
{
    a.partition == b.partition && a.txn == b.txn && a.held == b.held && a.code == b.code
}

fn same_marker_reply(a: &MarkerReply, b: &MarkerReply) -> bool
    ensures { Decides result (a.now ≡ b.now) }
{
    a.partition == b.partition && a.txn == b.txn && a.held == b.held && a.code == b.code
}

/// Whether both are the same message.
pub fn same_message(a: &Message, b: &Message) -> bool
    ensures { Decides result (a.now ≡ b.now) }
{
    match (a, b) {
        (Message::InitProducerId(a), Message::InitProducerId(b)) => a == b,
        (Message::InitReply(a), Message::InitReply(b)) => a == b,
        (Message::EndTxn(a), Message::EndTxn(b)) => a == b,
        (Message::EndReply(a), Message::EndReply(b)) => a == b,
        (Message::Produce(a), Message::Produce(b)) => a == b,
        (Message::ProduceReply(a), Message::ProduceReply(b)) => a == b,
        (Message::AddPartition(a), Message::AddPartition(b)) => a == b,
        (Message::AddReply(a), Message::AddReply(b)) => same_add_reply(a, b),
        (Message::WriteMarker(a), Message::WriteMarker(b)) => a == b,
        (Message::MarkerReply(a), Message::MarkerReply(b)) => same_marker_reply(a, b),
        (Message::Fetch(a), Message::Fetch(b)) => a == b,
        (Message::FetchReply(a), Message::FetchReply(b)) => same_fetch_reply(a, b),
        (Message::Join(a), Message::Join(b)) => a == b,
        (Message::JoinReply(a), Message::JoinReply(b)) => a == b,
        (Message::Leave(a), Message::Leave(b)) => a == b,
        (Message::LeaveReply(a), Message::LeaveReply(b)) => a == b,
        (Message::TxnOffsetCommit(a), Message::TxnOffsetCommit(b)) => same_commit(a, b),
        (Message::OffsetsReply(a), Message::OffsetsReply(b)) => a == b,
        (Message::OffsetFetch(a), Message::OffsetFetch(b)) => a == b,
        (Message::OffsetFetchReply(a), Message::OffsetFetchReply(b)) => a == b,
        _ => false,
    }
}
