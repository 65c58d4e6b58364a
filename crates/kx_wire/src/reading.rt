//! Reading a message, kind by kind, from the fields of its frame.
ghost use Rattle.std.specs.Prelude.{◌≡◌, true, None, Some, MatchOption, MatchResult, IfOk};
ghost use Rattle.std.specs.Prelude.{length, IfErr};
ghost use Rattle.kx_message.specs.Reader.{repeated, whole};
ghost use Rattle.kx_wire.specs.Reading.{init_producer_id_at, init_reply_at, end_txn_at};
ghost use Rattle.kx_wire.specs.Reading.{end_reply_at, produce_at, produce_reply_at};
ghost use Rattle.kx_wire.specs.Reading.{add_partition_at, add_reply_at, write_marker_at};
ghost use Rattle.kx_wire.specs.Reading.{marker_reply_at, fetch_at, fetch_reply_at, join_at};
ghost use Rattle.kx_wire.specs.Reading.{join_reply_at, leave_at, leave_reply_at};
ghost use Rattle.kx_wire.specs.Reading.{txn_offset_commit_at, offsets_reply_at, offset_fetch_at};
ghost use Rattle.kx_wire.specs.Reading.{offset_fetch_reply_at, offset_at, aborted_txn_at};
ghost use Rattle.kx_wire.specs.Reading.{offsets_at, aborted_at, fields_at, is_kind, IsSmall};
ghost use Rattle.kx_wire.specs.Gives.{Refuses};
ghost use Rattle.kx_wire.specs.Growing.{IsCarrier};
ghost use Rattle.kx_wire.specs.declared.fault.FrameFault.{FrameFault};

use crate::fault::FrameFault;
use crate::fields::Fields;
use kx_message::{
    AbortedTxns, AddPartition, AddReply, Bytes, EndReply, EndTxn, Fetch, FetchReply,
    InitProducerId, InitReply, Join, JoinReply, Leave, LeaveReply, MarkerReply, Message,
    OffsetFetch, OffsetFetchReply, Offsets, OffsetsReply, PartitionOffset, Produce, ProduceReply,
    TxnOffsetCommit, WriteMarker,
};
use std::alloc::Global;

#[tactic(auto, unfolding(crate::specs::Reading::init_producer_id_at))]
fn init_producer_id(fields: &mut Fields) -> Option<Message>
    ensures { MatchOption result (init_producer_id_at fields.old.rest.now ≡ None)
        (λ x. init_producer_id_at fields.old.rest.now ≡ Some (x, fields.new.rest.now)) }
{
    let caller = fields.caller()?;
    let txn = fields.optional_txn()?;
    let timeout = fields.timeout()?;
    Some(Message::InitProducerId(InitProducerId {
        caller,
        txn,
        timeout,
    }))
}

#[tactic(auto, unfolding(crate::specs::Reading::init_reply_at))]
fn init_reply(fields: &mut Fields) -> Option<Message>
    ensures { MatchOption result (init_reply_at fields.old.rest.now ≡ None)
        (λ x. init_reply_at fields.old.rest.now ≡ Some (x, fields.new.rest.now)) }
{
    let caller = fields.caller()?;
    let code = fields.code()?;
    let held = fields.optional_held()?;
    Some(Message::InitReply(InitReply { caller, code, held }))
}

#[tactic(auto, unfolding(crate::specs::Reading::end_txn_at))]
fn end_txn(fields: &mut Fields) -> Option<Message>
    ensures { MatchOption result (end_txn_at fields.old.rest.now ≡ None)
        (λ x. end_txn_at fields.old.rest.now ≡ Some (x, fields.new.rest.now)) }
{
    let caller = fields.caller()?;
    let txn = fields.txn()?;
    let held = fields.held()?;
    let outcome = fields.outcome()?;
    Some(Message::EndTxn(EndTxn {
        caller,
        txn,
        held,
        outcome,
    }))
}

#[tactic(auto, unfolding(crate::specs::Reading::end_reply_at))]
fn end_reply(fields: &mut Fields) -> Option<Message>
    ensures { MatchOption result (end_reply_at fields.old.rest.now ≡ None)
        (λ x. end_reply_at fields.old.rest.now ≡ Some (x, fields.new.rest.now)) }
{
    let caller = fields.caller()?;
    let code = fields.code()?;
    let held = fields.optional_held()?;
    Some(Message::EndReply(EndReply { caller, code, held }))
}

#[tactic(auto, unfolding(crate::specs::Reading::produce_reply_at))]
fn produce_reply(fields: &mut Fields) -> Option<Message>
    ensures { MatchOption result (produce_reply_at fields.old.rest.now ≡ None)
        (λ x. produce_reply_at fields.old.rest.now ≡ Some (x, fields.new.rest.now)) }
{
    let caller = fields.caller()?;
    let partition = fields.partition()?;
    let code = fields.code()?;
    let offset = fields.i64()?;
    Some(Message::ProduceReply(ProduceReply {
        caller,
        partition,
        code,
        offset,
    }))
}

#[tactic(auto, unfolding(crate::specs::Reading::add_partition_at))]
fn add_partition(fields: &mut Fields) -> Option<Message>
    ensures { MatchOption result (add_partition_at fields.old.rest.now ≡ None)
        (λ x. add_partition_at fields.old.rest.now ≡ Some (x, fields.new.rest.now)) }
{
    let txn = fields.txn()?;
    let held = fields.held()?;
    let partition = fields.partition()?;
    Some(Message::AddPartition(AddPartition {
        txn,
        held,
        partition,
    }))
}

#[tactic(auto, unfolding(crate::specs::Reading::add_reply_at))]
fn add_reply(fields: &mut Fields) -> Option<Message>
    ensures { MatchOption result (add_reply_at fields.old.rest.now ≡ None)
        (λ x. add_reply_at fields.old.rest.now ≡ Some (x, fields.new.rest.now)) }
{
    let partition = fields.partition()?;
    let txn = fields.txn()?;
    let held = fields.held()?;
    let code = fields.code()?;
    Some(Message::AddReply(AddReply {
        partition,
        txn,
        held,
        code,
    }))
}

#[tactic(auto, unfolding(crate::specs::Reading::write_marker_at))]
fn write_marker(fields: &mut Fields) -> Option<Message>
    ensures { MatchOption result (write_marker_at fields.old.rest.now ≡ None)
        (λ x. write_marker_at fields.old.rest.now ≡ Some (x, fields.new.rest.now)) }
{
    let partition = fields.partition()?;
    let txn = fields.txn()?;
    let held = fields.marker()?;
    let coordinator_epoch = fields.i32()?;
    let outcome = fields.outcome()?;
    Some(Message::WriteMarker(WriteMarker {
        partition,
        txn,
        held,
        coordinator_epoch,
        outcome,
    }))
}

#[tactic(auto, unfolding(crate::specs::Reading::marker_reply_at))]
fn marker_reply(fields: &mut Fields) -> Option<Message>
    ensures { MatchOption result (marker_reply_at fields.old.rest.now ≡ None)
        (λ x. marker_reply_at fields.old.rest.now ≡ Some (x, fields.new.rest.now)) }
{
    let partition = fields.partition()?;
    let txn = fields.txn()?;
    let held = fields.marker()?;
    let code = fields.code()?;
    Some(Message::MarkerReply(MarkerReply {
        partition,
        txn,
        held,
        code,
    }))
}

#[tactic(auto, unfolding(crate::specs::Reading::fetch_at))]
fn fetch(fields: &mut Fields) -> Option<Message>
    ensures { MatchOption result (fetch_at fields.old.rest.now ≡ None)
        (λ x. fetch_at fields.old.rest.now ≡ Some (x, fields.new.rest.now)) }
{
    let caller = fields.caller()?;
    let partition = fields.partition()?;
    let from = fields.i64()?;
    let max = fields.u32()?;
    let committed = fields.flag()?;
    Some(Message::Fetch(Fetch {
        caller,
        partition,
        from,
        max,
        committed,
    }))
}

#[tactic(auto, unfolding(crate::specs::Reading::join_at))]
fn join(fields: &mut Fields) -> Option<Message>
    ensures { MatchOption result (join_at fields.old.rest.now ≡ None)
        (λ x. join_at fields.old.rest.now ≡ Some (x, fields.new.rest.now)) }
{
    let caller = fields.caller()?;
    let group = fields.group()?;
    Some(Message::Join(Join { caller, group }))
}

#[tactic(auto, unfolding(crate::specs::Reading::join_reply_at))]
fn join_reply(fields: &mut Fields) -> Option<Message>
    ensures { MatchOption result (join_reply_at fields.old.rest.now ≡ None)
        (λ x. join_reply_at fields.old.rest.now ≡ Some (x, fields.new.rest.now)) }
{
    let caller = fields.caller()?;
    let code = fields.code()?;
    let generation = fields.i32()?;
    let place = fields.u16()?;
    let count = fields.u16()?;
    Some(Message::JoinReply(JoinReply {
        caller,
        code,
        generation,
        place,
        count,
    }))
}

#[tactic(auto, unfolding(crate::specs::Reading::leave_at))]
fn leave(fields: &mut Fields) -> Option<Message>
    ensures { MatchOption result (leave_at fields.old.rest.now ≡ None)
        (λ x. leave_at fields.old.rest.now ≡ Some (x, fields.new.rest.now)) }
{
    let caller = fields.caller()?;
    let group = fields.group()?;
    Some(Message::Leave(Leave { caller, group }))
}

#[tactic(auto, unfolding(crate::specs::Reading::leave_reply_at))]
fn leave_reply(fields: &mut Fields) -> Option<Message>
    ensures { MatchOption result (leave_reply_at fields.old.rest.now ≡ None)
        (λ x. leave_reply_at fields.old.rest.now ≡ Some (x, fields.new.rest.now)) }
{
    let caller = fields.caller()?;
    let code = fields.code()?;
    Some(Message::LeaveReply(LeaveReply { caller, code }))
}

#[tactic(auto, unfolding(crate::specs::Reading::offsets_reply_at))]
fn offsets_reply(fields: &mut Fields) -> Option<Message>
    ensures { MatchOption result (offsets_reply_at fields.old.rest.now ≡ None)
        (λ x. offsets_reply_at fields.old.rest.now ≡ Some (x, fields.new.rest.now)) }
{
    let caller = fields.caller()?;
    let code = fields.code()?;
    Some(Message::OffsetsReply(OffsetsReply { caller, code }))
}

#[tactic(auto, unfolding(crate::specs::Reading::offset_fetch_at))]
fn offset_fetch(fields: &mut Fields) -> Option<Message>
    ensures { MatchOption result (offset_fetch_at fields.old.rest.now ≡ None)
        (λ x. offset_fetch_at fields.old.rest.now ≡ Some (x, fields.new.rest.now)) }
{
    let caller = fields.caller()?;
    let group = fields.group()?;
    let partition = fields.partition()?;
    let stable = fields.flag()?;
    Some(Message::OffsetFetch(OffsetFetch {
        caller,
        group,
        partition,
        stable,
    }))
}

#[tactic(auto, unfolding(crate::specs::Reading::offset_fetch_reply_at))]
fn offset_fetch_reply(fields: &mut Fields) -> Option<Message>
    ensures { MatchOption result (offset_fetch_reply_at fields.old.rest.now ≡ None)
        (λ x. offset_fetch_reply_at fields.old.rest.now ≡ Some (x, fields.new.rest.now)) }
{
    let caller = fields.caller()?;
    let code = fields.code()?;
    let offset = fields.i64()?;
    Some(Message::OffsetFetchReply(OffsetFetchReply {
        caller,
        code,
        offset,
    }))
}

#[tactic(auto, unfolding(crate::specs::Reading::produce_at))]
fn produce(alloc: Global, fields: &mut Fields) -> Result<Message, FrameFault>
    ensures { MatchResult result
        (λ x. produce_at fields.old.rest.now ≡ Some (x, fields.new.rest.now))
        (λ fault. Refuses fault (produce_at fields.old.rest.now)) }
{
    let caller = fields.caller().ok_or(FrameFault::Field)?;
    let txn = fields.optional_txn().ok_or(FrameFault::Field)?;
    let partition = fields.partition().ok_or(FrameFault::Field)?;
    let batch = fields.bytes().ok_or(FrameFault::Field)?;
    let batch = Vec::from_slice(alloc, batch)?;
    Ok(Message::Produce(Produce {
        caller,
        txn,
        partition,
        batch: Bytes::from_vec(batch),
    }))
}

fn aborted_txns(alloc: Global, count: u32, fields: &mut Fields) -> Result<AbortedTxns, FrameFault>
    ensures { MatchResult result
        (λ x. repeated aborted_txn_at count fields.old.rest.now ≡ Some (x, fields.new.rest.now))
        (λ fault. Refuses fault (repeated aborted_txn_at count fields.old.rest.now)) }
{
    let mut aborted = Vec::new(alloc);
    for _ in 0..count {
        let Some(txn) = fields.aborted_txn() else {
            return Err(FrameFault::Field);
        };
        let Ok(()) = aborted.push(txn) else {
            return Err(FrameFault::Memory);
        };
    }
    Ok(AbortedTxns::from_vec(aborted))
}

fn partition_offsets(
    alloc: Global,
    count: u16,
    fields: &mut Fields,
) -> Result<Vec<PartitionOffset>, FrameFault>
    ensures read { MatchResult result
        (λ x. repeated offset_at count fields.old.rest.now ≡ Some (x.items, fields.new.rest.now))
        (λ fault. Refuses fault (repeated offset_at count fields.old.rest.now)) }
    ensures count { IfOk result (λ x. length x.items ≡ count) }
{
    let mut offsets = Vec::new(alloc);
    for _ in 0..count {
        let Some(offset) = fields.offset() else {
            return Err(FrameFault::Field);
        };
        let Ok(()) = offsets.push(offset) else {
            return Err(FrameFault::Memory);
        };
    }
    Ok(offsets)
}

#[tactic(auto, unfolding(crate::specs::Reading::aborted_at))]
fn aborted(alloc: Global, fields: &mut Fields) -> Result<AbortedTxns, FrameFault>
    ensures { MatchResult result
        (λ x. aborted_at fields.old.rest.now ≡ Some (x, fields.new.rest.now))
        (λ fault. Refuses fault (aborted_at fields.old.rest.now)) }
{
    let count = fields.u32().ok_or(FrameFault::Field)?;
    aborted_txns(alloc, count, fields)
}

#[tactic(auto, unfolding(crate::specs::Reading::offsets_at))]
fn offsets(alloc: Global, fields: &mut Fields) -> Result<Offsets, FrameFault>
    ensures { MatchResult result
        (λ x. offsets_at fields.old.rest.now ≡ Some (x, fields.new.rest.now))
        (λ fault. Refuses fault (offsets_at fields.old.rest.now)) }
{
    let count = fields.offset_count().ok_or(FrameFault::Field)?;
    let offsets = partition_offsets(alloc, count, fields)?;
    Ok(Offsets::from_vec(offsets))
}

#[tactic(auto, unfolding(crate::specs::Reading::fetch_reply_at))]
fn fetch_reply(alloc: Global, fields: &mut Fields) -> Result<Message, FrameFault>
    ensures { MatchResult result
        (λ x. fetch_reply_at fields.old.rest.now ≡ Some (x, fields.new.rest.now))
        (λ fault. Refuses fault (fetch_reply_at fields.old.rest.now)) }
{
    let caller = fields.caller().ok_or(FrameFault::Field)?;
    let partition = fields.partition().ok_or(FrameFault::Field)?;
    let code = fields.code().ok_or(FrameFault::Field)?;
    let next = fields.i64().ok_or(FrameFault::Field)?;
    let lso = fields.i64().ok_or(FrameFault::Field)?;
    let end = fields.i64().ok_or(FrameFault::Field)?;
    let aborted = aborted(alloc, fields)?;
    let batches = fields.bytes().ok_or(FrameFault::Field)?;
    let batches = Vec::from_slice(alloc, batches)?;
    Ok(Message::FetchReply(FetchReply {
        caller,
        partition,
        code,
        next,
        lso,
        end,
        aborted,
        batches: Bytes::from_vec(batches),
    }))
}

#[tactic(auto, unfolding(crate::specs::Reading::txn_offset_commit_at))]
fn txn_offset_commit(alloc: Global, fields: &mut Fields) -> Result<Message, FrameFault>
    ensures { MatchResult result
        (λ x. txn_offset_commit_at fields.old.rest.now ≡ Some (x, fields.new.rest.now))
        (λ fault. Refuses fault (txn_offset_commit_at fields.old.rest.now)) }
{
    let caller = fields.caller().ok_or(FrameFault::Field)?;
    let txn = fields.txn().ok_or(FrameFault::Field)?;
    let group = fields.group().ok_or(FrameFault::Field)?;
    let member = fields.u32().ok_or(FrameFault::Field)?;
    let generation = fields.i32().ok_or(FrameFault::Field)?;
    let held = fields.held().ok_or(FrameFault::Field)?;
    let first_sequence = fields.i32().ok_or(FrameFault::Field)?;
    let offsets = offsets(alloc, fields)?;
    Ok(Message::TxnOffsetCommit(TxnOffsetCommit {
        caller,
        txn,
        group,
        member,
        generation,
        held,
        first_sequence,
        offsets,
    }))
}

/// Whether there is a kind of message with this number.
pub(crate) fn is_kind(kind: u8) -> bool
    ensures { result ≡ is_kind kind }
{
    0 < kind && kind <= 20
}

// A message that takes no memory.
#[tactic(auto, unfolding(crate::specs::Reading::fields_at))]
fn small_message(kind: u8, fields: &mut Fields) -> Option<Message>
    requires small { IsSmall kind }
    ensures { MatchOption result (fields_at kind fields.old.rest.now ≡ None)
        (λ x. fields_at kind fields.old.rest.now ≡ Some (x, fields.new.rest.now)) }
{
    match kind {
        1 => init_producer_id(fields),
        2 => init_reply(fields),
        3 => end_txn(fields),
        4 => end_reply(fields),
        6 => produce_reply(fields),
        7 => add_partition(fields),
        8 => add_reply(fields),
        9 => write_marker(fields),
        10 => marker_reply(fields),
        11 => fetch(fields),
        13 => join(fields),
        14 => join_reply(fields),
        15 => leave(fields),
        16 => leave_reply(fields),
        18 => offsets_reply(fields),
        19 => offset_fetch(fields),
        _ => offset_fetch_reply(fields),
    }
}

fn message_of(alloc: Global, kind: u8, fields: &mut Fields) -> Result<Message, FrameFault>
    requires { is_kind kind ≡ true }
    ensures read { MatchResult result
        (λ x. fields_at kind fields.old.rest.now ≡ Some (x, fields.new.rest.now))
        (λ fault. Refuses fault (fields_at kind fields.old.rest.now)) }
    ensures memory { IfErr result (λ fault. fault ≡ FrameFault.Memory → IsCarrier kind) }
{
    match kind {
        5 => produce(alloc, fields),
        12 => fetch_reply(alloc, fields),
        17 => txn_offset_commit(alloc, fields),
        _ => small_message(kind, fields).ok_or(FrameFault::Field),
    }
}

/// The message of a kind whose fields are these bytes, all of them.
pub(crate) fn read_message(alloc: Global, kind: u8, fields: &[u8]) -> Result<Message, FrameFault>
    requires { is_kind kind ≡ true }
    ensures read { MatchResult result (λ x. whole (fields_at kind fields.now) ≡ Some x)
        (λ fault. Refuses fault (whole (fields_at kind fields.now))) }
    ensures memory { IfErr result (λ fault. fault ≡ FrameFault.Memory → IsCarrier kind) }
{
    let mut left = Fields::new(fields);
    let message = message_of(alloc, kind, &mut left)?;
    if !left.is_empty() {
        return Err(FrameFault::Field);
    }
    Ok(message)
}
