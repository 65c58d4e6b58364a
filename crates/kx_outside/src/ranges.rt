//! Requests hold numbers and names within their ranges, as their types see to. What is here
//! changes nothing when it runs.
ghost use Rattle.std.specs.Prelude.{◌<◌, IfSome, length};
ghost use Rattle.std.specs.Int.{w32, w64};
ghost use Rattle.std.specs.Int.RustNames.{FitsSigned};
ghost use Rattle.kx_message.specs.Message.{AreOffsets, IsCaller, IsHeld, IsMessage, IsOffset};
ghost use Rattle.kx_message.specs.Message.{IsU32};
ghost use Rattle.kx_message.specs.Ranges.{IsName, IsPartition};
ghost use Rattle.kx_message.specs.declared.message.Message.TheVariants as msg;
ghost use Rattle.kx_outside.specs.Requests.{CanArrive, IsRequest};

use kx_message::{
    Caller, EndTxn, Fetch, GroupId, Held, InitProducerId, Join, Leave, Message, OffsetFetch,
    Offsets, PartitionId, PartitionOffset, Produce, TxnId, TxnOffsetCommit,
};

fn number_fits(number: u32)
    ensures { IsU32 number }
{}

fn int_fits(number: i32)
    ensures { FitsSigned w32 number }
{}

fn long_fits(number: i64)
    ensures { FitsSigned w64 number }
{}

fn caller_fits(caller: Caller)
    ensures { IsCaller caller }
{
    number_fits(caller.client.get());
    number_fits(caller.correlation);
}

// Each of these calls ensures that what it is called on is in its range.

fn partition_fits(partition: PartitionId)
    ensures { IsPartition partition }
{
    let _partition = partition.get();
}

fn txn_fits(txn: TxnId)
    ensures { IsName txn }
{
    let _txn = txn.as_bytes();
}

fn group_fits(group: GroupId)
    ensures { IsName group }
{
    let _group = group.as_bytes();
}

fn held_fits(held: Held)
    ensures { IsHeld held }
{
    let _id = held.id.get();
    let _epoch = held.epoch.get();
}

fn optional_fits(txn: Option<TxnId>)
    ensures { IfSome txn IsName }
{
    if let Some(txn) = txn {
        txn_fits(txn);
    }
}

fn offset_fits(offset: PartitionOffset)
    ensures { IsOffset offset }
{
    partition_fits(offset.partition);
    long_fits(offset.offset);
}

fn offsets_fit(offsets: &Offsets)
    ensures { AreOffsets offsets.now }
{
    let items = offsets.as_slice();
    for offset in items {
        offset_fits(*offset);
    }
}

fn init_fits(init: &InitProducerId)
    ensures { IsMessage (msg.InitProducerId init.now) }
{
    caller_fits(init.caller);
    optional_fits(init.txn);
    let _timeout = init.timeout.get();
}

fn end_fits(end: &EndTxn)
    ensures { IsMessage (msg.EndTxn end.now) }
{
    caller_fits(end.caller);
    txn_fits(end.txn);
    held_fits(end.held);
}

fn produce_fits(produce: &Produce)
    requires { length produce.now.batch < 2097152 }
    ensures { IsMessage (msg.Produce produce.now) }
{
    caller_fits(produce.caller);
    optional_fits(produce.txn);
    partition_fits(produce.partition);
}

fn fetch_fits(fetch: &Fetch)
    ensures { IsMessage (msg.Fetch fetch.now) }
{
    caller_fits(fetch.caller);
    partition_fits(fetch.partition);
    long_fits(fetch.from);
    number_fits(fetch.max);
}

fn join_fits(join: &Join)
    ensures { IsMessage (msg.Join join.now) }
{
    caller_fits(join.caller);
    group_fits(join.group);
}

fn leave_fits(leave: &Leave)
    ensures { IsMessage (msg.Leave leave.now) }
{
    caller_fits(leave.caller);
    group_fits(leave.group);
}

fn commit_fits(commit: &TxnOffsetCommit)
    ensures { IsMessage (msg.TxnOffsetCommit commit.now) }
{
    caller_fits(commit.caller);
    txn_fits(commit.txn);
    group_fits(commit.group);
    number_fits(commit.member);
    int_fits(commit.generation);
    held_fits(commit.held);
    int_fits(commit.first_sequence);
    offsets_fit(&commit.offsets);
}

fn offset_fetch_fits(fetch: &OffsetFetch)
    ensures { IsMessage (msg.OffsetFetch fetch.now) }
{
    caller_fits(fetch.caller);
    group_fits(fetch.group);
    partition_fits(fetch.partition);
}

/// What can arrive from outside is a request with each of its fields in its range. This does
/// nothing when it runs.
pub fn request_fits(message: &Message)
    requires { CanArrive message.now }
    ensures { IsRequest message.now }
{
    fields_fit(message);
}

// Each field of what can arrive is in its range.
fn fields_fit(message: &Message)
    requires { CanArrive message.now }
    ensures { IsMessage message.now }
{
    match message {
        Message::InitProducerId(init) => init_fits(init),
        Message::EndTxn(end) => end_fits(end),
        Message::Produce(produce) => produce_fits(produce),
        Message::Fetch(fetch) => fetch_fits(fetch),
        Message::Join(join) => join_fits(join),
        Message::Leave(leave) => leave_fits(leave),
        Message::TxnOffsetCommit(commit) => commit_fits(commit),
        Message::OffsetFetch(fetch) => offset_fetch_fits(fetch),
        // No client may send any other.
        _ => {}
    }
}
