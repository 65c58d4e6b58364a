//! A coordinator in memory that serves many transactional ids.
ghost use Rattle.std.specs.Prelude.{◌≤ℤ◌, negsuc};

use kx_coord::Coordinator;
use kx_log::MemStore;
use kx_message::{
    AddPartition, Caller, ClientId, EndTxn, ErrorCode, Held, InitProducerId, MarkerReply, Message,
    Outcome, PartitionId, Raised, Timeout, TxnId,
};
use std::alloc::Global;

// The client and the partition of all transactions.
const CLIENT: u32 = 1;

const PARTITION: u16 = 0;

// Longer than the benchmark takes, in milliseconds.
const TIMEOUT: u32 = 900_000;

// The one who asks; nothing here looks at the number of a request.
fn caller() -> Caller {
    Caller {
        client: ClientId::from(CLIENT),
        correlation: 0,
    }
}

fn empty(alloc: Global) -> Option<Coordinator<MemStore>> {
    let store = MemStore::new(Vec::new(alloc));
    let (coordinator, _) = Coordinator::open(alloc, store, 0).ok()?;
    Some(coordinator)
}

// How many messages are sent, if the first is a reply of code 0.
fn count_of(messages: &[Message]) -> Option<i64> {
    let code = match messages.first()? {
        Message::InitReply(reply) => reply.code,
        Message::AddReply(reply) => reply.code,
        Message::EndReply(reply) => reply.code,
        _ => return None,
    };
    if code != ErrorCode::NoError {
        return None;
    }
    i64::try_from(messages.len()).ok()
}

// The transactional id of this number.
fn txn_of(alloc: Global, number: u64) -> Option<TxnId> {
    let name = format!(in alloc; "txn-{number}").ok()?;
    name.parse::<TxnId>().ok()
}

// The partition is added to the transaction of an id and epoch.
fn begins(coordinator: &mut Coordinator<MemStore>, txn: TxnId, held: Held) -> Option<i64> {
    let partition = PartitionId::try_from(PARTITION).ok()?;
    let request = AddPartition {
        txn,
        held,
        partition,
    };
    let messages = coordinator.add_partition(request).ok()?;
    count_of(messages.as_slice())
}

// A transactional id is used first, and its first transaction begins.
fn first_used(alloc: Global, coordinator: &mut Coordinator<MemStore>, number: u64) -> Option<i64> {
    let txn = txn_of(alloc, number)?;
    let request = InitProducerId {
        caller: caller(),
        txn: Some(txn),
        timeout: Timeout::try_from(TIMEOUT).ok()?,
    };
    let messages = coordinator.init(request).ok()?;
    let count = count_of(messages.as_slice())?;
    let held = held_of(coordinator, number)?;
    count.checked_add(begins(coordinator, txn, held)?)
}

// The id and epoch of the row of this place.
fn held_of(coordinator: &Coordinator<MemStore>, place: u64) -> Option<Held> {
    let row = coordinator.rows().get(usize::try_from(place).ok()?)?;
    Some(Held {
        id: row.id,
        epoch: row.epoch,
    })
}

fn next_epoch(held: Held) -> Option<Held> {
    let epoch = held.epoch.raised()?;
    Some(Held { id: held.id, epoch })
}

// The transaction of an id is committed, its marker is answered, and the next one begins.
fn turn(alloc: Global, coordinator: &mut Coordinator<MemStore>, number: u64) -> Option<i64> {
    let txn = txn_of(alloc, number)?;
    let held = held_of(coordinator, number)?;
    let request = EndTxn {
        caller: caller(),
        txn,
        held,
        outcome: Outcome::Commit,
    };
    let messages = coordinator.end_txn(request).ok()?;
    let count = count_of(messages.as_slice())?;
    let held = next_epoch(held)?;
    let reply = MarkerReply {
        partition: PartitionId::try_from(PARTITION).ok()?,
        txn,
        held: Raised::try_from(held).ok()?,
        code: ErrorCode::NoError,
    };
    let _ = coordinator.marker_reply(reply).ok()?;
    count.checked_add(begins(coordinator, txn, held)?)
}

// A coordinator of this many transactional ids, each with a transaction under way, and how many
// messages it sent.
fn filled(alloc: Global, txns: u64) -> Option<(Coordinator<MemStore>, i64)> {
    let mut coordinator = empty(alloc)?;
    let mut total = 0i64;
    for number in 0..txns {
        let count = first_used(alloc, &mut coordinator, number)?;
        total = total.checked_add(count)?;
    }
    Some((coordinator, total))
}

// The number of the next transactional id: they are taken in steps that share no factor with most
// counts, so that none is near the one before it.
fn next_number(number: u64, txns: u64) -> u64 {
    if txns == 0 {
        return 0;
    }
    number.wrapping_add(7_919) % txns
}

// How many messages this many turns send, with those of the beginning.
fn handed_out(alloc: Global, txns: u64, turns: u64) -> Option<i64> {
    let (coordinator, total) = filled(alloc, txns)?;
    let mut coordinator = coordinator;
    let mut total = total;
    let mut number = 0;
    for _ in 0..turns {
        let count = turn(alloc, &mut coordinator, number)?;
        total = total.checked_add(count)?;
        number = next_number(number, txns);
    }
    Some(total)
}

/// Begins a transaction of each of this many transactional ids, and so often commits one of them,
/// of an id anywhere among them, takes the answer to its marker, and begins the next: how many
/// messages were sent, or -1 if a request was refused.
#[unsafe(no_mangle)]
pub extern "C" fn kx_bench_transactions(alloc: Global, txns: u64, turns: u64) -> i64
    ensures { negsuc 0 ≤ℤ result }
{
    match handed_out(alloc, txns, turns) {
        Some(total) => total.max(0),
        None => -1,
    }
}
