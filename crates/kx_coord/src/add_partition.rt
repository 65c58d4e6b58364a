//! A partition asks to be added to a transaction (KIP-890, "AddPartitionsToTxn").
ghost use Rattle.std.specs.Prelude.{◌≡◌, ◌<◌, IfNone, not, false, Some, ◌&&◌, ◌||◌};
ghost use Rattle.kx_model.specs.Coordinator.{is};
ghost use Rattle.kx_message.specs.Ranges.{spent_epoch};
ghost use Rattle.kx_model.specs.Requests as model;
ghost use Rattle.kx_txnlog.specs.Entry.{row_of};
ghost use Rattle.kx_coord.specs.Internal.Answers.{IsAnswer};

use crate::answer::{Answer, refuses, repeats, writes_draft};
use crate::rows::Fresh;
use kx_message::{Epoch, ErrorCode, Held, PartitionId, ProducerId};
use kx_txnlog::{Row, State};

/// Whether there is an id, and it is this one.
pub(crate) fn is(id: Option<ProducerId>, other: ProducerId) -> bool
    ensures { result ≡ is id other }
{
    match id {
        Some(id) => id == other,
        None => false,
    }
}

/// What a request by this id and epoch is refused for first.
pub(crate) fn refused_first(row: &Row, held: &Held) -> Option<ErrorCode>
    ensures value { result ≡ model.refused_first (row_of row.now) held.now }
    ensures unspent { IfNone result (held.now.epoch < spent_epoch) }
{
    let is_prepared = matches!(row.state, State::Prepare(_));
    let is_next = is(row.next, held.id);
    if is_prepared && is_next {
        return Some(ErrorCode::ConcurrentTransactions);
    }
    let is_own = row.id == held.id;
    let is_previous = is(row.previous, held.id);
    if !is_own && !is_previous {
        return Some(ErrorCode::InvalidProducerIdMapping);
    }
    // The numbers, whose range says that every other epoch is below the spent one.
    let is_spent = held.epoch.get() == Epoch::SPENT.get();
    if is_spent || (is_own && row.epoch < held.epoch) {
        return Some(ErrorCode::InvalidProducerEpoch);
    }
    None
}

/// Whether the epoch is one before the row's, or the id the one before.
pub(crate) fn is_old(row: &Row, held: &Held) -> bool
    ensures { result ≡ model.is_old (row_of row.now) held.now }
{
    row.id != held.id || held.epoch < row.epoch
}

// The partition is listed.
fn lists(fresh: Fresh, row: &Row, partition: PartitionId, start: u64) -> Answer<'_>
    requires { row.now.epoch < spent_epoch }
    ensures { IsAnswer result (model.writes (model.with_added (row_of row.now) start partition)) }
{
    writes_draft(fresh.added(row, partition, start))
}

/// What a partition is answered if the transactional id has a row.
pub(crate) fn add_row<'r>(
    fresh: Fresh,
    clock: u64,
    row: &'r Row,
    held: &Held,
    partition: PartitionId,
) -> Answer<'r>
    ensures { IsAnswer result
        (model.add_at clock (Some (row_of row.now)) held.now partition) }
{
    if let Some(code) = refused_first(row, held) {
        return refuses(code);
    }
    if is_old(row, held) {
        return refuses(ErrorCode::ProducerFenced);
    }
    match row.state {
        State::Prepare(_) => refuses(ErrorCode::ConcurrentTransactions),
        State::Ongoing => {
            if row.partitions.contains(partition) {
                return repeats(*held);
            }
            lists(fresh, row, partition, row.start)
        }
        State::Empty | State::Complete(_) => lists(fresh, row, partition, clock),
    }
}
