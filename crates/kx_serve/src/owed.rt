//! Which partitions a coordinator needs, by its rows.
ghost use Rattle.std.specs.Prelude.{◌≡◌, IfSome, None, true};
ghost use Rattle.std.specs.List.{list_any};
ghost use Rattle.kx_serve.specs.Owed.{NothingMissing, is_missing, is_owed, needs};

use kx_message::PartitionId;
use kx_txnlog::{Entry, Row, State, read_entry};
use std::alloc::Global;

// Whether the transaction of a row is owed a marker at each of its partitions, now or once it ends.
fn is_owed(state: State) -> bool
    ensures { result ≡ is_owed state }
{
    match state {
        State::Ongoing | State::Prepare(_) => true,
        State::Empty | State::Complete(_) => false,
    }
}

// Whether a row needs a partition: its transaction lists it, and is under way, or its markers
// weren't all answered.
fn row_needs(row: &Row, partition: PartitionId) -> bool
    ensures { result ≡ needs partition row.now }
{
    is_owed(row.state) && row.partitions.contains(partition)
}

// Whether one of the rows needs a partition.
fn is_needed(rows: &[Row], partition: PartitionId) -> bool
    ensures { result ≡ list_any (needs partition) rows.now }
{
    rows.iter().any(|row| row_needs(row, partition))
}

// Whether one of the rows needs a partition that isn't among those that are kept.
fn is_missing(rows: &[Row], kept: &[PartitionId], partition: PartitionId) -> bool
    ensures { result ≡ is_missing rows.now kept.now partition }
{
    !kept.contains(&partition) && is_needed(rows, partition)
}

/// A partition that one of the rows needs and that isn't among those that are kept.
pub(crate) fn first_missing(rows: &[Row], kept: &[PartitionId]) -> Option<PartitionId>
    ensures some { IfSome result (λ partition. is_missing rows.now kept.now partition ≡ true) }
    ensures none { result ≡ None → NothingMissing rows.now kept.now }
{
    for number in 0..PartitionId::DATA_COUNT {
        if let Ok(partition) = PartitionId::try_from(number) {
            if is_missing(rows, kept, partition) {
                return Some(partition);
            }
        }
    }
    if is_missing(rows, kept, PartitionId::OFFSETS) {
        return Some(PartitionId::OFFSETS);
    }
    None
}

/// Whether an entry of a coordinator's log, as these bytes are, names a partition.
pub(crate) fn names(alloc: Global, log: &[u8], partition: PartitionId) -> bool {
    let mut left = log;
    for _ in 0..log.len() {
        let Ok((entry, rest)) = read_entry(alloc, left) else {
            return false;
        };
        if let Entry::Row(row) = &entry {
            if row.partitions.contains(partition) {
                return true;
            }
        }
        left = rest;
    }
    false
}
