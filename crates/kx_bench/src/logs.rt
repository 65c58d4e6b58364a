//! Logs in memory: appending, and pages.
ghost use Rattle.std.specs.Prelude.{◌≡◌, ◌≤ℤ◌, [], length, negsuc, IfSome};
ghost use Rattle.kx_bench.specs.Logs.{IsEndOf};

use kx_batch::{BatchBuilder, BuildFault};
use kx_log::MemStore;
use kx_message::{Epoch, Held, Outcome, ProducerId, Raised};
use kx_partition::{Partition, Produced};
use kx_reader::Committed;
use std::alloc::Global;

// How many producers take turns in a log.
const PRODUCERS: u64 = 1000;

// How many bytes the record of a transaction has.
const VALUE: [u8; 200] = [b'x'; 200];

// A partition with an empty log.
fn empty(alloc: Global) -> Option<Partition<MemStore>>
    ensures { IfSome result (λ partition. partition.batches ≡ []) }
{
    Partition::rebuild(alloc, MemStore::new(Vec::new(alloc))).ok()
}

// A log to which this plain batch was appended so often.
fn repeated(alloc: Global, text: &[u8], count: u64) -> Option<Partition<MemStore>>
    ensures { IfSome result (λ partition. length partition.batches ≡ count) }
{
    let mut partition = empty(alloc)?;
    for _ in 0..count {
        match partition.produce(text, true) {
            Ok(Produced::Appended(_)) => {}
            _ => return None,
        }
    }
    Some(partition)
}

/// Appends a plain batch so often to the log of a new partition in memory: the end of that log, or
/// -1 if the batch isn't appended.
#[unsafe(no_mangle)]
pub extern "C" fn kx_bench_produce(alloc: Global, text: &[u8], count: u64) -> i64
    ensures { IsEndOf count result }
{
    match repeated(alloc, text, count) {
        Some(partition) => partition.end(),
        None => -1,
    }
}

// The text of the one batch of a transaction.
fn batch_of(alloc: Global, held: Held) -> Result<Vec<u8>, BuildFault> {
    let mut builder = BatchBuilder::new(alloc, 0x10, held.id.get(), held.epoch.get(), 0);
    builder.push(None, Some(&VALUE), &[])?;
    builder.into_text()
}

// The producer and the epoch of a transaction, by its number.
fn held_of(txn: u64) -> Option<Held> {
    let id = ProducerId::try_from((txn % PRODUCERS) as i64).ok()?;
    let epoch = i16::try_from(txn / PRODUCERS).ok()?;
    let epoch = Epoch::try_from(epoch).ok()?;
    Some(Held { id, epoch })
}

// Appends a transaction of one batch and its marker; every tenth is aborted.
fn append_txn(alloc: Global, partition: &mut Partition<MemStore>, txn: u64) -> Option<()> {
    let Held { id, epoch } = held_of(txn)?;
    let text = batch_of(alloc, Held { id, epoch }).ok()?;
    let Ok(Produced::Appended(_)) = partition.produce(text.as_slice(), true) else {
        return None;
    };
    let epoch = epoch.raised()?;
    let ended = Raised::try_from(Held { id, epoch }).ok()?;
    let outcome = if txn % 10 == 9 {
        Outcome::Abort
    } else {
        Outcome::Commit
    };
    partition.marker(ended, 1, outcome).ok()?;
    Some(())
}

// A log of this many transactions.
fn transactions(alloc: Global, count: u64) -> Option<Partition<MemStore>> {
    let mut partition = empty(alloc)?;
    for txn in 0..count {
        append_txn(alloc, &mut partition, txn)?;
    }
    Some(partition)
}

// How many committed records a page of 64 KiB from an offset on has.
fn records_from(alloc: Global, partition: &Partition<MemStore>, from: i64) -> Option<i64> {
    let page = partition.fetch(from, 65_536, true).ok()?;
    let committed = Committed::new(alloc, page).ok()?;
    let mut count = 0i64;
    for _ in committed {
        count = count.saturating_add(1);
    }
    Some(count)
}

// How many offsets a page of 64 KiB has at most: no page begins within the last ones, so each is
// full, in a short log as in a long one.
const PAGE_OFFSETS: i64 = 400;

// The offset of the next page: they go through the log in steps that share no factor with most
// lengths, so that no page is near the one before it.
fn next_offset(offset: i64, end: i64) -> i64 {
    let end = end.saturating_sub(PAGE_OFFSETS);
    if end <= 0 {
        return 0;
    }
    offset.max(0).wrapping_add(7_919_003).max(0) % end
}

// How many committed records this many pages of a log have.
fn page_records(alloc: Global, partition: &Partition<MemStore>, pages: u64) -> Option<i64> {
    let end = partition.end();
    let mut offset = 0;
    let mut total = 0i64;
    for _ in 0..pages {
        let count = records_from(alloc, partition, offset)?;
        total = total.saturating_add(count);
        offset = next_offset(offset, end);
    }
    Some(total)
}

/// Makes a log of this many transactions, each a batch and its marker, and reads this many
/// committed pages of 64 KiB of it, from offsets all over it: how many records they have, or -1
/// if something isn't appended or read.
#[unsafe(no_mangle)]
pub extern "C" fn kx_bench_pages(alloc: Global, transactions_count: u64, pages: u64) -> i64
    ensures { negsuc 0 ≤ℤ result }
{
    let Some(partition) = transactions(alloc, transactions_count) else {
        return -1;
    };
    match page_records(alloc, &partition, pages) {
        Some(total) => total.max(0),
        None => -1,
    }
}
