//! A partition in memory, the batches that are appended to it, and what a reader gets.
ghost use Rattle.std.specs.Prelude.{◌≡◌, [], false, IfOk};
ghost use Rattle.kx_batch.specs.Batch.{SpellsBatch};
ghost use Rattle.kx_example.specs.Example.{ReadsCommitted, batch_with};

use kx_batch::{BatchBuilder, BuildFault};
use kx_log::{MemStore, OpenFault};
use kx_message::Held;
use kx_partition::{FetchFault, Partition};
use kx_reader::Committed;
use std::alloc::Global;

// How many bytes a page has at most, beyond its first batch.
const PAGE_BYTES: u32 = 65_536;

// Attribute bit 4: the batch is part of a transaction (Kafka's message format, "Record Batch").
const TRANSACTIONAL: i16 = 0x10;

/// A partition with an empty log, on a store in memory.
///
/// # Errors
///
/// Only when out of memory.
pub fn empty_partition(alloc: Global) -> Result<Partition<MemStore>, OpenFault>
    ensures empty { IfOk result (λ partition. partition.batches ≡ []) }
    ensures open { IfOk result (λ partition. partition.closed ≡ false) }
{
    match Partition::rebuild(alloc, MemStore::new(Vec::new(alloc))) {
        Ok(partition) => Ok(partition),
        Err((fault, _)) => Err(fault),
    }
}

/// A batch of one record with this value and no key, part of a transaction of the producer `held`,
/// whose sequence number is `first`.
///
/// # Errors
///
/// [`BuildFault::TooLarge`] if the batch passes 1,048,588 bytes, [`BuildFault::Memory`] when out of
/// memory.
pub fn batch_of(alloc: Global, held: Held, first: i32, value: &[u8]) -> Result<Vec<u8>, BuildFault>
    ensures { IfOk result (λ text. SpellsBatch (batch_with held first value.now) text.items) }
{
    let (id, epoch) = (held.id.get(), held.epoch.get());
    let mut builder = BatchBuilder::new(alloc, TRANSACTIONAL, id, epoch, first);
    builder.push(None, Some(value), &[])?;
    builder.into_text()
}

/// The records from the offset `from` on that a reader of committed records gets, borrowed from
/// the log: those of one page.
///
/// # Errors
///
/// [`FetchFault::Refused`] if `from` is below 0 or above the end, [`FetchFault::Memory`] when out
/// of memory.
pub fn committed<'a>(
    alloc: Global,
    partition: &'a Partition<MemStore>,
    from: i64,
) -> Result<Committed<'a>, FetchFault>
    ensures { IfOk result (λ committed. ReadsCommitted partition.now.batches from committed) }
{
    let page = partition.fetch(from, PAGE_BYTES, true)?;
    match Committed::new(alloc, page) {
        Ok(committed) => Ok(committed),
        Err(_) => Err(FetchFault::Memory),
    }
}
