//! What a log that is served does with each batch, on one thread: it is appended to the log and to
//! both published copies, which share the log's full segments, as kx_published does it.
ghost use Rattle.std.specs.Prelude.{◌≤ℤ◌, negsuc};

use kx_batch::BatchText;
use kx_log::MemStore;
use kx_partition::Partition;
use std::alloc::Global;

// How many bytes of batches are asked of a log at a time.
const RANGE_LIMIT: u32 = 1 << 20;

// A partition with an empty log.
fn empty(alloc: Global) -> Option<Partition<MemStore>> {
    Partition::rebuild(alloc, MemStore::new(Vec::new(alloc))).ok()
}

// Passes on to both copies what the log has from an offset on.
fn pass_on(
    alloc: Global,
    log: &Partition<MemStore>,
    from: i64,
    first: &mut Partition<MemStore>,
    second: &mut Partition<MemStore>,
) -> Option<()> {
    let range = log.slice(from, i64::MAX, RANGE_LIMIT);
    for batch in range.batches() {
        let text = BatchText::copy_of(alloc, &batch).ok()?;
        let _ = first.produce_read(&text.view(), true);
        let _ = second.produce_read(&text.view(), true);
    }
    if let Some(piece) = range.shared() {
        first.adopt(&piece);
        second.adopt(&piece);
    }
    Some(())
}

// Appends the batch `count` times, passes it on, and takes `pages` pages after each.
fn serve(
    alloc: Global,
    text: &[u8],
    count: u64,
    pages: u64,
    log: &mut Partition<MemStore>,
    first: &mut Partition<MemStore>,
    second: &mut Partition<MemStore>,
) -> Option<()> {
    for _ in 0..count {
        let from = log.end();
        let _ = log.produce(text, true);
        pass_on(alloc, log, from, first, second)?;
        for _ in 0..pages {
            let _ = first.fetch(first.end() / 2, 65536, true);
        }
    }
    Some(())
}

// The end of the second copy.
fn served(alloc: Global, text: &[u8], count: u64, pages: u64) -> Option<i64> {
    let mut log = empty(alloc)?;
    let mut first = empty(alloc)?;
    let mut second = empty(alloc)?;
    let _ = serve(alloc, text, count, pages, &mut log, &mut first, &mut second);
    Some(second.end())
}

/// Appends a plain batch `count` times to a log and both its copies, and after each takes `pages`
/// of 64 KiB from the middle of a copy: the end of the second copy, or -1 if memory runs out.
#[unsafe(no_mangle)]
pub extern "C" fn kx_bench_served(alloc: Global, text: &[u8], count: u64, pages: u64) -> i64
    ensures { negsuc 0 ≤ℤ result }
{
    served(alloc, text, count, pages).unwrap_or(-1).max(-1)
}
