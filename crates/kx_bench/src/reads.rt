//! Checksums, reading and building.
ghost use Rattle.std.specs.Prelude.{◌≡◌, ◌≤◌, IfOk, min};
ghost use Rattle.kx_batch.specs.Batch.{batch_at, batch_limit};
ghost use Rattle.kx_batch.specs.Crc.{crc32c_of};
ghost use Rattle.kx_bench.specs.Reads.{read_size, value_size, values_size};

use kx_batch::{BatchBuilder, BatchView, BuildFault, RecordView, Records, crc32c};
use std::alloc::Global;

/// The CRC-32C of the bytes, as [`crc32c`] gives it (RFC 3720).
#[unsafe(no_mangle)]
pub extern "C" fn kx_bench_crc32c(bytes: &[u8]) -> u32
    ensures { result ≡ crc32c_of bytes.now }
{
    crc32c(bytes)
}

fn value_size(shown: &RecordView<'_>) -> usize
    ensures { result ≡ value_size shown.now.value }
{
    match shown.value() {
        Some(value) => value.len(),
        None => 0,
    }
}

fn values_size(records: Records<'_>) -> usize
    ensures { result ≡ min (values_size records.entry) usize.MAX }
{
    let mut total = 0usize;
    for record in records {
        total = total.saturating_add(value_size(&record));
    }
    total
}

/// Reads the batch at the front and all its records: how many bytes their values have, or 0 if
/// no batch is there.
#[unsafe(no_mangle)]
pub extern "C" fn kx_bench_read(bytes: &[u8]) -> usize
    ensures { result ≡ min (read_size (batch_at bytes.now)) usize.MAX }
{
    match BatchView::read(bytes) {
        Ok((batch, _)) => values_size(batch.records()),
        Err(_) => 0,
    }
}

// The value of each record that is built.
const VALUE: [u8; 100] = [b'x'; 100];

// How many bytes a batch of this many records has.
fn built_size(alloc: Global, records: u64) -> Result<usize, BuildFault>
    ensures { IfOk result (λ size. size ≤ batch_limit) }
{
    let mut builder = BatchBuilder::new(alloc, 0, -1, -1, -1);
    for _ in 0..records {
        builder.push(None, Some(&VALUE), &[])?;
    }
    let text = builder.into_text()?;
    Ok(text.len())
}

/// Builds a plain batch of this many records of 100 bytes so often: how many bytes it has, or 0
/// if it isn't built.
#[unsafe(no_mangle)]
pub extern "C" fn kx_bench_build(alloc: Global, records: u64, count: u64) -> usize
    ensures { result ≤ batch_limit }
{
    let mut size = 0;
    for _ in 0..count {
        size = match built_size(alloc, records) {
            Ok(size) => size,
            Err(_) => return 0,
        };
    }
    size
}
