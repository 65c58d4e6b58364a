//! What is printed of a page that was fetched.
ghost use Rattle.std.specs.Prelude.{◌≡◌, ◌+ℤ◌, int_lt, option_map, MatchResult, OnOk, flat_map};
ghost use Rattle.std.specs.Io.KnownBytes.{Appends};
ghost use Rattle.kx_model.specs.Page.{Page, fetched_of};
ghost use Rattle.kx_text.specs.Lines.{LeavesWriter};
ghost use Rattle.kx_text.specs.Pages.{batch_lines, end_text, page_lines, page_text};
ghost use Rattle.kx_text.specs.Pages.{record_text, shown_lines, value_line};

use crate::fault::ScriptFault;
use crate::lines::written;
use crate::mode::Mode;
use kx_batch::{BatchView, RecordView};
use kx_partition::FetchPage;
use kx_reader::Committed;
use std::alloc::Global;
use std::io;
use std::io::Write;

// Writes a record as a line.
fn write_value<W: Write>(writer: &mut W, offset: i128, value: Option<&[u8]>) -> io::Result<()>
    ensures { OnOk result (Appends (W.contents writer.old) (W.contents writer.new)
        (value_line offset (option_map (λ s. s.now) value.entry))) }
{
    write!(writer, "{offset} ")?;
    writer.write_all(value.unwrap_or(&[]))?;
    writer.write_all(b"\n")
}

/// A record's offset; no such sum passes an i128.
pub fn offset_of(base: i64, delta: i32) -> i128
    ensures { result ≡ base +ℤ delta }
{
    i128::from(base) + i128::from(delta)
}

fn is_below(offset: i128, from: i64) -> bool
    ensures { result ≡ int_lt offset from }
{
    offset < i128::from(from)
}

// Writes a record as a line, if its offset is at or above `from`.
fn write_record<W: Write>(
    writer: &mut W,
    from: i64,
    base: i64,
    shown: &RecordView<'_>,
) -> io::Result<()>
    ensures { OnOk result (Appends (W.contents writer.old) (W.contents writer.new)
        (record_text from (base +ℤ shown.now.offset_delta) shown.now)) }
{
    let offset = offset_of(base, shown.offset_delta());
    if is_below(offset, from) {
        return Ok(());
    }
    write_value(writer, offset, shown.value())
}

// Writes the records of a batch from an offset on, a line each.
fn write_batch<W: Write>(writer: &mut W, from: i64, batch: &BatchView<'_>) -> io::Result<()>
    ensures { OnOk result (Appends (W.contents writer.old) (W.contents writer.new)
        (batch_lines from batch.now.batch)) }
{
    if batch.is_control() {
        return Ok(());
    }
    for record in batch.records() {
        write_record(writer, from, batch.base_offset(), &record)?;
    }
    Ok(())
}

// Writes the records of a page from an offset on, a line each.
fn write_all<W: Write>(writer: &mut W, from: i64, page: &FetchPage<'_>) -> io::Result<()>
    ensures { OnOk result (Appends (W.contents writer.old) (W.contents writer.new)
        (flat_map (λ stored. batch_lines from stored.batch) page.now.batches)) }
{
    for batch in page.batches() {
        write_batch(writer, from, &batch)?;
    }
    Ok(())
}

// Writes the records that a reader of committed records gets, a line each.
fn write_committed<W: Write>(writer: &mut W, records: Committed<'_>) -> io::Result<()>
    ensures { OnOk result (Appends (W.contents writer.old) (W.contents writer.new)
        (shown_lines records.entry)) }
{
    for (offset, shown) in records {
        write_value(writer, i128::from(offset), shown.value())?;
    }
    Ok(())
}

// Writes where a page ends, and the log: the offset to fetch from next, the last stable offset,
// and the end.
fn write_end<W: Write>(writer: &mut W, next: i64, stable: i64, end: i64) -> io::Result<()>
    ensures { OnOk result (Appends (W.contents writer.old) (W.contents writer.new)
        (end_text next stable end)) }
{
    writeln!(writer, "next {next} lso {stable} end {end}")
}

// Writes the records of a page from an offset on, or the committed ones.
fn show_records<W: Write>(
    alloc: Global,
    page: FetchPage<'_>,
    from: i64,
    mode: Mode,
    writer: &mut W,
) -> Result<(), ScriptFault>
    ensures { MatchResult result (λ done. (shown : Page) → page.entry ≡ fetched_of shown
        → Appends (W.contents writer.old) (W.contents writer.new) (page_lines from mode shown))
        (LeavesWriter (W.contents writer.old) (W.contents writer.new)) }
{
    match mode {
        Mode::All => written(write_all(writer, from, &page)),
        Mode::Committed => {
            let Ok(records) = Committed::new(alloc, page) else {
                return Err(ScriptFault::Memory);
            };
            written(write_committed(writer, records))
        }
    }
}

/// Writes a page: its records, and where it ends.
///
/// # Errors
///
/// [`ScriptFault::Write`] if the writer failed, and [`ScriptFault::Memory`], which leaves the
/// writer as it was.
pub fn show<W: Write>(
    alloc: Global,
    page: FetchPage<'_>,
    from: i64,
    mode: Mode,
    writer: &mut W,
) -> Result<(), ScriptFault>
    ensures { MatchResult result (λ done. (shown : Page) → page.entry ≡ fetched_of shown
        → Appends (W.contents writer.old) (W.contents writer.new) (page_text from mode shown))
        (LeavesWriter (W.contents writer.old) (W.contents writer.new)) }
{
    let (next, stable, end) = (page.next(), page.last_stable_offset(), page.end());
    show_records(alloc, page, from, mode, writer)?;
    written(write_end(writer, next, stable, end))
}
