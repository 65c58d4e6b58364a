//! What is printed of a file of record batches, for those who look into a log.
ghost use Rattle.std.specs.Prelude.{◌≡◌, ◌≤◌, ◌<◌, ◌*◌, ◌+ℤ◌, ◌⊎◌, ℕ, List, [], length, drop};
ghost use Rattle.std.specs.Prelude.{◌++◌, Err, IsOkUnless, OnOk, codes, option_map, take};
ghost use Rattle.std.specs.Fmt.{signed_decimal};
ghost use Rattle.std.specs.Io.KnownBytes.{Appends};
ghost use Rattle.kx_batch.specs.Batch.{Spelled, batch_at};
ghost use Rattle.kx_text.specs.Dump.{AreBatches, Dumps, batch_line, batch_text_of, fault_line};
ghost use Rattle.kx_text.specs.Dump.{fault_name, field_text, hex_of, kind_of, producer_text};
ghost use Rattle.kx_text.specs.Dump.{record_line};
ghost use Rattle.kx_text.specs.Faults.{dump_fault_number};
ghost use Rattle.kx_text.specs.Writing.{Writes};
ghost use Rattle.kx_text.specs.declared.dump.DumpFault.TheVariants as dump_fault;

use crate::pages::offset_of;
use crate::writing::write_whole;
use arrayvec::ArrayVec;
use kx_batch::{BatchFault, BatchView, RecordView};
use kx_message::Outcome;
use std::io;
use std::io::Write;
use thiserror::Error;

/// Why a dump ends before the end of its file.
#[derive(Clone, Copy, Debug, PartialEq, Eq, Error)]
pub enum DumpFault {
    /// A write failed. A front of the text that the dump of these bytes has is written, and not all
    /// of it.
    #[error("the dump cannot be written")]
    Write,
    /// The bytes from this place on, counted from the start of the file, are no batch, for this
    /// reason. The text of the batches in front of it was written, and then `fault PLACE NAME`.
    #[error("no batch at byte {0}: {1}")]
    Batch(usize, BatchFault),
    /// Memory ran out before anything was written. A dump asks for none itself, so `dump_batches`
    /// never answers it.
    #[error("out of memory")]
    Memory,
}

impl DumpFault {
    /// The number of the fault, by which another program knows it: `Write` 1, `Batch` 2, whichever
    /// place and reason, and `Memory` 3.
    pub fn number(self) -> u8
        ensures { result ≡ dump_fault_number self }
    {
        match self {
            DumpFault::Write => 1,
            DumpFault::Batch(_, _) => 2,
            DumpFault::Memory => 3,
        }
    }
}

impl From<io::Error> for DumpFault {
    ghost from_gives = { λ _ fault. fault ≡ dump_fault.Write };

    fn from(_failed: io::Error) -> DumpFault {
        DumpFault::Write
    }
}

// The numbers and words of a line, without a record's key and value: at most 96 bytes. In memory
// they are printed whole before a byte of them is written.
type Line = ArrayVec<u8, 128>;

const DIGITS: &[u8; 16] = b"0123456789abcdef";

// How many bytes become digits at a time.
const PART: usize = 64;

// Puts the digits of a part to the front of a buffer.
fn put_digits(part: &[u8], buffer: &mut [u8; 128])
    requires { length part.now ≤ 64 }
    ensures { take (2 * length part.now) buffer.new ≡ hex_of part.now }
{
    for i in 0..part.len() {
        let byte = part[i];
        buffer[2 * i] = DIGITS[(byte / 16) as usize];
        buffer[2 * i + 1] = DIGITS[(byte % 16) as usize];
    }
}

// Writes two digits for each byte, a part at a time: a call for each byte would take longer.
fn write_hex<W: Write>(writer: &mut W, bytes: &[u8]) -> io::Result<()>
    ensures { Writes (hex_of bytes.now) (W.contents writer.old) (W.contents writer.new) result }
{
    let mut buffer = [0; 2 * PART];
    for part in bytes.chunks(PART) {
        put_digits(part, &mut buffer);
        write_whole(writer, &buffer[..2 * part.len()])?;
    }
    Ok(())
}

// Writes a key or a value.
fn write_field<W: Write>(writer: &mut W, field: Option<&[u8]>) -> io::Result<()>
    ensures { Writes (field_text (option_map (λ s. s.now) field.entry))
        (W.contents writer.old) (W.contents writer.new) result }
{
    match field {
        None => write_whole(writer, b"null"),
        Some([]) => write_whole(writer, b"-"),
        Some(bytes) => write_hex(writer, bytes),
    }
}

// Prints what is in front of a record's key.
// 128 bits, since no format bounds base offset plus delta.
fn print_offset<W: Write>(line: &mut W, offset: i128) -> io::Result<()>
    ensures { OnOk result (Appends (W.contents line.old) (W.contents line.new)
        (codes "record " ++ signed_decimal offset ++ codes " ")) }
{
    write!(line, "record {offset} ")
}

// Writes what is in front of a record's key.
fn write_offset<W: Write>(writer: &mut W, base: i64, shown: &RecordView<'_>) -> io::Result<()>
    ensures { Writes
        (codes "record " ++ signed_decimal (base +ℤ shown.now.offset_delta) ++ codes " ")
        (W.contents writer.old) (W.contents writer.new) result }
{
    let mut line = Line::new();
    print_offset(&mut line, offset_of(base, shown.offset_delta()))?;
    write_whole(writer, line.as_slice())
}

// Writes a record as a line.
fn write_record<W: Write>(writer: &mut W, base: i64, shown: &RecordView<'_>) -> io::Result<()>
    ensures { Writes (record_line base shown.now)
        (W.contents writer.old) (W.contents writer.new) result }
{
    write_offset(writer, base, shown)?;
    write_field(writer, shown.key())?;
    write_whole(writer, b" ")?;
    write_field(writer, shown.value())?;
    write_whole(writer, b"\n")
}

// What a batch is for: first what its marker says, then its attributes.
fn kind_of(batch: &BatchView<'_>) -> &'static str
    ensures { result.now ≡ kind_of batch.now.batch }
{
    match batch.end_marker() {
        Some((Outcome::Commit, _)) => "commit",
        Some((Outcome::Abort, _)) => "abort",
        None if batch.is_control() => "control",
        None if batch.is_transactional() => "txn",
        None => "plain",
    }
}

// Prints who wrote a batch.
fn print_producer<W: Write>(line: &mut W, batch: &BatchView<'_>) -> io::Result<()>
    ensures { OnOk result (Appends (W.contents line.old) (W.contents line.new)
        (producer_text batch.now.batch)) }
{
    let id = batch.producer_id();
    let epoch = batch.producer_epoch();
    let sequence = batch.base_sequence();
    write!(line, "{id} {epoch} {sequence}")
}

// Prints the line in front of a batch's records.
fn print_head<W: Write>(line: &mut W, batch: &BatchView<'_>) -> io::Result<()>
    ensures { OnOk result (Appends (W.contents line.old) (W.contents line.new)
        (batch_line batch.now.batch)) }
{
    let offset = batch.base_offset();
    let count = batch.records().len();
    let kind = kind_of(batch);
    write!(line, "batch {offset} {count} ")?;
    print_producer(line, batch)?;
    writeln!(line, " {kind}")
}

// Writes the line in front of a batch's records.
fn write_head<W: Write>(writer: &mut W, batch: &BatchView<'_>) -> io::Result<()>
    ensures { Writes (batch_line batch.now.batch)
        (W.contents writer.old) (W.contents writer.new) result }
{
    let mut line = Line::new();
    print_head(&mut line, batch)?;
    write_whole(writer, line.as_slice())
}

// Writes a batch's line and those of its records.
fn write_batch<W: Write>(writer: &mut W, batch: &BatchView<'_>) -> io::Result<()>
    ensures { Writes (batch_text_of batch.now.batch)
        (W.contents writer.old) (W.contents writer.new) result }
{
    write_head(writer, batch)?;
    for record in batch.records() {
        write_record(writer, batch.base_offset(), &record)?;
    }
    Ok(())
}

fn fault_name(fault: BatchFault) -> &'static str
    ensures { result.now ≡ fault_name fault }
{
    match fault {
        BatchFault::Short => "Short",
        BatchFault::Magic => "Magic",
        BatchFault::Length => "Length",
        BatchFault::Crc => "Crc",
        BatchFault::Compressed => "Compressed",
        BatchFault::Records => "Records",
        BatchFault::TooLarge => "TooLarge",
    }
}

// Prints where no batch is, and why.
fn print_fault<W: Write>(line: &mut W, place: usize, fault: BatchFault) -> io::Result<()>
    ensures { OnOk result (Appends (W.contents line.old) (W.contents line.new)
        (fault_line place fault)) }
{
    let name = fault_name(fault);
    writeln!(line, "fault {place} {name}")
}

// Writes where no batch is, and why.
fn write_fault<W: Write>(writer: &mut W, place: usize, fault: BatchFault) -> io::Result<()>
    ensures { Writes (fault_line place fault)
        (W.contents writer.old) (W.contents writer.new) result }
{
    let mut line = Line::new();
    print_fault(&mut line, place, fault)?;
    write_whole(writer, line.as_slice())
}

/// Writes what is printed of a file of record batches: for each a line `batch OFFSET COUNT ID EPOCH
/// SEQ KIND`, where KIND is `commit`, `abort`, `control`, `txn` or `plain`, and for each of its
/// records a line `record OFFSET KEY VALUE` in hexadecimal, with `null` for null and `-` for empty;
/// up to the end or the first place where no batch is, of which it writes `fault PLACE NAME`.
/// It goes over the bytes once, takes no memory and doesn't flush the writer.
///
/// # Errors
///
/// Those of [`DumpFault`], which says what was written by then.
pub fn dump_batches<W: Write>(bytes: &[u8], writer: &mut W) -> Result<(), DumpFault>
    // What was written, and of which batches.
    ensures written { Dumps bytes.now (W.contents writer.old) (W.contents writer.new) result }
    // Batches up to the end are no fault.
    ensures whole { (batches : List Spelled) → AreBatches batches bytes.now []
        → IsOkUnless result dump_fault.Write }
    // The first place without a batch is the fault.
    ensures stops { (batches : List Spelled) (place : ℕ) (fault : BatchFault)
        → place < length bytes.now → AreBatches batches bytes.now (drop place bytes.now)
        → batch_at (drop place bytes.now) ≡ Err fault
        → (result ≡ Err (dump_fault.Batch place fault)) ⊎ (result ≡ Err dump_fault.Write) }
{
    let mut rest = bytes;
    while !rest.is_empty() {
        let place = bytes.len() - rest.len();
        match BatchView::read(rest) {
            Ok((batch, behind)) => {
                write_batch(writer, &batch)?;
                rest = behind;
            }
            Err(fault) => {
                write_fault(writer, place, fault)?;
                return Err(DumpFault::Batch(place, fault));
            }
        }
    }
    Ok(())
}
