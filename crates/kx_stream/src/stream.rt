//! The stream itself.
ghost use Rattle.std.specs.Prelude.{◌≡◌, ℕ, List, Ok, Err, MatchResult, OnOk};
ghost use Rattle.std.specs.Io.KnownBytes.{Consumes, IsAtEnd};
ghost use Rattle.kx_stream.specs.Stream.{IsDone, PieceServed, Served};
ghost use Rattle.kx_wire.specs.Frames.{Fed, Reads};

use crate::fault::StreamFault;
use crate::reader::FrameReader;
use crate::serving::serve_all;
use kx_machine::Machine;
use kx_message::Message;
use std::alloc::Global;
use std::io::{Read, Write};

/// How often a reader is asked at most, whatever it gives.
const READS: u64 = 1 << 32;

// The machine takes messages that came with a piece of the stream. A fault of the frame after them
// is answered once they are served.
fn serve_piece<M: Machine, W: Write>(
    alloc: Global,
    frames: &mut FrameReader,
    machine: &mut M,
    messages: &[Message],
    writer: &mut W,
) -> Result<(), StreamFault>
    ensures { (partial piece : List ℕ) → Fed (Reads partial) piece (Ok messages.now) frames.old
        → PieceServed M.stands M.allows partial piece machine.old machine.new frames.new
        (W.contents writer.old) (W.contents writer.new) result }
{
    serve_all(alloc, machine, messages, writer)?;
    frames.check()?;
    Ok(())
}

// Why no more is read of a stream.
#[derive(Clone, Copy)]
pub(crate) enum ReadsEnd {
    // The reader gave nothing: it has come to its end.
    AtEnd,
    // A read failed.
    ReadFailed,
    // Each of 2^32 reads gave something.
    TooMany,
}

// Reads the stream piece by piece, and serves each, until no more is to be read.
fn serve_pieces<R: Read, W: Write, M: Machine>(
    alloc: Global,
    reader: &mut R,
    writer: &mut W,
    machine: &mut M,
) -> Result<ReadsEnd, StreamFault>
    ensures { (read : List ℕ) × Consumes (R.remaining reader.old) (R.remaining reader.new) read
        × MatchResult result (λ end. IsDone end read (R.remaining reader.new)
        × Served M.stands M.allows read machine.old machine.new
        (W.contents writer.old) (W.contents writer.new) (Ok tt))
        (λ fault. Served M.stands M.allows read machine.old machine.new
        (W.contents writer.old) (W.contents writer.new) (Err fault)) }
{
    let mut frames = FrameReader::new(alloc)?;
    for reads in 0..READS {
        let messages = match frames.next(reader) {
            Ok(Some(messages)) => messages,
            Ok(None) => return Ok(ReadsEnd::AtEnd),
            Err(StreamFault::Read) => return Ok(ReadsEnd::ReadFailed),
            Err(fault) => return Err(fault),
        };
        serve_piece(alloc, &mut frames, machine, messages.as_slice(), writer)?;
    }
    Ok(ReadsEnd::TooMany)
}

/// Serves a stream of frames with a machine, up to the stream's end: each message whose frame
/// arrives whole is taken by the machine, in whatever pieces the bytes arrive, and the frames of
/// what it sends are written at once, in order. A part of a frame at the end is dropped. A step
/// for which the machine has no memory writes nothing, and the stream goes on. The writer isn't
/// flushed.
///
/// # Errors
///
/// [`StreamFault::Read`] if a read failed, or each of 2^32 reads gave something: all messages
/// that were read whole are served, and their answers written. [`StreamFault::Write`] if a write
/// failed: a front of the answers is written, and not all of them. [`StreamFault::Frame`] if
/// what comes next is no frame of a message, or one that was sent isn't written, or memory ran out:
/// the answers before it are written. The machine keeps the steps that it made by then.
pub fn serve_stream<R: Read, W: Write, M: Machine>(
    alloc: Global,
    reader: &mut R,
    writer: &mut W,
    machine: &mut M,
) -> Result<(), StreamFault>
    ensures { (read : List ℕ) × Consumes (R.remaining reader.old) (R.remaining reader.new) read
        × OnOk result (IsAtEnd (R.remaining reader.new))
        × Served M.stands M.allows read machine.old machine.new
        (W.contents writer.old) (W.contents writer.new) result }
{
    match serve_pieces(alloc, reader, writer, machine)? {
        ReadsEnd::AtEnd => Ok(()),
        ReadsEnd::ReadFailed | ReadsEnd::TooMany => Err(StreamFault::Read),
    }
}
