//! What a machine sends, written as frames.
ghost use Rattle.std.specs.Prelude.{◌≡◌, ◌≤◌, length, take, IfOk, MatchResult};
ghost use Rattle.std.specs.Io.KnownBytes.{Appends, Keeps};
ghost use Rattle.kx_stream.specs.Sending.{Sends, Writes, Written};

use crate::fault::StreamFault;
use kx_wire::{FrameFault, Message, frame_head, record_batches};
use std::alloc::Global;
use std::io::{ErrorKind, Write};

/// How often a write that was interrupted is tried again.
const TRIES: u32 = u32::MAX;

// Writes a front of some bytes by one write, and says how many of them. A write that was
// interrupted writes none.
fn write_front<W: Write>(writer: &mut W, bytes: &[u8]) -> Result<usize, StreamFault>
    ensures within { IfOk result (λ count. count ≤ length bytes.now) }
    ensures bytes { MatchResult result
        (λ count. Appends (W.contents writer.old) (W.contents writer.new) (take count bytes.now))
        (λ fault. (fault ≡ StreamFault.Write)
        × Keeps (W.contents writer.old) (W.contents writer.new)) }
{
    match writer.write(bytes) {
        Ok(0) => Err(StreamFault::Write),
        Ok(count) => Ok(count),
        Err(error) => {
            if error.kind() == ErrorKind::Interrupted {
                Ok(0)
            } else {
                Err(StreamFault::Write)
            }
        }
    }
}

// Writes all of some bytes, by as many writes as it takes.
fn write_whole<W: Write>(writer: &mut W, bytes: &[u8]) -> Result<(), StreamFault>
    ensures { Writes bytes.now (W.contents writer.old) (W.contents writer.new) result }
{
    let mut written = 0;
    let mut tries = TRIES;
    while written < bytes.len() {
        let count = write_front(writer, &bytes[written..])?;
        if count == 0 {
            if tries == 0 {
                return Err(StreamFault::Write);
            }
            tries -= 1;
        }
        written += count;
    }
    Ok(())
}

/// Writes the frame of a message; the record batches that it carries, from where they lie.
///
/// # Errors
///
/// [`StreamFault::Write`] if a write failed: a front of the frame is written, and not all of it.
/// [`StreamFault::Frame`] with [`FrameFault::Memory`] if memory is refused, and with
/// [`FrameFault::TooLong`] if the message is longer than a frame; nothing is written then.
pub fn send<W: Write>(alloc: Global, writer: &mut W, message: &Message) -> Result<(), StreamFault>
    ensures { Sends message.now (W.contents writer.old) (W.contents writer.new) result }
{
    if !message.fits() {
        return Err(StreamFault::Frame(FrameFault::TooLong));
    }
    let head = frame_head(alloc, message)?;
    write_whole(writer, head.as_slice())?;
    write_whole(writer, record_batches(message))
}

/// Writes the frames of messages, in order, each as soon as it is made.
///
/// # Errors
///
/// [`StreamFault::Write`] if a write failed: a front of the frames is written, and not all of
/// them. [`StreamFault::Frame`] with [`FrameFault::Memory`] if memory is refused, and with
/// [`FrameFault::TooLong`] at a message that is longer than a frame: the frames before that message
/// are written, and nothing else.
pub(crate) fn send_all<W: Write>(
    alloc: Global,
    writer: &mut W,
    messages: &[Message],
) -> Result<(), StreamFault>
    ensures { Written messages.now (W.contents writer.old) (W.contents writer.new) result }
{
    for (at, message) in messages.iter().enumerate() {
        send(alloc, writer, message)?;
    }
    Ok(())
}
