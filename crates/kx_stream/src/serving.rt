//! Messages handed to a machine, and what it sends for them.
ghost use Rattle.kx_stream.specs.Serving.{Answers, Serves};
ghost use Rattle.kx_stream.specs.Stream.{AllServed, OneServed};

use crate::fault::StreamFault;
use crate::sending::send_all;
use kx_machine::Machine;
use kx_wire::Message;
use std::alloc::Global;
use std::io::Write;

// Hands the machine a message, and writes what it sends. A step without memory writes nothing.
fn serve_one<M: Machine, W: Write>(
    alloc: Global,
    machine: &mut M,
    message: &Message,
    writer: &mut W,
) -> Result<(), StreamFault>
    ensures { OneServed M.stands M.allows message.now machine.old machine.new
        (W.contents writer.old) (W.contents writer.new) result }
{
    match machine.deliver(message) {
        Ok(taken) => {
            let written = send_all(alloc, writer, taken.messages.as_slice());
            drop(taken);
            written
        }
        Err(_) => Ok(()),
    }
}

/// Hands the machine messages, one after the other, and writes what it sends for each before it
/// takes the next.
///
/// # Errors
///
/// As [`send_all`]; then the machine took the messages up to the one of whose answers a frame
/// wasn't written.
pub(crate) fn serve_all<M: Machine, W: Write>(
    alloc: Global,
    machine: &mut M,
    messages: &[Message],
    writer: &mut W,
) -> Result<(), StreamFault>
    ensures { AllServed M.stands M.allows messages.now machine.old machine.new
        (W.contents writer.old) (W.contents writer.new) result }
{
    for (at, message) in messages.iter().enumerate() {
        serve_one(alloc, machine, message, writer)?;
    }
    Ok(())
}
