//! What happened in a demonstration, for people to read.
use crate::arrivals::Arrivals;
use crate::counting::Found;
use crate::fault::DemoFault;
use kx_audit::Turn;
use kx_machine::{Command, Input, Machine, Note, Taken};
use kx_machines::{AnyMachine, BrokerMachine};
use kx_message::{Message, NodeId};
use kx_text::dump_batches;
use std::alloc::Global;
use std::io;
use std::io::Write;

// What a write is to a demonstration.
fn written(done: io::Result<()>) -> Result<(), DemoFault> {
    done.map_err(|_| DemoFault::Write)
}

// Writes what a client is told to do.
fn write_command<W: Write>(out: &mut W, command: &Command) -> io::Result<()> {
    match command {
        Command::Init => write!(out, "asks for an id"),
        Command::Send(partition, values) => {
            let count = values.count();
            write!(out, "sends {count} values to p{partition}")
        }
        Command::Resend => write!(out, "sends again"),
        Command::Poll => write!(out, "goes on"),
        _ => write!(out, "does as it is told"),
    }
}

// Writes what a node was handed that is no message.
fn write_other<W: Write>(out: &mut W, input: &Input) -> io::Result<()> {
    match input {
        Input::Command(command) => write_command(out, command),
        Input::Drop(group, member) => write!(out, "drops c{member} from {group}"),
        _ => write!(out, "does as it is told"),
    }
}

// Writes what a node answered beside its messages.
fn write_note<W: Write>(out: &mut W, note: Note) -> io::Result<()> {
    match note {
        Note::Refused(fault) => write!(out, "; refused: {fault}"),
        Note::Code(code) => write!(out, "; code {code}"),
        _ => Ok(()),
    }
}

// The events of a run as they are written, one after the other.
#[derive(Drop)]
struct Events {
    // the messages that came in the whole run, and those that came before
    all: Arrivals,
    before: Arrivals,
}

impl Events {
    // Writes what a node took; a message that came before comes again.
    fn write_input<W: Write>(&mut self, out: &mut W, input: &Input) -> Result<(), DemoFault> {
        let Input::Deliver(message) = input else {
            return written(write_other(out, input));
        };
        let again = if self.before.add(message)? {
            " again"
        } else {
            ""
        };
        written(write!(out, "takes{again} {message}"))
    }

    // Writes the messages that a node sent, with those that never came to anybody.
    fn write_sent<W: Write>(
        &self,
        out: &mut W,
        node: NodeId,
        messages: &[Message],
    ) -> Result<(), DemoFault> {
        for message in messages {
            let to = message.receiver();
            let lost = if self.all.has(message)? {
                ""
            } else {
                " (lost)"
            };
            written(write!(out, "; {node}>{to} {message}{lost}"))?;
        }
        Ok(())
    }

    // Writes an event: its number, the node, what it took, and what it sent.
    fn write<W: Write>(
        &mut self,
        out: &mut W,
        number: usize,
        node: NodeId,
        input: &Input,
        taken: &Taken,
    ) -> Result<(), DemoFault> {
        written(write!(out, "{number} {node} "))?;
        self.write_input(out, input)?;
        written(write_note(out, taken.note))?;
        self.write_sent(out, node, taken.messages.as_slice())?;
        written(writeln!(out))
    }

    // Writes the event at a turn.
    fn write_turn<W: Write>(
        &mut self,
        out: &mut W,
        run: &Found,
        number: usize,
        turn: Turn,
    ) -> Result<(), DemoFault> {
        let Some(trace) = run.trace(turn.trace) else {
            return Ok(());
        };
        let (Some(step), Some(taken)) = (run.step(turn), run.taken(turn)) else {
            return Ok(());
        };
        self.write(out, number, trace.node(), &step.input, taken)
    }
}

// Writes the events, in the order in which the audit put them.
fn write_events<W: Write>(alloc: Global, run: &Found, out: &mut W) -> Result<(), DemoFault> {
    let mut events = Events {
        all: Arrivals::all_of(alloc, run)?,
        before: Arrivals::new(alloc),
    };
    for (number, turn) in run.turns().iter().enumerate() {
        events.write_turn(out, run, number, *turn)?;
    }
    Ok(())
}

// Writes the batches of a node's log, if it is a data partition.
fn write_log<W: Write>(run: &Found, number: usize, out: &mut W) -> Result<(), DemoFault> {
    let (Some(trace), Some(machine)) = (run.trace(number), run.machine(number)) else {
        return Ok(());
    };
    if !matches!(machine, AnyMachine::Broker(BrokerMachine::Partition(_))) {
        return Ok(());
    }
    let node = trace.node();
    written(writeln!(out, "log of {node}"))?;
    for batches in Machine::batches_from(machine, 0, u32::MAX) {
        if dump_batches(batches, out).is_err() {
            return Err(DemoFault::Write);
        }
    }
    Ok(())
}

/// Writes what the audited run did, one line an event: its number, the node, what it took, and what
/// it sent, to whom. What came before to the node comes `again`, and what never came is `(lost)`.
/// Then the logs of the data partitions, each batch with its records.
///
/// # Errors
///
/// `Write` if the output can't be written, `Memory` if memory runs out; part of it may be
/// written then.
pub fn write_run<W: Write>(alloc: Global, run: &Found, out: &mut W) -> Result<(), DemoFault> {
    write_events(alloc, run, out)?;
    for number in 0..run.len() {
        write_log(run, number, out)?;
    }
    Ok(())
}
