//! What is printed of a step, and of what is read of nodes.
ghost use Rattle.std.specs.Prelude.{◌≡◌, ◌++◌, OnOk, [], codes, map};
ghost use Rattle.std.specs.Io.KnownBytes.{Appends};
ghost use Rattle.kx_script.specs.Printing.{code_text, dash_text, declined_text, fault_name};
ghost use Rattle.kx_script.specs.Printing.{group_text, message_line, more_partitions};
ghost use Rattle.kx_script.specs.Printing.{partitions_text, row_line, rows_text, state_number};
ghost use Rattle.kx_txnlog.specs.Entry.{row_of};
ghost use Rattle.kx_txnlog.specs.State.{state_of};

use kx_client::ClientFault;
use kx_message::{ErrorCode, Message, NodeId, Outcome, PartitionId};
use kx_txnlog::{Row, State};
use std::io;
use std::io::Write;

/// Writes that nothing was sent, or that there is nothing to show.
pub fn write_dash<W: Write>(writer: &mut W) -> io::Result<()>
    ensures { OnOk result (Appends (W.contents writer.old) (W.contents writer.new) dash_text) }
{
    writer.write_all(b"-\n")
}

/// Writes a message that a node sends, with its number among all that were sent.
pub fn write_message<W: Write>(
    writer: &mut W,
    number: usize,
    from: &NodeId,
    message: &Message,
) -> io::Result<()>
    ensures { OnOk result (Appends (W.contents writer.old) (W.contents writer.new)
        (message_line number from.now message.now)) }
{
    let to = message.receiver();
    writeln!(writer, "#{number} {from}>{to} {message}")
}

fn fault_name(fault: ClientFault) -> &'static str
    ensures { result.now ≡ fault_name fault }
{
    match fault {
        ClientFault::NotReady => "NotReady",
        ClientFault::InFlight => "InFlight",
        ClientFault::WindowFull => "WindowFull",
        ClientFault::Failed => "Failed",
        ClientFault::NotTransactional => "NotTransactional",
        ClientFault::UsedUp => "UsedUp",
        ClientFault::MustAbort => "MustAbort",
        ClientFault::TooLarge => "TooLarge",
        ClientFault::Memory => "Memory",
    }
}

// Writes why a client refuses a command.
pub(crate) fn write_declined<W: Write>(writer: &mut W, fault: ClientFault) -> io::Result<()>
    ensures { OnOk result (Appends (W.contents writer.old) (W.contents writer.new)
        (declined_text fault)) }
{
    let name = fault_name(fault);
    writeln!(writer, "refused {name}")
}

// Writes what the drop of a member is answered.
pub(crate) fn write_code<W: Write>(writer: &mut W, code: ErrorCode) -> io::Result<()>
    ensures { OnOk result (Appends (W.contents writer.old) (W.contents writer.new)
        (code_text code)) }
{
    writeln!(writer, "code {code}")
}

// Writes a group's committed offset, and the code with it.
pub(crate) fn write_group<W: Write>(writer: &mut W, code: ErrorCode, offset: i64) -> io::Result<()>
    ensures { OnOk result (Appends (W.contents writer.old) (W.contents writer.new)
        (group_text code offset)) }
{
    writeln!(writer, "{code} {offset}")
}

fn state_number(state: State) -> u8
    ensures { result ≡ state_number (state_of state) }
{
    match state {
        State::Empty => 0,
        State::Ongoing => 1,
        State::Prepare(Outcome::Commit) => 2,
        State::Prepare(Outcome::Abort) => 3,
        State::Complete(Outcome::Commit) => 4,
        State::Complete(Outcome::Abort) => 5,
    }
}

// Writes partitions, each after a comma.
fn write_more<W: Write>(writer: &mut W, partitions: &[PartitionId]) -> io::Result<()>
    ensures { OnOk result (Appends (W.contents writer.old) (W.contents writer.new)
        (more_partitions partitions.now)) }
{
    for partition in partitions {
        write!(writer, ",{partition}")?;
    }
    Ok(())
}

// Writes partitions, parted by commas.
fn write_partitions<W: Write>(writer: &mut W, partitions: &[PartitionId]) -> io::Result<()>
    ensures { OnOk result (Appends (W.contents writer.old) (W.contents writer.new)
        (partitions_text partitions.now)) }
{
    let Some((first, more)) = partitions.split_first() else {
        return writer.write_all(b"-");
    };
    write!(writer, "{first}")?;
    write_more(writer, more)
}

// Writes a row of the coordinator.
fn write_row<W: Write>(writer: &mut W, row: &Row) -> io::Result<()>
    ensures { OnOk result (Appends (W.contents writer.old) (W.contents writer.new)
        (row_line (row_of row.now))) }
{
    let Row { txn, id, epoch, .. } = row;
    let state = state_number(row.state);
    write!(writer, "{txn} {id} {epoch} {state} ")?;
    write_partitions(writer, row.partitions.as_slice())?;
    writer.write_all(b"\n")
}

/// Writes the rows of the coordinator, a line each.
pub fn write_rows<W: Write>(writer: &mut W, rows: &[Row]) -> io::Result<()>
    ensures { OnOk result (Appends (W.contents writer.old) (W.contents writer.new)
        (rows_text (map row_of rows.now))) }
{
    if rows.is_empty() {
        return write_dash(writer);
    }
    for row in rows {
        write_row(writer, row)?;
    }
    Ok(())
}
