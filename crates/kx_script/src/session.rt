//! What happens in a world under a script, and what is read of it, as it is printed.
ghost use Rattle.std.specs.Prelude.{◌≡◌, None, Some, MatchResult, OnOk, drop, slice_get};
ghost use Rattle.std.specs.Io.KnownBytes.{Appends};
ghost use Rattle.kx_core.specs.Local.{IsLocal};
ghost use Rattle.kx_processor.specs.Prefixed.{images_of};
ghost use Rattle.kx_script.specs.Printing.{message_lines, messages_text, optional_line};
ghost use Rattle.kx_script.specs.Printing.{step_text};
ghost use Rattle.kx_script.specs.Running.{Means, StandsFor, StandsIn};
ghost use Rattle.kx_script.specs.Script.{Answered, happens, performed};
ghost use Rattle.kx_script.specs.Session.{Session, marks_after};
ghost use Rattle.kx_script.specs.declared.order.Order.TheVariants as order;
ghost use Rattle.kx_system.specs.System.{System, SystemEvent};
ghost use Rattle.kx_text.specs.Pages.{lost_text};
ghost use Rattle.kx_text.specs.declared.fault.ScriptFault.TheVariants as fault;

use crate::event::EventAt;
use crate::marks::Marks;
use crate::order::{Left, Order};
use crate::printing::{
    write_code, write_dash, write_declined, write_group, write_message, write_rows,
};
use crate::world::{Running, ScriptWorld, has_node, has_partition, message, page_at, sent};
use kx_machine::Note;
use kx_message::{GroupId, NodeId, PartitionId};
use kx_partition::FetchFault;
use kx_text::{Mode, ScriptFault, show, write_answer, write_refusal, written};
use std::alloc::Global;
use std::io;
use std::io::Write;

// Takes the mark of a node back, if its append has failed.
fn settle(marks: &mut Marks, place: &NodeId, failed: bool)
    ensures { marks.new ≡ marks_after marks.old place.now failed }
{
    if failed {
        marks.set(place, None);
    }
}

// Writes the message of a number, if there is one.
fn write_one<W: Write>(
    world: &ScriptWorld,
    number: usize,
    from: &NodeId,
    writer: &mut W,
) -> io::Result<()>
    ensures { (s : System) → IsLocal images_of world.now s
        → OnOk result (Appends (W.contents writer.old) (W.contents writer.new)
        (optional_line number from.now (slice_get s.world.sent number))) }
{
    match message(world, number) {
        Some(message) => write_message(writer, number, from, message),
        None => Ok(()),
    }
}

// Writes the messages from a number on, a line each.
fn write_lines<W: Write>(
    world: &ScriptWorld,
    first: usize,
    from: &NodeId,
    writer: &mut W,
) -> io::Result<()>
    ensures { (s : System) → IsLocal images_of world.now s
        → OnOk result (Appends (W.contents writer.old) (W.contents writer.new)
        (message_lines first from.now (drop first s.world.sent))) }
{
    for number in first..sent(world) {
        write_one(world, number, from, writer)?;
    }
    Ok(())
}

// Writes what a node sends: the messages from a number on.
fn write_messages<W: Write>(
    world: &ScriptWorld,
    first: usize,
    from: &NodeId,
    writer: &mut W,
) -> io::Result<()>
    ensures { (s : System) → IsLocal images_of world.now s
        → OnOk result (Appends (W.contents writer.old) (W.contents writer.new)
        (messages_text first from.now (drop first s.world.sent))) }
{
    if sent(world) <= first {
        return write_dash(writer);
    }
    write_lines(world, first, from, writer)
}

// Writes what a step prints, by its note and by the messages from a number on.
fn write_step<W: Write>(
    world: &ScriptWorld,
    first: usize,
    from: &NodeId,
    note: Note,
    writer: &mut W,
) -> io::Result<()>
    ensures { (s : System) → IsLocal images_of world.now s
        → OnOk result (Appends (W.contents writer.old) (W.contents writer.new)
        (step_text note (messages_text first from.now (drop first s.world.sent)))) }
{
    match note {
        Note::Refused(fault) => write_declined(writer, fault),
        Note::Put(answer) => write_answer(writer, answer),
        Note::Code(code) => write_code(writer, code),
        Note::Done | Note::Closed(_) | Note::UsedUp => {
            write_messages(world, first, from, writer)
        }
    }
}

// Writes that there was no memory for an event, which did not happen.
pub(crate) fn lose<W: Write>(writer: &mut W) -> Result<(), ScriptFault>
    ensures { MatchResult result
        (λ done. Appends (W.contents writer.old) (W.contents writer.new) lost_text)
        (λ f. f ≡ fault.Write) }
{
    written(writer.write_all(b"lost\n"))
}

// Lets an event happen, and writes what it prints; always true.
pub(crate) fn happen<W: Write>(
    running: &mut Running,
    read: &EventAt,
    writer: &mut W,
) -> Result<bool, ScriptFault>
    ensures { (s : Session) → StandsFor running.old s → (event : SystemEvent)
        → Means s.system read.now event
        → Answered (StandsIn (Some running.new)) (Some (happens s event)) (Some (Some s))
        (W.contents writer.old) (W.contents writer.new) result }
{
    let first = sent(&running.world);
    let happened = match running.happen(&read.event) {
        Ok(happened) => happened,
        Err(_) => {
            lose(writer)?;
            return Ok(true);
        }
    };
    settle(&mut running.marks, &read.place, happened.failed);
    written(write_step(&running.world, first, &read.place, happened.note, writer))?;
    Ok(true)
}

// Lets the next append of a node fail; false if there is no such node, and nothing is done.
fn fail<W: Write>(
    running: &mut Running,
    place: &NodeId,
    left: Left,
    writer: &mut W,
) -> Result<bool, ScriptFault>
    ensures { (s : Session) → StandsFor running.old s
        → Answered (StandsIn (Some running.new)) (performed s (order.Fail place.now left))
        None (W.contents writer.old) (W.contents writer.new) result }
{
    if !has_node(&running.world, place) {
        return Ok(false);
    }
    running.marks.set(place, Some(left));
    written(write_dash(writer))?;
    Ok(true)
}

// Writes the records of a partition from an offset on, or the committed ones; false if there is
// no such partition, and nothing is done.
fn fetch<W: Write>(
    alloc: Global,
    running: &Running,
    partition: PartitionId,
    from: i64,
    mode: Mode,
    max: u32,
    writer: &mut W,
) -> Result<bool, ScriptFault>
    ensures { (s : Session) → StandsFor running.now s
        → Answered (StandsIn (Some running.now))
        (performed s (order.Fetch partition from mode max)) None (W.contents writer.old) (W.contents writer.new) result }
{
    if !has_partition(&running.world, partition) {
        return Ok(false);
    }
    match page_at(&running.world, partition, from, max, mode.is_committed()) {
        Ok(page) => show(alloc, page, from, mode, writer)?,
        Err(FetchFault::Refused(code)) => written(write_refusal(writer, code))?,
        Err(FetchFault::Memory) => return Err(ScriptFault::Memory),
    }
    Ok(true)
}

// Writes a group's committed offset of a partition; false if there is no such partition, and
// nothing is done.
fn offset<W: Write>(
    running: &Running,
    group: GroupId,
    partition: PartitionId,
    stable: bool,
    writer: &mut W,
) -> Result<bool, ScriptFault>
    ensures { (s : Session) → StandsFor running.now s
        → Answered (StandsIn (Some running.now))
        (performed s (order.Offset group partition stable)) None (W.contents writer.old) (W.contents writer.new) result }
{
    if !has_partition(&running.world, partition) {
        return Ok(false);
    }
    let (code, offset) = running.world.committed_offset(group, partition, stable);
    written(write_group(writer, code, offset))?;
    Ok(true)
}

// Writes the coordinator's rows.
fn rows<W: Write>(running: &Running, writer: &mut W) -> Result<bool, ScriptFault>
    ensures { (s : Session) → StandsFor running.now s
        → Answered (StandsIn (Some running.now)) (performed s order.Rows) None
        (W.contents writer.old) (W.contents writer.new) result }
{
    written(write_rows(writer, running.world.rows()))?;
    Ok(true)
}

// Carries an order out, and writes its answer; false if what it names isn't there, and nothing
// is done.
pub(crate) fn perform<W: Write>(
    alloc: Global,
    running: &mut Running,
    order: Order,
    writer: &mut W,
) -> Result<bool, ScriptFault>
    ensures { (s : Session) → StandsFor running.old s
        → Answered (StandsIn (Some running.new)) (performed s order) None
        (W.contents writer.old) (W.contents writer.new) result }
{
    match order {
        Order::Fail(place, left) => fail(running, &place, left, writer),
        Order::Fetch(partition, from, mode, max) => {
            fetch(alloc, running, partition, from, mode, max, writer)
        }
        Order::Offset(group, partition, stable) => {
            offset(running, group, partition, stable, writer)
        }
        Order::Rows => rows(running, writer),
    }
}
