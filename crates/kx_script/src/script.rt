//! Answers the lines of a script, one after the other.
ghost use Rattle.std.specs.Prelude.{◌≡◌, ◌⊎◌, ◌^◌, Err, IfErr, IfSome, None, Some};
ghost use Rattle.kx_script.specs.Running.{StandsFor, StandsIn};
ghost use Rattle.kx_script.specs.Script.{Answered, Ends, HasLines, MakesAnswer, State, answer};
ghost use Rattle.kx_script.specs.Script.{answer_line, begun, kept_in, ordered};
ghost use Rattle.kx_script.specs.Session.{Session};
ghost use Rattle.kx_text.specs.Reads.{IsOver};
ghost use Rattle.kx_text.specs.Writing.{Writes};
ghost use Rattle.kx_text.specs.declared.fault.ScriptFault.TheVariants as fault;

use crate::command::{order_in, world_in};
use crate::event::event_in;
use crate::printing::write_dash;
use crate::session::{happen, lose, perform};
use crate::world::Running;
use kx_core::PartitionCount;
use kx_text::{CountedReads, ScriptFault, next_line, without_newline, write_whole, written};
use std::alloc::Global;
use std::io::{BufRead, Write};

// How many lines a script has at most: more than a buffer has bytes, so that its reads end first.
const LINES: u64 = 1 << 63;

// Makes the world, once.
fn begin<W: Write>(
    alloc: Global,
    running: &mut Option<Running>,
    count: PartitionCount,
    writer: &mut W,
) -> Result<bool, ScriptFault>
    ensures { (state : State) → StandsIn running.old state
        → Answered (StandsIn running.new) (begun state count) None
        (W.contents writer.old) (W.contents writer.new) result }
{
    if running.is_some() {
        return Ok(false);
    }
    let Ok(new) = Running::new(alloc, count) else {
        return Err(ScriptFault::Memory);
    };
    drop(running.replace(new));
    written(write_dash(writer))?;
    Ok(true)
}

// Answers a line that is no event.
fn answer_order<W: Write>(
    alloc: Global,
    running: &mut Running,
    line: &[u8],
    writer: &mut W,
) -> Result<bool, ScriptFault>
    ensures { (s : Session) → StandsFor running.old s
        → Answered (StandsIn (Some running.new)) (ordered s line.now) None
        (W.contents writer.old) (W.contents writer.new) result }
{
    match order_in(line) {
        Some(order) => perform(alloc, running, order, writer),
        None => Ok(false),
    }
}

/// Answers a line that has words in a world: lets its event happen, or carries its order out, and
/// writes what that prints; false if the line is bad, and nothing is done. An event for which
/// there is no memory prints `lost`, and nothing is done either.
///
/// # Errors
///
/// [`ScriptFault::Write`] if the writer failed, and [`ScriptFault::Memory`] if there is none
/// for a page.
pub fn answer_in<W: Write>(
    alloc: Global,
    running: &mut Running,
    line: &[u8],
    writer: &mut W,
) -> Result<bool, ScriptFault>
    ensures { (s : Session) → StandsFor running.old s
        → Answered (StandsIn (Some running.new)) (answer_line (Some s) line.now)
        (kept_in (Some s) line.now) (W.contents writer.old) (W.contents writer.new) result }
{
    match event_in(alloc, running, line) {
        Some(Ok(read)) => {
            let answered = happen(running, &read, writer);
            drop(read);
            answered
        }
        Some(Err(_)) => {
            lose(writer)?;
            Ok(true)
        }
        None => answer_order(alloc, running, line, writer),
    }
}

// Answers a line that has words; false if it is bad, and nothing is done.
fn answer_words<W: Write>(
    alloc: Global,
    running: &mut Option<Running>,
    line: &[u8],
    writer: &mut W,
) -> Result<bool, ScriptFault>
    ensures { (state : State) → StandsIn running.old state
        → Answered (StandsIn running.new) (answer_line state line.now) (kept_in state line.now)
        (W.contents writer.old) (W.contents writer.new) result }
{
    match running {
        Some(running) => answer_in(alloc, running, line, writer),
        None => match world_in(line) {
            Some(count) => begin(alloc, running, count, writer),
            None => Ok(false),
        },
    }
}

// Answers a line; false if it is bad, and nothing is done.
fn answer<W: Write>(
    alloc: Global,
    running: &mut Option<Running>,
    line: &[u8],
    writer: &mut W,
) -> Result<bool, ScriptFault>
    ensures { (state : State) → StandsIn running.old state
        → Answered (StandsIn running.new) (answer state line.now) (kept_in state line.now)
        (W.contents writer.old) (W.contents writer.new) result }
{
    if line.is_empty() {
        return Ok(true);
    }
    answer_words(alloc, running, line, writer)
}

// Makes the answer to a line in memory, or says there that the line of this number is bad; whether
// it is good.
fn make_answer(
    alloc: Global,
    running: &mut Option<Running>,
    line: &[u8],
    number: u64,
    text: &mut Vec<u8>,
) -> Result<bool, ScriptFault>
    ensures made { (state : State) → StandsIn running.old state
        → MakesAnswer (StandsIn running.new) (answer state line.now) (kept_in state line.now)
        number text.new.items result }
    ensures fault { IfErr result (λ why. why ≡ fault.Memory) }
{
    text.clear();
    let Ok(is_good) = answer(alloc, running, line, text) else {
        return Err(ScriptFault::Memory);
    };
    if !is_good && writeln!(text, "bad line {number}").is_err() {
        return Err(ScriptFault::Memory);
    }
    Ok(is_good)
}

// Writes a text that was made in memory.
fn write_text<W: Write>(writer: &mut W, text: &[u8]) -> Result<(), ScriptFault>
    ensures written { Writes text.now (W.contents writer.old) (W.contents writer.new) result }
    ensures fault { IfErr result (λ why. why ≡ fault.Write) }
{
    match write_whole(writer, text) {
        Ok(()) => Ok(()),
        Err(_) => Err(ScriptFault::Write),
    }
}

// Runs a script over a world that it makes, however many reads it takes.
pub(crate) fn run_lines<R: BufRead, W: Write>(
    alloc: Global,
    running: &mut Option<Running>,
    reader: &mut CountedReads<R>,
    writer: &mut W,
) -> Result<(), ScriptFault>
    requires { StandsIn running.old None }
    ensures ends { IfSome (R.remaining reader.old.reader)
        (λ input. Ends input (W.contents writer.old) (W.contents writer.new) result) }
    // Why no more was read.
    ensures over { result ≡ Err fault.Read
        → IsOver reader.new ⊎ HasLines (2 ^ 63) (R.remaining reader.old.reader) }
{
    let mut line = Vec::new(alloc);
    let mut text = Vec::new(alloc);
    for number in 1..=LINES {
        if !next_line(reader, &mut line)? {
            return Ok(());
        }
        let words = without_newline(line.as_slice());
        let is_good = make_answer(alloc, running, words, number, &mut text)?;
        write_text(writer, text.as_slice())?;
        if !is_good {
            return Err(ScriptFault::BadLine(number));
        }
    }
    if next_line(reader, &mut line)? {
        return Err(ScriptFault::Read);
    }
    Ok(())
}
