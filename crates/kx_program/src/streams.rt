//! What is done with the standard streams, and how the program ends then.
ghost use Rattle.std.specs.Prelude.{◌≡◌, ◌⊎◌, [], Err, Result, IfSome, IsOk, IsTrue, MatchResult};
ghost use Rattle.std.specs.Io.Buffered.{writer_buffer, writer_contents};
ghost use Rattle.std.specs.Io.KnownBytes.{Keeps};
ghost use Rattle.clap.specs.Words.{kind_of};
ghost use Rattle.kx_program.specs.Endings.{IsUsageEnding, ending_of_demo};
ghost use Rattle.kx_script.specs.Script.{EndsFlushed};
ghost use Rattle.kx_text.specs.Dump.{DumpsFlushed};
ghost use Rattle.kx_text.specs.Statuses.{ending_of};
ghost use Rattle.kx_text.specs.declared.dump.DumpFault.{DumpFault};
ghost use Rattle.kx_text.specs.declared.fault.ScriptFault.{ScriptFault};
ghost use Rattle.kx_text.specs.declared.fault.ScriptFault.TheVariants as fault;
ghost use Rattle.kx_text.specs.declared.program.Ending.TheVariants as ending;
ghost use Rattle.kx_txnlog.specs.Reading.{entry_at};

use clap::error::ErrorKind as UsageFault;
use kx_bad_line::{LastLine, why_bad};
use kx_demo::DemoFault;
use kx_script::run_sim;
use kx_text::{DumpFault, Ending, ScriptFault, run_dump, without_newline};
use kx_txnlog::read_entry;
use std::alloc::Global;
use std::io::{BufRead, BufWriter, Write};
use std::{fmt, io};

/// Writes a line of a fault on standard error, if it can be written, and says how the program
/// ends: `Failed`.
pub fn failed<E: Write>(errors: &mut E, fault: impl fmt::Display + Drop) -> Ending
    ensures { result ≡ ending.Failed }
{
    let _ = writeln!(errors, "kx: {fault}");
    Ending::Failed
}

// Says on standard error why the line of this number is bad, if it was kept.
fn tell_bad_line<E: Write>(number: u64, line: Option<&[u8]>, errors: &mut E) {
    if let Some(line) = line {
        let why = why_bad(without_newline(line));
        let _ = writeln!(errors, "kx: line {number}: {why}");
    }
}

// Runs a script, and says on standard error why a line is bad.
fn run_told<I: BufRead, O: Write + Drop, E: Write>(
    alloc: Global,
    input: &mut I,
    out: &mut BufWriter<O>,
    errors: &mut E,
) -> Result<(), ScriptFault>
    ensures ends { IfSome (I.remaining input.old) (λ script. EndsFlushed script
        (writer_contents O.contents out.old) (writer_contents O.contents out.new) result) }
    ensures flushed { (result ≡ Err fault.Write) ⊎ (writer_buffer out.new ≡ []) }
{
    let mut kept = LastLine::new(alloc, input);
    let ran = run_sim::<LastLine<&mut I>, O>(alloc, &mut kept, out);
    if let Err(ScriptFault::BadLine(number)) = ran {
        tell_bad_line(number, kept.line(), errors);
    }
    drop(kept);
    ran
}

/// Runs the script that the input has, and says how the program ends. Of a bad line the output
/// tells, and a line on standard error says why it is bad; of any other fault a line on standard
/// error.
pub fn sim<I: BufRead, O: Write + Drop, E: Write>(
    alloc: Global,
    input: &mut I,
    out: &mut BufWriter<O>,
    errors: &mut E,
) -> Ending
    // What was written, and that the program ends so.
    ensures ends { IfSome (I.remaining input.old) (λ script. (ran : Result (Unit {0}) ScriptFault)
        × EndsFlushed script
        (writer_contents O.contents out.old) (writer_contents O.contents out.new) ran
        × (result ≡ ending_of ran)) }
    // If all was done, nothing is left to be written.
    ensures flushed { (result ≡ ending.Failed) ⊎ (writer_buffer out.new ≡ []) }
{
    let ran = run_told(alloc, input, out, errors);
    match ran {
        Ok(()) | Err(ScriptFault::BadLine(_)) => Ending::of(&ran),
        Err(fault) => failed(errors, fault),
    }
}

// Whether bytes begin with an entry of a coordinator's log. Where memory runs out it says no.
fn are_coordinators(alloc: Global, bytes: &[u8]) -> bool
    ensures { IsTrue result → IsOk (entry_at bytes.now) }
{
    match read_entry(alloc, bytes) {
        Ok(_) => true,
        Err(_) => false,
    }
}

// Says why a dump ends before the end of a file.
fn dump_fault<E: Write>(
    alloc: Global,
    path: &str,
    bytes: &[u8],
    fault: DumpFault,
    errors: &mut E,
) -> Ending
    ensures { result ≡ ending.Failed }
{
    match fault {
        DumpFault::Batch(0, _) if are_coordinators(alloc, bytes) => failed(
            errors,
            format_args!("{path}: a coordinator's log, and no record batches"),
        ),
        DumpFault::Batch(_, _) => failed(errors, format_args!("{path}: {fault}")),
        DumpFault::Write | DumpFault::Memory => failed(errors, fault),
    }
}

// Prints the batches in the bytes of the file at this path. Of a fault it writes a line on standard
// error.
fn dump<O: Write + Drop, E: Write>(
    alloc: Global,
    path: &str,
    bytes: &[u8],
    out: &mut BufWriter<O>,
    errors: &mut E,
) -> Ending
    ensures ends { (dumped : Result (Unit {0}) DumpFault)
        × DumpsFlushed bytes.now
        (writer_contents O.contents out.old) (writer_contents O.contents out.new)
        dumped × (result ≡ ending_of dumped) }
    ensures flushed { (result ≡ ending.Failed) ⊎ (writer_buffer out.new ≡ []) }
{
    let dumped = run_dump(bytes, out);
    match dumped {
        Ok(()) => Ending::of(&dumped),
        Err(fault) => dump_fault(alloc, path, bytes, fault, errors),
    }
}

/// Prints the batches in a file's bytes, as they were read of the file at this path, and says how
/// the program ends. If they can't be read, or are no batches, a line on standard error names the
/// file.
pub fn dump_read<O: Write + Drop, E: Write>(
    alloc: Global,
    path: &str,
    bytes: io::Result<Vec<u8>>,
    out: &mut BufWriter<O>,
    errors: &mut E,
) -> Ending
    ensures ends { MatchResult bytes
        (λ read. (dumped : Result (Unit {0}) DumpFault) × DumpsFlushed read.items
        (writer_contents O.contents out.old) (writer_contents O.contents out.new) dumped
        × (result ≡ ending_of dumped))
        (λ _. (result ≡ ending.Failed)
        × Keeps (writer_contents O.contents out.old) (writer_contents O.contents out.new)) }
    ensures flushed { (result ≡ ending.Failed) ⊎ (writer_buffer out.new ≡ []) }
{
    match bytes {
        Ok(bytes) => dump(alloc, path, bytes.as_slice(), out, errors),
        Err(error) => failed(errors, format_args!("{path}: {error}")),
    }
}

/// How the program ends when a demonstration has ended: well only if the audit said yes. Of a
/// demonstration that gave up, and of an audit that refuses, the output already tells; of any other
/// fault a line on standard error.
pub fn played_ending<E: Write>(played: Result<bool, DemoFault>, errors: &mut E) -> Ending
    ensures { result ≡ ending_of_demo played }
{
    match played {
        Ok(true) => Ending::Done,
        Ok(false) | Err(DemoFault::GaveUp) => Ending::Failed,
        Err(fault) => failed(errors, fault),
    }
}

/// How the program ends if clap finds no subcommand in the words, or help was asked for: help
/// goes to the output, and words on wrong arguments go to standard error, if it can be written.
pub fn usage_ending<O: Write, E: Write>(error: &clap::Error, out: &mut O, errors: &mut E) -> Ending
    ensures { IsUsageEnding (kind_of error.now) result }
{
    match error.kind() {
        UsageFault::DisplayHelp | UsageFault::DisplayVersion => {
            if write!(out, "{error}").is_ok() && out.flush().is_ok() {
                return Ending::Done;
            }
            failed(errors, "the help cannot be written")
        }
        UsageFault::OutOfMemory => failed(errors, "out of memory"),
        _ => {
            let _ = write!(errors, "{error}");
            Ending::WrongArguments
        }
    }
}
