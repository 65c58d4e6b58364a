//! What a demonstration prints.
ghost use Rattle.std.specs.Prelude.{◌≡◌, ◌≢◌, IfErr, OnOk};
ghost use Rattle.std.specs.Io.KnownBytes.{Appends};
ghost use Rattle.kx_demo.specs.Telling.{Tells, TellsCounts, line, yes_text};
ghost use Rattle.kx_demo.specs.declared.fault.DemoFault.TheVariants.{GaveUp, Write};

use crate::counting::{Counts, Found, count};
use crate::events::write_run;
use crate::fault::DemoFault;
use crate::pages::write_page;
use kx_audit::{AuditFault, audit};
use kx_play::{PlayFault, PlayOptions, Played, play};
use std::alloc::Global;
use std::io::Write;
use std::net::{Net, TcpListener, TcpStream};
use std::sync::Wait;
use std::thread::Threads;
use std::time::Clock;

// Writes a line of words and a number.
fn write_line<W: Write>(out: &mut W, words: &str, number: usize) -> Result<(), DemoFault>
    ensures written { OnOk result (Appends (W.contents out.old) (W.contents out.new)
        (line words.now number)) }
    ensures fault { IfErr result (λ fault. fault ≡ Write) }
{
    match writeln!(out, "{words} {number}") {
        Ok(()) => Ok(()),
        Err(_) => Err(DemoFault::Write),
    }
}

// Writes a text.
fn write_text<W: Write>(out: &mut W, text: &str) -> Result<(), DemoFault>
    ensures written { OnOk result (Appends (W.contents out.old) (W.contents out.new) text.now) }
    ensures fault { IfErr result (λ fault. fault ≡ Write) }
{
    match out.write_all(text.as_bytes()) {
        Ok(()) => Ok(()),
        Err(_) => Err(DemoFault::Write),
    }
}

// Writes what was counted, and that the audit said yes.
fn write_yes<W: Write>(out: &mut W, counts: Counts) -> Result<(), DemoFault>
    ensures written { OnOk result (Appends (W.contents out.old) (W.contents out.new)
        (yes_text counts)) }
    ensures fault { IfErr result (λ fault. fault ≡ Write) }
{
    write_line(out, "inputs", counts.inputs)?;
    write_line(out, "outputs", counts.outputs)?;
    write_line(out, "doubles", counts.doubles)?;
    write_text(out, "audit yes\n")
}

// Writes what happened, one line an event.
fn trace<P: Write>(alloc: Global, run: &Found, events: &mut P) -> Result<(), DemoFault>
    ensures { IfErr result (λ fault. fault ≢ GaveUp) }
{
    match write_run(alloc, run, events) {
        Ok(()) => Ok(()),
        Err(DemoFault::Memory) => Err(DemoFault::Memory),
        Err(_) => Err(DemoFault::Trace),
    }
}

// Writes what happened, as lines and as a page, if that is asked for.
fn show<P: Write>(
    alloc: Global,
    run: &Found,
    events: Option<&mut P>,
    page: Option<&mut P>,
) -> Result<(), DemoFault>
    ensures { IfErr result (λ fault. fault ≢ GaveUp) }
{
    if let Some(events) = events {
        trace(alloc, run, events)?;
    }
    if let Some(page) = page {
        write_page(alloc, run, page)?;
    }
    Ok(())
}

// Counts what a run has that the audit found, and prints it.
fn tell<W: Write, P: Write>(
    alloc: Global,
    run: &Found,
    out: &mut W,
    events: Option<&mut P>,
    page: Option<&mut P>,
) -> Result<(), DemoFault>
    ensures told { OnOk result (TellsCounts run.now (W.contents out.old) (W.contents out.new)) }
    ensures fault { IfErr result (λ fault. fault ≢ GaveUp) }
{
    let counts = count(alloc, run)?;
    show(alloc, run, events, page)?;
    write_yes(out, counts)
}

// Audits what was played, and prints what came of it.
fn judge<W: Write, P: Write>(
    alloc: Global,
    played: Played,
    out: &mut W,
    events: Option<&mut P>,
    page: Option<&mut P>,
) -> Result<bool, DemoFault>
    ensures { Tells (W.contents out.old) (W.contents out.new) result }
{
    let Played { traces, receipts } = played;
    match audit(alloc, traces, receipts.as_slice()) {
        Ok(run) => {
            tell(alloc, &run, out, events, page)?;
            Ok(true)
        }
        Err(AuditFault::Memory) => Err(DemoFault::Memory),
        Err(fault) => {
            write_line(out, "audit no", usize::from(fault.number()))?;
            Ok(false)
        }
    }
}

/// Plays the demonstration, audits it, and prints what the audited run has: `inputs`, `outputs` and
/// `doubles`, each with its count, and `audit yes`; or else `audit no` and the number of the
/// audit's fault, or `gave up`. Says whether the audit said yes. If it did, what happened is written
/// into `events`, one line an event, and into `page`, as a page in HTML, if these are asked for.
///
/// # Errors
///
/// As [`DemoFault`] has them. After `GaveUp`, `gave up` is printed.
pub fn demo<
    R: Net<Listener = TcpListener, Stream = TcpStream>
        + AllocGlobal
        + Eprint
        + Threads
        + Wait
        + Clock
        + Copy
        + Send
        + Sync
        + Drop
        + 'static,
    W: Write,
    P: Write,
>(
    rt: R,
    options: &PlayOptions,
    out: &mut W,
    events: Option<&mut P>,
    page: Option<&mut P>,
) -> Result<bool, DemoFault>
    // What it printed: of a yes, what was counted in a run that keeps the guarantees.
    ensures { Tells (W.contents out.old) (W.contents out.new) result }
{
    match play(rt, options) {
        Ok(played) => judge(rt.alloc(), played, out, events, page),
        Err(PlayFault::GaveUp) => {
            write_text(out, "gave up\n")?;
            Err(DemoFault::GaveUp)
        }
        Err(PlayFault::Net) => Err(DemoFault::Net),
        Err(PlayFault::Memory) => Err(DemoFault::Memory),
    }
}
