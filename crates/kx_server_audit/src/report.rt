//! What is printed of an audit.
ghost use Rattle.std.specs.Prelude.{◌≡◌, ℕ, IsOk, List, OnOk, codes};
ghost use Rattle.std.specs.Io.KnownBytes.{Appends};
ghost use Rattle.kx_server_audit.specs.Denials.{denial_number};
ghost use Rattle.kx_server_audit.specs.Lines.{counts_text, denial_text, file_line, findings_text};
ghost use Rattle.kx_server_audit.specs.Lines.{item_line, line, place_text};

use crate::counts::Counts;
use crate::denial::Denial;
use crate::fault::AuditFault;
use crate::file::AuditFile;
use crate::findings::Findings;
use kx_trace_audit::TraceRefusal;
use std::alloc::{AllocError, Global};
use std::io;
use std::io::Write;

// What a write is to an audit.
fn written(done: io::Result<()>) -> Result<(), AuditFault>
    ensures { OnOk result (IsOk done) }
{
    match done {
        Ok(()) => Ok(()),
        Err(_) => Err(AuditFault::Write),
    }
}

// Writes a line of words and a number.
fn write_line<W: Write>(out: &mut W, words: &str, number: u64) -> Result<(), AuditFault>
    ensures { OnOk result (Appends (W.contents out.old) (W.contents out.new)
        (line words.now number)) }
{
    written(writeln!(out, "{words} {number}"))
}

// Writes what was counted.
fn write_counts<W: Write>(
    out: &mut W,
    counts: Counts,
    transactions: usize,
) -> Result<(), AuditFault>
    ensures { OnOk result (Appends (W.contents out.old) (W.contents out.new)
        (counts_text counts transactions)) }
{
    write_line(out, "steps", counts.steps)?;
    write_line(out, "messages", counts.messages)?;
    write_line(out, "transactions", transactions as u64)
}

// Writes what a refusal says at an item of a trace.
fn write_item<W: Write>(
    out: &mut W,
    file: AuditFile,
    item: u64,
    words: &str,
) -> Result<(), AuditFault>
    ensures { OnOk result (Appends (W.contents out.old) (W.contents out.new)
        (item_line file item words.now)) }
{
    written(writeln!(out, "{file}: step {item}: {words}"))
}

// Writes what is said of a file.
fn write_file<W: Write>(out: &mut W, file: AuditFile, words: &str) -> Result<(), AuditFault>
    ensures { OnOk result (Appends (W.contents out.old) (W.contents out.new)
        (file_line file words.now)) }
{
    written(writeln!(out, "{file}: {words}"))
}

// The words of a refusal.
fn words_of(alloc: Global, why: TraceRefusal) -> Result<String, AllocError> {
    Ok(why.to_string(alloc)?)
}

// Writes where and why an audit says no.
fn write_place<W: Write>(alloc: Global, out: &mut W, denial: &Denial) -> Result<(), AuditFault>
    ensures { OnOk result ((words : List ℕ) × Appends (W.contents out.old) (W.contents out.new)
        (place_text denial.now words)) }
{
    match denial {
        Denial::Item { node, item, why } => {
            let words = words_of(alloc, *why)?;
            write_item(out, AuditFile::Trace(*node), *item, words.as_str())
        }
        Denial::OtherNode(node) => {
            write_file(out, AuditFile::Trace(*node), "the trace is of another node")
        }
        Denial::OtherLog(node) => {
            let words = words_of(alloc, TraceRefusal::Log)?;
            write_file(out, AuditFile::Log(*node), words.as_str())
        }
    }
}

// Writes that an audit says no.
fn write_no<W: Write>(alloc: Global, out: &mut W, denial: &Denial) -> Result<(), AuditFault>
    ensures { OnOk result ((words : List ℕ) × Appends (W.contents out.old) (W.contents out.new)
        (denial_text denial.now words)) }
{
    write_line(out, "audit no", u64::from(denial.number()))?;
    write_place(alloc, out, denial)
}

// Writes that an audit says yes.
fn write_yes<W: Write>(out: &mut W) -> Result<(), AuditFault>
    ensures { OnOk result (Appends (W.contents out.old) (W.contents out.new)
        (codes "audit yes\n")) }
{
    written(out.write_all(b"audit yes\n"))
}

/// Writes what an audit found.
///
/// # Errors
///
/// `Write` if it can't be written, and `Memory`.
pub(crate) fn write_findings<W: Write>(
    alloc: Global,
    out: &mut W,
    findings: &Findings,
) -> Result<(), AuditFault>
    ensures { OnOk result ((words : List ℕ) × Appends (W.contents out.old) (W.contents out.new)
        (findings_text findings.now words)) }
{
    write_counts(out, findings.counts, findings.transactions)?;
    match &findings.denial {
        None => write_yes(out),
        Some(denial) => write_no(alloc, out, denial),
    }
}
