//! What is at the front of what is left of a trace.
ghost use Rattle.std.specs.Prelude.{◌≡◌, ◌≤◌, ℕ, IfErr, IfOk, List, MatchOption, MatchResult};
ghost use Rattle.std.specs.Prelude.{length};
ghost use Rattle.kx_trace.specs.Reading as reading;
ghost use Rattle.kx_trace.specs.Reading.{More};
ghost use Rattle.kx_trace.specs.Records.{Took, record_of};
ghost use Rattle.kx_trace_audit.specs.Items.{AfterRefused, Begins, IsAfter, IsItem, ItemRefused};
ghost use Rattle.kx_trace_audit.specs.Items.{NeedsItem, RecordRefused, refusal_of};
ghost use Rattle.kx_trace_audit.specs.declared.ending.Ending.{Ending};
ghost use Rattle.kx_varint.specs.Text.{IsBytes};

use crate::ending::Ending;
use crate::refusal::TraceRefusal;
use kx_machine::Input;
use kx_nodes::Mark;
use kx_trace::{Record, TraceFault, read_record, records_are_read};
use std::alloc::Global;

/// What a trace tells of one input.
#[derive(Drop)]
pub(crate) enum Telling<'a> {
    /// It was taken, the node's store did this, and these are the frames of what was sent.
    Answered {
        input: Input,
        mark: Mark,
        frames: &'a [u8],
    },
    /// It was not taken.
    Untaken(Input),
    /// The process ended before it was answered.
    Unanswered(Input),
    /// The process had ended, and the node was opened again at this time.
    Reopened {
        now: u64,
        log_len: u64,
    },
}

/// What a trace tells next, and how many bytes tell it.
#[derive(Drop)]
pub(crate) struct Item<'a> {
    pub(crate) told: Telling<'a>,
    pub(crate) used: usize,
}

// Bytes fit their type. This does nothing when it runs.
fn bytes_fit(bytes: &[u8])
    ensures { IsBytes bytes.now }
{}

// Why bytes can't be read.
fn refusal_of(fault: TraceFault) -> TraceRefusal
    ensures { result ≡ refusal_of fault }
{
    match fault {
        TraceFault::Memory => TraceRefusal::Memory,
        _ => TraceRefusal::Bytes,
    }
}

/// The record at the front, and how many bytes it takes; None if it isn't whole.
///
/// # Errors
///
/// `Bytes` if no trace goes on with these bytes; `Memory` if memory runs out.
pub(crate) fn record_at(
    alloc: Global,
    bytes: &[u8],
) -> Result<Option<(Record<'_>, usize)>, TraceRefusal>
    ensures read { IfOk result (λ o. MatchOption o (reading.record_at bytes.now ≡ More)
        (λ x. Begins bytes.now (record_of x.0) x.1)) }
    ensures refused { IfErr result (RecordRefused bytes.now) }
{
    bytes_fit(bytes);
    records_are_read();
    match read_record(alloc, bytes) {
        Ok(found) => Ok(found),
        Err(fault) => Err(refusal_of(fault)),
    }
}

// What is after an input.
#[derive(Drop)]
enum After<'a> {
    // the step's answer, in a record of `len` bytes
    Answer {
        mark: Mark,
        frames: &'a [u8],
        len: usize,
    },
    // that the input was not taken, in a record of this length
    Untaken(usize),
    // the process ended
    End,
    // it isn't known yet
    Unknown,
}

// What follows an input, if no whole record does.
fn after_end<'a>(ending: Ending) -> After<'a>
    ensures { (bytes : List ℕ) → reading.record_at bytes ≡ More → IsAfter bytes ending result }
{
    match ending {
        Ending::Unknown => After::Unknown,
        Ending::At { .. } => After::End,
    }
}

// What a record of this length tells of the input before it.
fn after_record<'a>(next: &Record<'a>, len: usize) -> Result<After<'a>, TraceRefusal>
    ensures after { IfOk result (λ after. (bytes : List ℕ) (ending : Ending)
        → Begins bytes (record_of next.now) len → IsAfter bytes ending after) }
    ensures refused { IfErr result (λ refusal. (bytes : List ℕ)
        → Begins bytes (record_of next.now) len → AfterRefused bytes refusal) }
{
    match next {
        Record::Answered { mark, frames } => Ok(After::Answer {
            mark: *mark,
            frames: *frames,
            len,
        }),
        Record::Untaken => Ok(After::Untaken(len)),
        Record::Reopened { .. } => Ok(After::End),
        Record::Took(_) => Err(TraceRefusal::Bytes),
    }
}

// What is at the front of these bytes, after an input.
fn after_at(alloc: Global, bytes: &[u8], ending: Ending) -> Result<After<'_>, TraceRefusal>
    ensures after { IfOk result (IsAfter bytes.now ending) }
    ensures refused { IfErr result (AfterRefused bytes.now) }
{
    let Some((record, len)) = record_at(alloc, bytes)? else {
        return Ok(after_end(ending));
    };
    let after = after_record(&record, len);
    drop(record);
    after
}

// What is told of an input, whose record takes `len` bytes.
fn told_of_input(
    alloc: Global,
    input: Input,
    bytes: &[u8],
    len: usize,
    ending: Ending,
) -> Result<Option<Item<'_>>, TraceRefusal>
    requires { len ≤ length bytes.now }
    ensures { Begins bytes.now (Took input) len → MatchResult result
        (λ o. MatchOption o (NeedsItem bytes.now ending) (IsItem bytes.now))
        (ItemRefused bytes.now) }
{
    match after_at(alloc, &bytes[len..], ending)? {
        After::Answer {
            mark,
            frames,
            len: more,
        } => Ok(Some(Item {
            told: Telling::Answered {
                input,
                mark,
                frames,
            },
            used: len + more,
        })),
        After::Untaken(more) => Ok(Some(Item {
            told: Telling::Untaken(input),
            used: len + more,
        })),
        After::End => Ok(Some(Item {
            told: Telling::Unanswered(input),
            used: len,
        })),
        After::Unknown => {
            drop(input);
            Ok(None)
        }
    }
}

/// What a trace tells next; None if more of its bytes are needed, if there are more.
///
/// # Errors
///
/// `Bytes` if no trace goes on with these bytes; `Memory` if memory runs out.
pub(crate) fn item_at(
    alloc: Global,
    bytes: &[u8],
    ending: Ending,
) -> Result<Option<Item<'_>>, TraceRefusal>
    ensures { MatchResult result
        (λ o. MatchOption o (NeedsItem bytes.now ending) (IsItem bytes.now))
        (ItemRefused bytes.now) }
{
    let Some((record, len)) = record_at(alloc, bytes)? else {
        return Ok(None);
    };
    match record {
        Record::Took(input) => told_of_input(alloc, input, bytes, len, ending),
        Record::Reopened { now, log_len } => {
            let told = Telling::Reopened { now, log_len };
            Ok(Some(Item { told, used: len }))
        }
        Record::Answered { .. } => Err(TraceRefusal::Bytes),
        Record::Untaken => Err(TraceRefusal::Bytes),
    }
}
