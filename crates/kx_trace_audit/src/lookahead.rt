//! Whether the entry of an append stood that a step of a trace leaves open, by what follows the
//! step in the trace.
ghost use Rattle.std.specs.Prelude.{◌≡◌, MatchOption, MatchResult};
ghost use Rattle.kx_trace.specs.Reading as reading;
ghost use Rattle.kx_trace.specs.Reading.{More};
ghost use Rattle.kx_trace.specs.Records.{record_of};
ghost use Rattle.kx_trace_audit.specs.Items.{RecordRefused, RestRefused};
ghost use Rattle.kx_trace_audit.specs.Lookahead as lookahead;
ghost use Rattle.kx_trace_audit.specs.Lookahead.{EntryIsTold, EpochIsTold, is_restart};
ghost use Rattle.kx_trace_audit.specs.Lookahead.{written_at, written_by};
ghost use Rattle.kx_trace_audit.specs.Internal.{LooksAt};

use crate::ending::Ending;
use crate::item::record_at;
use crate::refusal::TraceRefusal;
use kx_machine::Input;
use kx_nodes::Mark;
use kx_trace::Record;
use std::alloc::Global;

// Whether an entry stood that an append before a restart of this mark left open; None if the
// restart couldn't read the log.
fn stood_by(mark: Mark) -> Option<bool>
    ensures { result ≡ lookahead.stood_by mark }
{
    match mark {
        Mark::Unread => None,
        Mark::Found | Mark::UsedUp => Some(true),
        Mark::Unwritten { found } => Some(found),
        Mark::Worked | Mark::Failed => Some(false),
    }
}

// Whether this record tells that an entry stood after a log of `log_len` bytes, if it tells of it.
// `restarts` says whether the record before it is a restart's.
fn told_by(next: &Record<'_>, restarts: bool, log_len: u64) -> Option<bool>
    ensures { result ≡ lookahead.told_by log_len restarts (record_of next.now) }
{
    match next {
        Record::Reopened { log_len: found, .. } => Some(*found > log_len),
        Record::Answered { mark, .. } if restarts => stood_by(*mark),
        _ => None,
    }
}

// Whether the record is that of a restart which the node took.
fn is_restart(next: &Record<'_>) -> bool
    ensures { result ≡ is_restart (record_of next.now) }
{
    matches!(next, Record::Took(Input::Restart(_)))
}

// Whether an entry stood after a log of `log_len` bytes, by the end of the trace; None if it
// isn't known whether it ends.
fn stood_at(ending: Ending, log_len: u64) -> Option<bool>
    ensures { result ≡ lookahead.stood_at ending log_len }
{
    match ending {
        Ending::Unknown => None,
        Ending::At { log_len: None } => Some(false),
        Ending::At {
            log_len: Some(found),
        } => Some(found > log_len),
    }
}

// What a record tells of an entry, whether it is a restart's, and how many bytes it takes.
#[derive(Clone, Copy)]
struct Looked {
    told: Option<bool>,
    restarts: bool,
    len: usize,
}

// Looks at the record at the front; None if it isn't whole.
fn look_at(
    alloc: Global,
    bytes: &[u8],
    restarts: bool,
    log_len: u64,
) -> Result<Option<Looked>, TraceRefusal>
    ensures { MatchResult result
        (λ o. MatchOption o (reading.record_at bytes.now ≡ More)
        (LooksAt log_len restarts bytes.now))
        (RecordRefused bytes.now) }
{
    let Some((record, len)) = record_at(alloc, bytes)? else {
        return Ok(None);
    };
    let told = told_by(&record, restarts, log_len);
    let restarts = is_restart(&record);
    drop(record);
    Ok(Some(Looked {
        told,
        restarts,
        len,
    }))
}

/// Whether the entry stood that a step was to append to a log of `log_len` bytes, by the bytes that
/// follow the step; None if more of them are needed.
///
/// # Errors
///
/// `Bytes` if no trace goes on with these bytes; `Memory` if memory runs out.
pub(crate) fn entry_stood(
    alloc: Global,
    bytes: &[u8],
    ending: Ending,
    log_len: u64,
) -> Result<Option<bool>, TraceRefusal>
    ensures { MatchResult result (EntryIsTold log_len ending bytes.now) (RestRefused bytes.now) }
{
    let mut rest = bytes;
    let mut restarts = false;
    while let Some(looked) = look_at(alloc, rest, restarts, log_len)? {
        if let Some(stood) = looked.told {
            return Ok(Some(stood));
        }
        restarts = looked.restarts;
        rest = &rest[looked.len..];
    }
    Ok(stood_at(ending, log_len))
}

// Whether an opening that found `log_len` bytes wrote its epoch, by the record after it.
fn written_by(next: &Record<'_>, log_len: u64) -> bool
    ensures { result ≡ written_by log_len (record_of next.now) }
{
    match next {
        Record::Reopened { log_len: found, .. } => *found > log_len,
        _ => true,
    }
}

// Whether such an opening wrote its epoch, by the end of the trace; None if it isn't known
// whether it ends.
fn written_at(ending: Ending, log_len: u64) -> Option<bool>
    ensures { result ≡ written_at ending log_len }
{
    match ending {
        Ending::Unknown => None,
        Ending::At { log_len: None } => Some(true),
        Ending::At {
            log_len: Some(found),
        } => Some(found > log_len),
    }
}

/// Whether an opening that found `log_len` bytes wrote its epoch, by the bytes that follow it; None
/// if more of them are needed.
///
/// # Errors
///
/// `Bytes` if no trace goes on with these bytes; `Memory` if memory runs out.
pub(crate) fn epoch_stood(
    alloc: Global,
    bytes: &[u8],
    ending: Ending,
    log_len: u64,
) -> Result<Option<bool>, TraceRefusal>
    ensures { MatchResult result (EpochIsTold log_len ending bytes.now) (RestRefused bytes.now) }
{
    match record_at(alloc, bytes)? {
        Some((record, _)) => {
            let is_written = written_by(&record, log_len);
            drop(record);
            Ok(Some(is_written))
        }
        None => Ok(written_at(ending, log_len)),
    }
}
