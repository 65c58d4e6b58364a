//! The log of a partition, on a store that is made to fail. `open NTH KEEP BYTES` opens what bytes
//! hold, on a store whose NTH append fails and leaves KEEP bytes (0: none fails); `append BATCH`,
//! `appends COUNT BATCH`, `arm KEEP`, `disarm`, `arm-load`, `disarm-load` and `reopen` go on with
//! it; `end`, `failures`, `takes COUNT`, `first` and `slice FROM UPPER MAX` tell of it; `stored`
//! reports how many bytes its store has, and opens it anew. The other steps are sweeps, each over
//! logs of its own.
use crate::stores::{FailingStore, failing};
use crate::sweeps::{bits, cuts, failures, flips, grow};
use kx_batch::BatchView;
use kx_cases::{Runs, StepFault, Subject, Texts, told, told_name, told_option, told_value, value};
use kx_log::{AppendFault, OpenFault, PartitionLog, Store, StoreFault};
use std::alloc::Global;
use std::mem;

/// The log of a case.
#[derive(Drop)]
pub(crate) struct LogCases {
    alloc: Global,
    log: Option<PartitionLog<FailingStore>>,
}

/// A log on a store, or the fault.
pub fn opened<S: Store>(alloc: Global, store: S) -> Result<PartitionLog<S>, OpenFault> {
    match PartitionLog::open(alloc, store) {
        Ok(log) => Ok(log),
        Err((fault, store)) => {
            drop(store);
            Err(fault)
        }
    }
}

/// Appends the batch that the bytes are; no bytes but a batch are appended.
pub fn append<S: Store>(
    log: &mut PartitionLog<S>,
    text: &[u8],
) -> Result<Result<i64, AppendFault>, StepFault> {
    match BatchView::read(text) {
        Ok((batch, _)) => Ok(log.append_batch(batch.text())),
        Err(_) => Err(StepFault::Unknown),
    }
}

/// The store is read again, and the log goes on with it; its end then.
pub fn reopened<S: Store>(log: &mut PartitionLog<S>) -> Result<i64, OpenFault> {
    let content = log.reload()?;
    let end = content.end();
    drop(log.install(content));
    Ok(end)
}

// The offset of the first record of a batch.
fn offset_of(text: &[u8]) -> Result<i64, StepFault> {
    match BatchView::read(text) {
        Ok((batch, _)) => Ok(batch.base_offset()),
        Err(_) => Err(StepFault::Unknown),
    }
}

// The first offsets of the batches of a range, how many there were and are left, and how many were
// passed on the way.
fn slice(
    alloc: Global,
    log: &PartitionLog<FailingStore>,
    from: i64,
    upper: i64,
    max: u32,
) -> Result<String, StepFault> {
    let mut slices = log.slice(from, upper, max);
    let count = slices.len();
    let mut text = String::new(alloc);
    for batch in slices.by_ref() {
        write!(text, "{} ", offset_of(batch)?)?;
    }
    let left = slices.len();
    let passed = slices.passed();
    write!(text, "of {count}, left {left}, passed {passed}")?;
    Ok(text)
}

fn slice_step(
    alloc: Global,
    log: &PartitionLog<FailingStore>,
    words: &[&str],
) -> Result<String, StepFault> {
    let [from, upper, max] = words else {
        return Err(StepFault::Unknown);
    };
    slice(alloc, log, value(from)?, value(upper)?, value(max)?)
}

// The first offset of the log.
fn first_of(log: &PartitionLog<FailingStore>) -> Option<i64> {
    Some(log.batches().next()?.base_offset())
}

// The answers to a batch that is appended so often: the offset that is due, or what came.
fn appends(
    alloc: Global,
    log: &mut PartitionLog<FailingStore>,
    count: u32,
    text: &[u8],
) -> Result<String, StepFault> {
    let mut runs = Runs::new(alloc);
    for number in 0..count {
        let answer = match append(log, text)? {
            Ok(offset) if offset == i64::from(number) => String::from_str(alloc, "its number")?,
            other => told(alloc, other)?,
        };
        runs.push(number as usize, answer)?;
    }
    Ok(runs.finish()?)
}

// How many bytes a store has.
fn stored_in<S: Store>(store: &mut S) -> Result<usize, StoreFault> {
    Ok(store.load()?.len())
}

// What the log is told.
fn log_command(log: &mut PartitionLog<FailingStore>, words: &[&str]) -> Result<(), StepFault> {
    match words {
        ["arm", keep] => log.arm(Some(value(keep)?)),
        ["disarm"] => log.arm(None),
        ["arm-load"] => log.arm_load(true),
        ["disarm-load"] => log.arm_load(false),
        _ => return Err(StepFault::Unknown),
    }
    Ok(())
}

// What the log tells, or takes.
fn log_step(
    alloc: Global,
    log: &mut PartitionLog<FailingStore>,
    words: &[&str],
) -> Result<String, StepFault> {
    match words {
        ["end"] => told_value(alloc, log.end()),
        ["failures"] => told_value(alloc, log.failures()),
        ["takes", count] => told_value(alloc, log.can_take(value(count)?)),
        ["first"] => told_option(alloc, first_of(log)),
        ["slice", given @ ..] => slice_step(alloc, log, given),
        ["reopen"] => told(alloc, reopened(log)),
        _ => {
            log_command(log, words)?;
            told_value(alloc, "ok")
        },
    }
}

impl LogCases {
    // Opens a log, and reports its end.
    fn open(&mut self, bytes: Vec<u8>, nth: u64, keep: u64) -> Result<String, StepFault> {
        match opened(self.alloc, failing(bytes, nth, keep)) {
            Ok(log) => {
                let end = log.end();
                drop(self.log.replace(log));
                told_value(self.alloc, end)
            }
            Err(fault) => told_name(self.alloc, fault),
        }
    }

    // How many bytes the log's store has. The log is opened anew on it.
    fn stored(&mut self) -> Result<String, StepFault> {
        let log = self.log.take().ok_or(StepFault::Unknown)?;
        let mut store = log.into_store();
        let Ok(count) = stored_in(&mut store) else {
            drop(store);
            return Err(StepFault::Unknown);
        };
        drop(mem::replace(&mut self.log, opened(self.alloc, store).ok()));
        told_value(self.alloc, count)
    }

    // A step that takes a batch, or that tells of the log.
    fn step(&mut self, texts: &Texts, words: &[&str]) -> Result<String, StepFault> {
        let log = self.log.as_mut().ok_or(StepFault::Unknown)?;
        match words {
            ["append", text] => told(self.alloc, append(log, texts.bytes(text)?.as_slice())?),
            ["appends", count, text] => {
                appends(
                    self.alloc,
                    log,
                    value(count)?,
                    texts.bytes(text)?.as_slice(),
                )
            }
            _ => log_step(self.alloc, log, words),
        }
    }

    // A step on logs of its own, or on the one that is open.
    fn sweep(&mut self, texts: &Texts, words: &[&str]) -> Result<String, StepFault> {
        let alloc = self.alloc;
        match words {
            ["size", bytes] => told_value(alloc, texts.bytes(bytes)?.len()),
            ["cuts", bytes] => cuts(alloc, texts.bytes(bytes)?.as_slice()),
            ["flips", from, to, bytes] => {
                flips(alloc, value(from)?, value(to)?, texts.bytes(bytes)?)
            }
            _ => self.numbered(texts, words),
        }
    }

    // The same of a sweep that takes one number.
    fn numbered(&mut self, texts: &Texts, words: &[&str]) -> Result<String, StepFault> {
        let alloc = self.alloc;
        match words {
            ["bits", place, bytes] => bits(alloc, value(place)?, texts.bytes(bytes)?),
            ["grow", count, text] => grow(alloc, value(count)?, texts.bytes(text)?.as_slice()),
            ["failing", keeps, given @ ..] => failures(alloc, value(keeps)?, texts, given),
            _ => self.step(texts, words),
        }
    }
}

impl Subject for LogCases {
    fn new(alloc: Global) -> Self {
        LogCases { alloc, log: None }
    }

    fn answer(&mut self, texts: &Texts, words: &[&str]) -> Result<String, StepFault> {
        match words {
            ["open", nth, keep, bytes] => {
                self.open(texts.bytes(bytes)?, value(nth)?, value(keep)?)
            }
            ["stored"] => self.stored(),
            _ => self.sweep(texts, words),
        }
    }
}
