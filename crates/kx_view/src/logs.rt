//! Logs as they end: of each batch, what became of its transaction, and what readers are shown.
use crate::endings::Endings;
use crate::push::push;
use crate::seen::LogAt;
use kx_batch::{BatchView, RecordView};
use kx_message::Outcome;
use kx_page::{Fate, Log, LoggedBatch};
use std::alloc::{AllocError, Global};
use std::collections::HashMap;

// How many records of a batch are written out, and how many bytes of each.
const MOST_RECORDS: usize = 8;

const MOST_BYTES: usize = 48;

// A marker: how a producer's transaction ended, and at which offset that stands.
#[derive(Clone, Copy)]
struct Ended {
    outcome: Outcome,
    offset: i64,
}

// What a batch of the log is.
#[derive(Clone, Copy)]
struct Kind {
    producer: i64,
    is_transactional: bool,
    marker: Option<Outcome>,
}

// What became of a transaction that ended so.
fn fate_of(outcome: Outcome) -> Fate {
    match outcome {
        Outcome::Commit => Fate::Committed,
        Outcome::Abort => Fate::Aborted,
    }
}

// Adds the first bytes of a key or a value.
fn add_bytes(text: &mut Vec<u8>, bytes: &[u8]) -> Result<(), AllocError> {
    let (first, others) = bytes.split_at(bytes.len().min(MOST_BYTES));
    text.extend_from_slice(first)?;
    if others.is_empty() {
        return Ok(());
    }
    text.extend_from_slice(b"..")
}

// Adds a record: its key, if it has one, and its value.
fn add_record(text: &mut Vec<u8>, record: &RecordView<'_>) -> Result<(), AllocError> {
    if let Some(key) = record.key() {
        add_bytes(text, key)?;
        text.extend_from_slice(b"=")?;
    }
    match record.value() {
        Some(value) => add_bytes(text, value),
        None => text.extend_from_slice(b"null"),
    }
}

// Adds the first records of a batch.
fn add_records(text: &mut Vec<u8>, batch: &BatchView<'_>) -> Result<(), AllocError> {
    for (number, record) in batch.records().enumerate() {
        if number == MOST_RECORDS {
            return text.extend_from_slice(b", ..");
        }
        if number != 0 {
            text.extend_from_slice(b", ")?;
        }
        add_record(text, &record)?;
    }
    Ok(())
}

// The first records of a batch; none of a control batch.
fn records_of(alloc: Global, batch: &BatchView<'_>) -> Result<Vec<u8>, AllocError> {
    let mut text = Vec::new(alloc);
    if !batch.is_control() {
        add_records(&mut text, batch)?;
    }
    Ok(text)
}

// Who wrote a batch, and what it is.
fn words_of(alloc: Global, batch: &BatchView<'_>, kind: Kind) -> Result<String, AllocError> {
    let (id, epoch) = (kind.producer, batch.producer_epoch());
    match kind.marker {
        Some(outcome) => format!(in alloc; "{outcome} marker, producer {id} epoch {epoch}"),
        None if id < 0 => String::from_str(alloc, "no producer"),
        None => {
            let first = batch.base_sequence();
            format!(in alloc; "producer {id} epoch {epoch} sequence {first}")
        }
    }
}

// What a reader of committed records is shown of a batch, and why.
fn reading(kind: Kind, fate: Fate, offset: i64, stable: i64) -> &'static str {
    if kind.marker.is_some() {
        return "no: control batch";
    }
    match fate {
        Fate::Aborted => "no: its transaction is aborted",
        Fate::Open => "no: its transaction is open",
        _ if offset >= stable => "not yet: an earlier transaction is open",
        Fate::Committed => "yes: its transaction is committed",
        Fate::Plain => "yes: it is in no transaction",
    }
}

// What a batch is.
fn kind_of(batch: &BatchView<'_>) -> Kind {
    let marker = match batch.end_marker() {
        Some((outcome, _)) => Some(outcome),
        None => None,
    };
    Kind {
        producer: batch.producer_id(),
        is_transactional: batch.is_transactional(),
        marker,
    }
}

// Adds a batch, of whose transaction nothing is known yet.
fn add_batch(
    alloc: Global,
    batches: &mut Vec<LoggedBatch>,
    batch: &BatchView<'_>,
    kind: Kind,
) -> Result<(), AllocError> {
    let words = words_of(alloc, batch, kind)?;
    let records = records_of(alloc, batch)?;
    push(
        batches,
        LoggedBatch {
            offset: batch.base_offset(),
            kind: words,
            records,
            fate: Fate::Plain,
            reading: "",
        },
    )
}

// Adds the batches that these bytes are.
fn read(
    alloc: Global,
    batches: &mut Vec<LoggedBatch>,
    kinds: &mut Vec<Kind>,
    bytes: &[u8],
) -> Result<(), AllocError> {
    let mut rest = bytes;
    while let Ok((batch, behind)) = BatchView::read(rest) {
        let kind = kind_of(&batch);
        push(kinds, kind)?;
        add_batch(alloc, batches, &batch, kind)?;
        rest = behind;
    }
    Ok(())
}

// What became of a batch's transaction, by the first marker of its producer after it, and the offset
// of that marker, if it ended it.
fn ending_of(kind: Kind, after: Option<&Ended>) -> (Fate, Option<i64>) {
    if let Some(outcome) = kind.marker {
        return (fate_of(outcome), None);
    }
    match after {
        _ if !kind.is_transactional => (Fate::Plain, None),
        Some(ended) => (fate_of(ended.outcome), Some(ended.offset)),
        None => (Fate::Open, None),
    }
}

// Says of a batch what became of it, and answers its offset.
fn settle(logged: &mut LoggedBatch, kind: Kind, fate: Fate, stable: i64) -> i64 {
    let offset = logged.offset;
    logged.fate = fate;
    logged.reading = reading(kind, fate, offset, stable);
    offset
}

// Says of all batches of a log what became of them, from the end on, and notes it among the endings
// of the log's lane. These markers are after them, each the first of its producer.
fn judge(
    log: &mut Log,
    kinds: &[Kind],
    after: &mut HashMap<i64, Ended>,
    lane: usize,
    endings: &mut Endings,
) -> Result<(), AllocError> {
    let stable = log.stable;
    for number in (0..kinds.len()).rev() {
        let kind = kinds[number];
        let (fate, marker) = ending_of(kind, after.get(&kind.producer));
        let Some(logged) = log.batches.get_mut(number) else {
            continue;
        };
        let offset = settle(logged, kind, fate, stable);
        endings.settle(lane, offset, fate, marker)?;
        if let Some(outcome) = kind.marker {
            after.insert(kind.producer, Ended { outcome, offset })?;
        }
    }
    Ok(())
}

// Reads the batches that are in these texts, and says what became of them.
fn read_all(
    alloc: Global,
    log: &mut Log,
    texts: &[&[u8]],
    lane: usize,
    endings: &mut Endings,
) -> Result<(), AllocError> {
    let mut kinds = Vec::new(alloc);
    for text in texts {
        read(alloc, &mut log.batches, &mut kinds, text)?;
    }
    let mut after = HashMap::new(alloc);
    let judged = judge(log, kinds.as_slice(), &mut after, lane, endings);
    drop(after);
    judged
}

/// A log of this name as it ends, whose batches are in these texts. What became of them is noted
/// among the endings of its lane.
///
/// # Errors
///
/// Only if memory runs out.
pub(crate) fn read_log(
    alloc: Global,
    name: String,
    at: LogAt,
    texts: &[&[u8]],
    lane: usize,
    endings: &mut Endings,
) -> Result<Log, AllocError> {
    let mut log = Log {
        name,
        stable: at.stable,
        end: at.end,
        batches: Vec::new(alloc),
    };
    read_all(alloc, &mut log, texts, lane, endings)?;
    Ok(log)
}
