//! What is told of a page.
use crate::parts::or_dash;
use kx_batch::RecordView;
use kx_cases::StepFault;
use kx_message::AbortedTxn;
use kx_partition::FetchPage;
use kx_reader::Committed;
use std::alloc::{AllocError, Global};
use std::str;

// Tells aborted transactions, each as `ID:FIRST`, or `-` for none.
fn tell_aborted(told: &mut String, txns: &[AbortedTxn]) -> Result<(), AllocError> {
    if txns.is_empty() {
        return told.push_str("-");
    }
    let mut parted = "";
    for txn in txns {
        write!(told, "{parted}{}:{}", txn.id, txn.first)?;
        parted = ",";
    }
    Ok(())
}

// Tells where the page begins and ends, the log's ends, how many batches it has, and what it names.
fn tell_numbers(told: &mut String, page: &FetchPage<'_>) -> Result<(), AllocError> {
    let (from, next) = (page.from(), page.next());
    let (stable, end) = (page.last_stable_offset(), page.end());
    let count = page.batches().len();
    write!(
        told,
        "from {from} next {next} lso {stable} end {end} batches {count} aborted "
    )?;
    tell_aborted(told, page.aborted())
}

// Reports the base offsets of the page's batches, or `-` for none.
fn tell_bases(told: &mut String, page: &FetchPage<'_>) -> Result<(), AllocError> {
    for (at, batch) in page.batches().enumerate() {
        let parted = if at == 0 { "" } else { " " };
        write!(told, "{parted}{}", batch.base_offset())?;
    }
    or_dash(told)
}

// Tells a record as `OFFSET VALUE`, after what parts it from the one before.
fn tell_record(
    told: &mut String,
    parted: &str,
    offset: i64,
    record: &RecordView<'_>,
) -> Result<(), AllocError> {
    let value = match record.value() {
        Some(value) => str::from_utf8(value).unwrap_or("?"),
        None => "null",
    };
    write!(told, "{parted}{offset} {value}")
}

// Reports the records that a reader of committed records gets of the page, or `-` for none.
fn tell_records(alloc: Global, told: &mut String, page: FetchPage<'_>) -> Result<(), AllocError> {
    for (offset, record) in Committed::new(alloc, page)? {
        let parted = if told.is_empty() { "" } else { "; " };
        tell_record(told, parted, offset, &record)?;
    }
    or_dash(told)
}

// Reports what a step of this name asks of a page.
fn tell(
    alloc: Global,
    told: &mut String,
    what: &str,
    page: FetchPage<'_>,
) -> Result<(), StepFault> {
    let done = match what {
        "page" => tell_numbers(told, &page),
        "bases" => tell_bases(told, &page),
        "aborted" => tell_aborted(told, page.into_aborted().as_slice()),
        "records" => tell_records(alloc, told, page),
        _ => return Err(StepFault::Unknown),
    };
    done.map_err(StepFault::Memory)
}

/// What a step asks of a page.
pub fn shown(alloc: Global, what: &str, page: FetchPage<'_>) -> Result<String, StepFault> {
    let mut told = String::new(alloc);
    tell(alloc, &mut told, what, page)?;
    Ok(told)
}
