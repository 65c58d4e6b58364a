//! What is told of a page of a published log.
use kx_cases::StepFault;
use kx_message::ErrorCode;
use kx_partition::{FetchFault, FetchPage};
use kx_published::book::Naming;
use kx_published::ends::{PageReader, Published};
use kx_text::{DEFAULT_MAX, Mode, show};
use std::alloc::{AllocError, Global};
use std::str;

/// From which offset on a page is taken, and which records are shown.
#[derive(Clone, Copy)]
pub(crate) struct View {
    pub(crate) from: i64,
    pub(crate) mode: Mode,
}

// The records of a page, and where it ends.
fn tell_page(
    alloc: Global,
    told: &mut String,
    page: FetchPage<'_>,
    view: View,
) -> Result<(), StepFault> {
    let mut bytes = Vec::new(alloc);
    if let Err(_) = show(alloc, page, view.from, view.mode, &mut bytes) {
        return Err(StepFault::Memory(AllocError));
    }
    match str::from_utf8(bytes.as_slice()) {
        Ok(text) => Ok(told.push_str(text)?),
        Err(_) => Err(StepFault::Unknown),
    }
}

fn tell_refused(told: &mut String, code: ErrorCode) -> Result<(), StepFault> {
    Ok(writeln!(told, "refused {code}")?)
}

/// A page of a published log: its records, and where it ends.
pub(crate) fn tell_published(
    alloc: Global,
    told: &mut String,
    published: &Published<'_>,
    view: View,
) -> Result<(), StepFault> {
    match published.page(view.from, DEFAULT_MAX, view.mode.is_committed()) {
        Ok(page) => tell_page(alloc, told, page, view),
        Err(FetchFault::Refused(code)) => tell_refused(told, code),
        Err(FetchFault::Memory) => Err(StepFault::Memory(AllocError)),
    }
}

/// That a reader finds no published log.
pub(crate) fn tell_gone(told: &mut String) -> Result<(), StepFault> {
    Ok(writeln!(told, "gone")?)
}

/// Has a reader enter, and reports the page that it gets. It stays in the log.
pub(crate) fn tell_entered<J: Naming>(
    alloc: Global,
    told: &mut String,
    reader: &mut PageReader<J>,
    view: View,
) -> Result<(), StepFault> {
    match reader.enter() {
        Ok(published) => tell_published(alloc, told, &published, view),
        Err(_) => tell_gone(told),
    }
}
