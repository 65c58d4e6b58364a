//! The steps of a server, by the traces that it left, for a page.
use crate::auditing::{Ending, ServerAudit, refused_at};
use crate::denial::Stop;
use crate::fault::AuditFault;
use crate::file::AuditFile;
use crate::left::ServerFiles;
use crate::server::{find, stop_at};
use crate::sources::Source;
use crate::traces::Traces;
use kx_trace_audit::{ToldStep, TraceOf};
use std::alloc::{AllocError, Global};
use std::io::Read;

/// Drops steps. A crate that ends them by this call, and not by dropping them, need not prove the drop
/// of each of their types.
pub fn end_steps(steps: Vec<ToldStep>) {
    drop(steps);
}

// Keeps a step, if one is told.
fn keep(steps: &mut Vec<ToldStep>, told: Option<ToldStep>) -> Result<(), AllocError> {
    if let Some(step) = told {
        steps.push(step)?;
    }
    Ok(())
}

// Goes on by one item of a trace, or reads on if it needs that, and keeps the step that is made;
// says whether the trace went on.
fn go_on<R: Eprint, I: Read + Drop>(
    rt: &R,
    audit: &mut ServerAudit,
    trace: usize,
    source: &mut Source<I>,
    steps: &mut Vec<ToldStep>,
) -> Result<bool, Ending> {
    let told = match audit.audit.next(trace) {
        Ok(told) => told,
        Err(why) => return Err(refused_at(trace, audit.audit.items(trace), why)),
    };
    let went_on = audit.go_on(rt, trace, source);
    if matches!(went_on, Ok(true)) {
        keep(steps, told)?;
    } else {
        drop(told);
    }
    went_on
}

// Goes on by an item in each trace, one after the other, until none goes on.
fn go_all<R: Eprint, I: Read + Drop>(
    rt: &R,
    audit: &mut ServerAudit,
    sources: &mut Vec<Source<I>>,
    steps: &mut Vec<ToldStep>,
) -> Result<(), Ending> {
    for _ in 0..u64::MAX {
        let mut went_on = false;
        for trace in 0..sources.len() {
            went_on |= go_on(rt, audit, trace, &mut sources[trace], steps)?;
        }
        if !went_on {
            break;
        }
    }
    Ok(())
}

// Sees that the traces tell all steps of their nodes.
fn check_all_told(of: &[TraceOf]) -> Result<(), AuditFault> {
    for one in of {
        if one.opened.is_some() {
            return Err(AuditFault::Later(AuditFile::Trace(one.node)));
        }
    }
    Ok(())
}

// The steps of traces that were found.
fn steps_in<R: Eprint, I: Read + Drop>(
    rt: &R,
    alloc: Global,
    traces: &mut Traces<I>,
) -> Result<Vec<ToldStep>, AuditFault> {
    check_all_told(traces.of.as_slice())?;
    let Ok(mut audit) = ServerAudit::new(alloc, traces.of.as_slice(), false) else {
        return Err(AuditFault::Memory);
    };
    let mut steps = Vec::new(alloc);
    let ended = go_all(rt, &mut audit, &mut traces.sources, &mut steps);
    drop(audit);
    if let Err(ending) = ended {
        if let Stop::Fault(fault) = stop_at(traces.of.as_slice(), ending) {
            end_steps(steps);
            return Err(fault);
        }
    }
    Ok(steps)
}

/// The steps of a server by the traces that it left, in an order in which an audit makes them again,
/// up to where it refuses or no trace goes on. `compares_logs` says whether the logs are looked at.
///
/// # Errors
///
/// As [`AuditFault`] has them: `Later` if a trace was begun on a log that was there before.
pub fn server_steps<R: AllocGlobal + Eprint, F: ServerFiles>(
    rt: &R,
    files: &F,
    compares_logs: bool,
) -> Result<Vec<ToldStep>, AuditFault> {
    match find(files, rt.alloc(), compares_logs) {
        Ok(mut traces) => {
            let steps = steps_in(rt, rt.alloc(), &mut traces);
            drop(traces);
            steps
        }
        Err(Stop::No(_)) => Ok(Vec::new(rt.alloc())),
        Err(Stop::Fault(fault)) => Err(fault),
    }
}
