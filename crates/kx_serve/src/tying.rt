//! Which traces go with which logs: a folder of logs and the folder of its traces have the same mark,
//! and a server that runs on the logs without these traces leaves another one.
ghost use Rattle.std.specs.Prelude.{◌≡◌};
ghost use Rattle.kx_serve.specs.Tying.{tie_of};

use crate::fault::ServeFault;
use crate::options::ServeOptions;
use kx_message::PartitionId;
use kx_server::moment;
use kx_trace::TracedNode;
use kx_trace_files::TraceName;
use std::fs::{File, Files};
use std::io::{ErrorKind, Write};
use std::time::Clock;
use std::{fs, io};

// The files of the marks. The folders may be one.
const LOGS_MARK: &str = "traced-as";

const TRACES_MARK: &str = "trace.id";

// The mark of logs on which a server ran that wrote no traces.
const UNTRACED: &[u8] = b"-";

// How a folder of traces goes with a folder of logs.
#[derive(Clone, Copy)]
pub(crate) enum Tie {
    // the traces begin now, or are from before there were marks: both get a new one
    Untied,
    // the traces go on
    Same,
    // steps were taken on the logs of which these traces don't tell
    Other,
}

// How traces go with logs, by whether there are traces, and by the marks of both, of which an empty
// one is none.
pub(crate) fn tie_of(has_traces: bool, traces: &[u8], logs: &[u8]) -> Tie
    ensures { result ≡ tie_of has_traces traces.now logs.now }
{
    if !has_traces || logs.is_empty() {
        Tie::Untied
    } else if traces == logs {
        Tie::Same
    } else {
        Tie::Other
    }
}

// The mark of a folder; empty if it has none.
fn mark_in<R: Files<File = File> + AllocGlobal>(
    rt: &R,
    dir: &str,
    name: &str,
) -> io::Result<Vec<u8>> {
    let path = format!(in rt.alloc(); "{dir}/{name}")?;
    match fs::read(rt, path.as_str()) {
        Ok(mark) => Ok(mark),
        Err(error) if error.kind() == ErrorKind::NotFound => Ok(Vec::new(rt.alloc())),
        Err(error) => Err(error),
    }
}

/// Gives a folder a file of this name with this text. The device has it when this returns.
pub(crate) fn mark<R: Files<File = File> + AllocGlobal>(
    rt: &R,
    dir: &str,
    name: &str,
    text: &[u8],
) -> io::Result<()> {
    let path = format!(in rt.alloc(); "{dir}/{name}")?;
    let mut file = File::create(rt, path.as_str())?;
    file.write_all(text)?;
    file.sync_all()?;
    File::open(rt, dir)?.sync_all()
}

/// What an error of the system is to a folder of logs.
pub(crate) fn logs_fault(error: &io::Error) -> ServeFault {
    match error.kind() {
        ErrorKind::OutOfMemory => ServeFault::Memory,
        why => ServeFault::Folder { why },
    }
}

// What an error of the system is to a folder of traces.
fn traces_fault(error: &io::Error) -> ServeFault {
    match error.kind() {
        ErrorKind::OutOfMemory => ServeFault::Memory,
        why => ServeFault::TraceFolder { why },
    }
}

// Removes the trace of a node, if there is one.
fn remove<R: Files<File = File> + AllocGlobal>(
    rt: &R,
    dir: &str,
    node: TracedNode,
) -> io::Result<()> {
    let path = TraceName { node }.path_in(rt.alloc(), dir)?;
    match fs::remove_file(rt, path.as_str()) {
        Err(error) if error.kind() != ErrorKind::NotFound => Err(error),
        _ => Ok(()),
    }
}

// Removes the traces of a folder, the coordinator's last: while that is there, there are traces.
fn remove_all<R: Files<File = File> + AllocGlobal>(rt: &R, dir: &str) -> io::Result<()> {
    remove(rt, dir, TracedNode::Partition(PartitionId::OFFSETS))?;
    for number in 0..PartitionId::DATA_COUNT {
        if let Ok(partition) = PartitionId::try_from(number) {
            remove(rt, dir, TracedNode::Partition(partition))?;
        }
    }
    remove(rt, dir, TracedNode::Coordinator)
}

// Gives both folders a new mark, that of the traces first: logs without one go with any traces.
fn tie_anew<R: Files<File = File> + AllocGlobal + Clock>(
    rt: &R,
    logs: &str,
    traces: &str,
) -> Result<(), ServeFault> {
    let now = moment(rt).unwrap_or(0);
    let text = format!(in rt.alloc(); "{now}")?;
    match mark(rt, traces, TRACES_MARK, text.as_bytes()) {
        Ok(()) => {}
        Err(error) => return Err(traces_fault(&error)),
    }
    match mark(rt, logs, LOGS_MARK, text.as_bytes()) {
        Ok(()) => Ok(()),
        Err(error) => Err(logs_fault(&error)),
    }
}

// The coordinator's trace: while it is there, there are traces.
fn coordinators_trace() -> TraceName {
    TraceName {
        node: TracedNode::Coordinator,
    }
}

// The fault of traces that don't go with the logs.
fn elsewhere() -> ServeFault {
    ServeFault::Elsewhere {
        file: coordinators_trace(),
    }
}

// Sees that the traces of a folder go with the logs of another.
fn check_tie<R: Files<File = File> + AllocGlobal + Clock>(
    rt: &R,
    logs: &str,
    traces: &str,
) -> Result<(), ServeFault> {
    let path = coordinators_trace().path_in(rt.alloc(), traces)?;
    let has_traces = fs::metadata(rt, path.as_str()).is_ok();
    let of_traces = match mark_in(rt, traces, TRACES_MARK) {
        Ok(mark) => mark,
        Err(error) => return Err(traces_fault(&error)),
    };
    let of_logs = match mark_in(rt, logs, LOGS_MARK) {
        Ok(mark) => mark,
        Err(error) => return Err(logs_fault(&error)),
    };
    match tie_of(has_traces, of_traces.as_slice(), of_logs.as_slice()) {
        Tie::Untied => tie_anew(rt, logs, traces),
        Tie::Same => Ok(()),
        Tie::Other => Err(elsewhere()),
    }
}

// Notes that a server runs on the logs of a folder that writes no traces.
fn untie<R: Files<File = File> + AllocGlobal>(rt: &R, logs: &str) -> io::Result<()> {
    let found = mark_in(rt, logs, LOGS_MARK)?;
    if found.as_slice() == UNTRACED {
        return Ok(());
    }
    mark(rt, logs, LOGS_MARK, UNTRACED)
}

/// Sees that the traces go with the logs, before either is opened; those that are to begin anew are
/// removed first. Of logs in memory nothing is kept.
///
/// # Errors
///
/// `Elsewhere` if a server ran on the logs without these traces; `Folder`, `TraceFolder` and
/// `Memory`.
pub(crate) fn tie_folders<R: Files<File = File> + AllocGlobal + Clock>(
    rt: &R,
    options: &ServeOptions<'_>,
) -> Result<(), ServeFault> {
    if let (Some(traces), true) = (options.traces, options.new_traces) {
        match remove_all(rt, traces) {
            Ok(()) => {}
            Err(error) => return Err(traces_fault(&error)),
        }
    }
    match (options.dir, options.traces) {
        (Some(logs), Some(traces)) => check_tie(rt, logs, traces),
        (Some(logs), None) => match untie(rt, logs) {
            Ok(()) => Ok(()),
            Err(error) => Err(logs_fault(&error)),
        },
        (None, _) => Ok(()),
    }
}
