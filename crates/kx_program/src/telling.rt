//! What a fault is about, in front of its words, and why the system refuses that, behind them.
ghost use Rattle.std.specs.Prelude.{◌≡◌, ◌++◌, option_map};
ghost use Rattle.kx_program.specs.Endings.{ending_of_audit};
ghost use Rattle.kx_program.specs.Telling.{audit_about, front_of};
ghost use Rattle.kx_text.specs.Statuses.{ending_of};

use crate::streams::failed;
use crate::task::Auditing;
use kx_message::PartitionId;
use kx_serve::{About, Folders, ServeFault, refusal};
use kx_server_audit::{AuditFault, AuditFile};
use kx_text::Ending;
use kx_trace::TracedNode;
use std::alloc::Global;
use std::fs::{File, Files, TryLockError};
use std::io::{ErrorKind, Read, Write};
use std::net::{Net, TcpListener, TcpStream};
use std::{fs, io};

// The folder that a fault is about, and what parts its name from the fault's words. Both are empty
// if it is about none.
fn front_of<'a>(about: About, folders: Folders<'a>) -> (&'a str, &'static str)
    ensures { result.0.now ++ result.1.now ≡ front_of about
        (option_map (λ d. d.now) folders.entry.logs)
        (option_map (λ d. d.now) folders.entry.traces) }
{
    match (about, folders.logs, folders.traces) {
        (About::Logs, Some(folder), _) => (folder, ": "),
        (About::InLogs, Some(folder), _) => (folder, "/"),
        (About::Traces, _, Some(folder)) => (folder, ": "),
        (About::InTraces, _, Some(folder)) => (folder, "/"),
        _ => ("", ""),
    }
}

// Why the system refuses what a fault is about, to be behind its words.
fn because(alloc: Global, refused: Option<io::Error>) -> String {
    match refused {
        Some(error) => match format!(in alloc; ": {error}") {
            Ok(words) => words,
            Err(_) => String::new(alloc),
        },
        None => String::new(alloc),
    }
}

/// How the program ends when a server with these folders has ended. Of a fault it writes a line on
/// standard error, with the folder or the file and what the system says of it.
pub(crate) fn served_ending<
    R: Net<Listener = TcpListener, Stream = TcpStream> + Files<File = File> + AllocGlobal,
    E: Write,
>(rt: &R, folders: Folders<'_>, served: Result<(), ServeFault>, errors: &mut E) -> Ending
    ensures { result ≡ ending_of served }
{
    match served {
        Ok(()) => Ending::Done,
        Err(fault) => {
            let (folder, parted) = front_of(fault.about(), folders);
            let why = because(rt.alloc(), refusal(rt, fault, folders));
            failed(errors, format_args!("{folder}{parted}{fault}{why}"))
        }
    }
}

// What a fault of an audit is about.
fn audit_about(fault: AuditFault) -> About
    ensures { result ≡ audit_about fault }
{
    match fault {
        AuditFault::NoTraces => About::Traces,
        AuditFault::Read(AuditFile::Trace(_)) => About::InTraces,
        AuditFault::Read(AuditFile::Log(_)) => About::InLogs,
        AuditFault::NoTrace(_) | AuditFault::Version(_) | AuditFault::Later(_) => About::InTraces,
        AuditFault::Write | AuditFault::Memory => About::Neither,
    }
}

// Why a folder can't be had. None if it is there.
fn missing_folder<R: Files<File = File>>(rt: &R, path: &str) -> Option<io::Error> {
    match fs::metadata(rt, path) {
        Ok(found) if found.is_dir() => None,
        Ok(_) => Some(io::Error::from(ErrorKind::NotADirectory)),
        Err(error) => Some(error),
    }
}

// Why a file can't be read. None if its first byte can.
fn unreadable<R: Files<File = File>>(rt: &R, path: &str) -> Option<io::Error> {
    match fs::open(rt, path) {
        Ok(mut file) => file.read(&mut [0u8]).err(),
        Err(error) => Some(error),
    }
}

// Why a file in a folder can't be read.
fn unreadable_in<R: Files<File = File> + AllocGlobal>(
    rt: &R,
    folder: Option<&str>,
    file: AuditFile,
) -> Option<io::Error> {
    match file.path_in(rt.alloc(), folder?) {
        Ok(path) => unreadable(rt, path.as_str()),
        Err(_) => None,
    }
}

// Why the system refuses the file or the folder that a fault of an audit is about. None if it
// refuses nothing, or not any more.
fn refused_audit<R: Files<File = File> + AllocGlobal>(
    rt: &R,
    folders: Folders<'_>,
    fault: AuditFault,
) -> Option<io::Error> {
    match fault {
        AuditFault::NoTraces => missing_folder(rt, folders.traces?),
        AuditFault::Read(file) => match file {
            AuditFile::Trace(_) => unreadable_in(rt, folders.traces, file),
            AuditFile::Log(_) => unreadable_in(rt, folders.logs, file),
        },
        _ => None,
    }
}

// Whether a file of a server is in a folder, and has bytes.
fn has_bytes<R: Files<File = File> + AllocGlobal>(rt: &R, folder: &str, file: AuditFile) -> bool {
    let Ok(path) = file.path_in(rt.alloc(), folder) else {
        return false;
    };
    match fs::metadata(rt, path.as_str()) {
        Ok(found) => found.len() != 0,
        Err(_) => false,
    }
}

// Whether a server that wrote traces has one of this node: of the coordinator and of the offsets
// partition in any case, and of a data partition that has a log.
fn is_traced<R: Files<File = File> + AllocGlobal>(
    rt: &R,
    asked: &Auditing<'_>,
    node: &TracedNode,
) -> bool {
    match node {
        TracedNode::Partition(partition) if partition.is_data() => match asked.logs {
            Some(folder) => has_bytes(rt, folder, AuditFile::Log(*node)),
            None => false,
        },
        _ => true,
    }
}

// The file of a node's trace.
fn trace_of(node: &TracedNode) -> AuditFile {
    AuditFile::Trace(*node)
}

// Whether the trace of a node is missing.
fn is_missing<R: Files<File = File> + AllocGlobal>(
    rt: &R,
    asked: &Auditing<'_>,
    node: &TracedNode,
) -> bool {
    is_traced(rt, asked, node) && !has_bytes(rt, asked.traces, trace_of(node))
}

// Says on standard error that a trace is missing in its folder.
fn say_missing<E: Write>(folder: &str, trace: &AuditFile, errors: &mut E) {
    let _ = failed(
        errors,
        format_args!("{folder}/{trace}: the trace is missing"),
    );
}

// Says on standard error that the trace of a node is missing, if it is.
fn tell_missing<R: Files<File = File> + AllocGlobal, E: Write>(
    rt: &R,
    asked: &Auditing<'_>,
    node: &TracedNode,
    errors: &mut E,
) {
    if is_missing(rt, asked, node) {
        say_missing(asked.traces, &trace_of(node), errors);
    }
}

// Says on standard error which traces are missing.
fn tell_all_missing<R: Files<File = File> + AllocGlobal, E: Write>(
    rt: &R,
    asked: &Auditing<'_>,
    errors: &mut E,
) {
    tell_missing(rt, asked, &TracedNode::Coordinator, errors);
    for number in 0..PartitionId::DATA_COUNT {
        if let Ok(partition) = PartitionId::try_from(number) {
            tell_missing(rt, asked, &TracedNode::Partition(partition), errors);
        }
    }
    tell_missing(
        rt,
        asked,
        &TracedNode::Partition(PartitionId::OFFSETS),
        errors,
    );
}

// Whether a server still has the folder of its traces: then it holds the lock there.
fn is_held<R: Files<File = File> + AllocGlobal>(rt: &R, folder: &str) -> bool {
    let Ok(path) = format!(in rt.alloc(); "{folder}/trace.lock") else {
        return false;
    };
    match fs::open(rt, path.as_str()) {
        Ok(file) => matches!(file.try_lock_shared(), Err(TryLockError::WouldBlock)),
        Err(_) => false,
    }
}

// Says on standard error that a server still writes the traces, if one does.
fn tell_held<R: Files<File = File> + AllocGlobal, E: Write>(
    rt: &R,
    asked: &Auditing<'_>,
    errors: &mut E,
) {
    let folder = asked.traces;
    if is_held(rt, folder) {
        let _ = failed(
            errors,
            format_args!("{folder}: a server still writes these traces"),
        );
    }
}

/// How the program ends when the audit of a server has ended: well only if it said yes. Of a
/// refusal the output already tells; of a fault a line on standard error, with the folder or the
/// file and what the system says of it. Further lines there say that a server still runs, and of a
/// refusal which traces are missing.
pub(crate) fn audit_ending<R: Files<File = File> + AllocGlobal, E: Write>(
    rt: &R,
    asked: &Auditing<'_>,
    audited: Result<bool, AuditFault>,
    errors: &mut E,
) -> Ending
    ensures { result ≡ ending_of_audit audited }
{
    match audited {
        Ok(true) => {
            tell_held(rt, asked, errors);
            Ending::Done
        }
        Ok(false) => {
            tell_held(rt, asked, errors);
            tell_all_missing(rt, asked, errors);
            Ending::Failed
        }
        Err(fault) => {
            let folders = Folders {
                logs: asked.logs,
                traces: Some(asked.traces),
            };
            let (folder, parted) = front_of(audit_about(fault), folders);
            let why = because(rt.alloc(), refused_audit(rt, folders, fault));
            failed(errors, format_args!("{folder}{parted}{fault}{why}"))
        }
    }
}

/// Tells on standard error why a folder can't be had, and says whether it is there.
pub(crate) fn finds_folder<R: Files<File = File>, E: Write>(
    rt: &R,
    path: &str,
    errors: &mut E,
) -> bool {
    match missing_folder(rt, path) {
        None => true,
        Some(error) => {
            let _ = failed(errors, format_args!("{path}: {error}"));
            false
        }
    }
}
