//! Folders that one server has at a time.
ghost use Rattle.std.specs.Prelude.{◌≡◌, [], OnOk, option_map};
ghost use Rattle.kx_serve.specs.Files.{IsNamed};

use crate::fault::ServeFault;
use kx_files::make_folder;
use std::alloc::Global;
use std::fs::{File, Files, OpenOptions, TryLockError};
use std::io::ErrorKind;
use std::{fs, io};

// Why a folder isn't this server's alone.
#[derive(Clone, Copy)]
enum LockFault {
    // It has the empty name or can't be made, or its lock can't be had.
    Unusable(ErrorKind),
    // Another server has it.
    InUse,
    // Memory ran out.
    Memory,
}

// What it is to a folder's lock that the system refuses something.
fn refused(error: &io::Error) -> LockFault {
    match error.kind() {
        ErrorKind::OutOfMemory => LockFault::Memory,
        kind => LockFault::Unusable(kind),
    }
}

// Opens the file of this name in a folder. Whoever runs the server is told of a folder that wasn't
// there, and is made: its name may be mistyped.
fn open_lock<R: Files<File = File> + AllocGlobal + Eprint>(
    rt: &R,
    alloc: Global,
    dir: &str,
    name: &str,
) -> io::Result<File> {
    let is_new = fs::metadata(rt, dir).is_err();
    make_folder(rt, dir)?;
    let path = format!(in alloc; "{dir}/{name}")?;
    let file = OpenOptions::new()
        .write(true)
        .create(true)
        .open(rt, path.as_str())?;
    if is_new {
        // Nobody may watch.
        let _ = eprintln!(rt; "{dir}: new folder");
    }
    Ok(file)
}

// Keeps other servers out of a folder, which is made if there is none, for as long as the file of
// this name in it is open.
fn lock_in<R: Files<File = File> + AllocGlobal + Eprint>(
    rt: &R,
    alloc: Global,
    dir: &str,
    name: &str,
) -> Result<File, LockFault>
    ensures { OnOk result (dir.now ≡ [] → ⊥) }
{
    if dir.is_empty() {
        return Err(LockFault::Unusable(ErrorKind::InvalidInput));
    }
    let file = match open_lock(rt, alloc, dir, name) {
        Ok(file) => file,
        Err(error) => return Err(refused(&error)),
    };
    match file.try_lock() {
        Ok(()) => Ok(file),
        Err(TryLockError::WouldBlock) => Err(LockFault::InUse),
        Err(TryLockError::Error(error)) => Err(refused(&error)),
    }
}

// Keeps other servers out of the folder of the logs, if there is one.
fn lock_logs<R: Files<File = File> + AllocGlobal + Eprint>(
    rt: &R,
    dir: Option<&str>,
) -> Result<Option<File>, ServeFault>
    ensures { OnOk result (IsNamed (option_map (λ d. d.now) dir.entry)) }
{
    let Some(dir) = dir else {
        return Ok(None);
    };
    match lock_in(rt, rt.alloc(), dir, "lock") {
        Ok(file) => Ok(Some(file)),
        Err(LockFault::Unusable(why)) => Err(ServeFault::Folder { why }),
        Err(LockFault::InUse) => Err(ServeFault::InUse),
        Err(LockFault::Memory) => Err(ServeFault::Memory),
    }
}

// Keeps other servers out of the folder of the traces, if there is one. It may be that of the logs.
fn lock_traces<R: Files<File = File> + AllocGlobal + Eprint>(
    rt: &R,
    dir: Option<&str>,
) -> Result<Option<File>, ServeFault>
    ensures { OnOk result (IsNamed (option_map (λ d. d.now) dir.entry)) }
{
    let Some(dir) = dir else {
        return Ok(None);
    };
    match lock_in(rt, rt.alloc(), dir, "trace.lock") {
        Ok(file) => Ok(Some(file)),
        Err(LockFault::Unusable(why)) => Err(ServeFault::TraceFolder { why }),
        Err(LockFault::InUse) => Err(ServeFault::TracesInUse),
        Err(LockFault::Memory) => Err(ServeFault::Memory),
    }
}

/// The locks of a server's folders, which are its own as long as these are there.
#[derive(Drop)]
pub(crate) struct Locks {
    _logs: Option<File>,
    _traces: Option<File>,
}

/// Keeps other servers out of the folders of the logs and of the traces, which are made if there
/// are none. No folder has the empty name.
///
/// # Errors
///
/// `Folder` and `TraceFolder` if one can't be used, `InUse` and `TracesInUse` if another
/// server has it, `Memory`.
pub(crate) fn lock_folders<R: Files<File = File> + AllocGlobal + Eprint>(
    rt: &R,
    logs: Option<&str>,
    traces: Option<&str>,
) -> Result<Locks, ServeFault>
    ensures { OnOk result (IsNamed (option_map (λ d. d.now) logs.entry)
        × IsNamed (option_map (λ d. d.now) traces.entry)) }
{
    Ok(Locks {
        _logs: lock_logs(rt, logs)?,
        _traces: lock_traces(rt, traces)?,
    })
}
