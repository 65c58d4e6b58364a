//! What a session does with the folders of a server.
use kx_cases::StepFault;
use std::alloc::Global;
use std::fs;
use std::fs::{File, Files};

/// Removes a folder and what is in it. There may be none.
pub(crate) fn clear<R: Files<File = File> + AllocGlobal>(rt: &R, folder: &str) {
    let _is_gone = fs::remove_dir_all(rt, folder);
}

/// Puts bytes after those of a file.
pub(crate) fn append<R: Files<File = File> + AllocGlobal>(
    rt: &R,
    file: &str,
    bytes: &[u8],
) -> Result<(), StepFault> {
    let Ok(mut whole) = fs::read(rt, file) else {
        return Err(StepFault::Unknown);
    };
    whole.extend_from_slice(bytes)?;
    fs::write(rt, file, whole.as_slice()).map_err(|_| StepFault::Unknown)
}

/// Takes this many bytes off the end of a file.
pub(crate) fn shorten<R: Files<File = File> + AllocGlobal>(
    rt: &R,
    file: &str,
    count: usize,
) -> Result<(), StepFault> {
    let Ok(whole) = fs::read(rt, file) else {
        return Err(StepFault::Unknown);
    };
    let Some(kept) = whole.len().checked_sub(count) else {
        return Err(StepFault::Unknown);
    };
    let front = whole.as_slice().get(..kept).ok_or(StepFault::Unknown)?;
    fs::write(rt, file, front).map_err(|_| StepFault::Unknown)
}

/// Gives a file another name.
pub(crate) fn rename<R: Files<File = File>>(rt: &R, from: &str, to: &str) -> Result<(), StepFault> {
    fs::rename(rt, from, to).map_err(|_| StepFault::Unknown)
}

/// Reports whether a file is there.
pub(crate) fn tell_there<R: Files<File = File>>(
    rt: &R,
    file: &str,
    told: &mut String,
) -> Result<(), StepFault> {
    let word = if fs::metadata(rt, file).is_ok() {
        "is"
    } else {
        "isn't"
    };
    Ok(writeln!(told, "{file} {word} there")?)
}
