//! Folders whose names outlast a power cut.
use std::fs::{File, Files, OpenFile};
use std::io::ErrorKind;
use std::path::Path;
use std::{fs, io};

/// Has the device keep the name of a file or a folder that was made, in the folder that it is in.
pub(crate) fn keep_name<R: Files>(rt: &R, path: &str) -> io::Result<()> {
    let folder = match Path::new(path).parent() {
        Some(folder) if !folder.as_str().is_empty() => folder,
        _ => Path::new("."),
    };
    File::open(rt, folder)?.sync_all()
}

// Makes a folder if there is none, in one that is there.
fn make_one<R: Files>(rt: &R, path: &str) -> io::Result<()> {
    match fs::create_dir(rt, path) {
        Ok(()) => keep_name(rt, path),
        Err(error) if error.kind() == ErrorKind::AlreadyExists => Ok(()),
        Err(error) => Err(error),
    }
}

/// Makes a folder, and those that it lies in, if they are missing. The device then has the name
/// of each that was made, and of the last one in any case: it may have been made by a process that
/// was killed before the device had its name.
///
/// # Errors
///
/// If a folder can't be made or synced, also as something else has its name.
pub fn make_folder<R: Files + AllocGlobal>(rt: &R, path: &str) -> io::Result<()> {
    let folders: Vec<Path<'_>> = Path::new(path).ancestors().collect(rt.alloc())?;
    for folder in folders.iter().rev() {
        if !folder.as_str().is_empty() {
            make_one(rt, folder.as_str())?;
        }
    }
    // A folder that was there may lie in one that may not be read.
    let _ = keep_name(rt, path);
    Ok(())
}
