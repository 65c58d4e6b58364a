//! The list of a folder's files: a start compares the files with it, and lists those that are new.
use crate::fault::ServeFault;
use crate::files::LogFile;
use crate::folder::fault_in;
use crate::tying::{logs_fault, mark};
use kx_folder::{
    FileFault, FileName, FolderList, LIST, ListFault, ListedFile, Lister, head_text, read_list,
};
use kx_kafka_server::{GatewayFault, GatewayFile};
use kx_log::OpenFault;
use kx_message::PartitionId;
use std::alloc::{AllocError, Global};
use std::fmt::{Display, Formatter};
use std::fs::{File, Files, OpenOptions};
use std::io::{ErrorKind, Read, Write};
use std::random::RandomSource;
use std::{fmt, fs, io};

/// A file of a folder that is listed.
#[derive(Clone, Copy, Debug, PartialEq, Eq)]
pub enum FolderFile {
    /// A log.
    Log(LogFile),
    /// A table of stock clients.
    Table(GatewayFile),
}

impl Display for FolderFile {
    fn fmt<W: fmt::Write>(&self, f: &mut Formatter<W>) -> fmt::Result {
        match self {
            FolderFile::Log(file) => write!(f, "{file}"),
            FolderFile::Table(file) => write!(f, "{file}"),
        }
    }
}

// Every file that is listed if it has bytes.
fn every_file(alloc: Global) -> Result<Vec<FolderFile>, AllocError> {
    let mut files = Vec::new(alloc);
    files.push(FolderFile::Log(LogFile::Coordinator))?;
    for number in 0..PartitionId::DATA_COUNT {
        files.push(FolderFile::Log(LogFile::Partition(number)))?;
    }
    files.push(FolderFile::Log(LogFile::Offsets))?;
    files.push(FolderFile::Table(GatewayFile::Topics))?;
    files.push(FolderFile::Table(GatewayFile::Clients))?;
    Ok(files)
}

impl FolderFile {
    /// Its name, as a line of the list has it.
    pub(crate) fn name(self, alloc: Global) -> Result<FileName, AllocError> {
        let name = format!(in alloc; "{self}")?;
        Ok(FileName::of(name.as_str()))
    }

    // The file of a name that a line of the list has; None if no server has such a file.
    fn named(alloc: Global, name: FileName) -> Result<Option<FolderFile>, AllocError> {
        for file in every_file(alloc)? {
            if file.name(alloc)? == name {
                return Ok(Some(file));
            }
        }
        Ok(None)
    }

    // The fault of a file that can't be read.
    fn unread(self, error: &io::Error) -> ServeFault {
        if error.kind() == ErrorKind::OutOfMemory {
            return ServeFault::Memory;
        }
        match self {
            FolderFile::Log(file) => fault_in(file, OpenFault::Device),
            FolderFile::Table(file) => ServeFault::Gateway(GatewayFault::Device { file }),
        }
    }
}

// The first bytes of a file in a folder, as many as a line of the list is of; None if there is no such
// file.
fn first_bytes<R: Files<File = File> + AllocGlobal>(
    rt: &R,
    dir: &str,
    file: FolderFile,
) -> io::Result<Option<Vec<u8>>> {
    let path = format!(in rt.alloc(); "{dir}/{file}")?;
    let opened = match File::open(rt, path.as_str()) {
        Ok(opened) => opened,
        Err(error) if error.kind() == ErrorKind::NotFound => return Ok(None),
        Err(error) => return Err(error),
    };
    let mut bytes = Vec::new(rt.alloc());
    opened
        .take(ListedFile::MOST_FIRST as u64)
        .read_to_end(&mut bytes)?;
    Ok(Some(bytes))
}

// The bytes of the list in a folder; none if there is no list.
fn list_in<R: Files<File = File> + AllocGlobal>(rt: &R, dir: &str) -> io::Result<Vec<u8>> {
    let path = format!(in rt.alloc(); "{dir}/{LIST}")?;
    match fs::read(rt, path.as_str()) {
        Ok(text) => Ok(text),
        Err(error) if error.kind() == ErrorKind::NotFound => Ok(Vec::new(rt.alloc())),
        Err(error) => Err(error),
    }
}

// A number that no other folder has, as far as the system's random numbers go.
fn draw<R: RandomSource>(rt: &R) -> io::Result<u64> {
    let mut bytes = [0; 8];
    rt.fill_bytes(&mut bytes)?;
    Ok(u64::from_be_bytes(bytes))
}

// Whether a folder has a file with bytes that would be listed.
fn has_files<R: Files<File = File> + AllocGlobal>(rt: &R, dir: &str) -> Result<bool, ServeFault> {
    for file in every_file(rt.alloc())? {
        match first_bytes(rt, dir, file) {
            Ok(Some(bytes)) if !bytes.is_empty() => return Ok(true),
            Ok(_) => {}
            Err(error) => return Err(file.unread(&error)),
        }
    }
    Ok(false)
}

// Makes the list of a folder, with a new number, and says so of a folder that has files already: which
// it had before can't be known.
fn make_list<R: Files<File = File> + AllocGlobal + Eprint + RandomSource>(
    rt: &R,
    dir: &str,
) -> Result<u64, ServeFault> {
    let has_files = has_files(rt, dir)?;
    let number = match draw(rt) {
        Ok(number) => number,
        Err(error) => return Err(logs_fault(&error)),
    };
    let head = head_text(rt.alloc(), number)?;
    match mark(rt, dir, LIST, head.as_slice()) {
        Ok(()) => {}
        Err(error) => return Err(logs_fault(&error)),
    }
    if has_files {
        // Nobody may watch.
        let _ = eprintln!(rt;
            "{LIST}: the list of files is new; files that are missing cannot be known, the others are taken as they are"
        );
    }
    Ok(number)
}

// The fault of a folder whose list is this text.
fn list_fault(fault: ListFault) -> ServeFault {
    match fault {
        ListFault::Memory => ServeFault::Memory,
        fault => ServeFault::List { fault },
    }
}

// Compares a file with the line of this number, from 1 on.
fn check_file<R: Files<File = File> + AllocGlobal>(
    rt: &R,
    dir: &str,
    number: u64,
    listed: ListedFile,
    line: u64,
) -> Result<(), ServeFault> {
    let Some(file) = FolderFile::named(rt.alloc(), listed.name)? else {
        return Err(list_fault(ListFault::Damaged(line)));
    };
    let found = match first_bytes(rt, dir, file) {
        Ok(found) => found,
        Err(error) => return Err(file.unread(&error)),
    };
    let found = found.as_ref().map(|bytes| bytes.as_slice());
    match listed.check(rt.alloc(), number, found) {
        Ok(()) => Ok(()),
        Err(FileFault::Memory) => Err(ServeFault::Memory),
        Err(fault) => Err(ServeFault::Listed { file, fault }),
    }
}

// Compares the files of a folder with its list.
fn check_files<R: Files<File = File> + AllocGlobal>(
    rt: &R,
    dir: &str,
    list: &FolderList,
) -> Result<(), ServeFault> {
    for (place, listed) in list.files.iter().enumerate() {
        check_file(rt, dir, list.number, *listed, place as u64 + 2)?;
    }
    Ok(())
}

// Cuts off what a crash left of a list's last line.
fn cut_list<R: Files<File = File> + AllocGlobal>(rt: &R, dir: &str, len: usize) -> io::Result<()> {
    let path = format!(in rt.alloc(); "{dir}/{LIST}")?;
    let file = OpenOptions::new().write(true).open(rt, path.as_str())?;
    file.set_len(len as u64)
}

// Compares the files of a folder with its list, which is made if there is none, and returns the
// folder's number.
fn check_folder<R: Files<File = File> + AllocGlobal + Eprint + RandomSource>(
    rt: &R,
    dir: &str,
) -> Result<u64, ServeFault> {
    let text = match list_in(rt, dir) {
        Ok(text) => text,
        Err(error) => return Err(logs_fault(&error)),
    };
    let list = match read_list(rt.alloc(), text.as_slice()) {
        Ok(list) => list,
        Err(ListFault::Torn) => return make_list(rt, dir),
        Err(fault) => return Err(list_fault(fault)),
    };
    check_files(rt, dir, &list)?;
    if list.len < text.len() {
        match cut_list(rt, dir, list.len) {
            Ok(()) => {}
            Err(error) => return Err(logs_fault(&error)),
        }
    }
    Ok(list.number)
}

/// The number of the folder of a server, whose files are compared with its list; 0 without a folder.
///
/// # Errors
///
/// [`ServeFault::Listed`] at the first file that isn't the one that is listed, [`ServeFault::List`] if
/// the list is damaged; `Open`, `Gateway` or `Folder` if a file or the list can't be read or written;
/// [`ServeFault::Memory`].
pub(crate) fn folder_number<R: Files<File = File> + AllocGlobal + Eprint + RandomSource>(
    rt: &R,
    dir: Option<&str>,
) -> Result<u64, ServeFault> {
    match dir {
        None => Ok(0),
        Some(dir) => check_folder(rt, dir),
    }
}

// Lists a file of a folder, if it has bytes.
fn list_file<R: Files<File = File> + AllocGlobal>(
    rt: &R,
    dir: &str,
    number: u64,
    file: FolderFile,
) -> io::Result<()> {
    let name = file.name(rt.alloc())?;
    match first_bytes(rt, dir, file)? {
        Some(bytes) if !bytes.is_empty() => {
            Lister::in_folder(rt, dir, number, name)?.list(bytes.as_slice())
        }
        _ => Ok(()),
    }
}

/// Lists the files of a folder that have bytes and aren't listed, once their logs are opened, so that
/// what was torn is cut off.
///
/// # Errors
///
/// `Open` or `Gateway` if a file can't be read or listed, `Folder` and [`ServeFault::List`] if the list
/// can't be read, [`ServeFault::Memory`].
pub(crate) fn list_files<R: Files<File = File> + AllocGlobal>(
    rt: &R,
    dir: &str,
) -> Result<(), ServeFault> {
    let text = match list_in(rt, dir) {
        Ok(text) => text,
        Err(error) => return Err(logs_fault(&error)),
    };
    let list = match read_list(rt.alloc(), text.as_slice()) {
        Ok(list) => list,
        Err(fault) => return Err(list_fault(fault)),
    };
    for file in every_file(rt.alloc())? {
        if !list.has(file.name(rt.alloc())?) {
            match list_file(rt, dir, list.number, file) {
                Ok(()) => {}
                Err(error) => return Err(file.unread(&error)),
            }
        }
    }
    Ok(())
}
