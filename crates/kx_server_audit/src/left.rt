//! What a server left, by its files.
use crate::fault::AuditFault;
use crate::file::AuditFile;
use std::alloc::Global;
use std::fs;
use std::fs::{File, Files};
use std::io::{ErrorKind, Read};

/// The files that a server left.
pub trait ServerFiles {
    ghost use Rattle.std.specs.Prelude.{IfOk};
    ghost use Rattle.kx_server_audit.specs.Contents.{IsOpened, Left, unknown};

    /// A file that is read.
    type File: Read + Drop;

    // What is known of each file.
    ghost left: { Self → Left } = { λ files. unknown };

    /// A file, opened to be read from its front; None if there is none.
    ///
    /// # Errors
    ///
    /// `Read` if it can't be opened, and `Memory`.
    fn open(&self, alloc: Global, file: AuditFile) -> Result<Option<Self::File>, AuditFault>
        ensures { IfOk result (IsOpened Self.File.remaining (left self.now file)) };
}

/// A server's folders in the file system, of whose files no contract knows anything.
#[derive(Drop)]
pub struct ServerFolders<'a, R> {
    rt: &'a R,
    traces: &'a str,
    logs: &'a str,
}

impl<'a, R> ServerFolders<'a, R> {
    /// The folder with the traces, and the folder with the logs, which is asked only for logs.
    pub fn new(rt: &'a R, traces: &'a str, logs: &'a str) -> ServerFolders<'a, R> {
        ServerFolders { rt, traces, logs }
    }

    // The folder that a file is in.
    fn folder_of(&self, file: &AuditFile) -> &'a str {
        match file {
            AuditFile::Trace(_) => self.traces,
            AuditFile::Log(_) => self.logs,
        }
    }
}

impl<R: Files<File = File>> ServerFiles for ServerFolders<'_, R> {
    type File = File;

    fn open(&self, alloc: Global, file: AuditFile) -> Result<Option<File>, AuditFault> {
        let path = file.path_in(alloc, self.folder_of(&file))?;
        match fs::open(self.rt, path.as_str()) {
            Ok(opened) => Ok(Some(opened)),
            Err(error) => match error.kind() {
                ErrorKind::NotFound => Ok(None),
                kind => Err(read_fault(file, kind)),
            },
        }
    }
}

/// Why a file can't be read.
pub(crate) fn read_fault(file: AuditFile, kind: ErrorKind) -> AuditFault {
    match kind {
        ErrorKind::OutOfMemory => AuditFault::Memory,
        _ => AuditFault::Read(file),
    }
}
