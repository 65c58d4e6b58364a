//! The files of a server's logs.
ghost use Rattle.std.specs.Prelude.{◌≡◌, ◌++◌, IfOk, string_bytes, codes};

use kx_message::PartitionId;
use std::alloc::{AllocError, Global};
use std::fmt;
use std::fmt::{Display, Formatter};

/// A log's file in a server's folder.
#[derive(Clone, Copy, Debug, PartialEq, Eq)]
pub enum LogFile {
    /// `co.log`: the coordinator's.
    Coordinator,
    /// `p0.log` and so on: that of a data partition.
    Partition(u16),
    /// `po.log`: that of the offsets partition.
    Offsets,
}

impl LogFile {
    ghost use Rattle.kx_serve.specs.Files.{file_name, file_of};

    /// The file of a partition's log.
    pub fn of(partition: PartitionId) -> LogFile
        ensures { result ≡ file_of partition }
    {
        if partition.is_data() {
            LogFile::Partition(partition.get())
        } else {
            LogFile::Offsets
        }
    }

    /// Its path in a folder.
    pub(crate) fn path_in(self, alloc: Global, folder: &str) -> Result<String, AllocError>
        ensures { IfOk result (λ path. string_bytes path
            ≡ folder.now ++ codes "/" ++ file_name self) }
    {
        format!(in alloc; "{folder}/{self}")
    }
}

impl Display for LogFile {
    ghost use Rattle.std.specs.Prelude.{Some};
    ghost use Rattle.kx_serve.specs.Files.{file_name};

    ghost output = { λ file. Some (file_name file) };

    fn fmt<W: fmt::Write>(&self, f: &mut Formatter<W>) -> fmt::Result {
        match self {
            LogFile::Coordinator => f.write_str("co.log"),
            LogFile::Partition(number) => write!(f, "p{number}.log"),
            LogFile::Offsets => f.write_str("po.log"),
        }
    }
}
