//! The files of a server's nodes.
ghost use Rattle.std.specs.Prelude.{◌≡◌, ◌++◌, IfOk, codes, string_bytes};

use kx_trace::TracedNode;
use std::alloc::{AllocError, Global};
use std::fmt;
use std::fmt::{Display, Formatter};

/// A file that a server wrote for one of its nodes.
#[derive(Clone, Copy, Debug, PartialEq, Eq)]
pub enum AuditFile {
    /// The node's trace: `co.trace`, `p0.trace` and so on, or `po.trace`.
    Trace(TracedNode),
    /// The node's log: `co.log`, `p0.log` and so on, or `po.log`.
    Log(TracedNode),
}

impl AuditFile {
    ghost use Rattle.kx_server_audit.specs.Files.{file_name};

    /// Its path in a folder.
    ///
    /// # Errors
    ///
    /// Only if memory runs out.
    pub fn path_in(&self, alloc: Global, folder: &str) -> Result<String, AllocError>
        ensures { IfOk result (λ path. string_bytes path
            ≡ folder.now ++ codes "/" ++ file_name self.now) }
    {
        format!(in alloc; "{folder}/{self}")
    }
}

impl Display for AuditFile {
    ghost use Rattle.std.specs.Prelude.{Some};
    ghost use Rattle.kx_server_audit.specs.Files.{file_name};

    ghost output = { λ file. Some (file_name file) };

    fn fmt<W: fmt::Write>(&self, f: &mut Formatter<W>) -> fmt::Result {
        match self {
            AuditFile::Trace(TracedNode::Coordinator) => f.write_str("co.trace"),
            AuditFile::Trace(TracedNode::Partition(number)) => write!(f, "p{number}.trace"),
            AuditFile::Log(TracedNode::Coordinator) => f.write_str("co.log"),
            AuditFile::Log(TracedNode::Partition(number)) => write!(f, "p{number}.log"),
        }
    }
}
