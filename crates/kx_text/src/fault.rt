//! Why a script ends before its last line.
ghost use Rattle.std.specs.Prelude.{◌≡◌};
ghost use Rattle.kx_text.specs.Faults.{script_fault_number};

use thiserror::Error;

/// Why a script ends before its last line.
#[derive(Clone, Copy, Debug, PartialEq, Eq, Error)]
pub enum ScriptFault {
    /// The reader failed, or would have to be read more than 2^32 times, or 2^63 lines were answered
    /// and more are there. The answers to the lines before were written, and nothing else.
    #[error("the script cannot be read")]
    Read,
    /// A write failed. A front of what the script prints is written, and not all of it.
    #[error("the answers cannot be written")]
    Write,
    /// The line of this number, counted from 1, is bad. The answers to the lines before were
    /// written, and then `bad line N`.
    #[error("line {0} is bad")]
    BadLine(u64),
    /// Memory ran out for the line that was read, for the world that it makes, for the records that
    /// it shows, or for its answer. The answers to the lines before were written, and nothing else.
    #[error("out of memory")]
    Memory,
}

impl ScriptFault {
    /// The number of the fault, by which another program knows it: `Read` 1, `Write` 2, `BadLine`
    /// 3, whichever line, and `Memory` 4.
    pub fn number(self) -> u8
        ensures { result ≡ script_fault_number self }
    {
        match self {
            ScriptFault::Read => 1,
            ScriptFault::Write => 2,
            ScriptFault::BadLine(_) => 3,
            ScriptFault::Memory => 4,
        }
    }
}
