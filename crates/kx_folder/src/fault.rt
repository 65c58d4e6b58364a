//! Why a folder isn't the one that is listed.
use std::alloc::AllocError;
use thiserror::Error;

/// Why a file isn't the one that is listed. Nothing is changed by the comparison.
#[derive(Clone, Copy, Debug, PartialEq, Eq, Drop, Error)]
pub enum FileFault {
    /// There is no such file.
    #[error("it is missing")]
    Missing,
    /// The file has fewer than this many bytes, which it had when it was listed.
    #[error("it is shorter than the first {0} bytes that were written")]
    Short(u16),
    /// Its first bytes, as many as these, aren't those that were listed, as of another file or of another
    /// folder.
    #[error("its first {0} bytes are not those that were written")]
    Other(u16),
    /// Memory ran out.
    #[error("out of memory")]
    Memory,
}

impl From<AllocError> for FileFault {
    ghost use Rattle.kx_folder.specs.declared.fault.FileFault.TheVariants.{Memory};
    ghost use Rattle.std.specs.Prelude.{◌≡◌};

    ghost from_gives = { λ _ fault. fault ≡ Memory };

    fn from(_refused: AllocError) -> FileFault {
        FileFault::Memory
    }
}

/// Why a text isn't the list of a folder's files.
#[derive(Clone, Copy, Debug, PartialEq, Eq, Drop, Error)]
pub enum ListFault {
    /// It is shorter than its first line, as a crash leaves it while it is made.
    #[error("its first line is not whole")]
    Torn,
    /// The line of this number, from 1 on, isn't one that a server writes.
    #[error("line {0} is damaged")]
    Damaged(u64),
    /// Memory ran out.
    #[error("out of memory")]
    Memory,
}

impl From<AllocError> for ListFault {
    ghost use Rattle.kx_folder.specs.declared.fault.ListFault.TheVariants.{Memory};
    ghost use Rattle.std.specs.Prelude.{◌≡◌};

    ghost from_gives = { λ _ fault. fault ≡ Memory };

    fn from(_refused: AllocError) -> ListFault {
        ListFault::Memory
    }
}
