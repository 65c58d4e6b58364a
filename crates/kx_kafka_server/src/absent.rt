//! An entry isn't there, and isn't made.
use std::alloc::{AllocError, AllocFailed};

/// The code by which a client is told to ask again: COORDINATOR_LOAD_IN_PROGRESS.
pub(crate) const ASK_AGAIN: i16 = 14;

/// Why an entry isn't there, and isn't made.
#[derive(Clone, Copy, Debug, PartialEq, Eq)]
pub(crate) enum Absent {
    /// Memory ran out.
    Memory,
    /// There are as many as may be.
    Full,
}

/// Memory ran out.
impl From<AllocError> for Absent {
    fn from(_: AllocError) -> Self {
        Absent::Memory
    }
}

/// Memory ran out for one more element.
impl<T: Drop> From<AllocFailed<T>> for Absent {
    fn from(_: AllocFailed<T>) -> Self {
        Absent::Memory
    }
}
