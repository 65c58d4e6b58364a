//! Why no entry is at the front of some bytes.
use thiserror::Error;

/// Why no entry is at the front of the bytes: the first that fits. Reading changes nothing,
/// whatever it answers.
#[derive(Clone, Copy, Debug, PartialEq, Eq, Drop, Error)]
pub enum EntryFault {
    /// There are fewer bytes than an entry has.
    #[error("the bytes end within the entry")]
    Short = 1,
    /// The entry is of another version than 0.
    #[error("no entry of this version is known")]
    Version = 2,
    /// The producer id or an offset is below 0.
    #[error("a number of the entry is below 0")]
    Field = 3,
}
