//! What isn't a number of input partitions.
use thiserror::Error;

/// Why there is no such number of input partitions.
#[derive(Clone, Copy, Debug, PartialEq, Eq, Drop, Error)]
pub enum InputsFault {
    /// A processor has 1 to 8 input partitions.
    #[error("a processor has 1 to 8 input partitions")]
    Count = 1,
}
