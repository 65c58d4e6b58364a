//! Why a schedule stops.
use thiserror::Error;

/// Why a schedule stops before its end.
#[derive(Clone, Copy, Debug, PartialEq, Eq, Drop, Error)]
pub enum RunFault {
    /// Memory was wanted for the event of this number, counted from 0. Those before it happened.
    #[error("no memory for event {0}")]
    Memory(usize),
}
