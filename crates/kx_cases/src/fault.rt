//! Why a step has no answer.
use std::alloc::AllocError;
use thiserror::Error;

/// Why a step has no answer.
#[derive(Debug, Drop, Error)]
pub enum StepFault {
    /// The words are no step of this program.
    #[error("no such step")]
    Unknown,
    /// There was no memory for the answer.
    #[error("out of memory")]
    Memory(#[from(alloc)] AllocError),
}
