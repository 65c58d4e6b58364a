//! What the conversions of this crate refuse.
use thiserror::Error;

/// Why a number or a text is no value of the type that it was to become.
#[derive(Clone, Copy, Debug, PartialEq, Eq, Error)]
pub enum ValueFault {
    /// A number below 0 was to become a producer id.
    #[error("a producer id is 0 or more")]
    ProducerId,
    /// A number below 0 was to become an epoch.
    #[error("an epoch is 0 or more")]
    Epoch,
    /// The epoch 0 was to become that of a transaction marker.
    #[error("the epoch of a transaction marker is 1 or more")]
    MarkerEpoch,
    /// A number other than 0 to 15 and 65535 was to become a partition.
    #[error("a partition is 0 to 15, or 65535")]
    Partition,
    /// A text that is empty, over 64 bytes long or has a byte outside 0x21 to 0x7E was to become a
    /// name.
    #[error("a name is 1 to 64 visible ASCII characters")]
    Name,
    /// 0, or a number above 900000, was to become a timeout.
    #[error("a timeout is 1 to 900000 milliseconds")]
    Timeout,
    /// A byte above 1, or a text other than `abort` and `commit`, was to become an outcome.
    #[error("an outcome is abort (0) or commit (1)")]
    Outcome,
    /// A number that `ErrorCode` does not list was to become an error code.
    #[error("no error code has this number")]
    ErrorCode,
}
