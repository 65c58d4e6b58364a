//! The end of a trace.

/// Where a trace ends.
#[derive(Clone, Copy)]
pub(crate) enum Ending {
    /// It may have more bytes than were read.
    Unknown,
    /// At the last byte that was read, when the node's log had this many bytes of whole entries,
    /// if that is known.
    At { log_len: Option<u64> },
}
