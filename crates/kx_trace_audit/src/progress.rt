//! How an audit goes on.

/// What became of the next item of a trace.
#[derive(Clone, Copy, Debug, PartialEq, Eq)]
pub enum Progress {
    /// One more step was made again, and sent this many messages.
    Made { sent: usize },
    /// The next input was not taken, so there was no step.
    NotTaken,
    /// The next step takes a message that no step sent so far.
    Waits,
    /// More bytes of the trace are needed, or it is read to its end.
    NeedsMore,
}
