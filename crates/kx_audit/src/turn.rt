//! A step in the order of all.

/// A step, by its trace and its place there.
#[derive(Clone, Copy, Debug, PartialEq, Eq)]
pub struct Turn {
    /// The trace's number among those that were audited, from 0.
    pub trace: usize,
    /// The step's place in the trace, from 0.
    pub step: usize,
}
