//! What is seen of a step.
use kx_machine::{Input, Note};
use kx_message::{Message, NodeId};

/// What a node took.
#[derive(Clone, Copy)]
pub enum Took<'a> {
    /// The message of this number, counted from 0 among all that were sent.
    Message(usize, &'a Message),
    /// Anything else.
    Input(&'a Input),
    /// No input: the step is the making of a client.
    Nothing,
    /// No input: the step is that a client outside sends this request.
    Outside(&'a Message),
}

/// How far a node's log reaches.
#[derive(Clone, Copy, Debug, PartialEq, Eq)]
pub struct LogAt {
    /// The offset after its last record.
    pub end: i64,
    /// The last stable offset, which is the end if there are no transactions.
    pub stable: i64,
}

/// What is seen of a step.
#[derive(Clone, Copy)]
pub struct Seen<'a> {
    /// The node.
    pub node: NodeId,
    /// What it took.
    pub took: Took<'a>,
    /// What it sent.
    pub sent: &'a [Message],
    /// What it answered beside that.
    pub note: Note,
    /// Whether its store failed.
    pub failed: bool,
    /// Its log before the step.
    pub before: LogAt,
    /// Its log after the step.
    pub after: LogAt,
}

impl Seen<'_> {
    /// Whether its log grew.
    pub(crate) fn has_appended(&self) -> bool {
        self.before.end < self.after.end
    }

    /// The last stable offset of its log, if it changed.
    pub(crate) fn stable(&self) -> Option<i64> {
        if self.before.stable == self.after.stable {
            None
        } else {
            Some(self.after.stable)
        }
    }
}
