//! What a step answers.
ghost use Rattle.std.specs.Prelude.{◌≡◌};
ghost use Rattle.std.specs.Bool.{Decides};

use kx_client::ClientFault;
use kx_message::ErrorCode;
use kx_messages::Messages;
use kx_partition::Produced;

/// What closed a node's log at a restart.
#[derive(Clone, Copy, Debug, PartialEq, Eq)]
pub enum Closing {
    /// Its log couldn't be read.
    Read,
    /// The coordinator's new epoch couldn't be written.
    Write,
}

/// What a step answers beside its messages.
#[derive(Clone, Copy, Debug, PartialEq, Eq)]
pub enum Note {
    /// The step has nothing to say beside its messages.
    Done,
    /// A client refuses the command, and nothing is changed.
    Refused(ClientFault),
    /// What a batch of no producer was answered.
    Put(Produced),
    /// What the drop of a member was answered.
    Code(ErrorCode),
    /// The restart failed, and the node is closed.
    Closed(Closing),
    /// The coordinator's epochs are used up, and the restart changed nothing.
    UsedUp,
}

/// What a node answers to one input.
#[derive(Clone, Drop)]
pub struct Taken {
    /// The messages that it sends.
    pub messages: Messages,
    /// What it answers beside them.
    pub note: Note,
    /// Whether the node's store failed in this step.
    pub failed: bool,
    /// Whether this step opened the node again and found the whole entry of an append that had
    /// failed.
    pub found: bool,
}

impl Note {
    /// Whether both are the same.
    pub fn same(self, other: Note) -> bool
        ensures { Decides result (self ≡ other) }
    {
        self == other
    }
}

impl Taken {
    /// Whether both are the same answer.
    pub fn same(&self, other: &Taken) -> bool
        ensures { Decides result (self.now ≡ other.now) }
    {
        self.messages.same(&other.messages)
            && self.note.same(other.note)
            && self.failed == other.failed
            && self.found == other.found
    }
}
