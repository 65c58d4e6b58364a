//! What a step shows of the node's store.
ghost use Rattle.std.specs.Prelude.{◌≡◌};
ghost use Rattle.kx_nodes.specs.Replay.{mark_of};

use kx_machine::{Closing, Note, Taken};

/// What a step shows of what the node's store did. With the inputs before it, it says what the
/// step answers: the definitions leave open only what the store does, which is to work, to fail an
/// append with nothing or with the whole entry left behind, or not to be read.
///
/// - A step that isn't a restart depends on the store by its appends alone, and these work but
///   if the mark is `Failed`. Whether the whole entry of the append that failed was left behind
///   is open then; but only a restart reads that entry, and its mark tells.
/// - A restart couldn't read the log if the mark is `Unread`, and couldn't write if it is
///   `Unwritten`; else it met neither. What it read is the log, and the entry left behind if it
///   was found.
/// - If it is `UsedUp`, the restart changed nothing and sent nothing.
///
/// So the nodes to which a trace may lead differ at most by the entry after a log that is closed,
/// and each of them answers a step with the same mark alike: `traces_tell_answers_and_logs`. And a
/// trace can be run again, with stores that its marks tell: `traces_run_again`.
#[derive(Clone, Copy, Debug, PartialEq, Eq)]
pub enum Mark {
    /// The store did all that it was asked for. A restart found the log and nothing after it.
    Worked,
    /// A restart found the whole entry of an append that had failed.
    Found,
    /// An append failed, which closed the log.
    Failed,
    /// A restart couldn't read the log.
    Unread,
    /// A restart couldn't write the coordinator's new epoch. It found the whole entry of an append
    /// that had failed, or didn't.
    Unwritten { found: bool },
    /// The coordinator's epochs are used up.
    UsedUp,
}

impl Mark {
    /// The mark of a step that is answered so.
    pub fn of(taken: &Taken) -> Mark
        ensures { result ≡ mark_of taken.now }
    {
        match taken.note {
            Note::Closed(Closing::Read) => Mark::Unread,
            Note::Closed(Closing::Write) => Mark::Unwritten { found: taken.found },
            Note::UsedUp => Mark::UsedUp,
            _ if taken.failed => Mark::Failed,
            _ if taken.found => Mark::Found,
            _ => Mark::Worked,
        }
    }
}
