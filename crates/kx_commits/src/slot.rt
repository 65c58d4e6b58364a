//! What is kept of one group and input partition.
ghost use Rattle.std.specs.Prelude.{◌≡◌, ◌<◌, ◌^◌, Some, nat_lt, option_map};
ghost use Rattle.kx_commits.specs.Kept.{empty_slot, later, settled, waits};

use crate::said::SaidOffset;
use kx_message::Outcome;
use std::marker::Model;

/// What is kept of a group and an input partition.
#[derive(Drop)]
pub(crate) struct Slot {
    committed: Option<(i64, u64)>,
    pending: u64,
}

impl Model for Slot {
    ghost use Rattle.kx_commits.specs.Kept as kept;

    ghost Value = { kept.Slot };

    ghost view = { λ s. record { committed = s.committed; pending = s.pending } };
}

// The one that stands later in the log: the committed offset, if there is one, or this.
fn later_one(said: SaidOffset, committed: Option<(i64, u64)>) -> (i64, u64)
    ensures { Some result ≡ later said committed }
{
    match committed {
        Some((offset, at)) if said.at < at => (offset, at),
        _ => (said.offset, said.at),
    }
}

impl Slot {
    /// An offset of which nothing is committed or pending.
    pub(crate) fn new() -> Slot
        ensures { result ≡ empty_slot }
    {
        Slot {
            committed: None,
            pending: 0,
        }
    }

    /// The committed offset.
    pub(crate) fn committed(&self) -> Option<i64>
        ensures { result ≡ option_map (λ c. c.0) self.now.committed }
    {
        let (offset, _) = self.committed?;
        Some(offset)
    }

    /// Whether an open transaction has an offset of these.
    pub(crate) fn is_pending(&self) -> bool
        ensures { result ≡ nat_lt 0 self.now.pending }
    {
        self.pending > 0
    }

    /// Counts one more offset that waits for its transaction.
    pub(crate) fn wait(&mut self)
        requires { self.old.pending < 2 ^ 63 }
        ensures { self.new ≡ waits self.old }
    {
        self.pending += 1;
    }

    /// The transaction of an offset ended.
    pub(crate) fn settle(&mut self, said: SaidOffset, outcome: Outcome)
        ensures { self.new ≡ settled outcome self.old said }
    {
        self.pending = self.pending.saturating_sub(1);
        match outcome {
            Outcome::Abort => {}
            Outcome::Commit => {
                self.committed = Some(later_one(said, self.committed));
            }
        }
    }
}
