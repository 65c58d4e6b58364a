//! The copies of frames that go out later.
ghost use Rattle.std.specs.Prelude.{◌≡◌, ◌++◌, ◌∷◌, [], MatchResult};
ghost use Rattle.kx_relay.specs.Line.{due_of, delayed_after};

use crate::share::Holding;
use kx_message::Message;
use std::alloc::{AllocError, Global};
use std::collections::VecDeque;
use std::marker::Model;

/// The copies of the last frames, in order: of each its copy, or none of one that was lost. A copy
/// goes out when this many further frames have gone as are held.
#[derive(Drop)]
pub struct Delayed {
    holding: Holding,
    copies: VecDeque<Option<Message>>,
}

impl Model for Delayed {
    ghost use Rattle.std.specs.Prelude.{◌≤◌, length};
    ghost use Rattle.kx_relay.specs.Line.{Holds};

    ghost Value = { Holds };

    ghost view = { λ h. record { holding = h.holding; copies = h.copies.items } };

    ghost invariant = { λ h. length h.copies.items ≤ h.holding };
}

impl Delayed {
    /// A queue without copies.
    pub fn new(alloc: Global, holding: Holding) -> Delayed
        ensures { result ≡ record { holding = holding; copies = [] } }
    {
        Delayed {
            holding,
            copies: VecDeque::new(alloc),
        }
    }

    /// Keeps the copy of the next frame, or that it was lost, and gives the copy that is due.
    ///
    /// # Errors
    ///
    /// Only if memory runs out; then nothing is changed, and the copy is lost.
    pub fn keep(&mut self, copy: Option<Message>) -> Result<Option<Message>, AllocError>
        ensures { MatchResult result
            (λ due. (due ≡ due_of self.old copy) × (self.new ≡ delayed_after self.old copy))
            (λ refused. self.new ≡ self.old) }
    {
        self.copies.push_back(copy)?;
        if self.copies.len() <= usize::from(self.holding.get()) {
            return Ok(None);
        }
        match self.copies.pop_front() {
            Some(due) => Ok(due),
            None => Ok(None),
        }
    }

    /// The copies that are left when the line is closed, in order, with the frames that were lost.
    pub fn into_rest(self) -> VecDeque<Option<Message>>
        ensures { result.items ≡ self.copies }
    {
        self.copies
    }
}
