//! What goes out over a line when a frame comes.
ghost use Rattle.std.specs.Prelude.{◌≡◌, [], MatchResult, None, Some, if◌then◌else◌};
ghost use Rattle.kx_relay.specs.Line.{due_of, delayed_after};

use crate::delayed::Delayed;
use crate::share::Holding;
use kx_message::Message;
use std::alloc::{AllocError, Global};
use std::collections::VecDeque;
use std::marker::Model;

/// What goes out when a frame comes, in this order.
#[derive(Drop)]
pub struct Passed {
    /// The frame itself, unless it is lost.
    pub now: Option<Message>,
    /// The copy of an earlier frame, or of this one, that is due.
    pub again: Option<Message>,
}

/// One direction of a relay: each frame that isn't lost goes out at once, and again when this many
/// further frames have come as are held.
#[derive(Drop)]
pub struct Line {
    delayed: Delayed,
}

impl Model for Line {
    ghost use Rattle.kx_relay.specs.Line.{Holds};

    ghost Value = { Holds };

    ghost view = { λ line. line.delayed };
}

impl Line {
    /// A line over which nothing went.
    pub fn new(alloc: Global, holding: Holding) -> Line
        ensures { result ≡ record { holding = holding; copies = [] } }
    {
        Line {
            delayed: Delayed::new(alloc, holding),
        }
    }

    /// A frame comes, and is lost or isn't.
    ///
    /// # Errors
    ///
    /// Only if memory runs out; then nothing goes out, and the line is as before.
    pub fn pass(&mut self, message: Message, is_lost: bool) -> Result<Passed, AllocError>
        ensures { MatchResult result
            (λ passed. (passed.now ≡ (if is_lost then None else Some message))
            × (passed.again ≡ due_of self.old passed.now)
            × (self.new ≡ delayed_after self.old passed.now))
            (λ refused. self.new ≡ self.old) }
    {
        if is_lost {
            let again = self.delayed.keep(None)?;
            return Ok(Passed { now: None, again });
        }
        let again = self.delayed.keep(Some(message.clone()?))?;
        Ok(Passed {
            now: Some(message),
            again,
        })
    }

    /// The copies that go out when the line is closed, in order, with the frames that were lost.
    pub fn into_rest(self) -> VecDeque<Option<Message>>
        ensures { result.items ≡ self.copies }
    {
        self.delayed.into_rest()
    }
}
