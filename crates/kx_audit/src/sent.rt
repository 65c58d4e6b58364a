//! The messages that steps sent, with an index of them.
ghost use Rattle.std.specs.Prelude.{◌≡◌, ◌++◌, ◌∷◌, [], Contains, IfOk, OnOk};
ghost use Rattle.std.specs.Bool.{Decides};
ghost use Rattle.kx_audit.specs.Joined.{WasHandedOut};
ghost use Rattle.kx_message.specs.Sizes.{FitsFrame};

use kx_machine::{Input, same_message};
use kx_message::Message;
use kx_wire::frame_of;
use std::alloc::{AllocError, Global};
use std::collections::HashSet;
use std::marker::Model;

/// Messages in the order in which they were sent. One is looked up by its frame; one that is too
/// long for a frame, as none that was sent is, is compared with each.
#[derive(Drop)]
pub(crate) struct Sent {
    alloc: Global,
    messages: Vec<Message>,
    frames: HashSet<Vec<u8>>,
}

impl Model for Sent {
    ghost use Rattle.std.specs.Prelude.{List};
    ghost use Rattle.kx_message.specs.declared.message.Message.{Message};

    ghost Value = { List Message };

    ghost use Rattle.kx_audit.specs.Sent.{IsIndexed};

    ghost view = { λ s. s.messages.items };

    ghost invariant = { λ s. IsIndexed (λ frame. frame.items) s.frames.keys s.messages.items };
}

impl Sent {
    /// An empty list. Takes no memory.
    pub(crate) fn new(alloc: Global) -> Sent
        ensures { result ≡ [] }
    {
        Sent {
            alloc,
            messages: Vec::new(alloc),
            frames: HashSet::new(alloc),
        }
    }

    // One that fits a frame.
    fn add_short(&mut self, message: Message) -> Result<(), AllocError>
        requires { FitsFrame message }
        ensures { OnOk result (self.new ≡ self.old ++ message ∷ []) }
    {
        let frame = frame_of(self.alloc, &message)?;
        self.messages.reserve(1)?;
        if let Err(_) = self.frames.insert(frame) {
            return Err(AllocError);
        }
        self.messages.push_reserved(message);
        Ok(())
    }

    /// Adds a message.
    ///
    /// # Errors
    ///
    /// Only if memory runs out.
    pub(crate) fn add(&mut self, message: Message) -> Result<(), AllocError>
        ensures { OnOk result (self.new ≡ self.old ++ message ∷ []) }
    {
        if message.fits() {
            return self.add_short(message);
        }
        self.messages.push(message)?;
        Ok(())
    }

    /// Copies of these, one after the other.
    ///
    /// # Errors
    ///
    /// Only if memory runs out.
    pub(crate) fn add_all(&mut self, messages: &[Message]) -> Result<(), AllocError>
        ensures { OnOk result (self.new ≡ self.old ++ messages.now) }
    {
        for message in messages {
            self.add(message.clone()?)?;
        }
        Ok(())
    }

    // Whether one that fits no frame is among them.
    fn has_long(&self, message: &Message) -> bool
        ensures { Decides result (Contains self.now message.now) }
    {
        for sent in &self.messages {
            if same_message(sent, message) {
                return true;
            }
        }
        false
    }

    /// Whether the message is among them.
    ///
    /// # Errors
    ///
    /// Only if memory runs out.
    pub(crate) fn has(&self, message: &Message) -> Result<bool, AllocError>
        ensures { IfOk result (λ found. Decides found (Contains self.now message.now)) }
    {
        if !message.fits() {
            return Ok(self.has_long(message));
        }
        let frame = frame_of(self.alloc, message)?;
        Ok(self.frames.contains(&frame))
    }

    /// Whether the input may come after them: a message only if it is among them.
    ///
    /// # Errors
    ///
    /// Only if memory runs out.
    pub(crate) fn may_take(&self, input: &Input) -> Result<bool, AllocError>
        ensures { IfOk result (λ b. Decides b (WasHandedOut self.now input.now)) }
    {
        match input {
            Input::Deliver(message) => self.has(message),
            _ => Ok(true),
        }
    }
}
