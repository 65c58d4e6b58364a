//! The numbers of messages.
ghost use Rattle.std.specs.Prelude.{◌≡◌, ◌++◌, ◌∷◌, [], Contains, IfOk, IfSome, MatchOption};
ghost use Rattle.std.specs.Prelude.{IsTrue, OnOk, Some, slice_get};

use kx_machine::same_message;
use kx_message::Message;
use kx_wire::frame_of;
use std::alloc::{AllocError, Global};
use std::collections::HashMap;
use std::marker::Model;

/// The messages that were sent, numbered from 0, with an index of them. One is looked up by its
/// frame; one that is too long for a frame, as none that was sent is, is compared with each.
#[derive(Drop)]
pub(crate) struct Numbers {
    alloc: Global,
    messages: Vec<Message>,
    // of each frame the number of the first message that has it
    frames: HashMap<Vec<u8>, usize>,
}

impl Model for Numbers {
    ghost use Rattle.std.specs.Prelude.{List};
    ghost use Rattle.kx_message.specs.declared.message.Message.{Message};

    ghost Value = { List Message };

    ghost view = { λ n. n.messages.items };
}

impl Numbers {
    /// No message was sent. Takes no memory.
    pub(crate) fn new(alloc: Global) -> Numbers
        ensures { result ≡ [] }
    {
        Numbers {
            alloc,
            messages: Vec::new(alloc),
            frames: HashMap::new(alloc),
        }
    }

    // Keeps the number that comes next for the message's frame, unless an earlier one has it.
    fn note(&mut self, message: &Message) -> Result<(), AllocError>
        ensures { self.new ≡ self.old }
    {
        if !message.fits() {
            return Ok(());
        }
        let frame = frame_of(self.alloc, message)?;
        if self.frames.contains_key(&frame) {
            return Ok(());
        }
        match self.frames.insert(frame, self.messages.len()) {
            Ok(_) => Ok(()),
            Err(_) => Err(AllocError),
        }
    }

    // One more that was sent.
    fn add(&mut self, message: &Message) -> Result<(), AllocError>
        ensures { OnOk result (self.new ≡ self.old ++ message.now ∷ []) }
    {
        self.note(message)?;
        self.messages.push(message.clone()?)?;
        Ok(())
    }

    /// More that were sent, one after the other.
    ///
    /// # Errors
    ///
    /// Only if memory runs out.
    pub(crate) fn add_all(&mut self, messages: &[Message]) -> Result<(), AllocError>
        ensures { OnOk result (self.new ≡ self.old ++ messages.now) }
    {
        for message in messages {
            self.add(message)?;
        }
        Ok(())
    }

    // The number that the index has of it.
    fn noted(&self, message: &Message) -> Result<Option<usize>, AllocError> {
        if !message.fits() {
            return Ok(None);
        }
        let frame = frame_of(self.alloc, message)?;
        Ok(self.frames.get(&frame).copied())
    }

    // Whether it has this number.
    fn is_at(&self, number: usize, message: &Message) -> bool
        ensures { IsTrue result → slice_get self.now number ≡ Some message.now }
    {
        match self.messages.get(number) {
            Some(sent) => same_message(sent, message),
            None => false,
        }
    }

    // The number of the first that is the same.
    fn find(&self, message: &Message) -> Option<usize>
        ensures { MatchOption result
            (Contains self.now message.now → ⊥)
            (λ number. slice_get self.now number ≡ Some message.now) }
    {
        for number in 0..self.messages.len() {
            if same_message(&self.messages[number], message) {
                return Some(number);
            }
        }
        None
    }

    /// The number of a message, if it was sent.
    ///
    /// # Errors
    ///
    /// Only if memory runs out.
    pub(crate) fn number(&self, message: &Message) -> Result<Option<usize>, AllocError>
        ensures { IfOk result (λ found. MatchOption found
            (Contains self.now message.now → ⊥)
            (λ number. slice_get self.now number ≡ Some message.now)) }
    {
        match self.noted(message)? {
            Some(number) if self.is_at(number, message) => Ok(Some(number)),
            _ => Ok(self.find(message)),
        }
    }
}
