//! The messages that were sent to nodes and not taken yet.
ghost use Rattle.std.specs.Prelude.{◌≡◌, ◌+◌, ◌++◌, ◌∷◌, ℕ, [], Contains, IfOk, IsFalse, IsTrue};
ghost use Rattle.std.specs.Prelude.{List, OnOk, if◌then◌else◌};
ghost use Rattle.std.specs.Str.{bytes_eq};
ghost use Rattle.kx_follow.specs.Internal.{HasFrame, first_times};
ghost use Rattle.kx_follow.specs.Pending.{AreSent, IsAmong, is_for_server, sent_among, times};
ghost use Rattle.kx_message.specs.Fields.{frame_text};
ghost use Rattle.kx_message.specs.Sizes.{FitsFrame};
ghost use Rattle.kx_message.specs.declared.message.Message.{Message};

use kx_message::{Message, NodeId};
use kx_wire::frame_of;
use std::alloc::{AllocError, Global};
use std::collections::HashMap;
use std::marker::Model;

/// The messages that were sent and not taken yet, by their frames; each with how often more than
/// once.
#[derive(Drop)]
pub(crate) struct Pending {
    alloc: Global,
    further: HashMap<Vec<u8>, u64>,
}

impl Model for Pending {
    ghost use Rattle.kx_follow.specs.Internal.{waiting_of};
    ghost use Rattle.kx_follow.specs.Pending.{Waiting};

    ghost Value = { Waiting };

    ghost view = { λ p. waiting_of (λ frame. frame.items) p.further.entries };
}

// Whether a node of the server can take the message: it goes to no client, and fits a frame.
fn is_for_server(message: &Message) -> bool
    ensures { result ≡ is_for_server message.now }
{
    match message.receiver() {
        NodeId::Client(_) => false,
        _ => message.fits(),
    }
}

impl Pending {
    /// No message. Takes no memory.
    pub(crate) fn new(alloc: Global) -> Pending
        ensures { result ≡ [] }
    {
        Pending {
            alloc,
            further: HashMap::new(alloc),
        }
    }

    // How often more than once a frame waits that is sent once more. If that is 2^64 times it gives up,
    // as if memory ran out.
    fn once_more(&self, frame: &Vec<u8>) -> Result<u64, AllocError>
        ensures { IfOk result (λ further. further ≡ first_times frame.now.items self.now) }
    {
        let Some(further) = self.further.get(frame).copied() else {
            return Ok(0);
        };
        match further.checked_add(1) {
            Some(more) => Ok(more),
            None => Err(AllocError),
        }
    }

    // A frame waits once, and this often more.
    fn set(&mut self, frame: Vec<u8>, further: u64) -> Result<(), AllocError>
        ensures sent { OnOk result ((sent : List Message) → AreSent sent self.old
            → HasFrame sent frame.items → AreSent sent self.new) }
        ensures times { OnOk result ((text : List ℕ) → times text self.new
            + (if bytes_eq text frame.items then first_times frame.items self.old else 0)
            ≡ times text self.old + (if bytes_eq text frame.items then further + 1 else 0)) }
    {
        let _before = self.further.insert(frame, further)?;
        Ok(())
    }

    // A message that a node of the server can take.
    fn add_short(&mut self, message: &Message) -> Result<(), AllocError>
        requires { FitsFrame message.now }
        ensures sent { OnOk result ((sent : List Message) → AreSent sent self.old
            → AreSent (sent ++ message.now ∷ []) self.new) }
        ensures times { OnOk result ((text : List ℕ) → times text self.new
            ≡ times text self.old + (if bytes_eq text (frame_text message.now) then 1 else 0)) }
    {
        let frame = frame_of(self.alloc, message)?;
        let further = self.once_more(&frame)?;
        self.set(frame, further)
    }

    // A message that was sent, if a node of the server can take it.
    fn add(&mut self, message: &Message) -> Result<(), AllocError>
        ensures sent { OnOk result ((sent : List Message) → AreSent sent self.old
            → AreSent (sent ++ message.now ∷ []) self.new) }
        ensures times { OnOk result ((text : List ℕ) → times text self.new
            ≡ times text self.old + sent_among text (message.now ∷ [])) }
    {
        if is_for_server(message) {
            self.add_short(message)?;
        }
        Ok(())
    }

    /// Adds messages that were sent: those that a node of the server can take.
    ///
    /// # Errors
    ///
    /// If memory runs out, or one waits 2^64 times; some of them are added then.
    pub(crate) fn add_all(&mut self, messages: &[Message]) -> Result<(), AllocError>
        ensures sent { OnOk result ((sent : List Message) → AreSent sent self.old
            → AreSent (sent ++ messages.now) self.new) }
        ensures times { OnOk result ((text : List ℕ) → times text self.new
            ≡ times text self.old + sent_among text messages.now) }
    {
        for message in messages {
            self.add(message)?;
        }
        Ok(())
    }

    /// Takes a message out, once, if it is there.
    ///
    /// # Errors
    ///
    /// Only if memory runs out.
    pub(crate) fn take_out(&mut self, message: &Message) -> Result<bool, AllocError>
        ensures left { OnOk result ((sent : List Message) → AreSent sent self.old
            → AreSent sent self.new) }
        ensures was_sent { IfOk result (λ found. IsTrue found → (sent : List Message)
            → AreSent sent self.old → Contains sent message.now) }
        ensures times { IfOk result (λ found. IsTrue found → (text : List ℕ)
            → times text self.new + (if bytes_eq text (frame_text message.now) then 1 else 0)
            ≡ times text self.old) }
        ensures stays { IfOk result (λ found. IsFalse found → self.new ≡ self.old) }
        ensures none { IfOk result (λ found. IsFalse found → FitsFrame message.now
            → IsAmong self.old message.now → ⊥) }
    {
        if !message.fits() {
            return Ok(false);
        }
        let frame = frame_of(self.alloc, message)?;
        let Some(further) = self.further.get(&frame).copied() else {
            return Ok(false);
        };
        if further > 0 {
            self.set(frame, further - 1)?;
        } else {
            let _last = self.further.remove(&frame);
        }
        Ok(true)
    }
}
