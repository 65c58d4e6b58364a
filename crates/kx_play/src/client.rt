//! A client before its end of a connection.
use crate::fault::PlayFault;
use crate::wires::ClientEnd;
use crossbeam_channel::Sender;
use kx_client::ClientFault;
use kx_machine::{Command, Input, Note};
use kx_message::Message;
use kx_nodes::{Locked, Node, Receipt};
use kx_relay::FrameStream;
use kx_stream::send;
use std::alloc::{AllocError, Global};
use std::net::Shutdown;
use std::sync::{Arc, Wait};

// After how many looks without a frame a client sends again what is unanswered.
const PATIENCE: u32 = 100;

/// A client: its node, its end of a connection, and the receipts of its steps.
#[derive(Drop)]
pub(crate) struct Client<L: Locked> {
    alloc: Global,
    node: Arc<Node<L>>,
    end: ClientEnd,
    receipts: Vec<Receipt>,
    // looks since a frame came or requests were sent again
    idle: u32,
}

// Puts all of these into an inbox, in order, and says whether it took them.
fn put_all<T: Drop, R: Wait>(rt: &R, inbox: &Sender<T>, all: Vec<T>) -> bool {
    for one in all {
        if inbox.send(rt, one).is_err() {
            return false;
        }
    }
    true
}

// Puts the messages that come into an inbox, until no more can come or the inbox takes none.
fn hear<R: Wait>(rt: &R, frames: &mut FrameStream, inbox: &Sender<Message>) {
    for _ in rt.forever() {
        let Some(messages) = frames.next() else {
            return;
        };
        if !put_all(rt, inbox, messages) {
            return;
        }
    }
}

/// Puts the messages that come to a client into its inbox, until its connection is closed.
pub(crate) fn listen<R: Wait>(rt: &R, mut frames: FrameStream, inbox: Sender<Message>) {
    hear(rt, &mut frames, &inbox);
    drop(frames);
    drop(inbox);
}

impl<L: Locked> Client<L> {
    /// A client that has done nothing.
    pub(crate) fn new(alloc: Global, node: Arc<Node<L>>, end: ClientEnd) -> Self {
        Client {
            alloc,
            node,
            end,
            receipts: Vec::new(alloc),
            idle: 0,
        }
    }

    // Sends what a step sent.
    fn send_all(&self, messages: &[Message]) -> Result<(), PlayFault> {
        for message in messages {
            if send(self.alloc, &mut &self.end.stream, message).is_err() {
                return Err(PlayFault::Net);
            }
        }
        Ok(())
    }

    // One step of the client: what it sends is sent.
    fn step<R: Wait>(&mut self, rt: &R, input: Input) -> Result<(), PlayFault> {
        let receipt = self.node.take(rt, input)?;
        let done = self.send_all(receipt.taken.messages.as_slice());
        self.receipts.push(receipt)?;
        done
    }

    /// The client is told to do something.
    pub(crate) fn tell<R: Wait>(&mut self, rt: &R, command: Command) -> Result<(), PlayFault> {
        self.step(rt, Input::Command(command))
    }

    // Sends again what is unanswered, if nothing came for long.
    fn resend<R: Wait>(&mut self, rt: &R) -> Result<(), PlayFault> {
        self.idle = self.idle.saturating_add(1);
        if self.idle < PATIENCE {
            return Ok(());
        }
        self.idle = 0;
        self.tell(rt, Command::Resend)
    }

    /// Looks for the next frame, takes it in, and says whether one came. A client that waits for an
    /// answer sends again what is unanswered if none came for long.
    pub(crate) fn look<R: Wait>(&mut self, rt: &R, is_waiting: bool) -> Result<bool, PlayFault> {
        match self.end.inbox.try_recv(rt) {
            Ok(message) => {
                self.idle = 0;
                self.step(rt, Input::Deliver(message))?;
                Ok(true)
            }
            Err(_) => {
                if is_waiting {
                    self.resend(rt)?;
                }
                Ok(false)
            }
        }
    }

    /// The message that the last step took in, if it took one.
    pub(crate) fn received(&self) -> Option<&Message> {
        match &self.receipts.last()?.input {
            Input::Deliver(message) => Some(message),
            _ => None,
        }
    }

    /// What the last step sent.
    pub(crate) fn sent(&self) -> &[Message] {
        match self.receipts.last() {
            Some(receipt) => receipt.taken.messages.as_slice(),
            None => &[],
        }
    }

    /// Whether the last step was refused since the client has failed for good.
    pub(crate) fn has_failed(&self) -> bool {
        match self.receipts.last() {
            Some(receipt) => matches!(receipt.taken.note, Note::Refused(ClientFault::Failed)),
            None => false,
        }
    }

    /// Sends no more.
    pub(crate) fn close(&self) {
        let _ = self.end.stream.shutdown(Shutdown::Write);
    }

    /// Appends the receipts of its steps to others.
    pub(crate) fn hand_over(&mut self, receipts: &mut Vec<Receipt>) -> Result<(), AllocError> {
        receipts.append(&mut self.receipts)
    }
}
