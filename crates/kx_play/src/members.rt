//! The members of the group: processors, each of which reads what it owns of the input partitions.
use crate::client::Client;
use crate::fault::PlayFault;
use kx_batch::BatchView;
use kx_machine::Command;
use kx_message::{ErrorCode, Message, PartitionId};
use kx_nodes::{Locked, Receipt};
use std::alloc::AllocError;
use std::sync::Wait;

/// The offset of an input partition for which a member asked.
#[derive(Clone, Copy)]
struct Asked {
    correlation: u32,
    partition: PartitionId,
}

/// An offset that the group has committed.
#[derive(Clone, Copy)]
pub(crate) struct Committed {
    pub(crate) partition: PartitionId,
    pub(crate) offset: i64,
}

/// A processor, and what it has come to.
#[derive(Drop)]
pub(crate) struct Member<L: Locked> {
    client: Client<L>,
    asked: Option<Asked>,
    has_begun: bool,
    has_joined: bool,
    has_failed: bool,
    written: usize,
}

// How many records a batch has.
fn records_in(batch: &[u8]) -> usize {
    match BatchView::read(batch) {
        Ok((batch, _)) => batch.records().len(),
        Err(_) => 0,
    }
}

// For which offset the last of these messages asked that asks for one.
fn asked_in(sent: &[Message]) -> Option<Asked> {
    let mut asked = None;
    for message in sent {
        if let Message::OffsetFetch(request) = message {
            asked = Some(Asked {
                correlation: request.caller.correlation,
                partition: request.partition,
            });
        }
    }
    asked
}

// How many images these messages send.
fn images_in(sent: &[Message]) -> usize {
    let mut images: usize = 0;
    for message in sent {
        if let Message::Produce(request) = message {
            images = images.saturating_add(records_in(request.batch.as_slice()));
        }
    }
    images
}

// The committed offset that a reply tells, where it is the one that was asked for.
fn committed_in(reply: &Message, asked: Option<Asked>) -> Option<Committed> {
    let Message::OffsetFetchReply(reply) = reply else {
        return None;
    };
    let asked = asked?;
    if reply.code != ErrorCode::NoError || reply.caller.correlation != asked.correlation {
        return None;
    }
    Some(Committed {
        partition: asked.partition,
        offset: reply.offset,
    })
}

// Whether a reply takes its client into the group.
fn takes_in(reply: &Message) -> bool {
    match reply {
        Message::JoinReply(reply) => reply.code == ErrorCode::NoError,
        _ => false,
    }
}

impl<L: Locked> Member<L> {
    /// A member that has asked for nothing.
    pub(crate) fn new(client: Client<L>) -> Self {
        Member {
            client,
            asked: None,
            has_begun: false,
            has_joined: false,
            has_failed: false,
            written: 0,
        }
    }

    /// Whether it was a member once.
    pub(crate) fn has_joined(&self) -> bool {
        self.has_joined
    }

    /// Whether it has failed for good.
    pub(crate) fn has_failed(&self) -> bool {
        self.has_failed
    }

    /// How many images it has sent, whatever became of them.
    pub(crate) fn written(&self) -> usize {
        self.written
    }

    /// Begins: it asks for a producer id.
    pub(crate) fn begin<R: Wait>(&mut self, rt: &R) -> Result<(), PlayFault> {
        self.has_begun = true;
        self.client.tell(rt, Command::Init)
    }

    /// Sends its next request, if none is unanswered.
    pub(crate) fn poll<R: Wait>(&mut self, rt: &R) -> Result<(), PlayFault> {
        self.client.tell(rt, Command::Poll)?;
        self.has_failed = self.has_failed || self.client.has_failed();
        let asked = asked_in(self.client.sent());
        let images = images_in(self.client.sent());
        if asked.is_some() {
            self.asked = asked;
        }
        self.written = self.written.saturating_add(images);
        Ok(())
    }

    /// Sends no more.
    pub(crate) fn close(&self) {
        self.client.close();
    }

    /// Appends the receipts of its steps to others.
    pub(crate) fn hand_over(&mut self, receipts: &mut Vec<Receipt>) -> Result<(), AllocError> {
        self.client.hand_over(receipts)
    }

    // Takes in the message that came last, and returns the committed offset that it tells.
    fn hear(&mut self) -> Option<Committed> {
        let reply = self.client.received()?;
        let is_taken_in = takes_in(reply);
        let committed = committed_in(reply, self.asked);
        self.has_joined = self.has_joined || is_taken_in;
        committed
    }

    /// Looks for the next frame, and sends what comes next; a member of the group only if it is
    /// to work.
    pub(crate) fn turn<R: Wait>(&mut self, rt: &R, is_to_work: bool) -> Result<Seen, PlayFault> {
        let goes_on = is_to_work || !self.has_joined;
        let is_waiting = self.has_begun && goes_on && !self.has_failed;
        if !self.client.look(rt, is_waiting)? {
            return Ok(Seen {
                has_come: false,
                committed: None,
            });
        }
        let committed = self.hear();
        if is_to_work || !self.has_joined {
            self.poll(rt)?;
        }
        Ok(Seen {
            has_come: true,
            committed,
        })
    }
}

/// What came of a look.
#[derive(Clone, Copy)]
pub(crate) struct Seen {
    /// Whether a frame came.
    pub(crate) has_come: bool,
    /// A committed offset of the group.
    pub(crate) committed: Option<Committed>,
}
