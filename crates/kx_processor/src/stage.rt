//! Where a processor is in a pass, and where the codes of replies lead it.
ghost use Rattle.std.specs.Prelude.{◌≡◌, pos, true, false, if◌then◌else◌};
ghost use Rattle.kx_processor.specs.Internal.{IsPaged, is_page, left_of, sequel_of, stage_of};
ghost use Rattle.kx_system.specs.Processor as pass;
ghost use Rattle.kx_system.specs.Processor.{Aborting, Overflows, Processing, behind, committed};
ghost use Rattle.kx_system.specs.Processor.{ended, from_offset, is_overflown, is_stopped};
ghost use Rattle.kx_system.specs.Processor.{located, onward, stage_sent};
ghost use Rattle.kx_system.specs.Processor.{stage_told, written};

use crate::batches::Batches;
use crate::inputs::{Input, Inputs};
use crate::owned::Owned;
use kx_message::{ErrorCode, JoinReply, Message};

// What comes after an abort.
#[derive(Clone, Copy)]
pub(crate) enum Sequel {
    Anew,
    Stops,
    Overflows,
}

// What the processor is about to ask for, or waits for.
#[derive(Drop)]
pub(crate) enum Stage {
    // To be a member, as each pass begins.
    Joining,
    // The offset that the group committed for the input partition.
    Locating {
        input: Input,
        left: Owned,
    },
    // A page from that offset, -1 if none was committed.
    Fetching {
        input: Input,
        left: Owned,
        offset: i64,
    },
    // To write these batches of images, and then the offset after the page.
    Writing {
        input: Input,
        left: Owned,
        next: i64,
        batches: Batches,
    },
    Committing(Owned),
    Aborting(Sequel),
    // An image fitted no batch, which was not yet told.
    Overflown,
    // For good.
    Stopped,
}

// Where a page is to begin: a group that committed nothing begins at 0.
pub(crate) fn from_of(offset: i64) -> i64
    ensures { result ≡ pos (from_offset offset) }
{
    if offset < 0 { 0 } else { offset }
}

impl Stage {
    // The next input partition of the pass, or the next pass.
    pub(crate) fn onward(mut left: Owned) -> Stage
        ensures { stage_of result ≡ onward (left_of left) }
    {
        match left.next() {
            Some(input) => Stage::Locating { input, left },
            None => Stage::Joining,
        }
    }

    // A join was answered.
    fn joined(self, inputs: Inputs, reply: &JoinReply) -> Stage
        ensures { (p : Processing) → p.inputs ≡ inputs → stage_of result
            ≡ pass.joined p (stage_of self) reply.now.code reply.now.place reply.now.count }
    {
        match (self, reply.code) {
            (Stage::Joining, ErrorCode::NoError) => {
                Stage::onward(Owned::all(reply.place, reply.count, inputs))
            }
            (stage, _) => stage,
        }
    }

    // The fetch of an offset was answered.
    fn located(self, code: ErrorCode, offset: i64) -> Stage
        ensures { stage_of result ≡ located (stage_of self) code offset }
    {
        match self {
            Stage::Locating { input, left } => match code {
                ErrorCode::NoError => Stage::Fetching {
                    input,
                    left,
                    offset,
                },
                ErrorCode::UnstableOffsetCommit => Stage::onward(left),
                _ => Stage::Locating { input, left },
            },
            stage => stage,
        }
    }

    // A batch of images was answered.
    fn written(self, code: ErrorCode) -> Stage
        ensures { stage_of result ≡ written (stage_of self) code }
    {
        match self {
            Stage::Writing {
                input,
                left,
                next,
                mut batches,
            } => {
                if code == ErrorCode::NoError {
                    batches.advance();
                }
                Stage::Writing {
                    input,
                    left,
                    next,
                    batches,
                }
            }
            stage => stage,
        }
    }

    // The offset after a page was answered.
    fn committed(self, code: ErrorCode) -> Stage
        ensures { stage_of result ≡ committed (stage_of self) code }
    {
        match code {
            ErrorCode::NoError => {
                if let Stage::Writing { left, .. } = &self {
                    return Stage::Committing(*left);
                }
                self
            }
            ErrorCode::IllegalGeneration => Stage::Aborting(Sequel::Anew),
            ErrorCode::UnknownMemberId => Stage::Aborting(Sequel::Stops),
            _ => self,
        }
    }

    // What comes after an abort.
    fn behind(sequel: Sequel) -> Stage
        ensures { stage_of result ≡ behind (sequel_of sequel) }
    {
        match sequel {
            Sequel::Anew => Stage::Joining,
            Sequel::Stops => Stage::Stopped,
            Sequel::Overflows => Stage::Overflown,
        }
    }

    // The end of a transaction was answered.
    fn ended(self, code: ErrorCode) -> Stage
        ensures { stage_of result ≡ ended (stage_of self) code }
    {
        match (self, code) {
            (Stage::Committing(left), ErrorCode::NoError) => Stage::onward(left),
            (Stage::Aborting(sequel), ErrorCode::NoError) => Stage::behind(sequel),
            (stage, _) => stage,
        }
    }

    // Whether an image fitted no batch, which was not yet told.
    pub(crate) fn is_overflown(&self) -> bool
        ensures { result ≡ is_overflown (stage_of self.now) }
    {
        matches!(self, Stage::Overflown)
    }

    // Whether it is for good.
    pub(crate) fn is_stopped(&self) -> bool
        ensures { result ≡ is_stopped (stage_of self.now) }
    {
        matches!(self, Stage::Stopped)
    }

    // Whether an image is to be written next that fits no batch.
    pub(crate) fn overflows(&self) -> bool
        ensures { stage_sent (stage_of self.now)
            ≡ (if result then Aborting Overflows else stage_of self.now) }
    {
        match self {
            Stage::Writing { batches, .. } => match batches.first() {
                Some(values) => !values.fit(),
                None => false,
            },
            _ => false,
        }
    }

    // Where an awaited reply leads that has no page.
    fn told(self, inputs: Inputs, reply: &Message) -> Stage
        ensures page { is_page reply.now ≡ true → stage_of result ≡ stage_of self }
        ensures code { (p : Processing) → p.inputs ≡ inputs → p.stage ≡ stage_of self
            → is_page reply.now ≡ false → stage_of result ≡ stage_told p reply.now }
    {
        match reply {
            Message::JoinReply(it) => self.joined(inputs, it),
            Message::OffsetFetchReply(it) => self.located(it.code, it.offset),
            Message::ProduceReply(it) => self.written(it.code),
            Message::OffsetsReply(it) => self.committed(it.code),
            Message::EndReply(it) => self.ended(it.code),
            _ => self,
        }
    }

    // Where an awaited reply leads, of which it is known where its page does.
    pub(crate) fn led(self, paged: Option<Stage>, inputs: Inputs, reply: &Message) -> Stage
        ensures { (p : Processing) → p.inputs ≡ inputs → p.stage ≡ stage_of self
            → IsPaged p reply.now paged → stage_of result ≡ stage_told p reply.now }
    {
        match paged {
            Some(stage) => stage,
            None => self.told(inputs, reply),
        }
    }
}
