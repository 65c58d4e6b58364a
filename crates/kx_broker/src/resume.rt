//! The coordinator's answers on commits of offsets that are parked.
ghost use Rattle.std.specs.Prelude.{◌≡◌, ◌≢◌, ◌≤◌, ◌<◌, [], IfOk, IsErr, OnErr, length, map};
ghost use Rattle.std.specs.Prelude.{vec_capacity};
ghost use Rattle.kx_broker.specs.Memory.{GroupsMayLack};
ghost use Rattle.kx_broker.specs.Offsets.{KeepsOffsets};
ghost use Rattle.kx_broker.specs.Serving.{Serves, told_each};
ghost use Rattle.kx_message.specs.Ranges.{offsets_partition};
ghost use Rattle.kx_message.specs.declared.code.ErrorCode.TheVariants.{NoError};
ghost use Rattle.kx_message.specs.declared.message.Message.TheVariants as msg;
ghost use Rattle.kx_model.specs.PartitionNode.{Partition, offsets_takes, on_add_reply};
ghost use Rattle.kx_model.specs.Verification.{parked_for};

use crate::offsets::{OffsetsMachine, end_of};
use crate::reply::{offset_of, pass_on, reply_to};
use kx_log::Store;
use kx_machine::Messages;
use kx_message::{AddReply, ErrorCode, Held, Message, PartitionId};
use kx_partition::Produced;
use kx_verify::Request;
use std::alloc::AllocError;

// The replies to parked commits by what each was answered. There is room for them.
fn tell(room: Vec<Message>, requests: &[Request], answers: &[Produced]) -> Vec<Message>
    requires space { length requests.now ≤ vec_capacity room }
    requires empty { room.items ≡ [] }
    requires same { length answers.now ≡ length requests.now }
    ensures { result.items ≡ told_each requests.now answers.now }
{
    let mut replies = room;
    for (request, answer) in requests.iter().zip(answers.iter()) {
        replies.push_reserved(reply_to(request, answer.code(), offset_of(*answer)));
    }
    replies
}

impl<S: Store> OffsetsMachine<S> {
    // Those of an id and epoch that are parked run again.
    fn resume(&mut self, held: &Held) -> Result<Messages, AllocError>
        ensures ok { (p : Partition) → KeepsOffsets p self.old
            → IfOk result (Serves KeepsOffsets p self.old self.new
            (λ store. on_add_reply offsets_partition p store held.now NoError)) }
        ensures err { OnErr result (self.new ≡ self.old) }
        ensures memory { IsErr result → 0 < length (parked_for self.old.parked held.now) }
    {
        // Each batch is in its place.
        let _end = end_of(&self.groups);
        let requests = self.parked.of_held(*held);
        let room = Vec::with_capacity(self.alloc, requests.len())?;
        let answers = self.groups.resume(requests)?;
        let replies = tell(room, requests, answers.as_slice());
        self.parked.forget(*held);
        Ok(Messages::from_vec(replies))
    }

    // Those of an id and epoch that are parked are answered the coordinator's code.
    fn refuse_parked(&mut self, held: &Held, code: ErrorCode) -> Result<Messages, AllocError>
        requires { code ≢ NoError }
        ensures ok { (p : Partition) → KeepsOffsets p self.old
            → IfOk result (Serves KeepsOffsets p self.old self.new
            (λ store. on_add_reply offsets_partition p store held.now code)) }
        ensures err { OnErr result (self.new ≡ self.old) }
        ensures memory { IsErr result → 0 < length (parked_for self.old.parked held.now) }
    {
        let requests = self.parked.of_held(*held);
        let room = Vec::with_capacity(self.alloc, requests.len())?;
        let replies = pass_on(room, requests, code);
        self.parked.forget(*held);
        Ok(Messages::from_vec(replies))
    }

    /// The coordinator has answered on the commits of an id and epoch that are parked here: they
    /// run again, or are answered its code. Room for the replies is asked for first.
    ///
    /// # Errors
    ///
    /// Out of memory, only if some are parked; then all is as before.
    pub(crate) fn add_reply(&mut self, it: &AddReply) -> Result<Messages, AllocError>
        ensures ok { (p : Partition) → KeepsOffsets p self.old
            → IfOk result (Serves KeepsOffsets p self.old self.new
            (λ store. offsets_takes p store (msg.AddReply it.now))) }
        ensures err { OnErr result (self.new ≡ self.old) }
        ensures memory { IsErr result → GroupsMayLack self.old (msg.AddReply it.now) }
    {
        if it.partition != PartitionId::OFFSETS {
            return Ok(Messages::none(self.alloc));
        }
        if it.code == ErrorCode::NoError {
            self.resume(&it.held)
        } else {
            self.refuse_parked(&it.held, it.code)
        }
    }
}
