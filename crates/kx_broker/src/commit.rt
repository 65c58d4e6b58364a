//! Commits of offsets that come.
ghost use Rattle.std.specs.Prelude.{◌≡◌, false, IfOk, IsErr, OnErr};
ghost use Rattle.kx_broker.specs.Memory.{GroupsMayLack};
ghost use Rattle.kx_broker.specs.Offsets.{KeepsOffsets};
ghost use Rattle.kx_broker.specs.Serving.{Serves};
ghost use Rattle.kx_group.specs.Calls.{text_of};
ghost use Rattle.kx_message.specs.Messages as the;
ghost use Rattle.kx_message.specs.Ranges.{offsets_partition};
ghost use Rattle.kx_message.specs.declared.message.Message.TheVariants as msg;
ghost use Rattle.kx_model.specs.Groups.{judge_offsets};
ghost use Rattle.kx_model.specs.Log.{entries};
ghost use Rattle.kx_model.specs.PartitionNode.{Partition, offsets_takes};
ghost use Rattle.kx_model.specs.Produce.{Unverified};

use crate::offsets::{OffsetsMachine, end_of};
use kx_log::Store;
use kx_machine::Messages;
use kx_message::{AddPartition, ErrorCode, Message, OffsetsReply, PartitionId, TxnOffsetCommit};
use kx_offsets::commits_fit;
use kx_partition::Produced;
use kx_verify::Asked;
use std::alloc::AllocError;

// The reply to a commit of offsets.
fn reply(it: &TxnOffsetCommit, code: ErrorCode) -> Message
    ensures { result ≡ the.OffsetsReply it.now.caller code }
{
    Message::OffsetsReply(OffsetsReply {
        caller: it.caller,
        code,
    })
}

impl<S: Store> OffsetsMachine<S> {
    // Parks a commit whose transaction isn't verified, and asks the coordinator to list the
    // partition in it.
    fn park(&mut self, it: &TxnOffsetCommit) -> Result<Messages, AllocError>
        requires asks { judge_offsets (entries self.old.log.batches) false it.now.group
            it.now.member it.now.generation (text_of it.now) ≡ Unverified }
        ensures ok { (p : Partition) → KeepsOffsets p self.old
            → IfOk result (Serves KeepsOffsets p self.old self.new
            (λ store. offsets_takes p store (msg.TxnOffsetCommit it.now))) }
        ensures err { OnErr result (self.new ≡ self.old) }
        ensures memory { IsErr result → GroupsMayLack self.old (msg.TxnOffsetCommit it.now) }
    {
        // What it holds fits its fields, each batch of the log was the one to come next, and one
        // of groups: so the commit begins at sequence 0.
        commits_fit(it);
        let _end = end_of(&self.groups);
        if it.first_sequence < 0 {
            return Ok(Messages::one(reply(it, ErrorCode::InvalidTxnState)));
        }
        match self.parked.ask(it)? {
            Asked::Parked => Ok(Messages::one(Message::AddPartition(AddPartition {
                txn: it.txn,
                held: it.held,
                partition: PartitionId::OFFSETS,
            }))),
            Asked::Full => {
                let refusal = reply(it, ErrorCode::ConcurrentTransactions);
                Ok(Messages::one(refusal))
            }
        }
    }

    /// A commit of offsets comes.
    ///
    /// # Errors
    ///
    /// Out of memory, only if its batch is to be appended, or the commit to be parked as
    /// one more; then all is as before.
    pub(crate) fn commit(&mut self, it: &TxnOffsetCommit) -> Result<Messages, AllocError>
        ensures ok { (p : Partition) → KeepsOffsets p self.old
            → IfOk result (Serves KeepsOffsets p self.old self.new
            (λ store. offsets_takes p store (msg.TxnOffsetCommit it.now))) }
        ensures err { OnErr result (self.new ≡ self.old) }
        ensures memory { IsErr result → GroupsMayLack self.old (msg.TxnOffsetCommit it.now) }
    {
        // Each batch is in its place, and what the commit holds fits its fields.
        let _end = end_of(&self.groups);
        commits_fit(it);
        let answer = self.groups.txn_offset_commit(it, false)?;
        if let Produced::Unverified = answer {
            return self.park(it);
        }
        Ok(Messages::one(reply(it, answer.code())))
    }
}
