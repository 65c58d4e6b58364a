//! Members of consumer groups, and the offsets that they ask for.
ghost use Rattle.std.specs.Prelude.{◌≡◌, IfOk, IsErr, OnErr};
ghost use Rattle.kx_broker.specs.Memory.{GroupsMayLack};
ghost use Rattle.kx_broker.specs.Offsets.{DropsMember, KeepsOffsets};
ghost use Rattle.kx_broker.specs.Serving.{Serves};
ghost use Rattle.kx_group.specs.Calls.{WantsMemory};
ghost use Rattle.kx_message.specs.Message.{IsU32};
ghost use Rattle.kx_message.specs.Ranges.{IsName};
ghost use Rattle.kx_message.specs.declared.message.Message.TheVariants as msg;
ghost use Rattle.kx_model.specs.Groups.{judge_drop};
ghost use Rattle.kx_model.specs.Log.{entries};
ghost use Rattle.kx_model.specs.PartitionNode.{Partition, changed, entries_of, offsets_takes};

use crate::offsets::{OffsetsMachine, end_of};
use kx_log::Store;
use kx_machine::Messages;
use kx_message::{
    ClientId, ErrorCode, GroupId, Join, Leave, LeaveReply, Message, OffsetFetch, OffsetFetchReply,
};
use std::alloc::AllocError;

// A group's name and a member's number fit the fields of a record, as their types see to.
fn member_fits(group: GroupId, member: ClientId)
    ensures name { IsName group }
    ensures number { IsU32 member }
{
    let _name = group.as_bytes();
    let _number = member.get();
}

impl<S: Store> OffsetsMachine<S> {
    /// A client asks to join a group.
    ///
    /// # Errors
    ///
    /// Out of memory, only if the group's members change; then all is as before.
    pub(crate) fn join(&mut self, it: &Join) -> Result<Messages, AllocError>
        ensures ok { (p : Partition) → KeepsOffsets p self.old
            → IfOk result (Serves KeepsOffsets p self.old self.new
            (λ store. offsets_takes p store (msg.Join it.now))) }
        ensures err { OnErr result (self.new ≡ self.old) }
        ensures memory { IsErr result → GroupsMayLack self.old (msg.Join it.now) }
    {
        // Each batch is in its place.
        let _end = end_of(&self.groups);
        member_fits(it.group, it.caller.client);
        let reply = self.groups.join(it)?;
        Ok(Messages::one(Message::JoinReply(reply)))
    }

    /// A member leaves its group.
    ///
    /// # Errors
    ///
    /// Out of memory, only if the group's members change; then all is as before.
    pub(crate) fn leave(&mut self, it: &Leave) -> Result<Messages, AllocError>
        ensures ok { (p : Partition) → KeepsOffsets p self.old
            → IfOk result (Serves KeepsOffsets p self.old self.new
            (λ store. offsets_takes p store (msg.Leave it.now))) }
        ensures err { OnErr result (self.new ≡ self.old) }
        ensures memory { IsErr result → GroupsMayLack self.old (msg.Leave it.now) }
    {
        let Leave { caller, group } = *it;
        // Each batch is in its place.
        let _end = end_of(&self.groups);
        member_fits(group, caller.client);
        let code = self.groups.leave(group, caller.client)?;
        Ok(Messages::one(Message::LeaveReply(LeaveReply { caller, code })))
    }

    /// A member is dropped from its group.
    ///
    /// # Errors
    ///
    /// Out of memory, only if the group's members change; then all is as before.
    pub(crate) fn drop_member(
        &mut self,
        group: GroupId,
        member: ClientId,
    ) -> Result<ErrorCode, AllocError>
        ensures ok { (p : Partition) → KeepsOffsets p self.old
            → IfOk result (DropsMember KeepsOffsets p self.old self.new
            (λ store. changed p store (judge_drop (entries_of p) group member))) }
        ensures err { OnErr result (self.new ≡ self.old) }
        ensures memory { IsErr result
            → WantsMemory (judge_drop (entries self.old.log.batches) group member) self.old.log }
    {
        // Each batch is in its place.
        let _end = end_of(&self.groups);
        member_fits(group, member);
        self.groups.drop_member(group, member)
    }

    /// A client asks for its group's committed offset of a partition that the group reads. No
    /// memory is asked for.
    pub(crate) fn offset_fetch(&self, it: &OffsetFetch) -> Messages
        ensures { (p : Partition) → KeepsOffsets p self.now
            → Serves KeepsOffsets p self.now self.now
            (λ store. offsets_takes p store (msg.OffsetFetch it.now)) result }
    {
        let (code, offset) = self.groups.offset_fetch(it.group, it.partition, it.stable);
        Messages::one(Message::OffsetFetchReply(OffsetFetchReply {
            caller: it.caller,
            code,
            offset,
        }))
    }
}
