//! What the server of the offsets partition does as that of any partition: markers, fetches, and
//! opening again.
ghost use Rattle.std.specs.Prelude.{◌≡◌, ◌≢◌, negsuc, IfOk, IsErr, MatchResult, OnErr};
ghost use Rattle.kx_broker.specs.Memory.{GroupsMayLack};
ghost use Rattle.kx_broker.specs.Offsets.{KeepsOffsets};
ghost use Rattle.kx_broker.specs.Serving.{Restarts, Serves};
ghost use Rattle.kx_message.specs.Ranges.{offsets_partition};
ghost use Rattle.kx_message.specs.declared.message.Message.TheVariants as msg;
ghost use Rattle.kx_model.specs.PartitionNode.{Partition, marker_of, offsets_takes, on_marker};
ghost use Rattle.kx_model.specs.PartitionNode.{refused_produce};
ghost use Rattle.kx_model.specs.Produce.{Appends};
ghost use Rattle.kx_partition.specs.Answer.{marker_verdict_at};

use crate::fetch::{fetch, refused_fetch};
use crate::offsets::{OffsetsMachine, end_of};
use crate::restart::{Restarted, unread_after};
use crate::waiting::ParkedCommits;
use kx_log::Store;
use kx_machine::Messages;
use kx_message::{
    ErrorCode, Fetch, MarkerReply, Message, PartitionId, Produce, ProduceReply, WriteMarker,
};
use std::alloc::AllocError;

// The reply to a batch for another partition.
fn refused_batch(it: &Produce) -> Message
    ensures { result ≡ refused_produce it.now.caller it.now.partition }
{
    Message::ProduceReply(ProduceReply {
        caller: it.caller,
        partition: it.partition,
        code: ErrorCode::UnknownTopicOrPartition,
        offset: -1,
    })
}

impl<S: Store> OffsetsMachine<S> {
    /// A batch comes. One for another partition is refused, and one for this partition is no commit
    /// of offsets and changes nothing. No memory is asked for.
    pub(crate) fn refuse(&self, it: &Produce) -> Messages
        ensures { (p : Partition) → KeepsOffsets p self.now
            → Serves KeepsOffsets p self.now self.now
            (λ store. offsets_takes p store (msg.Produce it.now)) result }
    {
        if it.partition == PartitionId::OFFSETS {
            Messages::none(self.alloc)
        } else {
            Messages::one(refused_batch(it))
        }
    }

    /// A fetch comes; one of another partition is refused.
    ///
    /// # Errors
    ///
    /// Out of memory, only for a page that isn't empty.
    pub(crate) fn fetch(&self, it: &Fetch) -> Result<Messages, AllocError>
        ensures ok { (p : Partition) → KeepsOffsets p self.now
            → IfOk result (Serves KeepsOffsets p self.now self.now
            (λ store. offsets_takes p store (msg.Fetch it.now))) }
        ensures memory { IsErr result → GroupsMayLack self.now (msg.Fetch it.now) }
    {
        if it.partition == PartitionId::OFFSETS {
            let page = fetch(self.alloc, self.groups.partition(), it)?;
            Ok(Messages::one(page))
        } else {
            let refusal = refused_fetch(self.alloc, it, ErrorCode::UnknownTopicOrPartition);
            Ok(Messages::one(refusal))
        }
    }

    // A marker for this partition comes.
    fn mark(&mut self, it: &WriteMarker) -> Result<Messages, AllocError>
        ensures ok { (p : Partition) → KeepsOffsets p self.old
            → IfOk result (Serves KeepsOffsets p self.old self.new
            (λ store. on_marker offsets_partition p store it.now.txn it.now.held
            (marker_of it.now.held it.now.coordinator_epoch it.now.outcome))) }
        ensures err { OnErr result (self.new ≡ self.old) }
        ensures memory { IsErr result → marker_verdict_at self.old.log
            (marker_of it.now.held it.now.coordinator_epoch it.now.outcome) ≡ Appends }
    {
        let held = it.held;
        // Its id and epoch fit the fields of a marker.
        let _ended = held.get();
        // Each batch is in its place.
        let _end = end_of(&self.groups);
        let code = self.groups.marker(held, it.coordinator_epoch, it.outcome)?;
        Ok(Messages::one(Message::MarkerReply(MarkerReply {
            partition: PartitionId::OFFSETS,
            txn: it.txn,
            held,
            code,
        })))
    }

    /// A marker comes. One for another partition changes nothing.
    ///
    /// # Errors
    ///
    /// Out of memory, only if the marker is to be appended; then all is as before.
    pub(crate) fn marker(&mut self, it: &WriteMarker) -> Result<Messages, AllocError>
        ensures ok { (p : Partition) → KeepsOffsets p self.old
            → IfOk result (Serves KeepsOffsets p self.old self.new
            (λ store. offsets_takes p store (msg.WriteMarker it.now))) }
        ensures err { OnErr result (self.new ≡ self.old) }
        ensures memory { IsErr result → GroupsMayLack self.old (msg.WriteMarker it.now) }
    {
        if it.partition == PartitionId::OFFSETS {
            self.mark(it)
        } else {
            Ok(Messages::none(self.alloc))
        }
    }

    /// Opens the partition again: its log is what its store holds, the groups are those of the log,
    /// and all else is lost. Where the store can't be read the log is closed.
    ///
    /// # Errors
    ///
    /// Only out of memory; then it stands for what it stood for.
    pub(crate) fn restart(&mut self) -> Result<Restarted, AllocError>
        ensures { (p : Partition) → KeepsOffsets p self.old
            → MatchResult result (Restarts KeepsOffsets p self.old self.new)
            (λ refused. KeepsOffsets p self.new) }
    {
        let before = end_of(&self.groups);
        match self.groups.reload() {
            Ok(content) => {
                let _before = self.groups.install(content);
                let found = before < end_of(&self.groups);
                self.parked = ParkedCommits::new(self.alloc);
                Ok(Restarted::Read { found })
            }
            Err(fault) => unread_after(fault),
        }
    }
}
