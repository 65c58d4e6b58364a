//! Markers that end transactions.
ghost use Rattle.std.specs.Prelude.{◌≡◌, ℕ, IfOk, IsErr, OnErr};
ghost use Rattle.kx_broker.specs.Memory.{MayLack};
ghost use Rattle.kx_broker.specs.Serving.{IsServed, Serves};
ghost use Rattle.kx_message.specs.declared.message.Message.TheVariants as msg;
ghost use Rattle.kx_model.specs.PartitionNode.{Partition, data_takes, marker_of, on_marker};
ghost use Rattle.kx_model.specs.Produce.{Appends};
ghost use Rattle.kx_partition.specs.Answer.{marker_verdict_at};

use crate::machine::PartitionMachine;
use kx_log::Store;
use kx_machine::Messages;
use kx_message::{MarkerReply, Message, WriteMarker};
use std::alloc::AllocError;

impl<S: Store> PartitionMachine<S> {
    // A marker for this partition comes.
    fn mark(&mut self, it: &WriteMarker) -> Result<Messages, AllocError>
        ensures ok { (number : ℕ) (p : Partition) → IsServed number p self.old
            → IfOk result (Serves (IsServed number) p self.old self.new
            (λ store. on_marker number p store it.now.txn it.now.held
            (marker_of it.now.held it.now.coordinator_epoch it.now.outcome))) }
        ensures err { OnErr result (self.new ≡ self.old) }
        ensures memory { IsErr result → marker_verdict_at self.old.log
            (marker_of it.now.held it.now.coordinator_epoch it.now.outcome) ≡ Appends }
    {
        let held = it.held;
        // Its id and epoch fit the fields of a marker.
        let _ended = held.get();
        // Each batch is in its place.
        let _end = self.partition.end();
        let code = self
            .partition
            .marker(held, it.coordinator_epoch, it.outcome)?;
        Ok(Messages::one(Message::MarkerReply(MarkerReply {
            partition: self.number,
            txn: it.txn,
            held,
            code,
        })))
    }

    /// A marker comes. One for another partition changes nothing.
    ///
    /// # Errors
    ///
    /// Out of memory, only if the marker is to be appended; then all is as before.
    pub(crate) fn marker(&mut self, it: &WriteMarker) -> Result<Messages, AllocError>
        ensures ok { (number : ℕ) (p : Partition) → IsServed number p self.old
            → IfOk result (Serves (IsServed number) p self.old self.new
            (λ store. data_takes number p store (msg.WriteMarker it.now))) }
        ensures err { OnErr result (self.new ≡ self.old) }
        ensures memory { IsErr result → MayLack self.old (msg.WriteMarker it.now) }
    {
        if it.partition == self.number() {
            self.mark(it)
        } else {
            Ok(Messages::none(self.alloc))
        }
    }
}
