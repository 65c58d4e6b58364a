//! The server of the offsets partition.
ghost use Rattle.std.specs.Prelude.{◌≡◌, [], pos, IfOk, IsErr, MatchResult, OnErr};
ghost use Rattle.kx_broker.specs.Memory.{GroupsInputMayLack, GroupsMayLack};
ghost use Rattle.kx_broker.specs.Offsets.{HasOtherLog, IsKept, KeepsOffsets, OpensOffsets};
ghost use Rattle.kx_broker.specs.Offsets.{StandsForGroups};
ghost use Rattle.kx_broker.specs.Serving.{MayDo, Serves, opened_partition};
ghost use Rattle.kx_log.specs.Store.{StoreState};
ghost use Rattle.kx_machine.specs.Meaning.{IsTaken, NodeState, input_of};
ghost use Rattle.kx_message.specs.Ranges.{offsets_partition};
ghost use Rattle.kx_model.specs.Log.{end, entries};
ghost use Rattle.kx_model.specs.PartitionNode as node;
ghost use Rattle.kx_model.specs.PartitionNode.{empty_partition, offsets_takes};
ghost use Rattle.kx_model.specs.Step.{Comes};
ghost use Rattle.kx_partition.specs.Opening.{RebuildFaults};

use crate::restart::Restarted;
use crate::waiting::ParkedCommits;
use kx_group::Groups;
use kx_log::{FaultStore, LogSlices, OpenFault, Steady, Store};
use kx_machine::{Closing, Failing, Input, Machine, Messages, Note, StoreMode, Taken};
use kx_message::Message;
use kx_partition::Partition;
use std::alloc::{AllocError, Global};
use std::marker::Model;

/// The server of the offsets partition, as a machine: the consumer groups in its log, on its store,
/// and the commits of offsets that it has parked while it asks the coordinator to list the
/// partition in their transaction (KIP-447, KIP-890).
#[derive(Drop)]
pub struct OffsetsMachine<S: Store> {
    pub(crate) alloc: Global,
    pub(crate) groups: Groups<S>,
    pub(crate) parked: ParkedCommits,
}

impl<S: Store> Model for OffsetsMachine<S> {
    ghost use Rattle.kx_broker.specs.Serving.{Serving};
    ghost use Rattle.kx_message.specs.Ranges.{offsets_partition};

    ghost Value = { Serving };

    ghost view = { λ m. record { number = offsets_partition; log = m.groups; parked = m.parked } };
}

/// The end of the groups' log, the offset of the next record to be appended.
pub(crate) fn end_of<S: Store>(groups: &Groups<S>) -> i64
    ensures value { result ≡ pos (end (entries groups.now.batches)) }
    // Each batch is in its place, was the one to come next, and one that groups append.
    ensures kept { IsKept groups.now }
{
    groups.partition().end()
}

impl<S: Store> OffsetsMachine<S> {
    /// The server of the offsets partition whose log a store holds: opens the log, as
    /// [`Partition::rebuild`] and then [`Groups::open`] do. Nothing is parked. It takes memory from
    /// `alloc`.
    ///
    /// # Errors
    ///
    /// As [`Partition::rebuild`], with the store beside the fault; and as [`Groups::open`], with
    /// the partition that was opened on it.
    pub fn new(alloc: Global, store: S) -> Result<Self, (OpenFault, Result<S, Partition<S>>)>
        ensures value { MatchResult result (λ machine. (machine.number ≡ offsets_partition)
            × OpensOffsets (S.state store) machine.log × (machine.parked ≡ []))
            (λ refused. MatchResult refused.1
            (λ back. RebuildFaults (S.state store) (S.state back) refused.0)
            (λ opened. HasOtherLog (S.state store) opened refused.0)) }
        // It stands for the node whose log was opened, which has parked nothing.
        ensures opened { IfOk result (λ machine.
            KeepsOffsets (opened_partition machine.log.batches) machine) }
        // On an empty store that is the node as it was made.
        ensures made { (S.state store).bytes ≡ [] → IfOk result (KeepsOffsets empty_partition) }
    {
        let partition = match Partition::rebuild(alloc, store) {
            Ok(partition) => partition,
            Err((fault, store)) => return Err((fault, Ok(store))),
        };
        match Groups::open(alloc, partition) {
            Ok(groups) => {
                // Each batch is in its place.
                let _end = end_of(&groups);
                Ok(OffsetsMachine {
                    alloc,
                    groups,
                    parked: ParkedCommits::new(alloc),
                })
            }
            Err((fault, partition)) => Err((fault, Err(partition))),
        }
    }

    /// The groups, borrowed.
    pub fn groups(&self) -> &Groups<S>
        ensures value { result.now ≡ self.now.log }
        // Its batches are those of the node for which it stands.
        ensures log { (p : node.Partition) → KeepsOffsets p self.now
            → result.now.batches ≡ p.disk.kept }
    {
        &self.groups
    }

    /// How often its store's device failed.
    pub fn failures(&self) -> u64
        ensures { result ≡ self.now.log.store.failures }
    {
        self.groups.failures()
    }

    // Takes a message: the messages that the step sends.
    fn serve(&mut self, message: &Message) -> Result<Messages, AllocError>
        ensures ok { (p : node.Partition) → KeepsOffsets p self.old
            → IfOk result (Serves KeepsOffsets p self.old self.new
            (λ store. offsets_takes p store message.now)) }
        ensures err { (p : node.Partition) → KeepsOffsets p self.old
            → OnErr result (self.new ≡ self.old) }
        ensures memory { IsErr result → GroupsMayLack self.old message.now }
    {
        match message {
            Message::TxnOffsetCommit(it) => self.commit(it),
            Message::Join(it) => self.join(it),
            Message::Leave(it) => self.leave(it),
            Message::OffsetFetch(it) => Ok(self.offset_fetch(it)),
            Message::Produce(it) => Ok(self.refuse(it)),
            Message::AddReply(it) => self.add_reply(it),
            Message::WriteMarker(it) => self.marker(it),
            Message::Fetch(it) => self.fetch(it),
            _ => Ok(Messages::none(self.alloc)),
        }
    }

    // The answer of a step that sends nothing, with this note.
    fn answer(&self, note: Note, failed: bool, found: bool) -> Taken
        ensures { result ≡ record {
          messages = [];
          note = note;
          failed = failed;
          found = found;
        } }
    {
        Taken {
            messages: Messages::none(self.alloc),
            note,
            failed,
            found,
        }
    }

    /// Takes a message that is borrowed, as [`Machine::deliver`] has it.
    ///
    /// # Errors
    ///
    /// Out of memory, only if the message appends to the log, parks a commit as one more, is
    /// the answer on parked commits, or gets a page that isn't empty; then it is as before.
    pub fn deliver(&mut self, message: &Message) -> Result<Taken, AllocError>
        ensures taken { (state : NodeState) → StandsForGroups state self.old → MatchResult result
            (IsTaken state (Comes message.now) (MayDo self.old)
            (λ s. StandsForGroups s self.new))
            (λ refused. StandsForGroups state self.new) }
        ensures memory { IsErr result → GroupsMayLack self.old message.now }
    {
        let before = self.failures();
        let messages = self.serve(message)?;
        Ok(Taken {
            messages,
            note: Note::Done,
            failed: before < self.failures(),
            found: false,
        })
    }

    /// Takes an input, as [`Machine::take`] has it.
    ///
    /// # Errors
    ///
    /// Out of memory, only at a message as [`deliver`](OffsetsMachine::deliver) has it, if a
    /// member is dropped, or at a restart; then it stands for what it stood for.
    pub fn take(&mut self, input: &Input) -> Result<Taken, AllocError>
        ensures taken { (state : NodeState) → StandsForGroups state self.old → MatchResult result
            (IsTaken state (input_of input.now) (MayDo self.old)
            (λ s. StandsForGroups s self.new))
            (λ refused. StandsForGroups state self.new) }
        ensures memory { IsErr result → GroupsInputMayLack self.old (input_of input.now) }
    {
        let before = self.failures();
        match input {
            Input::Deliver(message) => self.deliver(message),
            Input::Drop(group, member) => {
                let code = self.drop_member(*group, *member)?;
                let failed = before < self.failures();
                Ok(self.answer(Note::Code(code), failed, false))
            }
            Input::Restart(_) => match self.restart()? {
                Restarted::Read { found } => {
                    let failed = before < self.failures();
                    Ok(self.answer(Note::Done, failed, found))
                }
                Restarted::Unread => {
                    let failed = before < self.failures();
                    Ok(self.answer(Note::Closed(Closing::Read), failed, false))
                }
            },
            // Batches of no producer are put to data partitions alone.
            Input::Put(_) | Input::Command(_) | Input::Expire(_) | Input::Remind => {
                Ok(self.answer(Note::Done, false, false))
            }
        }
    }
}

impl<S: Store> Machine for OffsetsMachine<S> {
    ghost use Rattle.kx_broker.specs.Offsets.{StandsForGroups};
    ghost use Rattle.kx_broker.specs.Serving.{MayDo};

    ghost stands = { StandsForGroups };

    ghost allows = { MayDo };

    ghost failures_of = { λ server. server.log.store.failures };

    fn take(&mut self, input: &Input) -> Result<Taken, AllocError> {
        OffsetsMachine::take(self, input)
    }

    fn deliver(&mut self, message: &Message) -> Result<Taken, AllocError> {
        OffsetsMachine::deliver(self, message)
    }

    fn failures(&self) -> u64 {
        OffsetsMachine::failures(self)
    }

    fn is_closed(&self) -> bool {
        self.groups.is_closed()
    }

    fn log_end(&self) -> i64 {
        self.groups.partition().end()
    }

    fn batches_from(&self, from: i64, max: u32) -> LogSlices<'_> {
        self.groups.partition().slice(from, i64::MAX, max)
    }
}

impl<S: Steady> Failing for OffsetsMachine<FaultStore<S>> {
    fn prepare(&mut self, mode: StoreMode) {
        match mode {
            StoreMode::Works => {
                self.groups.arm(None);
                self.groups.arm_load(false);
            }
            StoreMode::Fails { keep } => {
                self.groups.arm(Some(keep));
                self.groups.arm_load(false);
            }
            StoreMode::CannotLoad => {
                self.groups.arm(None);
                self.groups.arm_load(true);
            }
        }
    }
}
