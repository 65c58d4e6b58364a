//! The server of a data partition.
ghost use Rattle.std.specs.Prelude.{◌≡◌, ◌==◌, ◌∷◌, ℕ, [], false, Err, IfOk, IsErr, MatchResult};
ghost use Rattle.std.specs.Prelude.{OnErr, if◌then◌else◌, min};
ghost use Rattle.kx_batch.specs.Batch.{batch_limit};
ghost use Rattle.kx_broker.specs.Memory.{InputMayLack, MayLack};
ghost use Rattle.kx_broker.specs.Serving.{IsServed, MayDo, Serves, StandsFor, opened_partition};
ghost use Rattle.kx_log.specs.Store.{StoreState};
ghost use Rattle.kx_message.specs.declared.code.ErrorCode.TheVariants.{UnknownTopicOrPartition};
ghost use Rattle.kx_message.specs.declared.message.Message.TheVariants as msg;
ghost use Rattle.kx_machine.specs.Meaning.{IsTaken, NodeState, input_of};
ghost use Rattle.kx_model.specs.PartitionNode as node;
ghost use Rattle.kx_model.specs.Page.{fetched};
ghost use Rattle.kx_model.specs.PartitionNode.{data_takes, empty_partition, fetch_reply};
ghost use Rattle.kx_model.specs.Step.{Comes};
ghost use Rattle.kx_partition.specs.Opening.{RebuildFaults, Rebuilds};

use crate::fetch::{fetch, refused_fetch};
use crate::restart::Restarted;
use kx_log::{FaultStore, LogSlices, OpenFault, Steady, Store};
use kx_machine::{Closing, Failing, Input, Machine, Messages, Note, StoreMode, Taken};
use kx_message::{ErrorCode, Fetch, Message, PartitionId};
use kx_partition::Partition;
use kx_verify::Guard;
use std::alloc::{AllocError, Global};
use std::marker::Model;

/// The server of a data partition, as a machine: its log on its store, and the requests that it has
/// parked while it asks the coordinator to list the partition in their transaction (KIP-890).
#[derive(Drop)]
pub struct PartitionMachine<S: Store> {
    pub(crate) alloc: Global,
    pub(crate) number: PartitionId,
    pub(crate) partition: Partition<S>,
    pub(crate) guard: Guard,
}

impl<S: Store> Model for PartitionMachine<S> {
    ghost use Rattle.kx_broker.specs.Serving.{Serving};

    ghost Value = { Serving };

    ghost view = { λ m. record { number = m.number; log = m.partition; parked = m.guard } };
}

impl<S: Store> PartitionMachine<S> {
    /// The server of the partition whose log a store holds: opens the log, as
    /// [`Partition::rebuild`] does. Nothing is parked. It takes memory from `alloc`.
    ///
    /// # Errors
    ///
    /// As [`Partition::rebuild`].
    pub fn new(alloc: Global, number: PartitionId, store: S) -> Result<Self, (OpenFault, S)>
        ensures value { MatchResult result (λ machine. (machine.number ≡ number)
            × Rebuilds (S.state store) machine.log × (machine.parked ≡ []))
            (λ refused. RebuildFaults (S.state store) (S.state refused.1) refused.0) }
        // It stands for the node whose log was opened, which has parked nothing.
        ensures opened { IfOk result (λ machine.
            IsServed number (opened_partition machine.log.batches) machine) }
        // On an empty store that is the node as it was made.
        ensures made { (S.state store).bytes ≡ [] → IfOk result (IsServed number empty_partition) }
    {
        let partition = Partition::rebuild(alloc, store)?;
        // Each batch is in its place.
        let _end = partition.end();
        Ok(PartitionMachine {
            alloc,
            number,
            partition,
            guard: Guard::new(alloc),
        })
    }

    /// The partition's number.
    pub fn number(&self) -> PartitionId
        ensures { result ≡ self.now.number }
    {
        self.number
    }

    /// The partition, borrowed.
    pub fn partition(&self) -> &Partition<S>
        ensures value { result.now ≡ self.now.log }
        // Its batches are those of the node for which it stands.
        ensures log { (number : ℕ) (p : node.Partition) → IsServed number p self.now
            → result.now.batches ≡ p.disk.kept }
    {
        &self.partition
    }

    /// How often its store's device failed.
    pub fn failures(&self) -> u64
        ensures { result ≡ self.now.log.store.failures }
    {
        self.partition.failures()
    }

    // Answers a fetch; one of another partition is refused.
    fn fetch(&self, it: &Fetch) -> Result<Messages, AllocError>
        ensures ok { IfOk result (λ messages. messages ≡ fetch_reply it.now.caller it.now.partition
            (if it.now.partition == self.now.number
            then fetched self.now.log.batches it.now.from (min it.now.max batch_limit)
            it.now.committed else Err UnknownTopicOrPartition) ∷ []) }
        ensures memory { IsErr result → MayLack self.now (msg.Fetch it.now) }
    {
        let reply = if it.partition == self.number {
            fetch(self.alloc, &self.partition, it)?
        } else {
            refused_fetch(self.alloc, it, ErrorCode::UnknownTopicOrPartition)
        };
        Ok(Messages::one(reply))
    }

    // Takes a message: the messages that the step sends.
    fn serve(&mut self, message: &Message) -> Result<Messages, AllocError>
        ensures ok { (number : ℕ) (p : node.Partition) → IsServed number p self.old
            → IfOk result (Serves (IsServed number) p self.old self.new
            (λ store. data_takes number p store message.now)) }
        ensures err { (number : ℕ) (p : node.Partition) → IsServed number p self.old
            → OnErr result (self.new ≡ self.old) }
        ensures memory { IsErr result → MayLack self.old message.now }
    {
        match message {
            Message::Produce(it) => self.produce(it),
            Message::AddReply(it) => self.add_reply(it),
            Message::WriteMarker(it) => self.marker(it),
            Message::Fetch(it) => self.fetch(it),
            _ => Ok(Messages::none(self.alloc)),
        }
    }

    // The answer of a step that sends nothing, with this note.
    fn answer(&self, note: Note, failed: bool, found: bool) -> Taken
        ensures { result ≡ record {
          messages = [];
          note = note;
          failed = failed;
          found = found;
        } }
    {
        Taken {
            messages: Messages::none(self.alloc),
            note,
            failed,
            found,
        }
    }

    /// Takes a message that is borrowed, as [`Machine::deliver`] has it.
    ///
    /// # Errors
    ///
    /// Out of memory, only if the message appends to the log, parks a batch as one more, is
    /// the answer on parked batches, or gets a page that isn't empty; then it is as before.
    pub fn deliver(&mut self, message: &Message) -> Result<Taken, AllocError>
        ensures taken { (state : NodeState) → StandsFor state self.old → MatchResult result
            (IsTaken state (Comes message.now) (MayDo self.old) (λ s. StandsFor s self.new))
            (λ refused. StandsFor state self.new) }
        ensures memory { IsErr result → MayLack self.old message.now }
    {
        let before = self.failures();
        let messages = self.serve(message)?;
        Ok(Taken {
            messages,
            note: Note::Done,
            failed: before < self.failures(),
            found: false,
        })
    }

    /// Takes an input, as [`Machine::take`] has it.
    ///
    /// # Errors
    ///
    /// Out of memory, only at a message as [`deliver`](PartitionMachine::deliver) has it, if
    /// a batch of no producer is appended, or at a restart; then it stands for what it stood for.
    pub fn take(&mut self, input: &Input) -> Result<Taken, AllocError>
        ensures taken { (state : NodeState) → StandsFor state self.old → MatchResult result
            (IsTaken state (input_of input.now) (MayDo self.old) (λ s. StandsFor s self.new))
            (λ refused. StandsFor state self.new) }
        ensures memory { IsErr result → InputMayLack self.old (input_of input.now) }
    {
        let before = self.failures();
        match input {
            Input::Deliver(message) => self.deliver(message),
            Input::Put(values) => {
                let answer = self.put(values)?;
                let failed = before < self.failures();
                Ok(self.answer(Note::Put(answer), failed, false))
            }
            Input::Restart(_) => match self.restart()? {
                Restarted::Read { found } => {
                    let failed = before < self.failures();
                    Ok(self.answer(Note::Done, failed, found))
                }
                Restarted::Unread => {
                    let failed = before < self.failures();
                    Ok(self.answer(Note::Closed(Closing::Read), failed, false))
                }
            },
            Input::Command(_) | Input::Expire(_) | Input::Remind | Input::Drop(_, _) => {
                Ok(self.answer(Note::Done, false, false))
            }
        }
    }
}

impl<S: Store> Machine for PartitionMachine<S> {
    ghost use Rattle.kx_broker.specs.Serving.{MayDo, StandsFor};

    ghost stands = { StandsFor };

    ghost allows = { MayDo };

    ghost failures_of = { λ server. server.log.store.failures };

    fn take(&mut self, input: &Input) -> Result<Taken, AllocError> {
        PartitionMachine::take(self, input)
    }

    fn deliver(&mut self, message: &Message) -> Result<Taken, AllocError> {
        PartitionMachine::deliver(self, message)
    }

    fn failures(&self) -> u64 {
        PartitionMachine::failures(self)
    }

    fn is_closed(&self) -> bool {
        self.partition.is_closed()
    }

    fn log_end(&self) -> i64 {
        self.partition.end()
    }

    fn batches_from(&self, from: i64, max: u32) -> LogSlices<'_> {
        self.partition.slice(from, i64::MAX, max)
    }
}

impl<S: Steady> Failing for PartitionMachine<FaultStore<S>> {
    fn prepare(&mut self, mode: StoreMode) {
        match mode {
            StoreMode::Works => {
                self.partition.arm(None);
                self.partition.arm_load(false);
            }
            StoreMode::Fails { keep } => {
                self.partition.arm(Some(keep));
                self.partition.arm_load(false);
            }
            StoreMode::CannotLoad => {
                self.partition.arm(None);
                self.partition.arm_load(true);
            }
        }
    }
}
