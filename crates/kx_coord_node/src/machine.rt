//! The coordinator, and what it does with each input.
ghost use Rattle.std.specs.Prelude.{◌≡◌, ◌&&◌, ◌-◌, not, length, false, [], IfOk, MatchResult};
ghost use Rattle.kx_coord.specs.Calls.{IsOpen, OpenRefuses};
ghost use Rattle.kx_coord_node.specs.Stands.{Keeps, MayDo, Stands, Takes, opened_coordinator};
ghost use Rattle.kx_machine.specs.Meaning.{AtCoordinator, made_as};
ghost use Rattle.kx_machine.specs.declared.machine.Making.TheVariants as making;
ghost use Rattle.kx_machine.specs.declared.taken.Note.TheVariants as note;
ghost use Rattle.kx_message.specs.declared.message.Message.TheVariants as msg;
ghost use Rattle.kx_model.specs.Step.{Comes, Expires, Reminds, Restarts};
ghost use Rattle.kx_txnlog.specs.Opening.{Holds};

use kx_coord::{Coordinator, RestartFault};
use kx_log::{FaultStore, LogSlices, OpenFault, Steady, Store};
use kx_machine::{Closing, Failing, Input, Machine, Messages, Note, StoreMode, Taken};
use kx_message::{AddPartition, EndTxn, InitProducerId, MarkerReply, Message};
use std::alloc::{AllocError, Global};
use std::marker::Model;

/// The transaction coordinator on a store, as a machine: it takes the requests that come, the
/// replies to its markers, time, reminders and restarts.
#[derive(Drop)]
pub struct CoordinatorMachine<S: Store> {
    alloc: Global,
    coordinator: Coordinator<S>,
}

impl<S: Store> Model for CoordinatorMachine<S> {
    ghost use Rattle.kx_coord.specs.CoordinatorState.{CoordinatorState};

    ghost Value = { CoordinatorState };

    ghost view = { λ m. m.coordinator };
}

impl<S: Store> CoordinatorMachine<S> {
    /// The coordinator of the log that a store holds, opened at this time in milliseconds, any u64,
    /// as [`Coordinator::open`] does, and the markers that it sends. Memory is taken from `alloc`,
    /// now and later.
    ///
    /// # Errors
    ///
    /// As [`Coordinator::open`]: the store comes back beside the fault.
    pub fn open(
        alloc: Global,
        store: S,
        now: u64,
    ) -> Result<(CoordinatorMachine<S>, Messages), (OpenFault, S)>
        ensures value { MatchResult result (λ made. IsOpen (S.state store) now made.0 made.1)
            (λ refused. OpenRefuses (S.state store) (S.state refused.1) refused.0) }
        // It stands for the coordinator whose log was opened.
        ensures opened { IfOk result (λ made.
            Stands (AtCoordinator (opened_coordinator made.0.log.notes now)) made.0) }
    {
        let (coordinator, handed) = Coordinator::open(alloc, store, now)?;
        let machine = CoordinatorMachine { alloc, coordinator };
        Ok((machine, Messages::from_vec(handed)))
    }

    /// The coordinator of the log that a store holds, [opened](CoordinatorMachine::open) at time 0.
    /// The log of an empty store then has one entry, the first coordinator epoch, and no markers go
    /// out; those of another log go out with the next reminder.
    ///
    /// # Errors
    ///
    /// As [`open`](CoordinatorMachine::open).
    pub fn new(alloc: Global, store: S) -> Result<CoordinatorMachine<S>, (OpenFault, S)>
        ensures value { MatchResult result
            (λ m. (S.state store).bytes ≡ [] → Stands (made_as making.Coordinator) m)
            (λ refused. OpenRefuses (S.state store) (S.state refused.1) refused.0) }
        // It stands for the coordinator whose log was opened.
        ensures opened { IfOk result (λ m.
            Stands (AtCoordinator (opened_coordinator m.log.notes 0)) m) }
    {
        let (machine, _none) = CoordinatorMachine::open(alloc, store, 0)?;
        Ok(machine)
    }

    /// The coordinator, borrowed.
    pub fn coordinator(&self) -> &Coordinator<S>
        ensures { result.now ≡ self.now }
    {
        &self.coordinator
    }

    // Whether its log is closed. If it isn't, the store holds its entries, and nothing more.
    fn is_closed(&self) -> bool
        ensures value { result ≡ self.now.log.closed }
        ensures holds { self.now.log.closed ≡ false
            → Holds self.now.log.store.bytes self.now.log.notes }
    {
        // its clause says what the store holds
        let _rows = self.coordinator.rows();
        self.coordinator.is_closed()
    }

    // What it answers with these messages, if its log was closed before, or wasn't.
    fn answer(&self, was_closed: bool, messages: Messages) -> Taken
        ensures { result ≡ record {
          messages = messages;
          note = note.Done;
          failed = not was_closed && self.now.log.closed;
          found = false;
        } }
    {
        Taken {
            messages,
            note: Note::Done,
            failed: !was_closed && self.coordinator.is_closed(),
            found: false,
        }
    }

    // What it answers to what isn't for it.
    fn rest(&self) -> Taken
        ensures { result ≡ record {
          messages = [];
          note = note.Done;
          failed = false;
          found = false;
        } }
    {
        Taken {
            messages: Messages::none(self.alloc),
            note: Note::Done,
            failed: false,
            found: false,
        }
    }

    // A client asks for an id and an epoch.
    fn init(&mut self, request: InitProducerId) -> Result<Taken, AllocError>
        ensures { MatchResult result
            (Takes (Comes (msg.InitProducerId request)) self.old self.new)
            (λ refused. self.new ≡ self.old) }
    {
        let was_closed = self.is_closed();
        let messages = self.coordinator.init(request)?;
        Ok(self.answer(was_closed, messages))
    }

    // A partition asks to be added to a transaction.
    fn add_partition(&mut self, request: AddPartition) -> Result<Taken, AllocError>
        ensures { MatchResult result
            (Takes (Comes (msg.AddPartition request)) self.old self.new)
            (λ refused. self.new ≡ self.old) }
    {
        let was_closed = self.is_closed();
        let messages = self.coordinator.add_partition(request)?;
        Ok(self.answer(was_closed, messages))
    }

    // A client ends its transaction.
    fn end_txn(&mut self, request: EndTxn) -> Result<Taken, AllocError>
        ensures { MatchResult result
            (Takes (Comes (msg.EndTxn request)) self.old self.new)
            (λ refused. self.new ≡ self.old) }
    {
        let was_closed = self.is_closed();
        let messages = self.coordinator.end_txn(request)?;
        Ok(self.answer(was_closed, messages))
    }

    // A partition answers a marker.
    fn marker_reply(&mut self, reply: MarkerReply) -> Result<Taken, AllocError>
        ensures { MatchResult result
            (Takes (Comes (msg.MarkerReply reply)) self.old self.new)
            (λ refused. self.new ≡ self.old) }
    {
        let was_closed = self.is_closed();
        let messages = self.coordinator.marker_reply(reply)?;
        Ok(self.answer(was_closed, Messages::from_vec(messages)))
    }

    // A message comes.
    fn message(&mut self, message: &Message) -> Result<Taken, AllocError>
        ensures { MatchResult result (Takes (Comes message.now) self.old self.new)
            (λ refused. self.new ≡ self.old) }
    {
        match message {
            Message::InitProducerId(request) => self.init(*request),
            Message::AddPartition(request) => self.add_partition(*request),
            Message::EndTxn(request) => self.end_txn(*request),
            Message::MarkerReply(reply) => self.marker_reply(*reply),
            // the others are for other nodes
            _ => Ok(self.rest()),
        }
    }

    // It is this time.
    fn expire(&mut self, now: u64) -> Result<Taken, AllocError>
        ensures { MatchResult result (Takes (Expires now) self.old self.new)
            (λ refused. self.new ≡ self.old) }
    {
        let was_closed = self.is_closed();
        let messages = self.coordinator.expire(now)?;
        Ok(self.answer(was_closed, Messages::from_vec(messages)))
    }

    // It sends again the markers that weren't answered.
    fn remind(&self) -> Result<Taken, AllocError>
        ensures { IfOk result (Takes Reminds self.now self.now) }
    {
        let was_closed = self.is_closed();
        let messages = self.coordinator.remind()?;
        Ok(self.answer(was_closed, Messages::from_vec(messages)))
    }

    // How many more entries its log has than this many.
    fn grown(&self, before: usize) -> usize
        ensures { result ≡ length self.now.log.notes - before }
    {
        self.coordinator.entry_count().saturating_sub(before)
    }

    // What it answers if a restart failed.
    fn refusal(&self, note: Note, failed: bool, found: bool) -> Taken
        ensures { result ≡ record {
          messages = [];
          note = note;
          failed = failed;
          found = found;
        } }
    {
        Taken {
            messages: Messages::none(self.alloc),
            note,
            failed,
            found,
        }
    }

    // It is opened again, at this time. A restart appends one entry, and finds one more if an
    // append that had failed left the whole of its entry.
    fn restart(&mut self, now: u64) -> Result<Taken, AllocError>
        ensures { MatchResult result (Takes (Restarts now) self.old self.new)
            (λ refused. Keeps self.old self.new) }
    {
        let before = self.coordinator.entry_count();
        match self.coordinator.restart(now) {
            Ok(messages) => Ok(Taken {
                messages: Messages::from_vec(messages),
                note: Note::Done,
                failed: false,
                found: self.grown(before) > 1,
            }),
            Err(RestartFault::Unopened(OpenFault::Memory)) => Err(AllocError),
            Err(RestartFault::Unopened(OpenFault::UsedUp)) => {
                Ok(self.refusal(Note::UsedUp, false, false))
            }
            Err(RestartFault::Unopened(OpenFault::Device | OpenFault::Damaged(_))) => {
                Ok(self.refusal(Note::Closed(Closing::Read), true, false))
            }
            Err(RestartFault::Unwritten) => {
                let found = self.grown(before) > 0;
                Ok(self.refusal(Note::Closed(Closing::Write), true, found))
            }
        }
    }
}

impl<S: Store> Machine for CoordinatorMachine<S> {
    ghost stands = { Stands };

    ghost allows = { MayDo };

    ghost failures_of = { λ coordinator. coordinator.log.store.failures };

    fn take(&mut self, input: &Input) -> Result<Taken, AllocError> {
        match input {
            Input::Deliver(message) => self.message(message),
            Input::Expire(now) => self.expire(*now),
            Input::Remind => self.remind(),
            Input::Restart(now) => self.restart(*now),
            Input::Command(_) | Input::Drop(_, _) | Input::Put(_) => Ok(self.rest()),
        }
    }

    fn deliver(&mut self, message: &Message) -> Result<Taken, AllocError> {
        self.message(message)
    }

    fn failures(&self) -> u64 {
        self.coordinator.failures()
    }

    fn is_closed(&self) -> bool {
        CoordinatorMachine::is_closed(self)
    }

    fn log_end(&self) -> i64 {
        0
    }

    fn batches_from(&self, _from: i64, _max: u32) -> LogSlices<'_> {
        LogSlices::none()
    }
}

impl<S: Steady> Failing for CoordinatorMachine<FaultStore<S>> {
    fn prepare(&mut self, mode: StoreMode) {
        match mode {
            StoreMode::Works => {
                self.coordinator.arm(None);
                self.coordinator.arm_load(false);
            }
            StoreMode::Fails { keep } => {
                self.coordinator.arm(Some(keep));
                self.coordinator.arm_load(false);
            }
            StoreMode::CannotLoad => {
                self.coordinator.arm(None);
                self.coordinator.arm_load(true);
            }
        }
    }
}
