//! The nodes of a world.
ghost use Rattle.std.specs.Prelude.{◌≡◌, ◌≢◌, [], ◌∷◌, MatchResult, false};
ghost use Rattle.kx_core.specs.Internal.{is_message};
ghost use Rattle.kx_core.specs.Sent.{joined};
ghost use Rattle.kx_core.specs.World.{Hands, HandsIn, Occurs, StandFor, StandForAll, given};
ghost use Rattle.kx_machine.specs.declared.machine.StoreMode.{StoreMode};
ghost use Rattle.kx_machine.specs.declared.taken.Note.TheVariants as note;
ghost use Rattle.kx_message.specs.Ranges.{offsets_partition};
ghost use Rattle.kx_message.specs.declared.message.NodeId.TheVariants as node;
ghost use Rattle.kx_model.specs.World.{Make, World, clock_after};
ghost use Rattle.kx_system.specs.System.{Happens, MakeProcessor, System, system_step};

use crate::clients::Clients;
use crate::event::Event;
use crate::hand::{Given, hand};
use crate::sent::Sent;
use kx_client_node::{AnyClient, ClientMachine, ProcessorMachine};
use kx_machine::{Failing, Input, Messages, Note, StoreMode, Taken};
use kx_message::{ClientId, GroupId, Message, NodeId, PartitionId, Timeout, TxnId};
use kx_processor::{Inputs, Process};
use std::alloc::{AllocError, Global};
use std::marker::Model;

// What comes of an event for which there is nothing to do.
fn nothing(alloc: Global) -> Taken
    ensures { result ≡ record {
      messages = [];
      note = note.Done;
      failed = false;
      found = false;
    } }
{
    Taken {
        messages: Messages::none(alloc),
        note: Note::Done,
        failed: false,
        found: false,
    }
}

// What comes of a request that arrives from outside: it was sent, and no node takes anything.
fn arrived(request: Message) -> Taken
    ensures { result ≡ record {
      messages = request ∷ [];
      note = note.Done;
      failed = false;
      found = false;
    } }
{
    Taken {
        messages: Messages::one(request),
        note: Note::Done,
        failed: false,
        found: false,
    }
}

// Whether it is a message that comes.
fn is_message(input: &Input) -> bool
    ensures { result ≡ is_message input.now }
{
    matches!(input, Input::Deliver(_))
}

// The greatest time of an expiry, once the coordinator has taken this.
fn clock_after(clock: u64, handed: Given<'_>) -> u64
    ensures { result ≡ clock_after clock (given handed.entry) }
{
    match handed {
        Given::Input(Input::Expire(now)) => clock.max(*now),
        Given::Input(_) | Given::Message(_) => clock,
    }
}

/// The nodes of a world: the coordinator, the partitions, and the clients in the order of their
/// numbers.
#[derive(Drop)]
pub(crate) struct Nodes<C: Failing, P: Failing, O: Failing, F: Process> {
    pub(crate) alloc: Global,
    pub(crate) coordinator: C,
    pub(crate) partitions: Vec<P>,
    pub(crate) offsets: O,
    pub(crate) clients: Clients<F>,
    // the greatest time of an expiry
    pub(crate) clock: u64,
}

impl<C: Failing, P: Failing, O: Failing, F: Process> Model for Nodes<C, P, O, F> {
    ghost use Rattle.kx_core.specs.World.{Nodes};

    ghost Value = { Nodes C P O F };

    ghost view = { λ n. record {
      coordinator = n.coordinator;
      partitions = n.partitions.items;
      offsets = n.offsets;
      clients = n.clients;
      clock = n.clock;
    } };
}

impl<C: Failing, P: Failing, O: Failing, F: Process + Copy> Nodes<C, P, O, F> {
    // The coordinator takes what it is handed; the world's clock is the greatest time of all
    // expiries.
    fn hand_coordinator(&mut self, handed: Given<'_>, mode: StoreMode) -> Result<Taken, AllocError>
        ensures stand { Hands (StandFor C.stands P.stands O.stands self.old)
            (StandFor C.stands P.stands O.stands self.new) node.Coordinator mode
            (given handed.entry) result }
        ensures clients { self.new.clients ≡ self.old.clients }
    {
        let clock = clock_after(self.clock, handed);
        let taken = hand(&mut self.coordinator, handed, mode)?;
        self.clock = clock;
        Ok(taken)
    }

    // A data partition takes what it is handed, if there is one of this number.
    fn hand_partition(
        &mut self,
        number: PartitionId,
        handed: Given<'_>,
        mode: StoreMode,
    ) -> Result<Taken, AllocError>
        requires { number ≢ offsets_partition }
        ensures stand { Hands (StandFor C.stands P.stands O.stands self.old)
            (StandFor C.stands P.stands O.stands self.new) (node.Partition number) mode
            (given handed.entry) result }
        ensures clients { self.new.clients ≡ self.old.clients }
    {
        let alloc = self.alloc;
        let Some(server) = self.partitions.get_mut(usize::from(number.get())) else {
            return Ok(nothing(alloc));
        };
        hand(server, handed, mode)
    }

    // The server of the offsets partition takes what it is handed.
    fn hand_offsets(&mut self, handed: Given<'_>, mode: StoreMode) -> Result<Taken, AllocError>
        ensures stand { Hands (StandFor C.stands P.stands O.stands self.old)
            (StandFor C.stands P.stands O.stands self.new) (node.Partition offsets_partition) mode
            (given handed.entry) result }
        ensures clients { self.new.clients ≡ self.old.clients }
    {
        hand(&mut self.offsets, handed, mode)
    }

    // A client takes what it is handed, if there is one of this number; it has no store.
    fn hand_client(&mut self, number: ClientId, handed: Given<'_>) -> Result<Taken, AllocError>
        ensures { (mode : StoreMode)
            → HandsIn (StandForAll C.stands P.stands O.stands F.image_of self.old)
            (StandForAll C.stands P.stands O.stands F.image_of self.new) (node.Client number) mode
            (given handed.entry) result }
    {
        let Some(taken) = self.clients.take(number, handed)? else {
            return Ok(nothing(self.alloc));
        };
        Ok(taken)
    }

    /// A node takes what it is handed, while its store does this; if there is no such node,
    /// nothing happens.
    ///
    /// # Errors
    ///
    /// Only if memory runs out; then all stand for what they stood for.
    pub(crate) fn hand(
        &mut self,
        to: &NodeId,
        handed: Given<'_>,
        mode: StoreMode,
    ) -> Result<Taken, AllocError>
        ensures { HandsIn (StandForAll C.stands P.stands O.stands F.image_of self.old)
            (StandForAll C.stands P.stands O.stands F.image_of self.new) to.now mode
            (given handed.entry) result }
    {
        match to {
            NodeId::Coordinator => self.hand_coordinator(handed, mode),
            NodeId::Partition(number) if *number == PartitionId::OFFSETS => {
                self.hand_offsets(handed, mode)
            }
            NodeId::Partition(number) => self.hand_partition(*number, handed, mode),
            NodeId::Client(number) => self.hand_client(*number, handed),
        }
    }

    // A client is made, if its number is above those of all others.
    fn make(
        &mut self,
        number: ClientId,
        txn: Option<TxnId>,
        timeout: Timeout,
    ) -> Result<(), AllocError>
        ensures { (s : System) → StandForAll C.stands P.stands O.stands F.image_of self.old s
            → MatchResult result
            (λ done. StandForAll C.stands P.stands O.stands F.image_of self.new
            (system_step s (Happens (Make number txn timeout))).0)
            (λ refused. StandForAll C.stands P.stands O.stands F.image_of self.new s) }
    {
        if !self.clients.is_new(number) {
            return Ok(());
        }
        let client = ClientMachine::new(self.alloc, number, txn, timeout);
        self.clients.add(AnyClient::Plain(client))
    }

    // A processor is made, if its number is above those of all clients.
    fn make_processor(
        &mut self,
        number: ClientId,
        txn: Option<TxnId>,
        timeout: Timeout,
        group: GroupId,
        inputs: Inputs,
        process: F,
    ) -> Result<(), AllocError>
        ensures { (s : System) → StandForAll C.stands P.stands O.stands F.image_of self.old s
            → MatchResult result
            (λ done. StandForAll C.stands P.stands O.stands F.image_of self.new
            (system_step s (MakeProcessor number txn timeout group inputs
            (F.image_of process))).0)
            (λ refused. StandForAll C.stands P.stands O.stands F.image_of self.new s) }
    {
        if !self.clients.is_new(number) {
            return Ok(());
        }
        let processor = ProcessorMachine::new(
            self.alloc, number, txn, timeout, group, inputs, process,
        );
        self.clients.add(AnyClient::Processor(processor))
    }

    /// An event happens, if these messages were sent before it.
    ///
    /// # Errors
    ///
    /// Only if memory runs out; then all stand for what they stood for.
    pub(crate) fn step(&mut self, sent: &Sent, event: &Event<F>) -> Result<Taken, AllocError>
        ensures { (s : System) → StandForAll C.stands P.stands O.stands F.image_of self.old s
            → joined sent.now.steps ≡ s.world.sent → MatchResult result
            (Occurs F.image_of s event.now
            (StandForAll C.stands P.stands O.stands F.image_of self.new))
            (λ refused. StandForAll C.stands P.stands O.stands F.image_of self.new s) }
    {
        match event {
            Event::Make {
                client,
                txn,
                timeout,
            } => {
                self.make(*client, *txn, *timeout)?;
                Ok(nothing(self.alloc))
            }
            Event::MakeProcessor {
                client,
                txn,
                timeout,
                group,
                inputs,
                process,
            } => {
                self.make_processor(*client, *txn, *timeout, *group, *inputs, *process)?;
                Ok(nothing(self.alloc))
            }
            Event::Deliver { number, to, store } => match sent.get(*number) {
                Some(message) => self.hand(to, Given::Message(message), *store),
                None => Ok(nothing(self.alloc)),
            },
            Event::Hand { to, input, store } => {
                // a message comes by its number alone
                if is_message(input) {
                    return Ok(nothing(self.alloc));
                }
                self.hand(to, Given::Input(input), *store)
            }
            Event::Arrive { request } => Ok(arrived(request.message()?)),
        }
    }
}
