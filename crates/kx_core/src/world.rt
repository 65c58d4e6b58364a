//! The world itself.
ghost use Rattle.std.specs.Prelude.{◌≡◌, ◌||◌, [], MatchOption, MatchResult, None, Some, OnOk};
ghost use Rattle.std.specs.Prelude.{false, length};
ghost use Rattle.std.specs.List.{list_any};
ghost use Rattle.kx_client_node.specs.Clients.{client_of};
ghost use Rattle.kx_pipeline.specs.Promises.{KeepsAll};
ghost use Rattle.kx_core.specs.Sent.{joined};
ghost use Rattle.kx_core.specs.World.{AddsStep, IsRun, RunsUp, ServesAt, StandForAll, Steps};
ghost use Rattle.kx_core.specs.World.{StepsTo, is_arrival};
ghost use Rattle.kx_machine.specs.Meaning.{AtCoordinator, AtPartition};
ghost use Rattle.kx_message.specs.Ranges.{offsets_partition};
ghost use Rattle.kx_model.specs.OpenHeadline.{KeepsOpenPromises};
ghost use Rattle.kx_model.specs.World.{client_at, data_partition_at, is_new};
ghost use Rattle.kx_system.specs.System.{System, start_system};

use crate::clients::Clients;
use crate::event::{Event, Happened};
use crate::fault::RunFault;
use crate::fits::fits;
use crate::nodes::Nodes;
use crate::sent::Sent;
use kx_client_node::AnyClient;
use kx_machine::{Failing, Note};
use kx_message::{ClientId, PartitionId};
use kx_pipeline::{open_systems_keep_promises, systems_keep_promises};
use kx_processor::Process;
use std::alloc::{AllocError, Global};
use std::marker::Model;

/// A world: its nodes, and all messages that were ever sent. Whatever happened, it stands for a
/// system of the definitions to which an open schedule led, and so keeps the promises that need no
/// trust in clients; if no request arrived from outside, it keeps all promises of exactly-once
/// semantics (KIP-98, KIP-447, KIP-890). Its processors, of any process, are part of it.
#[derive(Drop)]
pub struct World<C: Failing, P: Failing, O: Failing, F: Process> {
    nodes: Nodes<C, P, O, F>,
    sent: Sent,
    // whether a request arrived from outside
    arrived: bool,
}

impl<C: Failing, P: Failing, O: Failing, F: Process> Model for World<C, P, O, F> {
    ghost use Rattle.kx_core.specs.World.{IsRun, Running};
    ghost use Rattle.kx_system.specs.System.{System};

    ghost Value = { Running C P O F };

    ghost view = { λ w. record {
      nodes = w.nodes;
      steps = w.sent.steps;
      arrived = w.arrived;
    } };

    ghost invariant = { λ w. (system : System) × IsRun C.stands P.stands O.stands F.image_of
        (record { nodes = w.nodes; steps = w.sent.steps; arrived = w.arrived }) system };
}

// Whether a request ever arrived from outside, after this event.
fn arrived_after<F: Process>(before: bool, event: &Event<F>) -> bool
    ensures { result ≡ (before || is_arrival event.now) }
{
    before || matches!(event, Event::Arrive { .. })
}

impl<C: Failing, P: Failing, O: Failing, F: Process + Copy> World<C, P, O, F> {
    /// A world of these nodes, in which nothing has happened.
    pub(crate) fn of(alloc: Global, coordinator: C, partitions: Vec<P>, offsets: O) -> Self
        requires { StandForAll C.stands P.stands O.stands F.image_of (record {
          coordinator = coordinator;
          partitions = partitions.items;
          offsets = offsets;
          clients = [];
          clock = 0;
        }) (start_system (length partitions.items)) }
        ensures run { IsRun C.stands P.stands O.stands F.image_of result
            (start_system (length partitions.items)) }
        ensures arrived { result.arrived ≡ false }
    {
        World {
            nodes: Nodes {
                alloc,
                coordinator,
                partitions,
                offsets,
                clients: Clients::new(alloc),
                clock: 0,
            },
            sent: Sent::new(alloc),
            arrived: false,
        }
    }

    /// An event happens, and one node makes one step: what it answers, and whether its store
    /// failed.
    ///
    /// # Errors
    ///
    /// Only if memory runs out, or of numbers for messages after the first 2^62; then the world
    /// stands for what it stood for.
    // Room for the messages is made before the step, since a step that was made isn't taken back;
    // so a line of a script may print `lost` if the client would refuse.
    pub fn happen(&mut self, event: &Event<F>) -> Result<Happened, AllocError>
        ensures step { (s : System) → IsRun C.stands P.stands O.stands F.image_of self.old s
            → MatchResult result
            (Steps F.image_of s event.now (IsRun C.stands P.stands O.stands F.image_of self.new))
            (λ refused. IsRun C.stands P.stands O.stands F.image_of self.new s) }
        // Its messages are one more step; those of the steps before stay.
        ensures messages { (s : System) → IsRun C.stands P.stands O.stands F.image_of self.old s
            → MatchResult result
            (λ done. (t : System) → IsRun C.stands P.stands O.stands F.image_of self.new t
            → AddsStep s t self.old.steps self.new.steps)
            (λ refused. self.new.steps ≡ self.old.steps) }
        ensures arrived { MatchResult result
            (λ done. self.new.arrived ≡ (self.old.arrived || is_arrival event.now))
            (λ refused. self.new.arrived ≡ self.old.arrived) }
        // The promises that need no trust in clients hold of the world that it leaves; and where
        // no request ever arrived from outside, all do.
        ensures open_promises { (s : System)
            → IsRun C.stands P.stands O.stands F.image_of self.new s
            → KeepsOpenPromises s.world }
        ensures promises { (s : System) → IsRun C.stands P.stands O.stands F.image_of self.new s
            → self.new.arrived ≡ false → KeepsAll s }
    {
        systems_keep_promises();
        open_systems_keep_promises();
        fits(event);
        self.sent.reserve()?;
        let taken = self.nodes.step(&self.sent, event)?;
        self.sent.push(taken.messages);
        self.arrived = arrived_after(self.arrived, event);
        Ok(Happened {
            note: taken.note,
            failed: taken.failed,
        })
    }

    /// An event happens, and one node makes one step: what it answers beside its messages.
    ///
    /// # Errors
    ///
    /// Only if memory runs out, or of numbers for messages after the first 2^62; then the world
    /// stands for what it stood for.
    pub fn step(&mut self, event: &Event<F>) -> Result<Note, AllocError>
        ensures step { (s : System) → IsRun C.stands P.stands O.stands F.image_of self.old s
            → MatchResult result
            (StepsTo F.image_of s event.now (IsRun C.stands P.stands O.stands F.image_of self.new))
            (λ refused. IsRun C.stands P.stands O.stands F.image_of self.new s) }
        // Its messages are one more step; those of the steps before stay.
        ensures messages { (s : System) → IsRun C.stands P.stands O.stands F.image_of self.old s
            → MatchResult result
            (λ done. (t : System) → IsRun C.stands P.stands O.stands F.image_of self.new t
            → AddsStep s t self.old.steps self.new.steps)
            (λ refused. self.new.steps ≡ self.old.steps) }
        ensures arrived { MatchResult result
            (λ done. self.new.arrived ≡ (self.old.arrived || is_arrival event.now))
            (λ refused. self.new.arrived ≡ self.old.arrived) }
        // The promises that need no trust in clients hold of the world that it leaves; and where
        // no request ever arrived from outside, all do.
        ensures open_promises { (s : System)
            → IsRun C.stands P.stands O.stands F.image_of self.new s
            → KeepsOpenPromises s.world }
        ensures promises { (s : System) → IsRun C.stands P.stands O.stands F.image_of self.new s
            → self.new.arrived ≡ false → KeepsAll s }
    {
        let happened = self.happen(event)?;
        Ok(happened.note)
    }

    /// Events happen, one after the other.
    ///
    /// # Errors
    ///
    /// As [`step`](World::step); then those before the event that found none have happened.
    pub fn run(&mut self, events: &[Event<F>]) -> Result<(), RunFault>
        ensures run { (s : System) → IsRun C.stands P.stands O.stands F.image_of self.old s
            → RunsUp F.image_of s events.now
            (IsRun C.stands P.stands O.stands F.image_of self.new) result }
        ensures arrived { list_any is_arrival events.now ≡ false
            → self.new.arrived ≡ self.old.arrived }
        // The promises that need no trust in clients hold of the world that it leaves; and where
        // no request ever arrived from outside, all do.
        ensures open_promises { (s : System)
            → IsRun C.stands P.stands O.stands F.image_of self.new s
            → KeepsOpenPromises s.world }
        ensures promises { (s : System) → IsRun C.stands P.stands O.stands F.image_of self.new s
            → self.new.arrived ≡ false → KeepsAll s }
    {
        systems_keep_promises();
        open_systems_keep_promises();
        for (at, event) in events.iter().enumerate() {
            match self.happen(event) {
                Ok(_) => {}
                Err(_) => return Err(RunFault::Memory(at)),
            }
        }
        Ok(())
    }

    /// Whether a request ever arrived from outside.
    pub fn has_arrivals(&self) -> bool
        ensures { result ≡ self.now.arrived }
    {
        self.arrived
    }

    /// All messages that were ever sent, step by step.
    pub fn sent(&self) -> &Sent
        ensures value { result.now.steps ≡ self.now.steps }
        ensures world { (s : System) → IsRun C.stands P.stands O.stands F.image_of self.now s
            → joined result.now.steps ≡ s.world.sent }
    {
        &self.sent
    }

    /// The greatest time of an expiry, in milliseconds.
    pub fn clock(&self) -> u64
        ensures { (s : System) → IsRun C.stands P.stands O.stands F.image_of self.now s
            → result ≡ s.world.clock }
    {
        self.nodes.clock
    }

    /// The transaction coordinator, borrowed.
    pub fn coordinator(&self) -> &C
        ensures { (s : System) → IsRun C.stands P.stands O.stands F.image_of self.now s
            → C.stands (AtCoordinator s.world.coordinator) result.now }
    {
        &self.nodes.coordinator
    }

    /// How many data partitions there are.
    pub fn partitions(&self) -> usize
        ensures { (s : System) → IsRun C.stands P.stands O.stands F.image_of self.now s
            → result ≡ length s.world.partitions }
    {
        self.nodes.partitions.len()
    }

    /// The server of a data partition, borrowed, if there is the partition.
    pub fn partition(&self, number: PartitionId) -> Option<&P>
        ensures { (s : System) → IsRun C.stands P.stands O.stands F.image_of self.now s
            → MatchOption result (data_partition_at s.world number ≡ None)
            (λ server. ServesAt P.stands s.world number server.now) }
    {
        if !number.is_data() {
            return None;
        }
        self.nodes.partitions.get(usize::from(number.get()))
    }

    /// The server of the offsets partition, borrowed.
    pub fn offsets(&self) -> &O
        ensures { (s : System) → IsRun C.stands P.stands O.stands F.image_of self.now s
            → O.stands (AtPartition offsets_partition s.world.offsets) result.now }
    {
        &self.nodes.offsets
    }

    /// The client of a number, borrowed, if there is one.
    pub fn client(&self, number: ClientId) -> Option<&AnyClient<F>>
        ensures { (s : System) → IsRun C.stands P.stands O.stands F.image_of self.now s
            → MatchOption result (client_at s.world number ≡ None)
            (λ client. client_at s.world number ≡ Some (client_of client.now)) }
    {
        self.nodes.clients.get(number)
    }

    /// Whether a number is above those of all clients, so that a client of it can be made.
    pub fn is_new(&self, number: ClientId) -> bool
        ensures { (s : System) → IsRun C.stands P.stands O.stands F.image_of self.now s
            → result ≡ is_new number s.world.clients }
    {
        self.nodes.clients.is_new(number)
    }
}
