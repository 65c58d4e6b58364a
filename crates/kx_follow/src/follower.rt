//! Nodes of a server whose steps are made again.
ghost use Rattle.std.specs.Prelude.{◌≡◌, ◌+◌, ◌≤◌, ◌⊎◌, ◌++◌, ℕ, [], All, IfErr, IfNone, IfOk};
ghost use Rattle.std.specs.Prelude.{IsFalse, IsTrue, List, MatchOption, MatchResult, None, OnOk, Some};
ghost use Rattle.std.specs.Prelude.{if◌then◌else◌, length, map, slice_get};
ghost use Rattle.kx_audit.specs.Arrivals.{requested};
ghost use Rattle.kx_audit.specs.Joined.{Passed, WasHandedOut};
ghost use Rattle.kx_follow.specs.Beginning.{AreAt, AreLedBy, AreNodes, IsNewName};
ghost use Rattle.kx_follow.specs.Following.{AreApart, Followed, HasMade, MakesOneMore};
ghost use Rattle.kx_follow.specs.Pending.{AreSent, IsUnsent, MustWait, takes_sent, times};
ghost use Rattle.kx_follow.specs.Whole.{IsWholeRun};
ghost use Rattle.kx_follow.specs.declared.fault.FollowFault.TheVariants as fault;
ghost use Rattle.kx_machine.specs.Meaning.{NodeState};
ghost use Rattle.kx_message.specs.declared.message.Message.{Message};
ghost use Rattle.kx_outside.specs.Requests.{IsRequest};
ghost use Rattle.kx_system.specs.System.{System};

use crate::fault::FollowFault;
use crate::followed::FollowedNode;
use crate::pending::Pending;
use kx_audit::{Remade, joined_traces_are_an_open_schedule};
use kx_machine::{Input, StoreMode, Taken, input_fits};
use kx_message::NodeId;
use kx_outside::{can_arrive, request_fits};
use std::alloc::{AllocError, Global};
use std::marker::Model;

/// The nodes of a server, which make their steps again, in one order.
#[derive(Drop)]
pub struct Follower<B: Remade> {
    nodes: Vec<FollowedNode<B>>,
    pending: Pending,
}

impl<B: Remade> Model for Follower<B> {
    ghost use Rattle.kx_follow.specs.Following.{Following};

    ghost Value = { Following B B.Machine };

    ghost view = { λ f. record { nodes = f.nodes.items; pending = f.pending } };
}

// Whether one of these nodes has this name.
fn has_name<B: Remade>(nodes: &[FollowedNode<B>], name: NodeId) -> bool
    ensures new { IsFalse result → IsNewName B.making name nodes.now }
    ensures there { IsTrue result → IsNewName B.making name nodes.now → ⊥ }
{
    for node in nodes {
        if node.name() == name {
            return true;
        }
    }
    false
}

// Sees that no two of these nodes have one name.
fn check_names<B: Remade>(nodes: &[FollowedNode<B>]) -> Result<(), FollowFault>
    ensures { MatchResult result (λ done. AreNodes B.making nodes.now)
        (λ why. (why ≡ fault.DuplicateNode) × (AreApart B.making nodes.now → ⊥)) }
{
    for number in 0..nodes.len() {
        if has_name(&nodes[..number], nodes[number].name()) {
            return Err(FollowFault::DuplicateNode);
        }
    }
    Ok(())
}

// The machines of these nodes, taken out.
fn machines_of<B: Remade>(nodes: Vec<FollowedNode<B>>) -> Result<Vec<B::Machine>, AllocError>
    ensures { IfOk result (λ machines. machines.items ≡ map (λ n. n.machine) nodes.items) }
{
    let mut machines = Vec::new(*nodes.allocator());
    for node in nodes {
        machines.push(node.into_machine())?;
    }
    Ok(machines)
}

impl<B: Remade> Follower<B> {
    /// Nodes of which no step was made again, as they are in the beginning.
    ///
    /// # Errors
    ///
    /// `DuplicateNode` if two of them have one name.
    pub fn new(alloc: Global, nodes: Vec<FollowedNode<B>>) -> Result<Follower<B>, FollowFault>
        ensures nodes { IfOk result (λ f. f.nodes ≡ nodes.items) }
        ensures made { IfOk result (λ f. (starts : List NodeState)
            → AreAt B.making B.Machine.stands starts f.nodes
            → HasMade B.making B.Machine.stands starts [] f) }
        ensures err { IfErr result (λ why. (why ≡ fault.DuplicateNode)
            × (AreApart B.making nodes.items → ⊥)) }
    {
        check_names(nodes.as_slice())?;
        Ok(Follower {
            nodes,
            pending: Pending::new(alloc),
        })
    }

    // Whether the node may take the input now: a message only if it is a client's request, or was
    // sent by a step before. A message that was sent is taken out of those that wait.
    fn may_take(&mut self, input: &Input) -> Result<bool, AllocError>
        ensures nodes { self.new.nodes ≡ self.old.nodes }
        ensures left { OnOk result ((sent : List Message) → AreSent sent self.old.pending
            → AreSent sent self.new.pending) }
        ensures fit { All IsRequest (requested input.now) }
        ensures comes { IfOk result (λ may. IsTrue may → (sent : List Message)
            → AreSent sent self.old.pending
            → WasHandedOut (requested input.now ++ sent) input.now) }
        ensures times { IfOk result (λ may. IsTrue may → (text : List ℕ)
            → times text self.new.pending + (if takes_sent text input.now then 1 else 0)
            ≡ times text self.old.pending) }
        ensures stays { IfOk result (λ may. IsFalse may → self.new ≡ self.old) }
        ensures waits { IfOk result (λ may. IsFalse may
            → MustWait self.old.pending input.now) }
    {
        let Input::Deliver(message) = input else {
            return Ok(true);
        };
        if can_arrive(message) {
            request_fits(message);
            return Ok(true);
        }
        let was_sent = self.pending.take_out(message)?;
        Ok(was_sent)
    }

    /// Makes one more step: the node of this number, counted from 0 as they were given, takes the
    /// input, and its store does as `mode` says. None if it is a message that is no client's
    /// request and that no step before it sent, or that was taken as often as it was sent, or if
    /// there is no such node; then there was no step, and nothing changed.
    ///
    /// # Errors
    ///
    /// Only if memory runs out. Then the steps can't be followed any further.
    pub fn take(
        &mut self,
        node: usize,
        input: &Input,
        mode: StoreMode,
    ) -> Result<Option<Taken>, AllocError>
        ensures stays { IfOk result (λ o. IfNone o (self.new ≡ self.old)) }
        ensures waits { IfOk result (λ o. IfNone o ((length self.old.nodes ≤ node)
            ⊎ MustWait self.old.pending input.now)) }
        ensures made { (starts : List NodeState) (history : List Passed)
            → HasMade B.making B.Machine.stands starts history self.old → IfOk result (λ o.
            MatchOption o ((length self.old.nodes ≤ node) ⊎ IsUnsent history input.now)
            (λ taken. MakesOneMore B.making B.Machine.stands starts node input.now mode taken
            history self.old self.new)) }
    {
        input_fits(input);
        if node >= self.nodes.len() {
            return Ok(None);
        }
        if !self.may_take(input)? {
            return Ok(None);
        }
        let taken = self.nodes[node].take(input, mode)?;
        self.pending.add_all(taken.messages.as_slice())?;
        Ok(Some(taken))
    }

    /// The machine of the node of this number, borrowed; None if there is no such node.
    pub fn machine(&self, node: usize) -> Option<&B::Machine>
        ensures { MatchOption result (slice_get self.now.nodes node ≡ None)
            (λ machine. (n : Followed B B.Machine) × (slice_get self.now.nodes node ≡ Some n)
            × (machine.now ≡ n.machine)) }
    {
        Some(self.nodes.get(node)?.machine())
    }

    /// The machines of the nodes, in order, taken out.
    ///
    /// # Errors
    ///
    /// Only if memory runs out.
    pub fn into_machines(self) -> Result<Vec<B::Machine>, AllocError>
        ensures { IfOk result (λ machines. machines.items ≡ map (λ n. n.machine) self.nodes) }
    {
        machines_of(self.nodes)
    }

    /// What the steps that were made are, after whatever steps may have led to the nodes in the
    /// beginning: an open schedule of the whole system, in which each request of a client that a
    /// step took in had arrived from outside. It keeps the promises that need no trust in clients,
    /// and leads to the nodes for which the machines stand. This does nothing when it runs.
    pub fn steps_are_an_open_schedule(&self)
        ensures { (starts : List NodeState) (history before : List Passed)
            → HasMade B.making B.Machine.stands starts history self.now
            → AreLedBy B.making before starts self.now.nodes → (s : System)
            × IsWholeRun B.making B.Machine.stands (before ++ history) self.now s }
    {
        joined_traces_are_an_open_schedule();
    }
}
