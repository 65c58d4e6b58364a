//! One node that is followed.
ghost use Rattle.std.specs.Prelude.{◌≡◌, IfOk};
ghost use Rattle.kx_audit.specs.Making.{named};
ghost use Rattle.kx_audit.specs.Schedule.{IsNodeMaking};
ghost use Rattle.kx_follow.specs.Internal.{Steps};
ghost use Rattle.kx_machine.specs.Meaning.{NodeState};

use kx_audit::Remade;
use kx_machine::{Input, Machine, StoreMode, Taken};
use kx_message::NodeId;
use std::alloc::AllocError;
use std::marker::Model;

/// How a node was made, and its machine after the steps so far.
#[derive(Drop)]
pub struct FollowedNode<B: Remade> {
    made: B,
    machine: B::Machine,
}

impl<B: Remade> Model for FollowedNode<B> {
    ghost use Rattle.kx_follow.specs.Following.{Followed};

    ghost Value = { Followed B B.Machine };

    ghost view = { λ n. record { made = n.made; machine = n.machine } };
}

impl<B: Remade> FollowedNode<B> {
    /// A node that was made as `made` says, whose machine is this now.
    pub fn new(made: B, machine: B::Machine) -> FollowedNode<B>
        ensures made { result.made ≡ made }
        ensures machine { result.machine ≡ machine }
    {
        FollowedNode { made, machine }
    }

    /// The node's name.
    pub(crate) fn name(&self) -> NodeId
        ensures name { result ≡ named (B.making self.now.made) }
        ensures fits { IsNodeMaking (B.making self.now.made) }
    {
        self.made.tells();
        self.made.name()
    }

    /// The machine takes one more input, on a store that does as `mode` says.
    ///
    /// # Errors
    ///
    /// Only if memory runs out.
    pub(crate) fn take(&mut self, input: &Input, mode: StoreMode) -> Result<Taken, AllocError>
        ensures made { self.new.made ≡ self.old.made }
        ensures steps { IfOk result (λ taken. (node : NodeState)
            → B.Machine.stands node self.old.machine
            → Steps B.Machine.stands node input.now mode taken self.new.machine) }
    {
        B::prepare(&mut self.machine, mode);
        let taken = self.machine.take(input)?;
        Ok(taken)
    }

    /// The machine, taken out.
    pub(crate) fn into_machine(self) -> B::Machine
        ensures { result ≡ self.machine }
    {
        self.machine
    }

    /// The machine, borrowed.
    pub(crate) fn machine(&self) -> &B::Machine
        ensures { result.now ≡ self.now.machine }
    {
        &self.machine
    }
}
