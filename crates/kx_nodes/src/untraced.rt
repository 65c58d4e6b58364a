//! A machine that keeps no trace.
ghost use Rattle.std.specs.Prelude.{◌≡◌};
ghost use Rattle.kx_machine.specs.Meaning.{NodeState};
ghost use Rattle.kx_nodes.specs.Replay.{name_of};

use crate::fault::NodeFault;
use crate::locked::Locked;
use crate::receipt::Receipt;
use kx_machine::{Input, Machine};
use kx_message::NodeId;
use std::marker::Model;

/// A machine under the name of its node, which keeps nothing of its steps. So it may make any
/// number of them. It stands for a node of the definitions.
#[derive(Drop)]
pub struct Untraced<M: Machine> {
    name: NodeId,
    machine: M,
}

impl<M: Machine> Model for Untraced<M> {
    ghost use Rattle.kx_nodes.specs.Taking.{Alone};

    ghost Value = { Alone M };

    ghost use Rattle.kx_machine.specs.Meaning.{NodeState};

    ghost view = { λ u. record { name = u.name; machine = u.machine } };

    ghost invariant = { λ u. (node : NodeState) × M.stands node u.machine };
}

impl<M: Machine> Untraced<M> {
    /// The machine of a node of this name.
    pub fn new(name: NodeId, machine: M) -> Self
        requires { (node : NodeState) × M.stands node machine × (name_of node ≡ name) }
        ensures { result ≡ record { name = name; machine = machine } }
    {
        Untraced { name, machine }
    }

    /// The machine, borrowed, which stands for a node of the definitions.
    pub fn machine(&self) -> &M
        ensures value { result.now ≡ self.now.machine }
        ensures stands { (node : NodeState) × M.stands node self.now.machine }
    {
        &self.machine
    }
}

impl<M: Machine> Locked for Untraced<M> {
    ghost use Rattle.std.specs.Prelude.{false};
    ghost use Rattle.kx_nodes.specs.Taking.{IsUnrecorded};

    ghost stands = { λ node untraced. M.stands node untraced.machine };

    ghost allows = { λ untraced. M.allows untraced.machine };

    ghost named = { λ untraced. untraced.name };

    ghost keeps_trace = { false };

    ghost records = { IsUnrecorded };

    fn name(&self) -> NodeId {
        self.name
    }

    fn is_traced(&self) -> bool {
        false
    }

    // The receipt's place is 0, since there is no trace.
    fn take(&mut self, input: Input) -> Result<Receipt, NodeFault> {
        let taken = self.machine.take(&input)?;
        Ok(Receipt {
            node: self.name,
            place: 0,
            input,
            taken,
        })
    }
}
