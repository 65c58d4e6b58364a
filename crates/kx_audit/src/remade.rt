//! Nodes that are made again, from what their traces begin with.
use crate::making::Tells;
use kx_machine::{Machine, StoreMode};
use std::alloc::{AllocError, Global};

/// How a node was made, of which a fresh machine can be made again, on a store in memory that is
/// made to fail. A client and a processor keep no log, and so have no store.
pub trait Remade: Tells {
    ghost use Rattle.std.specs.Prelude.{ℕ, IfOk, Option};
    ghost use Rattle.kx_machine.specs.Meaning.{NodeState};
    ghost use Rattle.kx_model.specs.Disk.{Store};
    ghost use Rattle.kx_nodes.specs.Again.{MayMeet};

    /// The machine.
    type Machine: Machine;

    /// A machine that has taken nothing yet.
    ///
    /// # Errors
    ///
    /// Only if memory runs out.
    fn make(&self, alloc: Global) -> Result<Self::Machine, AllocError>
        ensures { IfOk result (λ machine. Self.Machine.stands (Self.state self.now) machine) };

    /// Makes the machine's store do this in the next step, whatever it was to do before.
    fn prepare(machine: &mut Self::Machine, mode: StoreMode)
        ensures stands { (node : NodeState) → Self.Machine.stands node machine.old
            → Self.Machine.stands node machine.new }
        ensures meets { (node : NodeState) (size : Option ℕ) (store : Store)
            → Self.Machine.stands node machine.new → Self.Machine.allows machine.new size store
            → MayMeet node mode store };
}
