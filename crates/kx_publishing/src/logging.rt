//! What a machine tells of its log.
ghost use Rattle.std.specs.Prelude.{[]};
ghost use Rattle.kx_publishing.specs.Logs.{coordinator_log, offsets_log, partition_log};

use kx_broker::{OffsetsMachine, PartitionMachine};
use kx_coord_node::CoordinatorMachine;
use kx_log::Store;
use kx_machine::Machine;
use kx_machines::{AnyMachine, BrokerMachine};
use kx_processor::Process;

/// A machine whose log of record batches is told by the machine itself, as whoever publishes it has
/// to know it.
pub trait Logging: Machine {
    ghost use Rattle.std.specs.Prelude.{◌≡◌, List};
    ghost use Rattle.kx_machine.specs.Logs.{batches_of};
    ghost use Rattle.kx_machine.specs.Meaning.{NodeState};
    ghost use Rattle.kx_model.specs.Log.{Stored};

    /// The record batches of its log.
    ghost log: { Self → List Stored };

    /// These batches are those of each node for which it stands.
    ghost log_is: { (machine : Self) (state : NodeState) → Self.stands state machine
        → log machine ≡ batches_of state };
}

impl<S: Store> Logging for PartitionMachine<S> {
    ghost log = { λ machine. machine.log.batches };

    ghost log_is = { partition_log };
}

impl<S: Store> Logging for OffsetsMachine<S> {
    ghost log = { λ machine. machine.log.batches };

    ghost log_is = { offsets_log };
}

/// The coordinator has no record batches.
impl<S: Store> Logging for CoordinatorMachine<S> {
    ghost log = { λ machine. [] };

    ghost log_is = { coordinator_log };
}

impl<S: Store> Logging for BrokerMachine<S> {
    ghost use Rattle.kx_publishing.specs.Brokers.{broker_log, broker_log_is};

    ghost log = { broker_log };

    ghost log_is = { broker_log_is };
}

/// A client has no record batches.
impl<S: Store, F: Process> Logging for AnyMachine<S, F> {
    ghost use Rattle.kx_publishing.specs.Brokers.{any_log, any_log_is};

    ghost log = { any_log };

    ghost log_is = { any_log_is F.image_of };
}
