//! Nodes that keep their logs in memory.
ghost use Rattle.std.specs.Prelude.{◌≡◌, ◌==◌, [], false, IfOk};
ghost use Rattle.kx_broker.specs.Offsets.{StandsForGroups};
ghost use Rattle.kx_broker.specs.Serving.{StandsFor};
ghost use Rattle.kx_coord_node.specs.Stands.{Stands};
ghost use Rattle.kx_machine.specs.Meaning.{AtCoordinator, AtPartition};
ghost use Rattle.kx_machines.specs.Brokers.{broker_stands};
ghost use Rattle.kx_message.specs.Ranges.{offsets_partition};
ghost use Rattle.kx_model.specs.CoordinatorNode.{new_coordinator};
ghost use Rattle.kx_model.specs.PartitionNode.{empty_partition};

use crate::broker::BrokerMachine;
use kx_broker::{OffsetsMachine, PartitionMachine};
use kx_coord_node::CoordinatorMachine;
use kx_log::{FaultStore, MemStore};
use kx_message::PartitionId;
use std::alloc::{AllocError, Global};

/// A store in memory that can be made to fail.
pub type LocalStore = FaultStore<MemStore>;

// An empty store, of which nothing fails yet.
fn empty_store(alloc: Global) -> LocalStore
    ensures { result.bytes ≡ [] }
{
    FaultStore::new(MemStore::new(Vec::new(alloc)), 0, 0)
}

/// The coordinator, as it is made: its log is in memory, and it is time 0.
///
/// # Errors
///
/// Only if memory runs out.
pub fn local_coordinator(alloc: Global) -> Result<CoordinatorMachine<LocalStore>, AllocError>
    ensures { IfOk result (Stands (AtCoordinator new_coordinator)) }
{
    match CoordinatorMachine::new(alloc, empty_store(alloc)) {
        Ok(coordinator) => Ok(coordinator),
        Err(_) => Err(AllocError),
    }
}

/// The server of a partition, as it is made, with an empty log in memory. It stands for the node of
/// a data partition; that of the offsets partition has [`local_offsets`].
///
/// # Errors
///
/// Only if memory runs out.
pub fn local_partition(
    alloc: Global,
    number: PartitionId,
) -> Result<PartitionMachine<LocalStore>, AllocError>
    ensures { (number == offsets_partition) ≡ false
        → IfOk result (StandsFor (AtPartition number empty_partition)) }
{
    match PartitionMachine::new(alloc, number, empty_store(alloc)) {
        Ok(server) => Ok(server),
        Err(_) => Err(AllocError),
    }
}

/// The server of the offsets partition, as it is made, with an empty log in memory.
///
/// # Errors
///
/// Only if memory runs out.
pub fn local_offsets(alloc: Global) -> Result<OffsetsMachine<LocalStore>, AllocError>
    ensures { IfOk result (StandsForGroups (AtPartition offsets_partition empty_partition)) }
{
    match OffsetsMachine::new(alloc, empty_store(alloc)) {
        Ok(offsets) => Ok(offsets),
        Err(_) => Err(AllocError),
    }
}

/// The server of a partition of either kind, as it is made, with an empty log in memory.
///
/// # Errors
///
/// Only if memory runs out.
pub fn local_server(
    alloc: Global,
    number: PartitionId,
) -> Result<BrokerMachine<LocalStore>, AllocError>
    ensures { IfOk result (broker_stands (AtPartition number empty_partition)) }
{
    if number.is_data() {
        Ok(BrokerMachine::Partition(local_partition(alloc, number)?))
    } else {
        Ok(BrokerMachine::Offsets(local_offsets(alloc)?))
    }
}
