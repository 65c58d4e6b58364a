//! Nodes that are opened on the logs with which their traces begin.
ghost use Rattle.std.specs.Prelude.{◌≡◌, ◌==◌, IfErr, IfOk, false};
ghost use Rattle.kx_message.specs.Ranges.{offsets_partition};
ghost use Rattle.kx_server_audit.specs.Internal.{IsOpenedSo, OpenRefused};
ghost use Rattle.kx_trace.specs.declared.node.TracedNode.TheVariants as traced;

use kx_broker::{OffsetsMachine, PartitionMachine};
use kx_coord_node::CoordinatorMachine;
use kx_log::{FaultStore, MemStore, OpenFault};
use kx_machines::{BrokerMachine, LocalStore};
use kx_message::PartitionId;
use kx_trace::TracedNode;
use kx_trace_audit::TraceRefusal;
use kx_trace_files::OpenedOn;
use std::alloc::{AllocError, Global};

// A store in memory that holds a log, and of which nothing fails yet.
fn store_of(alloc: Global, log: &[u8]) -> Result<LocalStore, AllocError>
    ensures { IfOk result (λ store. store.bytes ≡ log.now) }
{
    let bytes = Vec::from_slice(alloc, log)?;
    Ok(FaultStore::new(MemStore::new(bytes), 0, 0))
}

// Why a trace is refused whose log can't be opened.
fn refusal_of(fault: OpenFault) -> TraceRefusal
    ensures { OpenRefused result }
{
    match fault {
        OpenFault::Memory => TraceRefusal::Memory,
        _ => TraceRefusal::Bytes,
    }
}

// The coordinator of this log.
fn coordinator_on(
    alloc: Global,
    opened: &OpenedOn,
) -> Result<BrokerMachine<LocalStore>, TraceRefusal>
    ensures ok { IfOk result
        (IsOpenedSo traced.Coordinator opened.now.time opened.now.log.items) }
    ensures err { IfErr result OpenRefused }
{
    let store = store_of(alloc, opened.log.as_slice())?;
    match CoordinatorMachine::open(alloc, store, opened.time) {
        Ok((machine, markers)) => {
            drop(markers);
            Ok(BrokerMachine::Coordinator(machine))
        }
        Err((fault, store)) => {
            drop(store);
            Err(refusal_of(fault))
        }
    }
}

// The server of a data partition with this log.
fn partition_on(
    alloc: Global,
    number: PartitionId,
    opened: &OpenedOn,
) -> Result<BrokerMachine<LocalStore>, TraceRefusal>
    ensures ok { (number == offsets_partition) ≡ false → IfOk result
        (IsOpenedSo (traced.Partition number) opened.now.time opened.now.log.items) }
    ensures err { IfErr result OpenRefused }
{
    let store = store_of(alloc, opened.log.as_slice())?;
    match PartitionMachine::new(alloc, number, store) {
        Ok(machine) => Ok(BrokerMachine::Partition(machine)),
        Err((fault, store)) => {
            drop(store);
            Err(refusal_of(fault))
        }
    }
}

// The server of the offsets partition with this log.
fn offsets_on(alloc: Global, opened: &OpenedOn) -> Result<BrokerMachine<LocalStore>, TraceRefusal>
    ensures ok { IfOk result (IsOpenedSo (traced.Partition offsets_partition) opened.now.time
        opened.now.log.items) }
    ensures err { IfErr result OpenRefused }
{
    let store = store_of(alloc, opened.log.as_slice())?;
    match OffsetsMachine::new(alloc, store) {
        Ok(machine) => Ok(BrokerMachine::Offsets(machine)),
        Err((fault, left)) => {
            drop(left);
            Err(refusal_of(fault))
        }
    }
}

/// The machine of a node that was opened on this log.
///
/// # Errors
///
/// `Bytes` if the log can't be opened; `Memory` if memory runs out.
pub(crate) fn node_on(
    alloc: Global,
    node: TracedNode,
    opened: &OpenedOn,
) -> Result<BrokerMachine<LocalStore>, TraceRefusal>
    ensures ok { IfOk result (IsOpenedSo node opened.now.time opened.now.log.items) }
    ensures err { IfErr result OpenRefused }
{
    match node {
        TracedNode::Coordinator => coordinator_on(alloc, opened),
        TracedNode::Partition(number) if number.is_data() => partition_on(alloc, number, opened),
        TracedNode::Partition(_) => offsets_on(alloc, opened),
    }
}
