//! A found run as events, and the world in which they happen again.
use crate::audits::Found;
use kx_audit::{Remade, Run};
use kx_cases::StepFault;
use kx_core::{LocalWorld, World};
use kx_machine::{Failing, Machine};
use kx_machines::{AnyMachine, BrokerMachine, LocalStore};
use kx_message::{NodeId, PartitionId};
use kx_processor::{Prefixed, Process};
use kx_rerun::{events_of, world_of};
use std::alloc::{AllocError, Global};

// Whether two nodes have the same batches in their logs.
fn same_log<A: Machine, B: Machine>(one: &A, other: &B) -> bool {
    let mut batches = other.batches_from(0, u32::MAX);
    for batch in one.batches_from(0, u32::MAX) {
        match batches.next() {
            Some(also) if also == batch => {}
            _ => return false,
        }
    }
    batches.is_empty() && one.log_end() == other.log_end()
}

// Whether a world has the log of a machine of this partition.
fn has_log<C: Failing, P: Failing, O: Failing, F: Process + Copy, M: Machine>(
    world: &World<C, P, O, F>,
    number: PartitionId,
    machine: &M,
) -> bool {
    if number == PartitionId::OFFSETS {
        return same_log(machine, world.offsets());
    }
    match world.partition(number) {
        Some(server) => same_log(machine, server),
        None => false,
    }
}

// Whether the world's coordinator has the rows of a machine of the coordinator.
fn has_rows(
    alloc: Global,
    world: &LocalWorld<Prefixed>,
    machine: &AnyMachine<LocalStore, Prefixed>,
) -> Result<bool, StepFault> {
    let AnyMachine::Broker(BrokerMachine::Coordinator(machine)) = machine else {
        return Err(StepFault::Unknown);
    };
    let one = format!(in alloc; "{:?}", machine.coordinator().rows())?;
    let other = format!(in alloc; "{:?}", world.rows())?;
    Ok(one == other)
}

// Whether the world has what the machine of a node has.
fn is_again(
    alloc: Global,
    world: &LocalWorld<Prefixed>,
    node: NodeId,
    machine: &AnyMachine<LocalStore, Prefixed>,
) -> Result<bool, StepFault> {
    match node {
        NodeId::Coordinator => has_rows(alloc, world, machine),
        NodeId::Partition(number) => Ok(has_log(world, number, machine)),
        NodeId::Client(number) => Ok(world.client(number).is_some()),
    }
}

// How many events the run is.
fn event_count(alloc: Global, run: &Found) -> Result<usize, AllocError> {
    let events = events_of(alloc, run)?;
    let count = events.len();
    drop(events);
    Ok(count)
}

// The node of the trace of this number, its machine, and the end of its log.
fn node_at<B: Remade>(run: &Run<B>, number: usize) -> Option<(NodeId, &B::Machine, i64)> {
    let node = run.trace(number)?.node();
    let machine = run.machine(number)?;
    Some((node, machine, machine.log_end()))
}

// Tells of each node of the run the end of its log, and whether the world has what it has.
fn tell_nodes(
    alloc: Global,
    told: &mut String,
    run: &Found,
    world: &LocalWorld<Prefixed>,
) -> Result<(), StepFault> {
    for number in 0..run.len() {
        let Some((node, machine, end)) = node_at(run, number) else {
            return Err(StepFault::Unknown);
        };
        let again = is_again(alloc, world, node, machine)?;
        let word = if again { "again" } else { "otherwise" };
        writeln!(told, "{node} {end} {word}")?;
    }
    Ok(())
}

/// Reports how many events the run is, and of each node the end of its log and whether the world in
/// which they happen again has that log, the coordinator's rows or the client.
pub(crate) fn tell_rerun(alloc: Global, told: &mut String, run: &Found) -> Result<(), StepFault> {
    writeln!(told, "events {}", event_count(alloc, run)?)?;
    let world = world_of(alloc, run)?;
    let done = tell_nodes(alloc, told, run, &world);
    drop(world);
    done
}
