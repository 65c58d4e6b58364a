//! Receipts as an auditor is given them, and what it finds.
ghost use Rattle.std.specs.Prelude.{◌<◌, length, IfSome};

use crate::nodes::traces_of;
use kx_audit::{AuditFault, Remade, Run, audit, audit_servers};
use kx_cases::StepFault;
use kx_cluster::AnyMaking;
use kx_machine::Machine;
use kx_machines::{AnyMachine, BrokerMachine};
use kx_message::{ClientId, NodeId, PartitionId};
use kx_nodes::{Node, Receipt, Trace, Traced};
use kx_processor::Prefixed;
use kx_reader::Committed;
use std::alloc::{AllocError, Global};
use std::mem;
use std::sync::Arc;

/// The node that a word names: `co`, `po`, `p` or `c` and a number.
pub(crate) fn node_named(word: &str) -> Option<NodeId> {
    match word {
        "co" => return Some(NodeId::Coordinator),
        "po" => return Some(NodeId::Partition(PartitionId::OFFSETS)),
        _ => {}
    }
    if let Some(number) = word.strip_prefix('p') {
        let number: u16 = number.parse().ok()?;
        return Some(NodeId::Partition(PartitionId::try_from(number).ok()?));
    }
    let number: u32 = word.strip_prefix('c')?.parse().ok()?;
    Some(NodeId::Client(ClientId::from(number)))
}

// The place in the list of the receipt of a step.
fn find(receipts: &[Receipt], node: NodeId, place: usize) -> Option<usize>
    ensures { IfSome result (λ at. at < length receipts.now) }
{
    receipts
        .iter()
        .position(|receipt| receipt.node == node && receipt.place == place)
}

/// Leaves the receipt of a step out.
pub(crate) fn leave_out(
    receipts: &mut Vec<Receipt>,
    node: NodeId,
    place: usize,
) -> Result<(), StepFault> {
    let Some(at) = find(receipts.as_slice(), node, place) else {
        return Err(StepFault::Unknown);
    };
    let _receipt = receipts.swap_remove(at);
    Ok(())
}

// A copy of a receipt.
fn copy_of(receipt: &Receipt) -> Result<Receipt, AllocError> {
    let input = receipt.input.clone()?;
    match receipt.taken.clone() {
        Ok(taken) => Ok(Receipt {
            node: receipt.node,
            place: receipt.place,
            input,
            taken,
        }),
        Err(refused) => {
            drop(input);
            Err(refused)
        }
    }
}

/// Gives the receipt of a step twice.
pub(crate) fn double(
    receipts: &mut Vec<Receipt>,
    node: NodeId,
    place: usize,
) -> Result<(), StepFault> {
    let Some(at) = find(receipts.as_slice(), node, place) else {
        return Err(StepFault::Unknown);
    };
    let copy = copy_of(&receipts[at])?;
    receipts.push(copy)?;
    Ok(())
}

/// The receipts of an earlier run in place of these, for one node.
pub(crate) fn exchange(
    receipts: &mut Vec<Receipt>,
    earlier: &mut Vec<Receipt>,
    node: NodeId,
) -> Result<(), AllocError> {
    receipts.retain(|receipt| receipt.node != node);
    earlier.retain(|receipt| receipt.node == node);
    receipts.append(earlier)
}

/// What an audit found.
pub(crate) type Found = Run<AnyMaking<Prefixed>>;

/// Whose the clients are of an audit.
#[derive(Clone, Copy)]
pub(crate) enum Audited {
    /// Clients have traces too.
    All,
    /// Servers alone have traces, and the clients are outside.
    Servers,
}

// What an audit finds.
fn found<B: Remade>(
    alloc: Global,
    audited: Audited,
    traces: Vec<Trace<B>>,
    receipts: &[Receipt],
) -> Result<Run<B>, AuditFault> {
    match audited {
        Audited::All => audit(alloc, traces, receipts),
        Audited::Servers => audit_servers(alloc, traces, receipts),
    }
}

// Reports what an audit found.
fn tell_found<B: Remade>(
    told: &mut String,
    found: &Result<Run<B>, AuditFault>,
) -> Result<(), AllocError> {
    match found {
        Ok(_) => writeln!(told, "audit yes"),
        Err(fault) => writeln!(told, "audit no {}", fault.number()),
    }
}

/// Ends these nodes and audits their traces, keeps the run that is found, and tells what was found.
pub(crate) fn judge<M: Machine, B: Remade>(
    alloc: Global,
    told: &mut String,
    kept: &mut Option<Run<B>>,
    audited: Audited,
    nodes: &mut Vec<Arc<Node<Traced<M, B>>>>,
    receipts: &[Receipt],
) -> Result<(), StepFault> {
    let ended = mem::replace(nodes, Vec::new(alloc));
    let traces = traces_of(alloc, ended)?;
    let run = found(alloc, audited, traces, receipts);
    let done = tell_found(told, &run);
    drop(mem::replace(kept, run.ok()));
    Ok(done?)
}

// The machine after the trace of a node.
fn machine_of<B: Remade>(run: &Run<B>, node: NodeId) -> Option<&B::Machine> {
    for number in 0..run.len() {
        if run.trace(number)?.node() == node {
            return run.machine(number);
        }
    }
    None
}

/// How many committed records a data partition has in the run.
pub(crate) fn committed(
    alloc: Global,
    run: &Found,
    partition: PartitionId,
) -> Result<usize, StepFault> {
    let machine = machine_of(run, NodeId::Partition(partition));
    let Some(AnyMachine::Broker(BrokerMachine::Partition(server))) = machine else {
        return Err(StepFault::Unknown);
    };
    let page = server
        .partition()
        .fetch(0, u32::MAX, true)
        .map_err(|_| StepFault::Unknown)?;
    let mut count: usize = 0;
    for _record in Committed::new(alloc, page)? {
        count = count.saturating_add(1);
    }
    Ok(count)
}
