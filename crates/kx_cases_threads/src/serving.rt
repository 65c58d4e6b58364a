//! The lines that are carried out while workers run.
use crate::gate::Hold;
use crate::nodes::{event_of, make_clients};
use kx_cases::{StepFault, Texts};
use kx_core::Event;
use kx_machine::Input;
use kx_message::NodeId;
use kx_nodes::{Locked, Node, Receipt, Workers};
use kx_script::Running;
use kx_wire::Frames;
use std::alloc::{AllocError, Global};
use std::sync::atomic::Ordering;
use std::sync::{Arc, Wait};
use std::thread::Threads;

/// How many threads serve, and which ticket they hold until which is answered.
#[derive(Clone, Copy)]
pub(crate) struct Shift {
    pub(crate) count: usize,
    pub(crate) held: u64,
    pub(crate) until: u64,
}

// The place of the node of this name.
fn place_of<L: Locked>(nodes: &[Arc<Node<L>>], name: NodeId) -> Result<usize, StepFault> {
    nodes
        .iter()
        .position(|node| node.name() == name)
        .ok_or(StepFault::Unknown)
}

// Hands a node an input, by which it isn't opened again.
fn hand<L: Locked + Send + Sync + 'static, R: Threads + Wait + Copy + Send + 'static>(
    workers: &Workers<L, Hold, R>,
    nodes: &[Arc<Node<L>>],
    name: NodeId,
    input: Input,
) -> Result<(), StepFault> {
    let Ok(place) = place_of(nodes, name) else {
        drop(input);
        return Err(StepFault::Unknown);
    };
    if place >= workers.served() || matches!(input, Input::Restart(_)) {
        drop(input);
        return Err(StepFault::Unknown);
    }
    let _ticket = workers
        .hand(place, input)
        .map_err(|_| StepFault::Memory(AllocError))?;
    Ok(())
}

// Hands the messages of frames to their receivers.
fn bring<L: Locked + Send + Sync + 'static, R: Threads + Wait + Copy + Send + 'static>(
    alloc: Global,
    workers: &Workers<L, Hold, R>,
    nodes: &[Arc<Node<L>>],
    bytes: &[u8],
) -> Result<(), StepFault> {
    let mut frames = Frames::new(alloc);
    let messages = frames.feed(bytes).map_err(|_| StepFault::Unknown)?;
    for message in messages {
        let to = message.receiver();
        hand(workers, nodes, to, Input::Deliver(message))?;
    }
    Ok(())
}

// Carries out a line.
fn carry_out<L: Locked + Send + Sync + 'static, R: Threads + Wait + Copy + Send + 'static>(
    alloc: Global,
    workers: &Workers<L, Hold, R>,
    nodes: &[Arc<Node<L>>],
    running: &Running,
    line: &str,
) -> Result<(), StepFault> {
    if line == "settle" {
        workers.settle();
        return Ok(());
    }
    if let Some(bytes) = line.strip_prefix("bring ") {
        let bytes = Texts::new(alloc).bytes(bytes)?;
        return bring(alloc, workers, nodes, bytes.as_slice());
    }
    match event_of(alloc, running, line)? {
        Event::Hand { to, input, .. } => hand(workers, nodes, to, input),
        other => {
            drop(other);
            Err(StepFault::Unknown)
        }
    }
}

// Carries out all lines.
fn carry_all<L: Locked + Send + Sync + 'static, R: Threads + Wait + Copy + Send + 'static>(
    alloc: Global,
    workers: &Workers<L, Hold, R>,
    nodes: &[Arc<Node<L>>],
    running: &Running,
    lines: &str,
) -> Result<(), StepFault> {
    for line in lines.lines() {
        if !line.starts_with('#') {
            carry_out(alloc, workers, nodes, running, line)?;
        }
    }
    Ok(())
}

// Serves these nodes while lines are carried out, each read in the world of the script, and gives
// the receipts of all steps.
fn serve_lines<L: Locked + Send + Sync + 'static, R: Threads + Wait + Copy + Send + 'static>(
    rt: R,
    alloc: Global,
    nodes: &[Arc<Node<L>>],
    running: &Running,
    shift: Shift,
    lines: &str,
) -> Result<Vec<Receipt>, StepFault> {
    if shift.count == 0 {
        return Err(StepFault::Unknown);
    }
    let mut theirs = Vec::with_capacity(alloc, nodes.len())?;
    for node in nodes {
        theirs.push(Arc::try_clone(node)?)?;
    }
    let (gate, late) = Hold::new(alloc, shift.held, shift.until)?;
    let workers = Workers::start(rt, alloc, theirs, shift.count, gate)?;
    let done = carry_all(alloc, &workers, nodes, running, lines);
    let ended = workers.end();
    done?;
    if late.load(Ordering::SeqCst) {
        return Err(StepFault::Unknown);
    }
    Ok(ended?)
}

/// Makes the clients among these nodes in the world of the script, in which lines are then read;
/// serves the nodes while the lines are carried out, and gives the receipts of all steps.
pub(crate) fn serve<L: Locked + Send + Sync + 'static, R: Threads + Wait + Copy + Send + 'static>(
    rt: R,
    alloc: Global,
    nodes: &[Arc<Node<L>>],
    running: &mut Option<Running>,
    shift: Shift,
    lines: &str,
) -> Result<Vec<Receipt>, StepFault> {
    let Some(running) = running else {
        return Err(StepFault::Unknown);
    };
    make_clients(alloc, nodes, running)?;
    serve_lines(rt, alloc, nodes, running, shift, lines)
}
