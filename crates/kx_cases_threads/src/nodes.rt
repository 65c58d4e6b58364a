//! The nodes of a served script, and what its lines hand to them.
use kx_cases::StepFault;
use kx_cluster::{AnyMaking, LocalNode, local_node};
use kx_core::{Event, PartitionCount};
use kx_machine::{Machine, Making};
use kx_message::{ClientId, NodeId, PartitionId, Timeout};
use kx_nodes::{Locked, Made, Node, ProcessorMaking, Trace, Traced};
use kx_processor::Prefixed;
use kx_script::{Running, event_in, world_in};
use std::alloc::{AllocError, Global};
use std::sync::Arc;

/// A node of a served script.
pub(crate) type Served = LocalNode<Prefixed>;

// Puts a node after these nodes, to be shared.
fn push_node<L: Locked>(
    alloc: Global,
    nodes: &mut Vec<Arc<Node<L>>>,
    node: Node<L>,
) -> Result<(), AllocError> {
    nodes.push(Arc::new(alloc, node)?)?;
    Ok(())
}

// One more node.
fn add(
    alloc: Global,
    nodes: &mut Vec<Arc<Served>>,
    making: AnyMaking<Prefixed>,
) -> Result<(), AllocError> {
    let node = local_node(alloc, making)?;
    push_node(alloc, nodes, node)
}

// One more that isn't a processor.
fn add_plain(
    alloc: Global,
    nodes: &mut Vec<Arc<Served>>,
    making: Making,
) -> Result<(), AllocError> {
    add(alloc, nodes, AnyMaking::Plain(making))
}

// The coordinator, this many data partitions, and the offsets partition.
fn add_world(
    alloc: Global,
    nodes: &mut Vec<Arc<Served>>,
    count: PartitionCount,
) -> Result<(), StepFault> {
    add_plain(alloc, nodes, Making::Coordinator)?;
    for number in 0..count.get() {
        let number = PartitionId::try_from(number as u16).map_err(|_| StepFault::Unknown)?;
        add_plain(alloc, nodes, Making::Partition(number))?;
    }
    Ok(add_plain(alloc, nodes, Making::Partition(PartitionId::OFFSETS))?)
}

/// A second node of a name.
pub(crate) fn add_twin(
    alloc: Global,
    nodes: &mut Vec<Arc<Served>>,
    name: NodeId,
) -> Result<(), StepFault> {
    match name {
        NodeId::Coordinator => Ok(add_plain(alloc, nodes, Making::Coordinator)?),
        NodeId::Partition(number) => Ok(add_plain(alloc, nodes, Making::Partition(number))?),
        NodeId::Client(_) => Err(StepFault::Unknown),
    }
}

// A client or a processor that an event makes.
fn add_client(
    alloc: Global,
    nodes: &mut Vec<Arc<Served>>,
    event: &Event<Prefixed>,
) -> Result<(), StepFault> {
    match event {
        Event::Make {
            client,
            txn,
            timeout,
        } => Ok(add_plain(
            alloc,
            nodes,
            Making::Client {
                number: *client,
                txn: *txn,
                timeout: *timeout,
            },
        )?),
        Event::MakeProcessor {
            client,
            txn,
            timeout,
            group,
            inputs,
            process,
        } => Ok(add(
            alloc,
            nodes,
            AnyMaking::Processor(ProcessorMaking {
                number: *client,
                txn: *txn,
                timeout: *timeout,
                group: *group,
                inputs: *inputs,
                process: *process,
            }),
        )?),
        _ => Err(StepFault::Unknown),
    }
}

/// The event that a line is.
pub(crate) fn event_of(
    alloc: Global,
    running: &Running,
    line: &str,
) -> Result<Event<Prefixed>, StepFault> {
    match event_in(alloc, running, line.as_bytes()) {
        Some(Ok(read)) => Ok(read.event),
        Some(Err(refused)) => Err(StepFault::Memory(refused)),
        None => Err(StepFault::Unknown),
    }
}

// The nodes of the line `world P`, and the world in which the lines after it are read.
fn begin(
    alloc: Global,
    nodes: &mut Vec<Arc<Served>>,
    running: &mut Option<Running>,
    line: &str,
) -> Result<(), StepFault> {
    let Some(count) = world_in(line.as_bytes()) else {
        return Err(StepFault::Unknown);
    };
    add_world(alloc, nodes, count)?;
    drop(running.replace(Running::new(alloc, count)?));
    Ok(())
}

// The client that a line makes. Its world has none yet, so that their numbers may come in any order.
fn add_made(
    alloc: Global,
    nodes: &mut Vec<Arc<Served>>,
    running: &Running,
    line: &str,
) -> Result<(), StepFault> {
    let event = event_of(alloc, running, line)?;
    let added = add_client(alloc, nodes, &event);
    drop(event);
    added
}

/// The nodes that a line makes: the first makes a world, and each other one a client of it.
pub(crate) fn add_nodes(
    alloc: Global,
    nodes: &mut Vec<Arc<Served>>,
    running: &mut Option<Running>,
    line: &str,
) -> Result<(), StepFault> {
    match running {
        Some(running) => add_made(alloc, nodes, running, line),
        None => begin(alloc, nodes, running, line),
    }
}

// The numbers of the clients among these nodes, from the least on.
fn clients_of<L: Locked>(alloc: Global, nodes: &[Arc<Node<L>>]) -> Result<Vec<u32>, StepFault> {
    let mut numbers = Vec::new(alloc);
    for node in nodes {
        if let NodeId::Client(number) = node.name() {
            numbers.push(number.get())?;
        }
    }
    numbers.sort()?;
    Ok(numbers)
}

// A client is made in the world, of which lines need the number alone.
fn make_client(running: &mut Running, number: u32) -> Result<(), StepFault> {
    let event = Event::Make {
        client: ClientId::from(number),
        txn: None,
        timeout: Timeout::try_from(1).map_err(|_| StepFault::Unknown)?,
    };
    let made = running.world.happen(&event);
    drop(event);
    let _happened = made?;
    Ok(())
}

/// Makes a client in the world for each among these nodes, so that lines may name it.
pub(crate) fn make_clients<L: Locked>(
    alloc: Global,
    nodes: &[Arc<Node<L>>],
    running: &mut Running,
) -> Result<(), StepFault> {
    for number in clients_of(alloc, nodes)? {
        make_client(running, number)?;
    }
    Ok(())
}

// The trace of a node that nobody else has any more.
fn trace_of<M: Machine, B: Made>(node: Arc<Node<Traced<M, B>>>) -> Option<Trace<B>> {
    let (trace, _machine) = Arc::into_inner(node)?.finish().into_parts();
    Some(trace)
}

/// The traces of nodes that nobody else has any more.
pub(crate) fn traces_of<M: Machine, B: Made>(
    alloc: Global,
    nodes: Vec<Arc<Node<Traced<M, B>>>>,
) -> Result<Vec<Trace<B>>, StepFault> {
    let mut traces = Vec::new(alloc);
    for node in nodes {
        let Some(trace) = trace_of(node) else {
            return Err(StepFault::Unknown);
        };
        traces.push(trace)?;
    }
    Ok(traces)
}
