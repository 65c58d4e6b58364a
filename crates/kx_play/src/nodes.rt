//! The nodes, those of the core and those of its clients.
ghost use Rattle.std.specs.Prelude.{◌≡◌, ◌<◌, ◌≤◌};
ghost use Rattle.kx_message.specs.Ranges.{data_partitions, offsets_partition};

use crate::fault::{PlayFault, confirmed};
use crate::options::WorkerCount;
use kx_cluster::{AnyMaking, LocalMachine, local_machine};
use kx_machine::{Machine, Making};
use kx_message::{ClientId, GroupId, NodeId, PartitionId, Timeout, TxnId};
use kx_nodes::{Locked, Made, Node, ProcessorMaking, Trace, Traced};
use kx_processor::{Inputs, Prefixed};
use kx_publishing::{Logging, PublishedMachine, Readable};
use kx_server::{Operator, Place, ServedNode, Server};
use std::alloc::{AllocError, Global};
use std::marker::Brand;
use std::sync::{Arc, Wait};
use std::thread::Threads;
use std::time::Clock;

// How long a transaction may stay open, in milliseconds. Nothing expires here: no clock is told.
const TIMEOUT: u32 = 60_000;

/// How many input partitions there are, from 0 on, and as many after them for the images.
pub const INPUTS: u8 = 2;

/// How many clients there are, and so how many connections to the server: a producer for each input
/// partition, and two members of the group.
pub(crate) const CLIENTS: u16 = INPUTS as u16 + 2;

// The number of the processor that stays.
const STAYING: u32 = 3;

/// The number of the one that is dropped.
pub(crate) const LEAVING: u32 = 4;

/// A node of the core, as the server has it. Its log isn't published, so that each page is a step of
/// the node.
type CoreNode<L, R> = ServedNode<L, Brand, R>;

/// The server of the nodes of the core.
pub(crate) type CoreServer<L, R> = Server<L, Brand, R>;

/// Takes steps of the nodes of the core that no client may ask for.
pub(crate) type CoreOperator<L, R> = Operator<L, Brand, R>;

/// How a node was made. A processor's image of a record is the byte `o`, and its value.
pub type PlayMaking = AnyMaking<Prefixed>;

/// A machine of any of the nodes, with its trace.
pub(crate) type PlayMachine = LocalMachine<Prefixed>;

/// The data partition of a number, 0 to 15; of any other number, the offsets partition.
pub fn partition(number: u8) -> PartitionId
    ensures data { number < data_partitions → result ≡ number }
    ensures other { data_partitions ≤ number → result ≡ offsets_partition }
{
    PartitionId::try_from(u16::from(number)).unwrap_or(PartitionId::OFFSETS)
}

/// The group of the processors.
pub(crate) fn group() -> GroupId {
    "demo".parse().unwrap()
}

// How long the transactions of a client may stay open.
fn timeout() -> Timeout {
    Timeout::try_from(TIMEOUT).unwrap()
}

// How many partitions a processor may read.
fn inputs() -> Inputs {
    Inputs::try_from(INPUTS).unwrap()
}

// A producer that is idempotent and has no transactions.
fn producer(number: u32) -> PlayMaking {
    AnyMaking::Plain(Making::Client {
        number: ClientId::from(number),
        txn: None,
        timeout: timeout(),
    })
}

// A processor of the group, with this transactional id.
fn processor(alloc: Global, number: u32, txn: TxnId) -> PlayMaking {
    AnyMaking::Processor(ProcessorMaking {
        number: ClientId::from(number),
        txn: Some(txn),
        timeout: timeout(),
        group: group(),
        inputs: inputs(),
        process: Prefixed::new(alloc),
    })
}

// Adds the machine that a making describes.
fn add(
    alloc: Global,
    machines: &mut Vec<PlayMachine>,
    making: PlayMaking,
) -> Result<(), AllocError> {
    machines.push(local_machine(alloc, making)?)?;
    Ok(())
}

// The coordinator, the inputs, as many partitions for their images, and the offsets partition.
fn add_core(alloc: Global, machines: &mut Vec<PlayMachine>) -> Result<(), AllocError> {
    add(alloc, machines, AnyMaking::Plain(Making::Coordinator))?;
    for number in 0..2 * INPUTS {
        add(
            alloc,
            machines,
            AnyMaking::Plain(Making::Partition(partition(number))),
        )?;
    }
    add(
        alloc,
        machines,
        AnyMaking::Plain(Making::Partition(PartitionId::OFFSETS)),
    )
}

// The producers, clients 1 and up, in order of their input partitions.
fn add_producers(alloc: Global, machines: &mut Vec<PlayMachine>) -> Result<(), AllocError> {
    for input in 0..INPUTS {
        add(alloc, machines, producer(u32::from(input) + 1))?;
    }
    Ok(())
}

// The processor that stays, and the one that is dropped.
fn add_processors(alloc: Global, machines: &mut Vec<PlayMachine>) -> Result<(), AllocError> {
    let staying = processor(alloc, STAYING, "stays".parse().unwrap());
    add(alloc, machines, staying)?;
    let leaving = processor(alloc, LEAVING, "leaves".parse().unwrap());
    add(alloc, machines, leaving)
}

// The machines of all nodes.
fn add_all(alloc: Global, machines: &mut Vec<PlayMachine>) -> Result<(), AllocError> {
    add_core(alloc, machines)?;
    add_producers(alloc, machines)?;
    add_processors(alloc, machines)
}

/// The machines of all nodes: those of the core, and those of the clients.
pub(crate) fn machines(alloc: Global) -> Result<Vec<PlayMachine>, PlayFault> {
    let mut machines = Vec::new(alloc);
    let added = add_all(alloc, &mut machines);
    confirmed(Ok(machines), added)
}

/// The nodes, which threads share.
#[derive(Drop)]
pub(crate) struct Nodes<L: Readable, R: Wait + Drop> {
    /// Those of the core, which a server serves.
    core: Vec<Arc<CoreNode<L, R>>>,
    /// Those of the clients.
    pub(crate) clients: Vec<Arc<Node<L>>>,
}

// Adds what is given. What isn't there is a node that a thread still has: none has, but no clause of
// theirs says so.
fn add_given<T: Drop>(all: &mut Vec<T>, given: Option<T>) -> Result<(), AllocError> {
    let Some(given) = given else {
        return Err(AllocError);
    };
    all.push(given)?;
    Ok(())
}

// The trace of a machine that has ended.
fn trace_of<M: Machine, B: Made>(machine: Traced<M, B>) -> Trace<B> {
    let (trace, machine) = machine.into_parts();
    drop(machine);
    trace
}

// The trace of a node of the core that nobody else has any more.
fn core_trace<M: Logging, B: Made, R: Wait + Drop>(
    node: Arc<CoreNode<Traced<M, B>, R>>,
) -> Option<Trace<B>> {
    Some(trace_of(Arc::into_inner(node)?.finish().into_locked()))
}

// The trace of a client's node that nobody else has any more.
fn client_trace<M: Machine, B: Made>(node: Arc<Node<Traced<M, B>>>) -> Option<Trace<B>> {
    Some(trace_of(Arc::into_inner(node)?.finish()))
}

impl<M: Logging, B: Made, R: Wait + Drop> Nodes<Traced<M, B>, R> {
    /// No nodes yet.
    pub(crate) fn new(alloc: Global) -> Self {
        Nodes {
            core: Vec::new(alloc),
            clients: Vec::new(alloc),
        }
    }

    // Adds the node of a machine.
    fn add(&mut self, alloc: Global, machine: Traced<M, B>) -> Result<(), AllocError> {
        match machine.name() {
            NodeId::Client(_) => self.clients.push(Arc::new(alloc, Node::new(machine))?)?,
            _ => {
                let node = Node::new(PublishedMachine::new(machine));
                self.core.push(Arc::new(alloc, node)?)?;
            }
        }
        Ok(())
    }

    /// Adds the nodes of these machines.
    pub(crate) fn add_all(
        &mut self,
        alloc: Global,
        machines: Vec<Traced<M, B>>,
    ) -> Result<(), AllocError> {
        for machine in machines {
            self.add(alloc, machine)?;
        }
        Ok(())
    }

    /// Appends the traces of these nodes, which nobody else has any more: those of the core, and
    /// then the clients'.
    pub(crate) fn end(self, traces: &mut Vec<Trace<B>>) -> Result<(), AllocError> {
        let Nodes { core, clients } = self;
        for node in core {
            add_given(traces, core_trace(node))?;
        }
        for node in clients {
            add_given(traces, client_trace(node))?;
        }
        Ok(())
    }
}

impl<
    L: Readable + Send + Sync + 'static,
    R: Eprint + Threads + Wait + Clock + Copy + Send + Sync + Drop + 'static,
> Nodes<L, R> {
    // The places of the nodes of the core.
    fn add_places(&self, places: &mut Vec<Place<L, Brand, R>>) -> Result<(), AllocError> {
        for node in &self.core {
            places.push(Place::unread(Arc::try_clone(node)?))?;
        }
        Ok(())
    }

    /// A server of the nodes of the core, with this many workers.
    pub(crate) fn serve(
        &self,
        rt: R,
        alloc: Global,
        workers: WorkerCount,
    ) -> Result<CoreServer<L, R>, AllocError> {
        let mut places = Vec::new(alloc);
        match self.add_places(&mut places) {
            Ok(()) => Server::start(rt, alloc, places, usize::from(workers.get())),
            Err(refused) => {
                drop(places);
                Err(refused)
            }
        }
    }
}
