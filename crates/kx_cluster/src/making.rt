//! How nodes of every kind are made.
ghost use Rattle.std.specs.Prelude.{◌≡◌, IfOk};
ghost use Rattle.kx_machine.specs.Meaning.{made_as};
ghost use Rattle.kx_machines.specs.Any.{any_stands};
ghost use Rattle.kx_nodes.specs.Made.{made_processor};

use kx_audit::{Remade, Tells};
use kx_client_node::{AnyClient, ClientMachine, ProcessorMachine};
use kx_machine::{Failing, Making, StoreMode};
use kx_machines::{AnyMachine, BrokerMachine, LocalStore, local_coordinator, local_server};
use kx_message::NodeId;
use kx_nodes::{Made, ProcessorMaking};
use kx_processor::Process;
use std::alloc::{AllocError, Global};

/// How a node of any kind is made.
#[derive(Drop)]
pub enum AnyMaking<F: Process> {
    /// A node that isn't a processor.
    Plain(Making),
    /// A processor, with its process.
    Processor(ProcessorMaking<F>),
}

impl<F: Process> Made for AnyMaking<F> {
    ghost use Rattle.kx_cluster.specs.Any.{any_state};

    ghost state = { any_state F.image_of };

    fn name(&self) -> NodeId {
        match self {
            AnyMaking::Plain(making) => making.name(),
            AnyMaking::Processor(making) => making.name(),
        }
    }
}

impl<F: Process> Tells for AnyMaking<F> {
    ghost use Rattle.kx_cluster.specs.Any.{any_making};

    ghost making = { any_making F.image_of };

    fn tells(&self) {
        match self {
            AnyMaking::Plain(making) => making.tells(),
            AnyMaking::Processor(making) => making.tells(),
        }
    }
}

// A node that isn't a processor, with an empty log in memory if it has one.
fn plain<F: Process>(alloc: Global, making: Making) -> Result<AnyMachine<LocalStore, F>, AllocError>
    ensures { IfOk result (any_stands F.image_of (made_as making)) }
{
    match making {
        Making::Coordinator => {
            let machine = BrokerMachine::Coordinator(local_coordinator(alloc)?);
            Ok(AnyMachine::Broker(machine))
        }
        Making::Partition(number) => Ok(AnyMachine::Broker(local_server(alloc, number)?)),
        Making::Client {
            number,
            txn,
            timeout,
        } => {
            let client = ClientMachine::new(alloc, number, txn, timeout);
            Ok(AnyMachine::Client(AnyClient::Plain(client)))
        }
    }
}

// A processor.
fn processor<F: Process + Copy>(
    alloc: Global,
    making: &ProcessorMaking<F>,
) -> AnyMachine<LocalStore, F>
    ensures { any_stands F.image_of (made_processor F.image_of making.now) result }
{
    AnyMachine::Client(AnyClient::Processor(ProcessorMachine::new(
        alloc,
        making.number,
        making.txn,
        making.timeout,
        making.group,
        making.inputs,
        making.process,
    )))
}

/// A node is made again with an empty log in memory, if it has one.
impl<F: Process + Copy> Remade for AnyMaking<F> {
    type Machine = AnyMachine<LocalStore, F>;

    fn make(&self, alloc: Global) -> Result<AnyMachine<LocalStore, F>, AllocError> {
        match self {
            AnyMaking::Plain(making) => plain(alloc, *making),
            AnyMaking::Processor(making) => Ok(processor(alloc, making)),
        }
    }

    fn prepare(machine: &mut AnyMachine<LocalStore, F>, mode: StoreMode) {
        match machine {
            AnyMachine::Broker(machine) => machine.prepare(mode),
            AnyMachine::Client(_) => {}
        }
    }
}
