//! The machines of a broker behind one type.
use kx_broker::{OffsetsMachine, PartitionMachine};
use kx_coord_node::CoordinatorMachine;
use kx_log::{FaultStore, LogSlices, Steady, Store};
use kx_machine::{Failing, Input, Machine, StoreMode, Taken};
use kx_message::Message;
use std::alloc::AllocError;

/// The machine of any node that a broker has.
#[derive(Drop)]
pub enum BrokerMachine<S: Store> {
    /// The transaction coordinator.
    Coordinator(CoordinatorMachine<S>),
    /// The server of a data partition.
    Partition(PartitionMachine<S>),
    /// The server of the offsets partition.
    Offsets(OffsetsMachine<S>),
}

impl<S: Store> Machine for BrokerMachine<S> {
    ghost use Rattle.kx_machines.specs.Brokers.{broker_allows, broker_failures, broker_stands};

    ghost stands = { broker_stands };

    ghost allows = { broker_allows };

    ghost failures_of = { broker_failures };

    fn take(&mut self, input: &Input) -> Result<Taken, AllocError> {
        match self {
            BrokerMachine::Coordinator(machine) => Machine::take(machine, input),
            BrokerMachine::Partition(machine) => Machine::take(machine, input),
            BrokerMachine::Offsets(machine) => Machine::take(machine, input),
        }
    }

    fn deliver(&mut self, message: &Message) -> Result<Taken, AllocError> {
        match self {
            BrokerMachine::Coordinator(machine) => Machine::deliver(machine, message),
            BrokerMachine::Partition(machine) => Machine::deliver(machine, message),
            BrokerMachine::Offsets(machine) => Machine::deliver(machine, message),
        }
    }

    fn failures(&self) -> u64 {
        match self {
            BrokerMachine::Coordinator(machine) => Machine::failures(machine),
            BrokerMachine::Partition(machine) => Machine::failures(machine),
            BrokerMachine::Offsets(machine) => Machine::failures(machine),
        }
    }

    fn is_closed(&self) -> bool {
        match self {
            BrokerMachine::Coordinator(machine) => Machine::is_closed(machine),
            BrokerMachine::Partition(machine) => Machine::is_closed(machine),
            BrokerMachine::Offsets(machine) => Machine::is_closed(machine),
        }
    }

    fn log_end(&self) -> i64 {
        match self {
            BrokerMachine::Coordinator(machine) => Machine::log_end(machine),
            BrokerMachine::Partition(machine) => Machine::log_end(machine),
            BrokerMachine::Offsets(machine) => Machine::log_end(machine),
        }
    }

    fn batches_from(&self, from: i64, max: u32) -> LogSlices<'_> {
        match self {
            BrokerMachine::Coordinator(machine) => Machine::batches_from(machine, from, max),
            BrokerMachine::Partition(machine) => Machine::batches_from(machine, from, max),
            BrokerMachine::Offsets(machine) => Machine::batches_from(machine, from, max),
        }
    }
}

impl<S: Steady> Failing for BrokerMachine<FaultStore<S>> {
    fn prepare(&mut self, mode: StoreMode) {
        match self {
            BrokerMachine::Coordinator(machine) => machine.prepare(mode),
            BrokerMachine::Partition(machine) => machine.prepare(mode),
            BrokerMachine::Offsets(machine) => machine.prepare(mode),
        }
    }
}
