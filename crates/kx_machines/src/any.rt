//! Machines of every kind behind one type.
use crate::broker::BrokerMachine;
use kx_client_node::AnyClient;
use kx_log::{LogSlices, Store};
use kx_machine::{Input, Machine, Taken};
use kx_message::Message;
use kx_processor::Process;
use std::alloc::AllocError;

/// The machine of a node of any kind.
#[derive(Drop)]
pub enum AnyMachine<S: Store, F: Process> {
    /// The coordinator, or a partition's server.
    Broker(BrokerMachine<S>),
    /// A client, which may be a processor.
    Client(AnyClient<F>),
}

impl<S: Store, F: Process> Machine for AnyMachine<S, F> {
    ghost use Rattle.kx_machines.specs.Any.{any_allows, any_failures, any_stands};

    ghost stands = { any_stands F.image_of };

    ghost allows = { any_allows };

    ghost failures_of = { any_failures };

    fn take(&mut self, input: &Input) -> Result<Taken, AllocError> {
        match self {
            AnyMachine::Broker(machine) => Machine::take(machine, input),
            AnyMachine::Client(machine) => Machine::take(machine, input),
        }
    }

    fn deliver(&mut self, message: &Message) -> Result<Taken, AllocError> {
        match self {
            AnyMachine::Broker(machine) => Machine::deliver(machine, message),
            AnyMachine::Client(machine) => Machine::deliver(machine, message),
        }
    }

    fn failures(&self) -> u64 {
        match self {
            AnyMachine::Broker(machine) => Machine::failures(machine),
            AnyMachine::Client(machine) => Machine::failures(machine),
        }
    }

    fn is_closed(&self) -> bool {
        match self {
            AnyMachine::Broker(machine) => Machine::is_closed(machine),
            AnyMachine::Client(machine) => Machine::is_closed(machine),
        }
    }

    fn log_end(&self) -> i64 {
        match self {
            AnyMachine::Broker(machine) => Machine::log_end(machine),
            AnyMachine::Client(machine) => Machine::log_end(machine),
        }
    }

    fn batches_from(&self, from: i64, max: u32) -> LogSlices<'_> {
        match self {
            AnyMachine::Broker(machine) => Machine::batches_from(machine, from, max),
            AnyMachine::Client(machine) => Machine::batches_from(machine, from, max),
        }
    }
}
