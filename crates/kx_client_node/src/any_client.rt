//! A client of either kind, as a machine.
ghost use Rattle.std.specs.Prelude.{◌≡◌};
ghost use Rattle.kx_client_node.specs.Clients.{client_of};

use crate::client::ClientMachine;
use crate::processor::ProcessorMachine;
use kx_client::ProducerClient;
use kx_log::LogSlices;
use kx_machine::{Input, Machine, Taken};
use kx_message::{ClientId, Message};
use kx_processor::Process;
use std::alloc::AllocError;

/// A client: one that is told what to send, or a processor.
#[derive(Drop)]
pub enum AnyClient<F: Process> {
    /// A client that is told each thing that it does.
    Plain(ClientMachine),
    /// A client that consumes, processes and produces.
    Processor(ProcessorMachine<F>),
}

impl<F: Process> AnyClient<F> {
    /// The client, borrowed, that of a processor too: what it holds, and whether it is in a
    /// transaction or waits for replies.
    pub fn client(&self) -> &ProducerClient
        ensures { result.now ≡ client_of self.now }
    {
        match self {
            AnyClient::Plain(client) => client.client(),
            AnyClient::Processor(processor) => processor.processor().client(),
        }
    }

    /// Its own number, any u32.
    pub fn number(&self) -> ClientId
        ensures { result ≡ (client_of self.now).number }
    {
        match self {
            AnyClient::Plain(client) => client.number(),
            AnyClient::Processor(processor) => processor.number(),
        }
    }
}

impl<F: Process> Machine for AnyClient<F> {
    ghost use Rattle.std.specs.Prelude.{◌≡◌};
    ghost use Rattle.kx_client_node.specs.Clients.{any_store, state_of};

    ghost stands = { λ state client. state ≡ state_of F.image_of client };

    ghost allows = { λ client. any_store };

    ghost failures_of = { λ client. 0 };

    fn take(&mut self, input: &Input) -> Result<Taken, AllocError> {
        match self {
            AnyClient::Plain(client) => Machine::take(client, input),
            AnyClient::Processor(processor) => Machine::take(processor, input),
        }
    }

    fn deliver(&mut self, message: &Message) -> Result<Taken, AllocError> {
        match self {
            AnyClient::Plain(client) => Machine::deliver(client, message),
            AnyClient::Processor(processor) => Machine::deliver(processor, message),
        }
    }

    fn failures(&self) -> u64 {
        0
    }

    fn is_closed(&self) -> bool {
        false
    }

    fn log_end(&self) -> i64 {
        0
    }

    fn batches_from(&self, _from: i64, _max: u32) -> LogSlices<'_> {
        LogSlices::none()
    }
}
