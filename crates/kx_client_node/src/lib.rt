//! Clients as machines: a client that is told each thing that it sends, and a processor, which
//! consumes, processes and produces. Each takes commands, and the replies that come to it.
#![tactic(auto)]

mod any_client;
mod client;
mod processor;

pub use any_client::AnyClient;
pub use client::ClientMachine;
pub use processor::ProcessorMachine;
