//! A client's core (KIP-98's producer, with KIP-447's offsets): what it may ask for, the requests
//! that it sends and keeps until they are answered, and what it makes of replies.
#![tactic(auto)]

mod begun;
mod client;
mod commands;
mod fault;
mod fetches;
mod replies;
mod sequences;
mod values;
mod waiting;
mod windows;

pub use client::ProducerClient;
pub use fault::ClientFault;
pub use values::{ValueList, Values};
