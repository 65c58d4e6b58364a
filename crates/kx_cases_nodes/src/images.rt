//! A processor whose images may be too large for a batch. What each step means is at the head
//! of `images.cases`.
use crate::parts::{last_message, nothing, told_messages};
use crate::words::client;
use kx_cases::{StepFault, Subject, Texts, known, told_name, value};
use kx_client::{ClientFault, ProducerClient};
use kx_message::{GroupId, Message, Timeout, TxnId};
use kx_processor::{Inputs, Prefixed, Processor};
use std::alloc::Global;
use std::mem;

type Prefixing = Processor<Prefixed>;

/// The processor of a case, once it is made.
#[derive(Drop)]
pub(crate) struct ImageCases {
    alloc: Global,
    processor: Option<Prefixing>,
}

// The requests that are sent, or why they aren't.
fn told_sent(alloc: Global, sent: Result<Vec<Message>, ClientFault>) -> Result<String, StepFault> {
    match sent {
        Ok(sent) => told_messages(alloc, sent),
        Err(fault) => told_name(alloc, fault),
    }
}

// The request that is sent.
fn told_last(alloc: Global, message: Message) -> Result<String, StepFault> {
    let told = format!(in alloc; "{} {message}", message.receiver());
    drop(message);
    told.map_err(StepFault::Memory)
}

// The request that is sent, or why it isn't.
fn told_one(alloc: Global, sent: Result<Message, ClientFault>) -> Result<String, StepFault> {
    match sent {
        Ok(message) => told_last(alloc, message),
        Err(fault) => told_name(alloc, fault),
    }
}

// The processor takes a reply.
fn taken(alloc: Global, processor: &mut Prefixing, reply: Message) -> Result<String, StepFault> {
    let taken = processor.take(&reply);
    drop(reply);
    taken?;
    nothing(alloc)
}

// The client under a processor, with a timeout of a minute.
fn client_of(alloc: Global, number: &str, txn: &str) -> Result<ProducerClient, StepFault> {
    let number = client(number)?;
    let txn = value::<TxnId>(txn)?;
    let timeout = known(Timeout::try_from(60_000))?;
    Ok(ProducerClient::new(alloc, number, Some(txn), timeout))
}

impl ImageCases {
    // Makes a processor: `NUMBER TXN GROUP INPUTS`.
    fn make(&mut self, words: &[&str]) -> Result<String, StepFault> {
        let [number, txn, group, inputs] = words else {
            return Err(StepFault::Unknown);
        };
        let alloc = self.alloc;
        let group = value::<GroupId>(group)?;
        let inputs = known(Inputs::try_from(value::<u8>(inputs)?))?;
        let client = client_of(alloc, number, txn)?;
        let process = Prefixed::new(alloc);
        let processor = Processor::new(alloc, client, group, inputs, process);
        drop(mem::replace(&mut self.processor, Some(processor)));
        nothing(alloc)
    }

    // A step of a processor that is made.
    fn within(&mut self, texts: &Texts, words: &[&str]) -> Result<String, StepFault> {
        let alloc = self.alloc;
        let Some(processor) = &mut self.processor else {
            return Err(StepFault::Unknown);
        };
        match words {
            ["init"] => told_one(alloc, processor.init()),
            ["poll"] => told_sent(alloc, processor.poll()),
            ["resend"] => told_sent(alloc, processor.resend()),
            ["take", frame] => {
                let reply = last_message(alloc, texts.bytes(frame)?.as_slice())?;
                taken(alloc, processor, reply)
            }
            _ => Err(StepFault::Unknown),
        }
    }
}

impl Subject for ImageCases {
    fn new(alloc: Global) -> Self {
        ImageCases {
            alloc,
            processor: None,
        }
    }

    fn answer(&mut self, texts: &Texts, words: &[&str]) -> Result<String, StepFault> {
        match words {
            ["processor", given @ ..] => self.make(given),
            _ => self.within(texts, words),
        }
    }
}
