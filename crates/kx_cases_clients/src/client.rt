//! A client, its commands and the replies that come. What each step means is at the head of
//! `clients.cases`.
use kx_batch::BatchView;
use kx_cases::{StepFault, Subject, Texts, known, told_bytes, told_name, told_value, value};
use kx_cases_formats::message_of;
use kx_client::{ClientFault, ProducerClient, ValueList, Values};
use kx_message::{Bytes, ClientId, Message, Offsets, PartitionId, PartitionOffset, Timeout, TxnId};
use std::alloc::Global;

/// A client, once it is made.
#[derive(Drop)]
pub(crate) struct ClientCases {
    alloc: Global,
    client: Option<ProducerClient>,
}

// The number of a request.
fn number(request: &Message) -> u32 {
    match request {
        Message::InitProducerId(it) => it.caller.correlation,
        Message::EndTxn(it) => it.caller.correlation,
        Message::Produce(it) => it.caller.correlation,
        Message::Join(it) => it.caller.correlation,
        Message::Leave(it) => it.caller.correlation,
        Message::TxnOffsetCommit(it) => it.caller.correlation,
        _ => 0,
    }
}

// The most bytes of a value that is told in full.
const SHORT: usize = 64;

// A value, or of a long one how many bytes it has.
fn told_bytes_of(alloc: Global, value: &[u8]) -> Result<String, StepFault> {
    if SHORT < value.len() {
        return Ok(format!(in alloc; "{} bytes", value.len())?);
    }
    Ok(told_bytes(alloc, value)?)
}

// A batch's attributes, and the values of its records.
fn told_batch(alloc: Global, batch: &[u8]) -> Result<String, StepFault> {
    let (batch, _) = known(BatchView::read(batch))?;
    let mut text = format!(in alloc; " {}", batch.attributes())?;
    for record in batch.records() {
        let bytes = told_bytes_of(alloc, record.value().unwrap_or(&[]))?;
        write!(text, " {bytes}")?;
    }
    Ok(text)
}

// A request: its number, where it goes, and what it says.
fn told_request(alloc: Global, request: &Message) -> Result<String, StepFault> {
    let mut text = format!(in alloc; "{} {} {request}", number(request), request.receiver())?;
    if let Message::Produce(produce) = request {
        text.push_str(told_batch(alloc, produce.batch.as_slice())?.as_str())?;
    }
    Ok(text)
}

// The requests that are sent, `-` if there are none.
fn told_all(alloc: Global, requests: &[Message]) -> Result<String, StepFault> {
    let mut text = String::new(alloc);
    for request in requests {
        if !text.is_empty() {
            text.push_str(", ")?;
        }
        text.push_str(told_request(alloc, request)?.as_str())?;
    }
    if text.is_empty() {
        return told_value(alloc, "-");
    }
    Ok(text)
}

// The request that a command sends, or why it doesn't.
fn told_one(alloc: Global, sent: Result<Message, ClientFault>) -> Result<String, StepFault> {
    match sent {
        Ok(request) => told_request(alloc, &request),
        Err(fault) => told_name(alloc, fault),
    }
}

// The values of a batch.
fn values(alloc: Global, texts: &Texts, first: &str, more: &[&str]) -> Result<Values, StepFault> {
    let first = Bytes::from_vec(texts.bytes(first)?);
    let mut others = Vec::new(alloc);
    for word in more {
        others.push(Bytes::from_vec(texts.bytes(word)?))?;
    }
    Ok(Values {
        first,
        more: ValueList::from_vec(others),
    })
}

// As many offsets of one partition as are wanted, from this one on.
fn offsets(alloc: Global, of: &str, first: &str, count: &str) -> Result<Offsets, StepFault> {
    let partition = partition(of)?;
    let first = value::<i32>(first)?;
    let count = value::<u16>(count)?;
    let mut offsets = Vec::new(alloc);
    for place in 0..count {
        let offset = i64::from(first) + i64::from(place);
        offsets.push(PartitionOffset { partition, offset })?;
    }
    if offsets.is_empty() || Offsets::MOST < offsets.len() {
        return Err(StepFault::Unknown);
    }
    Ok(Offsets::from_vec(offsets))
}

fn partition(word: &str) -> Result<PartitionId, StepFault> {
    known(PartitionId::try_from(value::<u16>(word)?))
}

// Takes a step that needs no more than its name.
fn commanded(alloc: Global, client: &mut ProducerClient, name: &str) -> Result<String, StepFault> {
    match name {
        "init" => told_one(alloc, client.init()),
        "leave" => told_one(alloc, client.leave()),
        "abort" => told_one(alloc, client.abort()),
        "begin" => match client.begin() {
            Ok(()) => told_value(alloc, "-"),
            Err(fault) => told_name(alloc, fault),
        },
        "commit" => match client.commit() {
            Ok(Some(request)) => told_request(alloc, &request),
            Ok(None) => told_value(alloc, "-"),
            Err(fault) => told_name(alloc, fault),
        },
        "resend" => match client.resend() {
            Ok(requests) => told_all(alloc, requests.as_slice()),
            Err(fault) => told_name(alloc, fault),
        },
        _ => Err(StepFault::Unknown),
    }
}

// Takes a step of a client that is made.
fn taken(
    alloc: Global,
    client: &mut ProducerClient,
    texts: &Texts,
    words: &[&str],
) -> Result<String, StepFault> {
    match words {
        ["join", group] => told_one(alloc, client.join(value(group)?)),
        ["send", to, first, more @ ..] => {
            let values = values(alloc, texts, first, more)?;
            told_one(alloc, client.send(partition(to)?, &values))
        }
        ["offsets", of, first, count] => {
            told_one(alloc, client.offsets(offsets(alloc, of, first, count)?))
        }
        ["take", frame] => {
            client.take(&message_of(alloc, texts.bytes(frame)?.as_slice())?);
            told_value(alloc, "-")
        }
        [name] => commanded(alloc, client, name),
        _ => Err(StepFault::Unknown),
    }
}

impl ClientCases {
    // Makes a client.
    fn make(&mut self, number: &str, txn: &str, timeout: &str) -> Result<String, StepFault> {
        let number = ClientId::from(value::<u32>(number)?);
        let txn = if txn == "-" {
            None
        } else {
            Some(value::<TxnId>(txn)?)
        };
        let timeout = known(Timeout::try_from(value::<u32>(timeout)?))?;
        self.client = Some(ProducerClient::new(self.alloc, number, txn, timeout));
        told_value(self.alloc, "-")
    }
}

impl Subject for ClientCases {
    fn new(alloc: Global) -> Self {
        ClientCases {
            alloc,
            client: None,
        }
    }

    fn answer(&mut self, texts: &Texts, words: &[&str]) -> Result<String, StepFault> {
        match words {
            ["client", number, txn, timeout] => self.make(number, txn, timeout),
            _ => match &mut self.client {
                Some(client) => taken(self.alloc, client, texts, words),
                None => Err(StepFault::Unknown),
            },
        }
    }
}
