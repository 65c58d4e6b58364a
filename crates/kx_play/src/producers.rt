//! The producers, which fill the input partitions.
use crate::client::Client;
use crate::fault::PlayFault;
use crate::options::Records;
use kx_client::{ValueList, Values};
use kx_machine::Command;
use kx_message::{Bytes, ErrorCode, Message, PartitionId};
use kx_nodes::{Locked, Receipt};
use std::alloc::{AllocError, Global};
use std::sync::Wait;

// The most records of a batch.
const BATCH: usize = 100;

/// A producer: it sends its values batch by batch, each when the one before was appended.
#[derive(Drop)]
pub(crate) struct Producer<L: Locked> {
    alloc: Global,
    client: Client<L>,
    partition: PartitionId,
    records: Records,
    sent: usize,
    // the correlation of the request that wasn't answered
    awaited: Option<u32>,
}

// The value of a record, which no other record has.
fn value(alloc: Global, partition: PartitionId, number: usize) -> Result<Bytes, AllocError> {
    let text = format!(in alloc; "{partition}-{number}")?;
    Ok(Bytes::from_vec(text.into_bytes()))
}

// The values of the records from one on.
fn values(
    alloc: Global,
    partition: PartitionId,
    from: usize,
    to: usize,
) -> Result<Values, AllocError> {
    let first = value(alloc, partition, from)?;
    let mut more = Vec::new(alloc);
    for number in from.saturating_add(1)..to {
        more.push(value(alloc, partition, number)?)?;
    }
    Ok(Values {
        first,
        more: ValueList::from_vec(more),
    })
}

// The correlation of a producer's request.
fn correlation_of(sent: &[Message]) -> Option<u32> {
    match sent.first()? {
        Message::InitProducerId(request) => Some(request.caller.correlation),
        Message::Produce(request) => Some(request.caller.correlation),
        _ => None,
    }
}

// The correlation of what a reply grants.
fn granted_by(reply: &Message) -> Option<u32> {
    match reply {
        Message::InitReply(reply) if reply.code == ErrorCode::NoError => Some(
            reply.caller.correlation,
        ),
        Message::ProduceReply(reply) if reply.code == ErrorCode::NoError => Some(
            reply.caller.correlation,
        ),
        _ => None,
    }
}

impl<L: Locked> Producer<L> {
    /// A producer that is to send this many records to a partition.
    pub(crate) fn new(
        alloc: Global,
        client: Client<L>,
        partition: PartitionId,
        records: Records,
    ) -> Self {
        Producer {
            alloc,
            client,
            partition,
            records,
            sent: 0,
            awaited: None,
        }
    }

    // Tells it what to do next, and waits for that from now on.
    fn ask<R: Wait>(&mut self, rt: &R, command: Command) -> Result<(), PlayFault> {
        self.client.tell(rt, command)?;
        self.awaited = correlation_of(self.client.sent());
        Ok(())
    }

    /// Begins: it asks for a producer id.
    pub(crate) fn begin<R: Wait>(&mut self, rt: &R) -> Result<(), PlayFault> {
        self.ask(rt, Command::Init)
    }

    // Sends the next batch, if there is one.
    fn go_on<R: Wait>(&mut self, rt: &R) -> Result<(), PlayFault> {
        self.awaited = None;
        let (from, all) = (self.sent, usize::from(self.records.get()));
        if from >= all {
            return Ok(());
        }
        let to = all.min(from.saturating_add(BATCH));
        let values = values(self.alloc, self.partition, from, to)?;
        self.sent = to;
        self.ask(rt, Command::Send(self.partition, values))
    }

    /// Sends no more.
    pub(crate) fn close(&self) {
        self.client.close();
    }

    /// Appends the receipts of its steps to others.
    pub(crate) fn hand_over(&mut self, receipts: &mut Vec<Receipt>) -> Result<(), AllocError> {
        self.client.hand_over(receipts)
    }

    // Whether the message that came last grants what is waited for.
    fn is_granted(&self) -> bool {
        let Some(reply) = self.client.received() else {
            return false;
        };
        let granted = granted_by(reply);
        granted.is_some() && granted == self.awaited
    }

    /// Looks for the next frame, goes on if it is what is waited for, and says whether one came.
    pub(crate) fn turn<R: Wait>(&mut self, rt: &R) -> Result<bool, PlayFault> {
        if !self.client.look(rt, self.awaited.is_some())? {
            return Ok(false);
        }
        if self.is_granted() {
            self.go_on(rt)?;
        }
        Ok(true)
    }

    /// Whether all its batches were appended.
    pub(crate) fn is_done(&self) -> bool {
        self.awaited.is_none() && self.sent >= usize::from(self.records.get())
    }
}
