//! Steps of the example: one transactional id and one partition. What each step means is at the
//! head of `example.cases`.
use kx_cases::{StepFault, Subject, Texts, known, told_name, told_value, value};
use kx_coord::Coordinator;
use kx_example::{append, batch_of, committed, empty_partition, new_coordinator, write_marker};
use kx_log::MemStore;
use kx_message::{
    AddPartition, Caller, ClientId, EndTxn, Epoch, Held, InitProducerId, Message, PartitionId,
    ProducerId, Timeout, TxnId,
};
use kx_partition::Partition;
use std::alloc::{AllocError, Global};

// How long a transaction may stay open, in milliseconds: a minute.
const MINUTE: u32 = 60_000;

/// The nodes of a case, once a step was taken.
#[derive(Drop)]
pub(crate) struct ExampleCases {
    alloc: Global,
    nodes: Option<Nodes>,
}

/// A coordinator and partition 0.
#[derive(Drop)]
struct Nodes {
    alloc: Global,
    coordinator: Coordinator<MemStore>,
    partition: Partition<MemStore>,
}

// The transactional id of all steps.
fn txn() -> Result<TxnId, StepFault> {
    value("pay")
}

// A client, by its number; its requests have the correlation 0.
fn caller(word: &str) -> Result<Caller, StepFault> {
    Ok(Caller {
        client: ClientId::from(value::<u32>(word)?),
        correlation: 0,
    })
}

// A producer's id and epoch.
fn held(id: &str, epoch: &str) -> Result<Held, StepFault> {
    Ok(Held {
        id: known(ProducerId::try_from(value::<i64>(id)?))?,
        epoch: known(Epoch::try_from(value::<i16>(epoch)?))?,
    })
}

impl Nodes {
    fn new(alloc: Global) -> Result<Nodes, StepFault> {
        Ok(Nodes {
            alloc,
            coordinator: known(new_coordinator(alloc))?,
            partition: known(empty_partition(alloc))?,
        })
    }

    // Writes the marker of a message that is one, and reports the message.
    fn tell(&mut self, told: &mut String, message: &Message) -> Result<(), AllocError> {
        if !told.is_empty() {
            told.push_str("; ")?;
        }
        write!(told, "{message}")?;
        if let Message::WriteMarker(marker) = message {
            let code = write_marker(&mut self.coordinator, &mut self.partition, *marker)?;
            write!(told, " answered {code}")?;
        }
        Ok(())
    }

    // Reports what the coordinator sent, and writes its markers.
    fn sent(&mut self, messages: &[Message]) -> Result<String, StepFault> {
        let mut told = String::new(self.alloc);
        for message in messages {
            self.tell(&mut told, message)?;
        }
        Ok(told)
    }

    fn init(&mut self, client: &str) -> Result<String, StepFault> {
        let messages = self.coordinator.init(InitProducerId {
            caller: caller(client)?,
            txn: Some(txn()?),
            timeout: known(Timeout::try_from(MINUTE))?,
        })?;
        self.sent(messages.as_slice())
    }

    fn send(&mut self, held: Held, first: &str, word: &str) -> Result<String, StepFault> {
        let batch = known(batch_of(self.alloc, held, value(first)?, word.as_bytes()))?;
        let request = AddPartition {
            txn: txn()?,
            held,
            partition: known(PartitionId::try_from(0))?,
        };
        let answer = append(
            &mut self.coordinator,
            &mut self.partition,
            request,
            batch.as_slice(),
        )?;
        told_name(self.alloc, answer)
    }

    fn end(&mut self, client: &str, held: Held, outcome: &str) -> Result<String, StepFault> {
        let messages = self.coordinator.end_txn(EndTxn {
            caller: caller(client)?,
            txn: txn()?,
            held,
            outcome: value(outcome)?,
        })?;
        self.sent(messages.as_slice())
    }

    // The records from an offset on, each as `OFFSET VALUE`, or `-` for none.
    fn read(&self, from: &str) -> Result<String, StepFault> {
        let mut told = String::new(self.alloc);
        for (offset, record) in known(committed(self.alloc, &self.partition, value(from)?))? {
            if !told.is_empty() {
                told.push_str("; ")?;
            }
            let word = known(str::from_utf8(record.value().unwrap_or(&[])))?;
            write!(told, "{offset} {word}")?;
        }
        if told.is_empty() {
            return told_value(self.alloc, "-");
        }
        Ok(told)
    }

    fn take(&mut self, words: &[&str]) -> Result<String, StepFault> {
        match words {
            ["init", client] => self.init(client),
            ["send", id, epoch, first, word] => self.send(held(id, epoch)?, first, word),
            ["end", client, id, epoch, outcome] => self.end(client, held(id, epoch)?, outcome),
            ["read", from] => self.read(from),
            _ => Err(StepFault::Unknown),
        }
    }
}

impl Subject for ExampleCases {
    fn new(alloc: Global) -> Self {
        ExampleCases { alloc, nodes: None }
    }

    fn answer(&mut self, _texts: &Texts, words: &[&str]) -> Result<String, StepFault> {
        let mut nodes = match self.nodes.take() {
            Some(nodes) => nodes,
            None => Nodes::new(self.alloc)?,
        };
        let told = nodes.take(words);
        self.nodes = Some(nodes);
        told
    }
}
