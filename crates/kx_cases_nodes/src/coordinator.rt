//! Steps of the coordinator on a store that is made to fail. A step is answered with the messages
//! that are sent, each as `RECEIVER TEXT`.
use crate::parts::{nothing, or_dash, told_each, told_messages};
use crate::words::{caller, code, held, partition, raised};
use kx_cases::{StepFault, Subject, Texts, known, told_name, told_value, value};
use kx_coord::{Coordinator, RestartFault};
use kx_log::{FaultStore, MemStore, OpenFault, Store};
use kx_message::{
    AddPartition, EndTxn, InitProducerId, MarkerReply, Message, Outcome, Timeout, TxnId,
};
use kx_messages::Messages;
use kx_txnlog::{Row, State};
use std::alloc::{AllocError, Global};
use std::mem;

// How long a transaction may stay open, in milliseconds: a minute.
const MINUTE: u32 = 60_000;

type Running = Coordinator<FaultStore<MemStore>>;

/// A coordinator, or what a refused opening left of its store.
#[derive(Drop)]
pub(crate) struct CoordinatorNode {
    alloc: Global,
    running: Option<Running>,
    left: Option<FaultStore<MemStore>>,
}

fn state_number(state: State) -> u8 {
    match state {
        State::Empty => 0,
        State::Ongoing => 1,
        State::Prepare(Outcome::Commit) => 2,
        State::Prepare(Outcome::Abort) => 3,
        State::Complete(Outcome::Commit) => 4,
        State::Complete(Outcome::Abort) => 5,
    }
}

// Reports a row as `TXN ID EPOCH STATE PARTITIONS`.
fn tell_row(told: &mut String, row: &Row) -> Result<(), AllocError> {
    let state = state_number(row.state);
    write!(told, "{} {} {} {state}", row.txn, row.id, row.epoch)?;
    for partition in row.partitions.as_slice() {
        write!(told, " {partition}")?;
    }
    Ok(())
}

// Tells rows, or `-` for none.
fn tell_rows(told: &mut String, rows: &[Row]) -> Result<(), AllocError> {
    let mut parted = "";
    for row in rows {
        told.push_str(parted)?;
        tell_row(told, row)?;
        parted = "; ";
    }
    or_dash(told)
}

fn told_rows(alloc: Global, rows: &[Row]) -> Result<String, StepFault> {
    let mut told = String::new(alloc);
    tell_rows(&mut told, rows)?;
    Ok(told)
}

// What was sent.
fn handed(alloc: Global, sent: Result<Vec<Message>, AllocError>) -> Result<String, StepFault> {
    told_messages(alloc, sent?)
}

// What a request was answered.
fn answered(alloc: Global, sent: Result<Messages, AllocError>) -> Result<String, StepFault> {
    let sent = sent?;
    let told = told_each(alloc, sent.as_slice());
    drop(sent);
    told
}

// The messages of an opening, or why there is none.
fn reopened(
    alloc: Global,
    opened: Result<Vec<Message>, RestartFault>,
) -> Result<String, StepFault> {
    match opened {
        Ok(messages) => told_messages(alloc, messages),
        Err(RestartFault::Unopened(fault)) => told_name(alloc, fault),
        Err(RestartFault::Unwritten) => told_name(alloc, OpenFault::Device),
    }
}

// A client asks for an id and an epoch.
fn init_of(by: &str, txn: Option<TxnId>) -> Result<InitProducerId, StepFault> {
    Ok(InitProducerId {
        caller: caller(by)?,
        txn,
        timeout: known(Timeout::try_from(MINUTE))?,
    })
}

// The same, with a transactional id.
fn init(by: &str, name: &str) -> Result<InitProducerId, StepFault> {
    init_of(by, Some(value(name)?))
}

// A partition is added to a transaction.
fn add(words: &[&str]) -> Result<AddPartition, StepFault> {
    let [by, name, id, epoch] = words else {
        return Err(StepFault::Unknown);
    };
    Ok(AddPartition {
        txn: value(name)?,
        held: held(id, epoch)?,
        partition: partition(by)?,
    })
}

// A client ends a transaction.
fn end(words: &[&str]) -> Result<EndTxn, StepFault> {
    let [by, name, id, epoch, how] = words else {
        return Err(StepFault::Unknown);
    };
    Ok(EndTxn {
        caller: caller(by)?,
        txn: value(name)?,
        held: held(id, epoch)?,
        outcome: value(how)?,
    })
}

// A partition answers a marker.
fn reply(words: &[&str]) -> Result<MarkerReply, StepFault> {
    let [by, name, id, epoch, answer] = words else {
        return Err(StepFault::Unknown);
    };
    Ok(MarkerReply {
        partition: partition(by)?,
        txn: value(name)?,
        held: raised(id, epoch)?,
        code: code(answer)?,
    })
}

// What clients and partitions ask.
fn asked(alloc: Global, running: &mut Running, words: &[&str]) -> Result<String, StepFault> {
    let [name, given @ ..] = words else {
        return Err(StepFault::Unknown);
    };
    match *name {
        "add" => answered(alloc, running.add_partition(add(given)?)),
        "end" => answered(alloc, running.end_txn(end(given)?)),
        "reply" => handed(alloc, running.marker_reply(reply(given)?)),
        _ => Err(StepFault::Unknown),
    }
}

// What time brings.
fn timed(alloc: Global, running: &mut Running, words: &[&str]) -> Result<String, StepFault> {
    match words {
        ["expire", now] => handed(alloc, running.expire(value(now)?)),
        ["remind"] => handed(alloc, running.remind()),
        ["restart", now] => reopened(alloc, running.restart(value(now)?)),
        _ => asked(alloc, running, words),
    }
}

// Takes a step of a coordinator that is open.
fn taken(alloc: Global, running: &mut Running, words: &[&str]) -> Result<String, StepFault> {
    match words {
        ["init", by, name] => answered(alloc, running.init(init(by, name)?)),
        ["init_alone", by] => answered(alloc, running.init(init_of(by, None)?)),
        ["rows"] => told_rows(alloc, running.rows()),
        ["failures"] => told_value(alloc, running.failures()),
        ["append_fails", keep] => {
            running.arm(Some(value(keep)?));
            nothing(alloc)
        }
        ["load_fails"] => {
            running.arm_load(true);
            nothing(alloc)
        }
        _ => timed(alloc, running, words),
    }
}

fn bytes_of(alloc: Global, store: &mut FaultStore<MemStore>) -> Result<String, StepFault> {
    match store.load() {
        Ok(bytes) => hex::encode(alloc, bytes.as_slice()).map_err(StepFault::Memory),
        Err(_) => Err(StepFault::Unknown),
    }
}

impl CoordinatorNode {
    // Opens what a store holds, at time 0. A store that is refused is left.
    fn open(&mut self, store: FaultStore<MemStore>) -> Result<String, StepFault> {
        match Coordinator::open(self.alloc, store, 0) {
            Ok((running, messages)) => {
                drop(mem::replace(&mut self.running, Some(running)));
                told_messages(self.alloc, messages)
            }
            Err((fault, store)) => {
                drop(mem::replace(&mut self.left, Some(store)));
                told_name(self.alloc, fault)
            }
        }
    }

    // Opens a store with these bytes, whose append of a number fails, if it isn't 0, and leaves
    // this many bytes.
    fn open_bytes(&mut self, bytes: Vec<u8>, nth: u64, keep: u64) -> Result<String, StepFault> {
        self.open(FaultStore::new(MemStore::new(bytes), nth, keep))
    }

    // The bytes of the store that is left.
    fn left_bytes(&mut self) -> Result<String, StepFault> {
        let Some(store) = &mut self.left else {
            return Err(StepFault::Unknown);
        };
        bytes_of(self.alloc, store)
    }

    // Opens the store that is left.
    fn open_left(&mut self) -> Result<String, StepFault> {
        match self.left.take() {
            Some(store) => self.open(store),
            None => Err(StepFault::Unknown),
        }
    }

    // Takes a step of the coordinator, if it is open.
    fn within(&mut self, words: &[&str]) -> Result<String, StepFault> {
        match &mut self.running {
            Some(running) => taken(self.alloc, running, words),
            None => Err(StepFault::Unknown),
        }
    }
}

impl Subject for CoordinatorNode {
    fn new(alloc: Global) -> Self {
        CoordinatorNode {
            alloc,
            running: None,
            left: None,
        }
    }

    fn answer(&mut self, texts: &Texts, words: &[&str]) -> Result<String, StepFault> {
        match words {
            ["open", bytes] => self.open_bytes(texts.bytes(bytes)?, 0, 0),
            ["open_failing", bytes, keep] => {
                let keep = value(keep)?;
                self.open_bytes(texts.bytes(bytes)?, 1, keep)
            }
            ["left"] => self.left_bytes(),
            ["open_left"] => self.open_left(),
            _ => self.within(words),
        }
    }
}
