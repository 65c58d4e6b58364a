//! The small values of the wire: their conversions, which tell the name of a fault if they
//! refuse, how they are printed, compared and kept as keys.
use crate::conversions::{
    count_in, data_partition, is_newer, is_same, last_in, members_in, millis_of, offsets,
    reread_code, reread_id, reread_outcome, reread_txn, text_of,
};
use kx_cases::{StepFault, Subject, Texts, known, told, told_name, told_same, told_value, value};
use kx_wire::{
    ClientId, Epoch, ErrorCode, GroupId, Held, Outcome, PartitionId, ProducerId, Raised, Timeout,
    TxnId,
};
use std::alloc::Global;
use std::collections::{BTreeMap, HashMap};
use std::str;

/// What a case keeps by transactional ids, by producers and by groups.
#[derive(Drop)]
pub(crate) struct ValueCases {
    alloc: Global,
    counts: BTreeMap<TxnId, u64>,
    lasts: BTreeMap<ProducerId, u64>,
    members: HashMap<GroupId, u64>,
}

// A code's number, how it is printed, its name and which it is.
fn code(alloc: Global, number: i16) -> Result<String, StepFault> {
    match ErrorCode::try_from(number).and_then(reread_code) {
        Ok(code) => Ok(format!(in alloc; "{} {code} {} {code:?}", code.number(), code.name())?),
        Err(fault) => told_name(alloc, fault),
    }
}

// A producer's number, and how it is printed.
fn producer(alloc: Global, number: i64) -> Result<String, StepFault> {
    match ProducerId::try_from(number).and_then(reread_id) {
        Ok(id) => Ok(format!(in alloc; "{} {id}", id.get())?),
        Err(fault) => told_name(alloc, fault),
    }
}

// An epoch's number, and how it is printed.
fn epoch(alloc: Global, number: i16) -> Result<String, StepFault> {
    match Epoch::try_from(number) {
        Ok(epoch) => Ok(format!(in alloc; "{} {epoch}", epoch.get())?),
        Err(fault) => told_name(alloc, fault),
    }
}

// A client's number, and how it is printed.
fn client(alloc: Global, number: u32) -> Result<String, StepFault> {
    let client = ClientId::from(number);
    Ok(format!(in alloc; "{} {client}", client.get())?)
}

// A partition's number, how it is printed, and whether it keeps records of producers.
fn told_partition(alloc: Global, partition: PartitionId) -> Result<String, StepFault> {
    let text = text_of(alloc, partition)?;
    Ok(format!(in alloc; "{} {text} {}", partition.get(), partition.is_data())?)
}

fn partition(alloc: Global, number: u16) -> Result<String, StepFault> {
    match PartitionId::try_from(number) {
        Ok(partition) => told_partition(alloc, partition),
        Err(fault) => told_name(alloc, fault),
    }
}

// A partition that is known to keep records of producers.
fn data(alloc: Global, number: u16) -> Result<String, StepFault> {
    if number < 16 {
        told_partition(alloc, data_partition(number))
    } else {
        Err(StepFault::Unknown)
    }
}

// A timeout's milliseconds, and how it is printed.
fn timeout(alloc: Global, number: u32) -> Result<String, StepFault> {
    let millis = millis_of(number);
    match (millis, Timeout::try_from(number)) {
        (Ok(millis), Ok(timeout)) => Ok(format!(in alloc; "{millis} {timeout}")?),
        (Err(fault), _) | (_, Err(fault)) => told_name(alloc, fault),
    }
}

// An outcome's byte, and how it is printed.
fn outcome(alloc: Global, byte: u8) -> Result<String, StepFault> {
    match Outcome::try_from(byte).and_then(reread_outcome) {
        Ok(outcome) => Ok(format!(in alloc; "{} {outcome}", outcome.get())?),
        Err(fault) => told_name(alloc, fault),
    }
}

fn number_step(alloc: Global, kind: &str, number: &str) -> Result<String, StepFault> {
    match kind {
        "code" => code(alloc, value(number)?),
        "producer" => producer(alloc, value(number)?),
        "epoch" => epoch(alloc, value(number)?),
        "client" => client(alloc, value(number)?),
        "partition" => partition(alloc, value(number)?),
        "data" => data(alloc, value(number)?),
        "timeout" => timeout(alloc, value(number)?),
        "outcome" => outcome(alloc, value(number)?),
        _ => Err(StepFault::Unknown),
    }
}

// Whether bytes are those of the names that they are, of a transactional id and of a group.
fn name(alloc: Global, bytes: &[u8]) -> Result<String, StepFault> {
    let txn = TxnId::try_from(bytes).and_then(reread_txn);
    match (txn, GroupId::try_from(bytes)) {
        (Ok(txn), Ok(group)) => {
            let txn = told_same(alloc, txn.as_bytes(), bytes)?;
            let group = told_same(alloc, group.as_bytes(), bytes)?;
            Ok(format!(in alloc; "{txn} {group}")?)
        }
        (Err(txn), Err(group)) => Ok(format!(in alloc; "{txn:?} {group:?}")?),
        _ => told_value(alloc, "one of both"),
    }
}

// What a text is read as, and printed.
fn parsed(alloc: Global, kind: &str, bytes: &[u8]) -> Result<String, StepFault> {
    let text = known(str::from_utf8(bytes))?;
    match kind {
        "txn" => told(alloc, text.parse::<TxnId>()),
        "group" => told(alloc, text.parse::<GroupId>()),
        "outcome" => told(alloc, text.parse::<Outcome>()),
        _ => Err(StepFault::Unknown),
    }
}

// How the faults of texts are printed.
fn why(alloc: Global, bytes: &[u8]) -> Result<String, StepFault> {
    match TxnId::try_from(bytes) {
        Ok(id) => told_name(alloc, id),
        Err(fault) => told_value(alloc, fault),
    }
}

// The id and the epoch of a marker.
fn raised(alloc: Global, id: &str, epoch: &str) -> Result<String, StepFault> {
    let held = Held {
        id: id_of(id)?,
        epoch: epoch_of(epoch)?,
    };
    told(alloc, Raised::try_from(held))
}

fn id_of(word: &str) -> Result<ProducerId, StepFault> {
    known(ProducerId::try_from(value::<i64>(word)?))
}

fn epoch_of(word: &str) -> Result<Epoch, StepFault> {
    known(Epoch::try_from(value::<i16>(word)?))
}

// Whether a comparison holds.
fn holds(relation: &str, a: &str, b: &str) -> Result<bool, StepFault> {
    match relation {
        "is-newer" => Ok(is_newer(epoch_of(a)?, epoch_of(b)?)),
        "is-same" => Ok(is_same(value(a)?, value(b)?)),
        "is-below" => Ok(value::<TxnId>(a)? < value::<TxnId>(b)?),
        _ => Err(StepFault::Unknown),
    }
}

impl ValueCases {
    // Keeps a number by a key.
    fn keep(&mut self, kind: &str, key: &str, number: u64) -> Result<u64, StepFault> {
        match kind {
            "txn" => {
                self.counts.insert(value(key)?, number)?;
            }
            "producer" => {
                self.lasts.insert(id_of(key)?, number)?;
            }
            "group" => {
                self.members.insert(value(key)?, number)?;
            }
            _ => return Err(StepFault::Unknown),
        }
        Ok(number)
    }

    // The number that is kept by a key.
    fn kept(&self, kind: &str, key: &str) -> Result<u64, StepFault> {
        match kind {
            "txn" => Ok(count_in(&self.counts, value(key)?)),
            "producer" => Ok(last_in(&self.lasts, id_of(key)?)),
            "group" => Ok(members_in(&self.members, value(key)?)),
            _ => Err(StepFault::Unknown),
        }
    }

    fn keep_step(&mut self, words: &[&str]) -> Result<String, StepFault> {
        let [kind, key, number] = words else {
            return Err(StepFault::Unknown);
        };
        let number = self.keep(kind, key, value(number)?)?;
        told_value(self.alloc, number)
    }

    // A step of two words after its name.
    fn pair_step(&self, texts: &Texts, name: &str, a: &str, b: &str) -> Result<String, StepFault> {
        match name {
            "parse" => parsed(self.alloc, a, texts.bytes(b)?.as_slice()),
            "raised" => raised(self.alloc, a, b),
            "kept" => told_value(self.alloc, self.kept(a, b)?),
            _ => told_value(self.alloc, holds(name, a, b)?),
        }
    }
}

// A step of one word after its name.
fn word_step(alloc: Global, texts: &Texts, kind: &str, word: &str) -> Result<String, StepFault> {
    match kind {
        "name" => name(alloc, texts.bytes(word)?.as_slice()),
        "why" => why(alloc, texts.bytes(word)?.as_slice()),
        _ => number_step(alloc, kind, word),
    }
}

impl Subject for ValueCases {
    fn new(alloc: Global) -> Self {
        ValueCases {
            alloc,
            counts: BTreeMap::new(alloc),
            lasts: BTreeMap::new(alloc),
            members: HashMap::new(alloc),
        }
    }

    fn answer(&mut self, texts: &Texts, words: &[&str]) -> Result<String, StepFault> {
        match words {
            ["offsets"] => told_partition(self.alloc, offsets()),
            [kind, word] => word_step(self.alloc, texts, kind, word),
            [name, a, b] => self.pair_step(texts, name, a, b),
            ["keep", given @ ..] => self.keep_step(given),
            _ => Err(StepFault::Unknown),
        }
    }
}
