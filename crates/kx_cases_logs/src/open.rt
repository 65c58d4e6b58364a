//! The open transactions of a partition. `begin ID EPOCH FIRST`, `end ID` and `reserve` change
//! them, `first`, `epoch ID` and `full` tell of them, and `fill COUNT` begins one of each id below
//! a number, at that offset, and tells before each whether they are full, and whether there is
//! room.
use crate::words::{epoch_of, id_of};
use kx_cases::{Runs, StepFault, Subject, Texts, known, told_done, told_option, told_value, value};
use kx_message::{Epoch, ProducerId};
use kx_open::{OPEN_LIMIT, OpenTxn, OpenTxns};
use std::alloc::Global;

/// The transactions that are open in a case.
#[derive(Drop)]
pub(crate) struct OpenCases {
    alloc: Global,
    open: OpenTxns,
}

// A transaction's id, epoch and first offset.
fn told_txn(alloc: Global, txn: Option<OpenTxn>) -> Result<String, StepFault> {
    match txn {
        Some(OpenTxn { id, epoch, first }) => Ok(format!(in alloc; "{id} {epoch} {first}")?),
        None => told_value(alloc, "none"),
    }
}

impl OpenCases {
    // Begins a transaction, if none of its id is open.
    fn begin_txn(&mut self, id: ProducerId, epoch: Epoch, first: i64) -> Result<String, StepFault> {
        if self.open.epoch_of(id).is_some() {
            return told_value(self.alloc, "already open");
        }
        told_done(self.alloc, self.open.begin(id, epoch, first))
    }

    // Whether they are full, makes room, and begins the transaction of this number.
    fn begin_next(&mut self, number: u16) -> Result<String, StepFault> {
        let id = known(ProducerId::try_from(i64::from(number)))?;
        let epoch = Epoch::FIRST;
        let full = self.open.is_full();
        let room = told_done(self.alloc, self.open.reserve())?;
        let begun = self.begin_txn(id, epoch, i64::from(number))?;
        Ok(format!(in self.alloc; "{full} {room} {begun}")?)
    }

    fn fill(&mut self, count: u16) -> Result<String, StepFault> {
        let mut runs = Runs::new(self.alloc);
        for number in 0..count {
            let answer = self.begin_next(number)?;
            runs.push(usize::from(number), answer)?;
        }
        Ok(runs.finish()?)
    }

    // A step that takes nothing.
    fn bare_step(&mut self, name: &str) -> Result<String, StepFault> {
        match name {
            "reserve" => told_done(self.alloc, self.open.reserve()),
            "first" => told_option(self.alloc, self.open.first_open()),
            "full" => told_value(self.alloc, self.open.is_full()),
            "limit" => told_value(self.alloc, OPEN_LIMIT),
            _ => Err(StepFault::Unknown),
        }
    }

    // A step that takes an id.
    fn id_step(&mut self, name: &str, id: ProducerId) -> Result<String, StepFault> {
        match name {
            "end" => told_txn(self.alloc, self.open.end_at(id)),
            "epoch" => told_option(self.alloc, self.open.epoch_of(id)),
            _ => Err(StepFault::Unknown),
        }
    }
}

impl Subject for OpenCases {
    fn new(alloc: Global) -> Self {
        OpenCases {
            alloc,
            open: OpenTxns::new(alloc),
        }
    }

    fn answer(&mut self, _texts: &Texts, words: &[&str]) -> Result<String, StepFault> {
        match words {
            ["begin", id, epoch, first] => {
                self.begin_txn(id_of(id)?, epoch_of(epoch)?, value(first)?)
            }
            ["fill", count] => self.fill(value(count)?),
            [name] => self.bare_step(name),
            [name, id] => self.id_step(name, id_of(id)?),
            _ => Err(StepFault::Unknown),
        }
    }
}
