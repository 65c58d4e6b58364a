//! What a partition keeps of producers. `rebuild ID EPOCH FIRST LAST OFFSET` makes it of a log with
//! that batch; `data` with the same numbers and `marker ID EPOCH COORDINATOR` note what was
//! appended, `reserve ID` makes room. `check ID EPOCH FIRST LAST` reports the verdict on a batch,
//! `epoch ID` and `marked ID` what is known of a producer.
use crate::words::{epoch_of, id_of};
use kx_cases::{StepFault, Subject, Texts, told_done, told_name, told_option, told_value, value};
use kx_producer::{Noted, Producers, RememberedBatch};
use std::alloc::Global;
use std::mem;

/// The producers of a case.
#[derive(Drop)]
pub(crate) struct ProducerCases {
    alloc: Global,
    producers: Producers,
}

// A batch by its sequences and its offset.
fn batch_of(first: &str, last: &str, offset: &str) -> Result<RememberedBatch, StepFault> {
    Ok(RememberedBatch {
        first: value(first)?,
        last: value(last)?,
        offset: value(offset)?,
    })
}

impl ProducerCases {
    fn rebuild(&mut self, words: &[&str]) -> Result<String, StepFault> {
        let [id, epoch, first, last, offset] = words else {
            return Err(StepFault::Unknown);
        };
        let entries = [Noted::Data {
            id: id_of(id)?,
            epoch: epoch_of(epoch)?,
            batch: batch_of(first, last, offset)?,
        }];
        let producers = Producers::rebuild(self.alloc, &entries)?;
        drop(mem::replace(&mut self.producers, producers));
        told_value(self.alloc, "ok")
    }

    fn data(&mut self, words: &[&str]) -> Result<String, StepFault> {
        let [id, epoch, first, last, offset] = words else {
            return Err(StepFault::Unknown);
        };
        let batch = batch_of(first, last, offset)?;
        let noted = self
            .producers
            .note_data(id_of(id)?, epoch_of(epoch)?, batch);
        told_done(self.alloc, noted)
    }

    fn marker(&mut self, words: &[&str]) -> Result<String, StepFault> {
        let [id, epoch, coordinator] = words else {
            return Err(StepFault::Unknown);
        };
        let coordinator = value::<i32>(coordinator)?;
        let noted = self
            .producers
            .note_marker(id_of(id)?, epoch_of(epoch)?, coordinator);
        told_done(self.alloc, noted)
    }

    fn check(&self, words: &[&str]) -> Result<String, StepFault> {
        let [id, epoch, first, last] = words else {
            return Err(StepFault::Unknown);
        };
        let (first, last) = (value(first)?, value(last)?);
        let verdict = self
            .producers
            .check(id_of(id)?, epoch_of(epoch)?, first, last);
        told_name(self.alloc, verdict)
    }

    // A step that takes an id.
    fn id_step(&mut self, name: &str, words: &[&str]) -> Result<String, StepFault> {
        let [id] = words else {
            return Err(StepFault::Unknown);
        };
        let id = id_of(id)?;
        match name {
            "reserve" => told_done(self.alloc, self.producers.reserve(id)),
            "epoch" => told_option(self.alloc, self.producers.epoch(id)),
            "marked" => told_option(self.alloc, self.producers.marked_by(id)),
            _ => Err(StepFault::Unknown),
        }
    }
}

impl Subject for ProducerCases {
    fn new(alloc: Global) -> Self {
        ProducerCases {
            alloc,
            producers: Producers::new(alloc),
        }
    }

    fn answer(&mut self, _texts: &Texts, words: &[&str]) -> Result<String, StepFault> {
        let [name, given @ ..] = words else {
            return Err(StepFault::Unknown);
        };
        match *name {
            "rebuild" => self.rebuild(given),
            "data" => self.data(given),
            "marker" => self.marker(given),
            "check" => self.check(given),
            _ => self.id_step(name, given),
        }
    }
}
