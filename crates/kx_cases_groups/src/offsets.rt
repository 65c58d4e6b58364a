//! The records of the offsets partition and their batches. `says KEY VALUE` reports what a record
//! says; `commit FRAME BATCH` whether the commit of offsets in a frame becomes that batch, and
//! `joined`, `left` and `dropped GROUP MEMBER BATCH` whether that change of a group's members does.
use kx_batch::{BatchBuilder, BatchView};
use kx_cases::{StepFault, Subject, Texts, told_same, told_value, value};
use kx_cases_formats::message_of;
use kx_message::{ClientId, GroupId, Message, TxnOffsetCommit};
use kx_offsets::{Fact, membership_batch, offsets_batch};
use std::alloc::{AllocError, Global};

/// Records of the offsets partition: no step leaves anything.
#[derive(Drop)]
pub(crate) struct OffsetCases {
    alloc: Global,
}

// The batch of one record with this key and this value, `null` if it has none.
fn batch_with(alloc: Global, texts: &Texts, key: &str, value: &str) -> Result<Vec<u8>, StepFault> {
    let key_text = texts.bytes(if key == "null" { "-" } else { key })?;
    let value_text = texts.bytes(if value == "null" { "-" } else { value })?;
    let mut builder = BatchBuilder::new(alloc, 0, -1, -1, -1);
    builder.push(
        (key != "null").then_some(key_text.as_slice()),
        (value != "null").then_some(value_text.as_slice()),
        &[],
    )?;
    match builder.finish() {
        Ok(text) => Ok(text),
        Err(_) => Err(StepFault::Memory(AllocError)),
    }
}

fn told_fact(alloc: Global, fact: Fact) -> Result<String, StepFault> {
    Ok(match fact {
        Fact::Offset {
            group,
            partition,
            offset,
        } => format!(in alloc; "offset {group} {partition} {offset}")?,
        Fact::Joined { group, member } => format!(in alloc; "joined {group} {member}")?,
        Fact::Left { group, member } => format!(in alloc; "left {group} {member}")?,
        Fact::Dropped { group, member } => format!(in alloc; "dropped {group} {member}")?,
    })
}

// What the first record of a batch says.
fn says(alloc: Global, batch: &[u8]) -> Result<String, StepFault> {
    let Ok((batch, _)) = BatchView::read(batch) else {
        return Err(StepFault::Unknown);
    };
    let first = batch.records().next().ok_or(StepFault::Unknown)?;
    match Fact::read(&first) {
        Some(fact) => told_fact(alloc, fact),
        None => told_value(alloc, "nothing"),
    }
}

// The change of a group's members of this name.
fn change(name: &str, group: GroupId, member: ClientId) -> Result<Fact, StepFault> {
    match name {
        "joined" => Ok(Fact::Joined { group, member }),
        "left" => Ok(Fact::Left { group, member }),
        "dropped" => Ok(Fact::Dropped { group, member }),
        _ => Err(StepFault::Unknown),
    }
}

/// The commit of offsets in a frame.
pub(crate) fn commit_in(alloc: Global, frame: &[u8]) -> Result<TxnOffsetCommit, StepFault> {
    match message_of(alloc, frame)? {
        Message::TxnOffsetCommit(commit) => Ok(commit),
        _ => Err(StepFault::Unknown),
    }
}

// Whether the commit of offsets in a frame becomes this batch.
fn commit(alloc: Global, frame: &[u8], batch: &[u8]) -> Result<String, StepFault> {
    let text = offsets_batch(alloc, &commit_in(alloc, frame)?)?;
    Ok(told_same(alloc, text.as_slice(), batch)?)
}

// Whether a change of a group's members becomes this batch.
fn changed(alloc: Global, fact: Fact, batch: &[u8]) -> Result<String, StepFault> {
    let text = membership_batch(alloc, fact)?;
    Ok(told_same(alloc, text.as_slice(), batch)?)
}

impl Subject for OffsetCases {
    fn new(alloc: Global) -> Self {
        OffsetCases { alloc }
    }

    fn answer(&mut self, texts: &Texts, words: &[&str]) -> Result<String, StepFault> {
        match words {
            ["says", key, value] => {
                let batch = batch_with(self.alloc, texts, key, value)?;
                says(self.alloc, batch.as_slice())
            }
            ["commit", frame, batch] => {
                let batch = texts.bytes(batch)?;
                commit(self.alloc, texts.bytes(frame)?.as_slice(), batch.as_slice())
            }
            [name, group, member, batch] => {
                let fact = change(name, value(group)?, ClientId::from(value::<u32>(member)?))?;
                changed(self.alloc, fact, texts.bytes(batch)?.as_slice())
            }
            _ => Err(StepFault::Unknown),
        }
    }
}
