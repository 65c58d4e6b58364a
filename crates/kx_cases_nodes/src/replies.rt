//! Steps of a client that gets a reply and reads its page.
use crate::parts::nothing;
use crate::shown::shown;
use crate::words::{caller, code, producer};
use kx_cases::{StepFault, Subject, Texts, told_name, value};
use kx_message::{
    AbortedTxn, AbortedTxns, Bytes, Caller, ErrorCode, FetchReply, LeaveReply, Message, PartitionId,
};
use kx_partition::FetchPage;
use std::alloc::Global;
use std::mem;

/// The reply that came.
#[derive(Drop)]
pub(crate) struct Replies {
    alloc: Global,
    reply: Option<Message>,
}

fn aborted_txn(word: &str) -> Result<AbortedTxn, StepFault> {
    let Some((id, first)) = word.split_once(':') else {
        return Err(StepFault::Unknown);
    };
    Ok(AbortedTxn {
        id: producer(id)?,
        first: value(first)?,
    })
}

fn push_aborted(txns: &mut Vec<AbortedTxn>, text: &str) -> Result<(), StepFault> {
    for word in text.split(',') {
        txns.push(aborted_txn(word)?)?;
    }
    Ok(())
}

// Aborted transactions, written as `ID:FIRST,..`, or `-` for none.
fn aborted(alloc: Global, text: &str) -> Result<AbortedTxns, StepFault> {
    let mut txns = Vec::new(alloc);
    if text != "-" {
        push_aborted(&mut txns, text)?;
    }
    Ok(AbortedTxns::from_vec(txns))
}

// What a reply says beside what it carries.
#[derive(Clone, Copy)]
struct Numbers {
    caller: Caller,
    code: ErrorCode,
    next: i64,
    lso: i64,
    end: i64,
}

// `CODE NEXT LSO END`.
fn numbers_in(words: &[&str]) -> Result<Numbers, StepFault> {
    let [answer, next, lso, end] = words else {
        return Err(StepFault::Unknown);
    };
    Ok(Numbers {
        caller: caller("1")?,
        code: code(answer)?,
        next: value(next)?,
        lso: value(lso)?,
        end: value(end)?,
    })
}

// A reply of this code: `fetched CODE NEXT LSO END ABORTED BYTES`.
fn fetch_reply(alloc: Global, texts: &Texts, words: &[&str]) -> Result<Message, StepFault> {
    let [fields @ .., txns, batches] = words else {
        return Err(StepFault::Unknown);
    };
    let numbers = numbers_in(fields)?;
    let aborted = aborted(alloc, txns)?;
    Ok(Message::FetchReply(FetchReply {
        caller: numbers.caller,
        partition: PartitionId::OFFSETS,
        code: numbers.code,
        next: numbers.next,
        lso: numbers.lso,
        end: numbers.end,
        aborted,
        batches: Bytes::from_vec(texts.bytes(batches)?),
    }))
}

// A reply that has no page.
fn leave_reply() -> Result<Message, StepFault> {
    Ok(Message::LeaveReply(LeaveReply {
        caller: caller("1")?,
        code: ErrorCode::NoError,
    }))
}

// What is told of the page of a reply, or why it has none.
fn read(alloc: Global, reply: &Message, what: &str, from: &str) -> Result<String, StepFault> {
    match FetchPage::from_reply(alloc, value(from)?, reply) {
        Ok(page) => shown(alloc, what, page),
        Err(fault) => told_name(alloc, fault),
    }
}

impl Replies {
    // This reply came.
    fn comes(&mut self, reply: Message) -> Result<String, StepFault> {
        drop(mem::replace(&mut self.reply, Some(reply)));
        nothing(self.alloc)
    }
}

impl Subject for Replies {
    fn new(alloc: Global) -> Self {
        Replies { alloc, reply: None }
    }

    fn answer(&mut self, texts: &Texts, words: &[&str]) -> Result<String, StepFault> {
        match words {
            ["fetched", fields @ ..] => {
                let reply = fetch_reply(self.alloc, texts, fields)?;
                self.comes(reply)
            }
            ["left"] => self.comes(leave_reply()?),
            [what, from] => match &self.reply {
                Some(reply) => read(self.alloc, reply, what, from),
                None => Err(StepFault::Unknown),
            },
            _ => Err(StepFault::Unknown),
        }
    }
}
