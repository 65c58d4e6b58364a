//! The requests that a partition parks, told by the frames that they come in. `ask FRAME` parks
//! one. `parked OF FRAMES..` tells whether those of the id and epoch of one, `OF`, are these, in
//! this order, and `reply OF FRAMES..` takes them out and tells the same; `held FRAME` tells the id
//! and epoch of its batch, `message FRAME` whether the message that it came as is had from it.
use kx_cases::{StepFault, Subject, Texts, told_name, told_value};
use kx_cases_formats::message_of;
use kx_message::Message;
use kx_verify::{Append, Guard, Request};
use std::alloc::Global;

/// The parked requests of a case.
#[derive(Drop)]
pub(crate) struct GuardCases {
    alloc: Global,
    guard: Guard,
}

// The request to append that a frame holds.
fn append_of(alloc: Global, frame: &[u8]) -> Result<Append, StepFault> {
    match message_of(alloc, frame)? {
        Message::Produce(produce) => Ok(Append::Produce(produce)),
        Message::TxnOffsetCommit(commit) => Ok(Append::Offsets(commit)),
        _ => Err(StepFault::Unknown),
    }
}

// The request to append in a frame, as it is parked; None if it can't be.
fn request_of(alloc: Global, frame: &[u8]) -> Result<Option<Request>, StepFault> {
    Ok(match append_of(alloc, frame)? {
        Append::Produce(produce) => Request::of_produce(produce).ok(),
        Append::Offsets(commit) => Request::of_offsets(commit).ok(),
    })
}

// A request that can be parked.
fn known_request(alloc: Global, texts: &Texts, word: &str) -> Result<Request, StepFault> {
    request_of(alloc, texts.bytes(word)?.as_slice())?.ok_or(StepFault::Unknown)
}

// The requests of these frames.
fn requests(alloc: Global, texts: &Texts, words: &[&str]) -> Result<Vec<Request>, StepFault> {
    let mut requests = Vec::new(alloc);
    for word in words {
        requests.push(known_request(alloc, texts, word)?)?;
    }
    Ok(requests)
}

// `same`, or how many there are in place of those that are wanted.
fn told_parked(alloc: Global, parked: &[Request], wanted: &[Request]) -> Result<String, StepFault> {
    if parked == wanted {
        return told_value(alloc, "same");
    }
    told_value(alloc, parked.len())
}

fn held(alloc: Global, frame: &[u8]) -> Result<String, StepFault> {
    match request_of(alloc, frame)? {
        Some(request) => {
            let held = request.held();
            Ok(format!(in alloc; "{} {}", held.id, held.epoch)?)
        }
        None => told_value(alloc, "none"),
    }
}

// Whether a request gives the message that it came as.
fn message(alloc: Global, frame: &[u8]) -> Result<String, StepFault> {
    let request = request_of(alloc, frame)?.ok_or(StepFault::Unknown)?;
    if request.into_message() == append_of(alloc, frame)? {
        return told_value(alloc, "same");
    }
    told_value(alloc, "another")
}

impl GuardCases {
    fn ask(&mut self, frame: &[u8]) -> Result<String, StepFault> {
        match request_of(self.alloc, frame)? {
            Some(request) => told_name(self.alloc, self.guard.ask(request)?),
            None => told_value(self.alloc, "handed back"),
        }
    }

    // Whether those that are parked are these.
    fn parked(&self, texts: &Texts, of: &str, frames: &[&str]) -> Result<String, StepFault> {
        let held = known_request(self.alloc, texts, of)?.held();
        let wanted = requests(self.alloc, texts, frames)?;
        told_parked(self.alloc, self.guard.parked(held), wanted.as_slice())
    }

    // Takes out those that are parked, and reports whether they are these.
    fn reply(&mut self, texts: &Texts, of: &str, frames: &[&str]) -> Result<String, StepFault> {
        let held = known_request(self.alloc, texts, of)?.held();
        let wanted = requests(self.alloc, texts, frames)?;
        let taken = self.guard.reply(held);
        told_parked(self.alloc, taken.as_slice(), wanted.as_slice())
    }

    // A step that takes one frame.
    fn frame_step(&mut self, name: &str, frame: &[u8]) -> Result<String, StepFault> {
        match name {
            "ask" => self.ask(frame),
            "held" => held(self.alloc, frame),
            "message" => message(self.alloc, frame),
            _ => Err(StepFault::Unknown),
        }
    }
}

impl Subject for GuardCases {
    fn new(alloc: Global) -> Self {
        GuardCases {
            alloc,
            guard: Guard::new(alloc),
        }
    }

    fn answer(&mut self, texts: &Texts, words: &[&str]) -> Result<String, StepFault> {
        match words {
            ["parked", of, frames @ ..] => self.parked(texts, of, frames),
            ["reply", of, frames @ ..] => self.reply(texts, of, frames),
            [name, frame] => self.frame_step(name, texts.bytes(frame)?.as_slice()),
            _ => Err(StepFault::Unknown),
        }
    }
}
