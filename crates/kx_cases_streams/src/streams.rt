//! Streams that the server of partition 0 serves. `serve BYTES` goes to the case's own server, and
//! tells how the stream ended and what was written. The other steps make a server for each stream:
//! `pieces BYTES` gives the stream in pieces of 1 byte, of 2, and so on, and compares with the
//! stream in one piece; `slow N BYTES` gives N bytes at once, and tells as `serve` does; `reads N
//! MOST BYTES` gives N bytes at once and fails at the first read, at the second, up to that after
//! MOST; `writes N MOST BYTES` takes N bytes at once and fails so; both tell how many bytes were
//! written.
use crate::ends::{Giving, Taking};
use kx_broker::PartitionMachine;
use kx_cases::{Runs, StepFault, Subject, Texts, told_bytes, value};
use kx_log::MemStore;
use kx_message::PartitionId;
use kx_stream::{StreamFault, serve_stream};
use std::alloc::{AllocError, Global};

type Server = PartitionMachine<MemStore>;

/// The server of a case, once a stream came to it.
#[derive(Drop)]
pub(crate) struct StreamCases {
    alloc: Global,
    server: Option<Server>,
}

// How much a stream gives and takes at once, and how often before it fails.
#[derive(Clone, Copy)]
struct Ends {
    gives: usize,
    reads: usize,
    takes: usize,
    writes: usize,
}

// All at once, and no failure.
const WHOLE: Ends = Ends {
    gives: usize::MAX,
    reads: usize::MAX,
    takes: usize::MAX,
    writes: usize::MAX,
};

// The server of partition 0, whose log is empty.
fn new_server(alloc: Global) -> Result<Server, StepFault> {
    let number = PartitionId::try_from(0).map_err(|_| StepFault::Unknown)?;
    match PartitionMachine::new(alloc, number, MemStore::new(Vec::new(alloc))) {
        Ok(server) => Ok(server),
        Err(_) => Err(StepFault::Unknown),
    }
}

// How a stream ended.
fn told_end(alloc: Global, ended: Result<(), StreamFault>) -> Result<String, AllocError> {
    match ended {
        Ok(()) => String::from_str(alloc, "Ok"),
        Err(fault) => format!(in alloc; "{fault:?}"),
    }
}

// How a stream ended, and what was written.
fn served(
    alloc: Global,
    server: &mut Server,
    bytes: &[u8],
    ends: Ends,
) -> Result<(String, Vec<u8>), AllocError> {
    let mut reader = Giving {
        rest: bytes,
        most: ends.gives,
        reads: ends.reads,
    };
    let mut writer = Taking {
        taken: Vec::new(alloc),
        most: ends.takes,
        writes: ends.writes,
    };
    let ended = serve_stream(alloc, &mut reader, &mut writer, server);
    let told = told_end(alloc, ended)?;
    Ok((told, writer.taken))
}

// The same, in words.
fn told_served(
    alloc: Global,
    server: &mut Server,
    bytes: &[u8],
    ends: Ends,
) -> Result<String, StepFault> {
    let (end, written) = served(alloc, server, bytes, ends)?;
    let written = told_bytes(alloc, written.as_slice())?;
    Ok(format!(in alloc; "{end} {written}")?)
}

// What a new server writes for the stream.
fn of_new(alloc: Global, bytes: &[u8], ends: Ends) -> Result<String, StepFault> {
    let mut server = new_server(alloc)?;
    told_served(alloc, &mut server, bytes, ends)
}

// The stream in pieces of each size.
fn pieces(alloc: Global, bytes: &[u8]) -> Result<String, StepFault> {
    let whole = of_new(alloc, bytes, WHOLE)?;
    let mut runs = Runs::new(alloc);
    for gives in 1..=bytes.len() {
        let told = of_new(alloc, bytes, Ends { gives, ..WHOLE })?;
        if told == whole {
            runs.push(gives, String::from_str(alloc, "same")?)?;
        } else {
            runs.push(gives, told)?;
        }
    }
    Ok(runs.finish()?)
}

// What is at the end of a step's words.
fn ends_at(fails: &str, once: usize, calls: usize) -> Option<Ends> {
    match fails {
        "reads" => Some(Ends {
            gives: once,
            reads: calls,
            ..WHOLE
        }),
        "writes" => Some(Ends {
            takes: once,
            writes: calls,
            ..WHOLE
        }),
        _ => None,
    }
}

// Each read or write failing in its turn, up to the one after this many.
fn failing(
    alloc: Global,
    fails: &str,
    once: usize,
    most: usize,
    bytes: &[u8],
) -> Result<String, StepFault> {
    let mut runs = Runs::new(alloc);
    for calls in 0..=most {
        let ends = ends_at(fails, once, calls).ok_or(StepFault::Unknown)?;
        let mut server = new_server(alloc)?;
        let (end, written) = served(alloc, &mut server, bytes, ends)?;
        runs.push(calls, format!(in alloc; "{end} {}", written.len())?)?;
    }
    Ok(runs.finish()?)
}

impl StreamCases {
    // The stream goes to the case's server.
    fn serve(&mut self, bytes: &[u8]) -> Result<String, StepFault> {
        let alloc = self.alloc;
        let mut server = match self.server.take() {
            Some(server) => server,
            None => new_server(alloc)?,
        };
        let told = told_served(alloc, &mut server, bytes, WHOLE);
        self.server = Some(server);
        told
    }
}

impl Subject for StreamCases {
    fn new(alloc: Global) -> Self {
        StreamCases {
            alloc,
            server: None,
        }
    }

    fn answer(&mut self, texts: &Texts, words: &[&str]) -> Result<String, StepFault> {
        let alloc = self.alloc;
        match words {
            ["serve", bytes] => {
                let bytes = texts.bytes(bytes)?;
                self.serve(bytes.as_slice())
            }
            ["pieces", bytes] => {
                let bytes = texts.bytes(bytes)?;
                pieces(alloc, bytes.as_slice())
            }
            ["slow", once, bytes] => {
                let bytes = texts.bytes(bytes)?;
                let gives = value(once)?;
                of_new(alloc, bytes.as_slice(), Ends { gives, ..WHOLE })
            }
            [fails, once, most, bytes] => {
                let bytes = texts.bytes(bytes)?;
                failing(alloc, fails, value(once)?, value(most)?, bytes.as_slice())
            }
            _ => Err(StepFault::Unknown),
        }
    }
}
