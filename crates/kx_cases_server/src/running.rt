//! A server on a thread of its own.
use crate::lines::{Lines, next_line};
use crossbeam_channel::Receiver;
use kx_cases::{StepFault, value};
use kx_kafka_server::{Advertised, Topics, advertised_in, topics_asked};
use kx_serve::{KafkaOptions, ServeFault, ServeOptions, serve, serve_kafka};
use kx_server::{Connections, Partitions, Until};
use std::alloc::{AllocError, Global};
use std::fs::{File, Files};
use std::net::{Net, TcpListener, TcpStream};
use std::random::RandomSource;
use std::sync::Wait;
use std::thread;
use std::thread::{JoinHandle, Threads};
use std::time::Clock;

/// What a server is asked for.
#[derive(Drop)]
pub(crate) struct Wanted {
    pub(crate) partitions: Partitions,
    pub(crate) connections: Connections,
    pub(crate) dir: Option<String>,
    pub(crate) expires: bool,
}

impl Wanted {
    /// What these words ask for.
    pub(crate) fn new(
        alloc: Global,
        partitions: &str,
        connections: &str,
        dir: Option<&str>,
        expires: bool,
    ) -> Result<Wanted, StepFault> {
        let dir = match dir {
            Some(dir) => Some(String::from_str(alloc, dir)?),
            None => None,
        };
        Ok(Wanted {
            partitions: Partitions::new(value(partitions)?).ok_or(StepFault::Unknown)?,
            connections: Connections::new(value(connections)?).ok_or(StepFault::Unknown)?,
            dir,
            expires,
        })
    }

    /// These as options, on any port that is free.
    pub(crate) fn options(&self) -> ServeOptions<'_> {
        ServeOptions {
            partitions: self.partitions,
            connections: self.connections,
            port: 0,
            dir: self.dir.as_deref(),
            traces: None,
            new_traces: false,
            expires: self.expires,
            session_timeout: None,
            tells_progress: false,
            tells_notices: false,
        }
    }
}

// How many topics clients may have made, as the program's default is.
const MOST_TOPICS: u16 = 16;

/// What a server of stock clients is asked for.
#[derive(Drop)]
pub(crate) struct Stock {
    pub(crate) topics: Topics,
    pub(crate) auto_topics: u16,
    pub(crate) connections: Connections,
    pub(crate) dir: Option<String>,
    pub(crate) advertise: Option<String>,
}

impl Stock {
    /// What these words ask for; topics are made if none are given.
    pub(crate) fn new(
        alloc: Global,
        connections: &str,
        topics: Option<&str>,
        dir: Option<&str>,
    ) -> Result<Stock, StepFault> {
        let dir = match dir {
            Some(dir) => Some(String::from_str(alloc, dir)?),
            None => None,
        };
        Ok(Stock {
            topics: match topics {
                Some(topics) => topics_asked(alloc, topics).map_err(|_| StepFault::Unknown)?,
                None => Topics::new(alloc),
            },
            auto_topics: if topics.is_none() { MOST_TOPICS } else { 0 },
            connections: Connections::new(value(connections)?).ok_or(StepFault::Unknown)?,
            dir,
            advertise: None,
        })
    }

    /// The server that says to clients that it is at this `HOST:PORT`.
    pub(crate) fn at(mut self, alloc: Global, address: &str) -> Result<Stock, StepFault> {
        if advertised_in(address).is_none() {
            return Err(StepFault::Unknown);
        }
        self.advertise = Some(String::from_str(alloc, address)?);
        Ok(self)
    }

    // Where clients are told to find it, if anywhere else.
    fn address(&self) -> Option<Advertised<'_>> {
        match &self.advertise {
            Some(address) => advertised_in(address.as_str()),
            None => None,
        }
    }

    /// These as options, on any port that is free.
    fn options(&self) -> KafkaOptions<'_> {
        KafkaOptions {
            topics: &self.topics,
            auto_topics: self.auto_topics,
            idle: None,
            advertise: self.address(),
            port: 0,
            dir: self.dir.as_deref(),
            traces: None,
            new_traces: false,
            connections: self.connections,
            until: Until::Served,
            tells_progress: false,
            tells_notices: false,
        }
    }
}

/// How a server ended.
pub(crate) type Ended = Result<(), ServeFault>;

/// A server on a thread of its own.
#[derive(Drop)]
pub(crate) struct Running {
    lines: Receiver<Vec<u8>>,
    server: JoinHandle<Ended>,
}

// The port that the first line names. None if no line comes.
fn port_in(line: Option<String>) -> Result<Option<u16>, StepFault> {
    match line {
        Some(line) => {
            let word = line.strip_prefix("listening ").ok_or(StepFault::Unknown)?;
            Ok(Some(value(word)?))
        }
        None => Ok(None),
    }
}

impl Running {
    /// Starts a server.
    pub(crate) fn start<
        R: Net<Listener = TcpListener, Stream = TcpStream>
            + Files<File = File>
            + AllocGlobal
            + Eprint
            + Threads
            + Wait
            + Clock
            + RandomSource
            + Copy
            + Send
            + Sync
            + Drop
            + 'static,
    >(rt: R, alloc: Global, wanted: Wanted) -> Result<Running, AllocError>
    where
        R::Dir: Send,
    {
        let (mut out, lines) = Lines::new(rt, alloc)?;
        let run = move || serve(rt, &wanted.options(), &mut out);
        let Ok(server) = thread::spawn(&rt, run) else {
            return Err(AllocError);
        };
        Ok(Running { lines, server })
    }

    /// Starts a server of stock clients.
    pub(crate) fn start_stock<
        R: Net<Listener = TcpListener, Stream = TcpStream>
            + Files<File = File>
            + AllocGlobal
            + Eprint
            + Threads
            + Wait
            + Clock
            + RandomSource
            + Copy
            + Send
            + Sync
            + Drop
            + 'static,
    >(rt: R, alloc: Global, wanted: Stock) -> Result<Running, AllocError>
    where
        R::Dir: Send,
    {
        let (mut out, lines) = Lines::new(rt, alloc)?;
        let run = move || serve_kafka(rt, &wanted.options(), &mut out);
        let Ok(server) = thread::spawn(&rt, run) else {
            return Err(AllocError);
        };
        Ok(Running { lines, server })
    }

    /// Waits until the server takes connections, and gives its port. None where it ends before.
    pub(crate) fn port<R: Wait>(&self, rt: &R, alloc: Global) -> Result<Option<u16>, StepFault> {
        port_in(next_line(rt, alloc, &self.lines)?)
    }

    /// Waits until the server has ended, and tells its fault, if it has one, and the lines that it
    /// printed since.
    pub(crate) fn end<R: Threads + Wait>(
        self,
        rt: &R,
        alloc: Global,
        told: &mut String,
    ) -> Result<(), StepFault> {
        let Running { lines, server } = self;
        let ended = server.join(rt);
        tell_end(told, ended)?;
        for _ in rt.forever() {
            let Some(line) = next_line(rt, alloc, &lines)? else {
                break;
            };
            writeln!(told, "{line}")?;
        }
        Ok(())
    }
}

/// Reports the number and the words of the fault of a server, if there is one.
pub(crate) fn tell_end(told: &mut String, ended: Ended) -> Result<(), AllocError> {
    match ended {
        Ok(()) => Ok(()),
        Err(fault) => writeln!(told, "fault {} {fault}", fault.number()),
    }
}
