//! A session with a server. Its lines:
//!
//! - `bytes NAME = BYTES` gives bytes a name, as in files of cases;
//! - `serve P N` starts a server of P data partitions for N connections, with its logs in memory,
//!   and tells `listening`, once it takes connections; `serve P N in FOLDER` has its logs in a
//!   folder, `serve P N nowhere` in that of the empty name, and `serve P N expiring` ends
//!   transactions that last too long;
//! - `kafka N` starts a server of stock clients for N connections, with its logs in memory, which
//!   makes topics; `kafka N with TOPICS` has these, and makes none; `in FOLDER` after either has its
//!   files in a folder; `kafka N at HOST:PORT` tells clients to find it there;
//! - `open A` connects, under the name A; `crowd A N BYTES` connects N times, each under the name A
//!   and with this request, and tells how many of them are answered;
//! - `send A BYTES` writes bytes, and `bytewise A BYTES` writes them in pieces of one byte;
//! - `portless A` tells the next frame, with zeros if the server names its own port;
//! - `receive A` tells the next frame; `closed A` tells whether the server closes the connection;
//!   `pages A` tells how many pages come until it does;
//! - `until A REQUEST REPLY` sends a request again and again, and tells whether that reply came;
//! - `turns A B N REQUEST` sends a request N times over each of two connections in turn, and
//!   `speak A N REQUEST` for N clients, from number 0 on; both tell how many were answered;
//! - `finish A` sends nothing more; `drop A` closes the connections of this name;
//! - `end` closes all connections, waits for the server, and tells its fault, as number and words,
//!   and what it printed after the port;
//! - `rival FOLDER` has a second server try to serve that folder, and tells its fault;
//! - `clear FOLDER` removes a folder and what is in it; `append FILE BYTES` puts bytes after those
//!   of a file, and `shorten FILE N` takes N off its end; `move FILE FILE` gives a file another
//!   name, and `there FILE` tells whether it is there;
//! - `wait N` waits for N milliseconds.
use crate::clients::Clients;
use crate::folder::{append, clear, rename, shorten, tell_there};
use crate::running::{Running, Stock, Wanted, tell_end};
use kx_cases::{StepFault, Texts, value};
use kx_serve::serve;
use std::alloc::{AllocError, Global};
use std::fs::{File, Files};
use std::net::{Net, TcpListener, TcpStream};
use std::random::RandomSource;
use std::sync::Wait;
use std::thread;
use std::thread::Threads;
use std::time::{Clock, Duration};

/// A session: the server, if one runs, its port, its clients, and what is told.
#[derive(Drop)]
pub(crate) struct Session<R: Drop> {
    rt: R,
    alloc: Global,
    texts: Texts,
    running: Option<Running>,
    port: u16,
    clients: Clients,
    told: String,
}

impl<
    // What is sent to a thread may rest on no type of which nothing is said.
    R: Net<Listener = TcpListener, Stream = TcpStream>
        + Files<File = File>
        + AllocGlobal
        + Eprint
        + Threads
        + Wait
        + Clock
        + RandomSource
        + Copy
        + Send
        + Sync
        + Drop
        + 'static,
> Session<R>
where
    R::Dir: Send,
{
    /// A session in which no server runs.
    pub(crate) fn new(rt: R) -> Self {
        let alloc = rt.alloc();
        Session {
            rt,
            alloc,
            texts: Texts::new(alloc),
            running: None,
            port: 0,
            clients: Clients::new(alloc),
            told: String::new(alloc),
        }
    }

    // Starts a server.
    fn start(
        &mut self,
        partitions: &str,
        connections: &str,
        dir: Option<&str>,
        expires: bool,
    ) -> Result<(), StepFault> {
        let wanted = Wanted::new(self.alloc, partitions, connections, dir, expires)?;
        let running = Running::start(self.rt, self.alloc, wanted)?;
        if let Some(port) = running.port(&self.rt, self.alloc)? {
            self.port = port;
            writeln!(self.told, "listening")?;
        }
        self.running = Some(running);
        Ok(())
    }

    // Starts a server of stock clients.
    fn start_stock(
        &mut self,
        connections: &str,
        topics: Option<&str>,
        dir: Option<&str>,
    ) -> Result<(), StepFault> {
        let wanted = Stock::new(self.alloc, connections, topics, dir)?;
        self.run_stock(wanted)
    }

    // Starts a server that tells clients to find it at this address.
    fn start_at(&mut self, connections: &str, address: &str) -> Result<(), StepFault> {
        let wanted = Stock::new(self.alloc, connections, None, None)?;
        let wanted = wanted.at(self.alloc, address)?;
        self.run_stock(wanted)
    }

    // Runs a server of stock clients.
    fn run_stock(&mut self, wanted: Stock) -> Result<(), StepFault> {
        let running = Running::start_stock(self.rt, self.alloc, wanted)?;
        if let Some(port) = running.port(&self.rt, self.alloc)? {
            self.port = port;
            writeln!(self.told, "listening")?;
        }
        self.running = Some(running);
        Ok(())
    }

    // Has a second server try a folder, on this thread: it never gets as far as a connection.
    fn rival(&mut self, dir: &str) -> Result<(), StepFault> {
        let wanted = Wanted::new(self.alloc, "1", "1", Some(dir), false)?;
        let mut out = Vec::new(self.alloc);
        let ended = serve(self.rt, &wanted.options(), &mut out);
        Ok(tell_end(&mut self.told, ended)?)
    }

    // Closes all connections, and waits for the server.
    fn end(&mut self) -> Result<(), StepFault> {
        self.clients.close_all();
        let running = self.running.take().ok_or(StepFault::Unknown)?;
        running.end(&self.rt, self.alloc, &mut self.told)
    }

    // Connects so often, and reports how many are answered.
    fn crowd(&mut self, name: &str, count: usize, request: &str) -> Result<(), StepFault> {
        let request = self.texts.bytes(request)?;
        let request = request.as_slice();
        let answered = self
            .clients
            .open_many(&self.rt, self.port, name, count, request)?;
        Ok(writeln!(self.told, "{answered} answered")?)
    }

    // Writes bytes. What the server does with a connection that it closed is told by other lines.
    fn send(&self, name: &str, bytes: &str) -> Result<(), StepFault> {
        let bytes = self.texts.bytes(bytes)?;
        let _is_sent = self.clients.named(name)?.send(bytes.as_slice());
        Ok(())
    }

    fn send_bytewise(&self, name: &str, bytes: &str) -> Result<(), StepFault> {
        let bytes = self.texts.bytes(bytes)?;
        self.clients.named(name)?.send_bytewise(bytes.as_slice());
        Ok(())
    }

    // Sends a request until a reply comes.
    fn until(&mut self, name: &str, request: &str, reply: &str) -> Result<(), StepFault> {
        let request = self.texts.bytes(request)?;
        let reply = self.texts.bytes(reply)?;
        let client = self.clients.named(name)?;
        let has_come = client.ask_until(
            &self.rt,
            self.alloc,
            request.as_slice(),
            reply.as_slice(),
        )?;
        let word = if has_come { "came" } else { "never" };
        Ok(writeln!(self.told, "{name} {word}")?)
    }

    fn append(&self, file: &str, bytes: &str) -> Result<(), StepFault> {
        let bytes = self.texts.bytes(bytes)?;
        append(&self.rt, file, bytes.as_slice())
    }

    // Sends a request over two connections in turn.
    fn turns(
        &mut self,
        first: &str,
        second: &str,
        count: usize,
        request: &str,
    ) -> Result<(), StepFault> {
        let request = self.texts.bytes(request)?;
        let answered = self
            .clients
            .take_turns(first, second, count, request.as_slice())?;
        Ok(writeln!(self.told, "{answered} answered")?)
    }

    // Sends a request for many clients.
    fn speak(&mut self, name: &str, count: u32, request: &str) -> Result<(), StepFault> {
        let request = self.texts.bytes(request)?;
        let answered = self.clients.speak_for(name, count, request.as_slice())?;
        Ok(writeln!(self.told, "{answered} answered")?)
    }

    // Takes a step with files.
    fn take_files(&mut self, words: &[&str]) -> Result<(), StepFault> {
        match words {
            ["clear", folder] => {
                clear(&self.rt, folder);
                Ok(())
            }
            ["append", file, bytes] => self.append(file, bytes),
            ["shorten", file, count] => shorten(&self.rt, file, value(count)?),
            ["move", from, to] => rename(&self.rt, from, to),
            ["there", file] => tell_there(&self.rt, file, &mut self.told),
            _ => Err(StepFault::Unknown),
        }
    }

    // Takes a step with a server, or waits.
    fn take_server(&mut self, words: &[&str]) -> Result<(), StepFault> {
        match words {
            ["serve", partitions, connections] => self.start(partitions, connections, None, false),
            ["serve", partitions, connections, "expiring"] => {
                self.start(partitions, connections, None, true)
            }
            ["serve", partitions, connections, "nowhere"] => {
                self.start(partitions, connections, Some(""), false)
            }
            ["serve", partitions, connections, "in", dir] => {
                self.start(partitions, connections, Some(*dir), false)
            }
            ["kafka", connections] => self.start_stock(connections, None, None),
            ["kafka", connections, "at", address] => self.start_at(connections, address),
            ["kafka", connections, "in", dir] => self.start_stock(connections, None, Some(*dir)),
            ["kafka", connections, "with", topics] => {
                self.start_stock(connections, Some(*topics), None)
            }
            ["kafka", connections, "with", topics, "in", dir] => {
                self.start_stock(connections, Some(*topics), Some(*dir))
            }
            ["end"] => self.end(),
            ["rival", folder] => self.rival(folder),
            ["wait", millis] => {
                thread::sleep(&self.rt, Duration::from_millis(value(millis)?));
                Ok(())
            }
            _ => self.take_files(words),
        }
    }

    // Takes a step with more than one request.
    fn take_many(&mut self, words: &[&str]) -> Result<(), StepFault> {
        match words {
            ["crowd", name, count, bytes] => self.crowd(name, value(count)?, bytes),
            ["turns", first, second, count, bytes] => {
                self.turns(first, second, value(count)?, bytes)
            }
            ["speak", name, count, bytes] => self.speak(name, value(count)?, bytes),
            ["until", name, request, reply] => self.until(name, request, reply),
            ["pages", name] => self.clients.tell_pages(name, &mut self.told),
            _ => self.take_server(words),
        }
    }

    // Takes a step.
    fn take(&mut self, words: &[&str]) -> Result<(), StepFault> {
        match words {
            ["bytes", name, "=", bytes] => self.texts.name(name, bytes),
            ["open", name] => self.clients.open(&self.rt, self.port, name),
            ["send", name, bytes] => self.send(name, bytes),
            ["bytewise", name, bytes] => self.send_bytewise(name, bytes),
            ["portless", name] => {
                let port = self.port;
                self.clients.tell_portless(name, port, &mut self.told)
            }
            ["receive", name] => self.clients.tell_next(name, &mut self.told),
            ["closed", name] => self.clients.tell_closed(name, &mut self.told),
            ["finish", name] => {
                self.clients.named(name)?.finish();
                Ok(())
            }
            ["drop", name] => {
                self.clients.close(name);
                Ok(())
            }
            _ => self.take_many(words),
        }
    }

    // Takes all steps of a session. A line that begins with `#` says nothing.
    fn take_all(&mut self, session: &str) -> Result<(), StepFault> {
        for line in session.lines() {
            if line.is_empty() || line.starts_with('#') {
                continue;
            }
            let words: Vec<&str> = line.split(' ').collect(self.alloc)?;
            self.take(words.as_slice())?;
        }
        Ok(())
    }

    /// Takes all steps of a session, and gives what they tell; or the fault of the first one that
    /// can't be taken.
    pub(crate) fn run(mut self, session: &str) -> Result<String, StepFault> {
        self.take_all(session)?;
        Ok(self.told)
    }
}
