//! The connections between clients and the server: each client has its own to the relay, and the
//! relay has one for it to the server.
use crate::client::listen;
use crate::fault::PlayFault;
use crate::options::PlayOptions;
use crossbeam_channel::{Receiver, Sender};
use kx_message::Message;
use kx_nodes::JoinSet;
use kx_relay::{Draw, FrameStream, Holding, relay};
use std::alloc::{AllocError, Global};
use std::net::{Net, Shutdown, TcpListener, TcpStream};
use std::sync::{Arc, Wait};
use std::thread;
use std::thread::Threads;

/// A client's end of its connection.
#[derive(Drop)]
pub(crate) struct ClientEnd {
    /// Over which it sends.
    pub(crate) stream: TcpStream,
    /// In which it finds what arrives.
    pub(crate) inbox: Receiver<Message>,
}

// What a call of the network returned.
fn done<T, E: Drop>(called: Result<T, E>) -> Result<T, PlayFault> {
    match called {
        Ok(value) => Ok(value),
        Err(_) => Err(PlayFault::Net),
    }
}

/// Listens on a free port of 127.0.0.1.
pub(crate) fn listen_on_any<R: Net<Listener = TcpListener, Stream = TcpStream>>(
    rt: &R,
) -> Result<TcpListener, PlayFault> {
    done(TcpListener::bind(rt, ("127.0.0.1", 0)))
}

/// The port on which a listener listens.
pub(crate) fn port_of(listener: &TcpListener) -> Result<u16, PlayFault> {
    Ok(done(listener.local_addr())?.port())
}

// Connects to a port of 127.0.0.1. Frames are small and are waited for, so they aren't delayed
// if that can be had.
fn connect<R: Net<Listener = TcpListener, Stream = TcpStream>>(
    rt: &R,
    port: u16,
) -> Result<TcpStream, PlayFault> {
    let stream = done(TcpStream::connect(rt, ("127.0.0.1", port)))?;
    let _ = stream.set_nodelay(true);
    Ok(stream)
}

// The next connection to a listener. Its frames aren't delayed either.
fn accept(listener: &TcpListener) -> Result<TcpStream, PlayFault> {
    let (stream, _) = done(listener.accept())?;
    let _ = stream.set_nodelay(true);
    Ok(stream)
}

// Both ends of a new connection to a listener: the one that called, and the one that was called.
fn pair_at<R: Net<Listener = TcpListener, Stream = TcpStream>>(
    rt: &R,
    listener: &TcpListener,
) -> Result<(TcpStream, TcpStream), PlayFault> {
    let calling = connect(rt, port_of(listener)?)?;
    match accept(listener) {
        Ok(called) => Ok((calling, called)),
        Err(fault) => {
            drop(calling);
            Err(fault)
        }
    }
}

// Both ends of a connection over loopback.
fn pair<R: Net<Listener = TcpListener, Stream = TcpStream>>(
    rt: &R,
) -> Result<(TcpStream, TcpStream), PlayFault> {
    let listener = listen_on_any(rt)?;
    let ends = pair_at(rt, &listener);
    drop(listener);
    ends
}

// Another handle of a connection.
fn twin(stream: &TcpStream) -> Result<TcpStream, PlayFault> {
    done(stream.try_clone())
}

// The frames that come over a connection.
fn frames_of(alloc: Global, stream: &TcpStream) -> Result<FrameStream, PlayFault> {
    Ok(FrameStream::new(alloc, twin(stream)?)?)
}

// One direction of the relay: the frames that come over one connection go out over another.
#[derive(Drop)]
struct Line {
    draw: Arc<Draw>,
    frames: FrameStream,
    to: TcpStream,
}

impl Line {
    // Carries the frames over until no more come.
    fn carry<R: Wait>(self, rt: &R, alloc: Global, holding: Holding) {
        let Line { draw, frames, to } = self;
        relay(rt, alloc, &*draw, holding, frames, &to);
        drop(draw);
        drop(to);
    }
}

/// The connections with the relay in their middle, and the threads that carry their frames.
#[derive(Drop)]
pub(crate) struct Wires<R: Threads + Wait + Drop> {
    rt: R,
    alloc: Global,
    draw: Arc<Draw>,
    holding: Holding,
    // the server's
    port: u16,
    threads: JoinSet<R>,
    // the clients' ends, to be closed if it comes to nothing
    streams: Vec<TcpStream>,
}

impl<
    R: Net<Listener = TcpListener, Stream = TcpStream>
        + Threads
        + Wait
        + Copy
        + Send
        + Sync
        + Drop
        + 'static,
> Wires<R> {
    /// A set of no connection yet. They will go to the server on this port.
    pub(crate) fn new(
        rt: R,
        alloc: Global,
        options: &PlayOptions,
        port: u16,
    ) -> Result<Self, AllocError> {
        Ok(Wires {
            rt,
            alloc,
            draw: Arc::new(alloc, Draw::new(options.lose, options.seed))?,
            holding: options.hold,
            port,
            threads: JoinSet::new(rt, alloc),
            streams: Vec::new(alloc),
        })
    }

    // Starts a thread.
    fn start<F: FnOnce() + Send + Drop + 'static>(&mut self, work: F) -> Result<(), AllocError>
        requires { F.pre work }
    {
        let rt = self.rt;
        self.threads.make_room()?;
        let handle = thread::spawn(&rt, work)?;
        self.threads.push(handle);
        Ok(())
    }

    // One direction of the relay between two connections.
    fn line(&self, from: &TcpStream, to: &TcpStream) -> Result<Line, PlayFault> {
        let to = twin(to)?;
        let frames = frames_of(self.alloc, from)?;
        let draw = Arc::try_clone(&self.draw)?;
        Ok(Line { draw, frames, to })
    }

    // Starts one direction of the relay.
    fn add_line(&mut self, from: &TcpStream, to: &TcpStream) -> Result<(), PlayFault> {
        let line = self.line(from, to)?;
        let (rt, alloc, holding) = (self.rt, self.alloc, self.holding);
        Ok(self.start(move || line.carry(&rt, alloc, holding))?)
    }

    // Starts both directions of the relay.
    fn add_lines(&mut self, near: &TcpStream, far: &TcpStream) -> Result<(), PlayFault> {
        self.add_line(near, far)?;
        self.add_line(far, near)
    }

    // Starts the relay between its end of a client's connection and a new one to the server.
    fn add_relay(&mut self, near: &TcpStream) -> Result<(), PlayFault> {
        let far = connect(&self.rt, self.port)?;
        let added = self.add_lines(near, &far);
        drop(far);
        added
    }

    // Starts what puts the messages that come to a client into this channel.
    fn add_listener(
        &mut self,
        client: &TcpStream,
        inbox: Sender<Message>,
    ) -> Result<(), PlayFault> {
        match frames_of(self.alloc, client) {
            Ok(frames) => {
                let rt = self.rt;
                Ok(self.start(move || listen(&rt, frames, inbox))?)
            }
            Err(fault) => {
                drop(inbox);
                Err(fault)
            }
        }
    }

    // Starts what listens for a client, and returns the inbox in which it finds what arrives.
    fn add_inbox(&mut self, client: &TcpStream) -> Result<Receiver<Message>, PlayFault> {
        let (sender, inbox) = crossbeam_channel::unbounded(self.alloc)?;
        match self.add_listener(client, sender) {
            Ok(()) => Ok(inbox),
            Err(fault) => {
                drop(inbox);
                Err(fault)
            }
        }
    }

    // Starts the threads that carry the frames of a connection, and returns the client's inbox.
    fn carry(
        &mut self,
        client: &TcpStream,
        near: &TcpStream,
    ) -> Result<Receiver<Message>, PlayFault> {
        self.streams.push(twin(client)?)?;
        self.add_relay(near)?;
        self.add_inbox(client)
    }

    /// Makes a connection, starts the threads that carry its frames, and returns the client's end.
    pub(crate) fn add(&mut self) -> Result<ClientEnd, PlayFault> {
        let (stream, near) = pair(&self.rt)?;
        let inbox = self.carry(&stream, &near);
        drop(near);
        match inbox {
            Ok(inbox) => Ok(ClientEnd { stream, inbox }),
            Err(fault) => {
                drop(stream);
                Err(fault)
            }
        }
    }

    /// Closes the clients' ends, whatever they still wait for.
    pub(crate) fn close(&self) {
        for stream in &self.streams {
            let _ = stream.shutdown(Shutdown::Both);
        }
    }

    /// Waits until the threads have ended.
    pub(crate) fn join(self) {
        let Wires {
            draw,
            threads,
            streams,
            ..
        } = self;
        threads.join();
        drop(draw);
        drop(streams);
    }
}
