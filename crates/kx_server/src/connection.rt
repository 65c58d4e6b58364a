//! One connection: its requests are taken one after the other, each when the one before was.
use crate::asking::{asker, missing_partition};
use crate::hub::Hub;
use crate::options::Partitions;
use crate::peer::Peer;
use crate::speakers::Speakers;
use kx_message::{ClientId, Message};
use kx_notices::Closing;
use kx_published::book::Naming;
use kx_publishing::Readable;
use kx_stream::{FrameReader, StreamFault};
use std::alloc::{AllocError, Global};
use std::sync::{Arc, Wait};

/// A connection is closed by the server, and why.
#[derive(Drop)]
pub(crate) struct Closed(Closing);

/// Memory ran out.
impl From<AllocError> for Closed {
    fn from(_: AllocError) -> Self {
        Closed(Closing::Unanswered)
    }
}

/// The connection can't be read, or bytes arrived that are no frame.
impl From<StreamFault> for Closed {
    fn from(fault: StreamFault) -> Self {
        Closed(match fault {
            StreamFault::Read => Closing::Client,
            StreamFault::Write => Closing::Unwritten,
            StreamFault::Frame(_) if fault == StreamFault::from(AllocError) => Closing::Unanswered,
            StreamFault::Frame(_) => Closing::Frame,
        })
    }
}

// Why a connection closes whose requests were taken so far.
fn why_of(ended: &Result<(), Closed>) -> Closing {
    match ended {
        Ok(()) => Closing::Client,
        Err(Closed(why)) => *why,
    }
}

/// A connection whose requests a thread takes.
#[derive(Drop)]
pub(crate) struct Connection<'a, L: Readable, J: Naming, R: Wait + Drop> {
    alloc: Global,
    hub: &'a Hub<L, J, R>,
    peer: &'a Arc<Peer>,
    partitions: Partitions,
    hears: bool,
    speakers: Speakers,
}

impl<'a, L: Readable, J: Naming, R: Wait + Drop> Connection<'a, L, J, R> {
    /// A connection of which nothing was read.
    pub(crate) fn new(
        alloc: Global,
        hub: &'a Hub<L, J, R>,
        peer: &'a Arc<Peer>,
        partitions: Partitions,
        hears: bool,
    ) -> Self {
        Connection {
            alloc,
            hub,
            peer,
            partitions,
            hears,
            speakers: Speakers::new(alloc),
        }
    }

    // Notes that the connection speaks for a client.
    fn hear(&mut self, client: ClientId) -> Result<(), Closed> {
        if !self.speakers.hear(client)? {
            return Err(Closed(Closing::Crowded));
        }
        self.hub.speaks(client, self.peer)?;
        Ok(())
    }

    // One request: a page is read, and any other message is a step of its node.
    fn take(&mut self, rt: &R, message: Message) -> Result<(), Closed> {
        let Some(client) = asker(&message) else {
            return Err(Closed(Closing::Request));
        };
        self.hear(client)?;
        if self.hears {
            self.hub.sessions.hear(rt, client, &message)?;
        }
        if let Some(reply) = missing_partition(self.alloc, &message, self.partitions.get()) {
            self.peer.answer(rt, reply);
            return Ok(());
        }
        if let Message::Fetch(fetch) = &message {
            if let Some(page) = self.hub.page(rt, fetch) {
                self.peer.answer(rt, page.into_value());
                return Ok(());
            }
        }
        // (one that is lost is asked again)
        let _ = self.hub.deliver(rt, message);
        Ok(())
    }

    // Takes requests in turn, each when few replies wait for the connection.
    fn take_all(&mut self, rt: &R, messages: Vec<Message>) -> Result<(), Closed> {
        for message in messages {
            if !self.peer.is_ready(rt) {
                return Err(Closed(Closing::Unwritten));
            }
            self.hub.wait_for_workers(rt);
            self.take(rt, message)?;
        }
        Ok(())
    }

    // Takes requests until the other end closes. Bytes that are no frame close the connection once
    // the requests before them were taken.
    fn take_stream(&mut self, rt: &R) -> Result<(), Closed> {
        let mut frames = FrameReader::new(self.alloc)?;
        for _ in rt.forever() {
            match self.peer.next(&mut frames)? {
                Some(messages) => self.take_all(rt, messages)?,
                None => return Ok(()),
            }
        }
        Ok(())
    }

    /// Serves the connection until either end closes it. What was answered by then is written, also
    /// if bytes came that are no frame.
    pub(crate) fn serve(mut self, rt: &R) {
        let ended = self.take_stream(rt);
        self.peer.closes(rt, why_of(&ended));
        self.peer.finish(rt);
        self.hub.forget(self.peer);
        if ended.is_err() {
            self.peer.linger();
        }
    }
}
