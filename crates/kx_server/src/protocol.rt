//! The protocol that clients speak with a server.
use crate::connection::Connection;
use crate::hub::Hub;
use crate::options::{Partitions, ServerOptions};
use crate::peer::Peer;
use kx_message::Message;
use kx_published::book::Naming;
use kx_publishing::Readable;
use std::alloc::{AllocError, Global};
use std::sync::{Arc, Wait};
use std::time::Clock;

/// A connection whose clients speak a protocol. Two threads serve it: one reads what arrives, and
/// the other writes what is answered.
pub trait Link: Drop {
    /// The other end of the connection.
    fn peer(&self) -> &Peer;

    /// Reads until either end closes the connection.
    fn read<L: Readable, J: Naming, R: Wait + Clock + Drop>(
        &self,
        rt: &R,
        alloc: Global,
        hub: &Hub<L, J, R>,
    );

    /// Writes until either end closes the connection.
    fn write<L: Readable, J: Naming, R: Wait + Clock + Drop>(
        &self,
        rt: &R,
        alloc: Global,
        hub: &Hub<L, J, R>,
    );
}

/// A protocol that clients speak over a server's connections.
pub trait Protocol: Drop {
    /// One connection.
    type Link: Link + Send + Sync + 'static;

    /// A connection of which nothing was read.
    ///
    /// # Errors
    ///
    /// If it can't be served, as if memory runs out. It is closed then.
    fn open<R: Wait>(
        &self,
        rt: &R,
        alloc: Global,
        peer: Arc<Peer>,
    ) -> Result<Self::Link, AllocError>;

    /// Whether members of groups that the log has may still be there when a server begins. If
    /// they can't, they leave their groups before a connection is served.
    fn may_return(&self) -> bool;

    /// What the core is asked for before a connection is served, since a server before left it
    /// undone.
    ///
    /// # Errors
    ///
    /// Only if memory runs out.
    fn left(&self, alloc: Global) -> Result<Vec<Message>, AllocError>;
}

/// The project's own protocol: frames of messages.
#[derive(Drop)]
pub struct OwnFrames {
    partitions: Partitions,
    // whether clients are heard, so that silent members can be dropped
    hears: bool,
}

impl OwnFrames {
    /// The protocol of a server that is asked for this: members of groups are heard if silent
    /// ones are dropped.
    pub fn of(options: &ServerOptions) -> OwnFrames {
        OwnFrames {
            partitions: options.partitions,
            hears: options.session_timeout.is_some(),
        }
    }
}

/// A connection whose clients send frames of messages.
#[derive(Drop)]
pub struct OwnLink {
    peer: Arc<Peer>,
    partitions: Partitions,
    hears: bool,
}

impl Protocol for OwnFrames {
    type Link = OwnLink;

    fn open<R: Wait>(
        &self,
        _rt: &R,
        _alloc: Global,
        peer: Arc<Peer>,
    ) -> Result<OwnLink, AllocError> {
        Ok(OwnLink {
            peer,
            partitions: self.partitions,
            hears: self.hears,
        })
    }

    fn may_return(&self) -> bool {
        true
    }

    fn left(&self, alloc: Global) -> Result<Vec<Message>, AllocError> {
        Ok(Vec::new(alloc))
    }
}

impl Link for OwnLink {
    fn peer(&self) -> &Peer {
        &*self.peer
    }

    fn read<L: Readable, J: Naming, R: Wait + Clock + Drop>(
        &self,
        rt: &R,
        alloc: Global,
        hub: &Hub<L, J, R>,
    ) {
        Connection::new(alloc, hub, &self.peer, self.partitions, self.hears).serve(rt);
    }

    fn write<L: Readable, J: Naming, R: Wait + Clock + Drop>(
        &self,
        rt: &R,
        alloc: Global,
        _hub: &Hub<L, J, R>,
    ) {
        self.peer.write_answers(rt, alloc);
    }
}
