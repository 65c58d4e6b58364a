//! Kafka's protocol, as a server's connections speak it.
use crate::advertised::{Address, Advertised};
use crate::answering::Session;
use crate::fault::{GatewayFault, GatewayFile};
use crate::foreign::Foreign;
use crate::groups::Groups;
use crate::kept::Lines;
use crate::left::{aborts_of, id_for_nobody};
use crate::link::StockLink;
use crate::named::Named;
use crate::numbers::{Numbers, span_in};
use crate::owners::{note_members, note_owners};
use crate::producers::Producers;
use crate::table::Table;
use kx_gateway::Topics;
use kx_message::{EndTxn, Message, Timeout};
use kx_published::book::Naming;
use kx_publishing::Readable;
use kx_server::{Hub, Link, Peer, Protocol};
use kx_txnlog::Entry;
use std::alloc::{AllocError, Global};
use std::fs::{File, Files};
use std::sync::{Arc, Wait};
use std::time::{Clock, Duration, Instant};

/// What all connections of stock clients share.
#[derive(Drop)]
pub(crate) struct Shared {
    pub(crate) table: Table,
    pub(crate) numbers: Numbers,
    pub(crate) producers: Producers,
    pub(crate) foreign: Foreign,
    pub(crate) named: Named,
    pub(crate) groups: Groups,
    // when the server began
    pub(crate) begun: Option<Instant>,
    // for how long a connection may ask for nothing, if not for ever
    pub(crate) idle: Option<Duration>,
    pub(crate) address: Address,
}

/// What stock clients find from the start.
#[derive(Clone, Copy)]
pub struct GatewayOptions<'a> {
    /// The topics that are asked for.
    pub topics: &'a Topics,
    /// How many topics are made at most, with one partition each, when clients first ask for them.
    pub auto_topics: u16,
    /// For how long a connection may ask for nothing until it is closed; None closes none.
    pub idle: Option<Timeout>,
    /// Where clients are told to find the broker; None is 127.0.0.1 and the port on which the server
    /// listens.
    pub advertise: Option<Advertised<'a>>,
    /// The folder of the tables of topics and client numbers, which is there; None keeps them in
    /// memory.
    pub dir: Option<&'a str>,
    /// The folder's number, by the list of its files; 0 without a folder.
    pub folder_number: u64,
    /// One above the greatest producer id that the logs of partitions name, 0 if they name none: no
    /// client is given one below.
    pub named_ids: u64,
    /// How many producer ids are allocated to nobody before a connection is served, since the logs of
    /// partitions name them already.
    pub skipped_ids: u32,
}

/// The protocol of stock clients.
#[derive(Drop)]
pub struct Kafka {
    shared: Arc<Shared>,
    skipped_ids: u32,
    // what ends the server's own transactions that are under way from before
    left: Vec<EndTxn>,
}

impl Kafka {
    /// The protocol over the tables of a folder, with what the coordinator's log says of
    /// transactional ids. A line on standard error names those that stock clients can't have.
    ///
    /// # Errors
    ///
    /// As [`GatewayFault`] has them.
    pub fn open<R: Files<File = File> + AllocGlobal + Clock + Eprint>(
        rt: &R,
        options: &GatewayOptions<'_>,
        entries: &[Entry],
    ) -> Result<Kafka, GatewayFault> {
        let alloc = rt.alloc();
        let topics = Lines::open(rt, options.dir, options.folder_number, GatewayFile::Topics)?;
        let mut clients = Lines::open(
            rt,
            options.dir,
            options.folder_number,
            GatewayFile::Clients,
        )?;
        let mut span = span_in(alloc, &mut clients)?;
        note_owners(&mut span, entries);
        note_members(rt, options.dir, &mut span)?;
        let foreign = Foreign::of(alloc, &span, entries)?;
        foreign.tell(rt);
        let shared = Shared {
            table: Table::open(alloc, topics, options.topics, options.auto_topics)?,
            numbers: Numbers::new(alloc, span, clients),
            producers: Producers::open(alloc, entries)?,
            groups: Groups::new(alloc, foreign.places(alloc)?),
            foreign,
            named: Named::below(options.named_ids, options.skipped_ids),
            begun: Instant::now(rt).ok(),
            idle: options
                .idle
                .map(|idle| Duration::from_millis(u64::from(idle.get()))),
            address: Address::of(alloc, options.advertise)?,
        };
        let left = aborts_of(alloc, entries)?;
        match Arc::new(alloc, shared) {
            Ok(shared) => Ok(Kafka {
                shared,
                skipped_ids: options.skipped_ids,
                left,
            }),
            Err(_) => Err(GatewayFault::Memory),
        }
    }
}

impl Protocol for Kafka {
    type Link = StockLink;

    fn open<R: Wait>(
        &self,
        rt: &R,
        alloc: Global,
        peer: Arc<Peer>,
    ) -> Result<StockLink, AllocError> {
        let shared = Arc::try_clone(&self.shared)?;
        match shared.numbers.take(rt) {
            Some(client) => StockLink::new(alloc, shared, peer, client),
            None => Err(AllocError),
        }
    }

    // The server knows its members' sessions only while it runs.
    fn may_return(&self) -> bool {
        false
    }

    fn left(&self, alloc: Global) -> Result<Vec<Message>, AllocError> {
        let mut messages = Vec::new(alloc);
        for _ in 0..self.skipped_ids {
            messages.push(id_for_nobody())?;
        }
        for end in &self.left {
            messages.push(Message::EndTxn(*end))?;
        }
        Ok(messages)
    }
}

impl Link for StockLink {
    fn peer(&self) -> &Peer {
        &*self.peer
    }

    fn read<L: Readable, J: Naming, R: Wait + Clock + Drop>(
        &self,
        rt: &R,
        alloc: Global,
        _hub: &Hub<L, J, R>,
    ) {
        self.take_requests(rt, alloc);
    }

    fn write<L: Readable, J: Naming, R: Wait + Clock + Drop>(
        &self,
        rt: &R,
        alloc: Global,
        hub: &Hub<L, J, R>,
    ) {
        let session = Session {
            rt,
            alloc,
            hub,
            link: self,
        };
        session.answer_all();
    }
}
