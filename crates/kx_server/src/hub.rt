//! What the threads of a server share: its nodes with the readers of their logs, and over which
//! connection each client is answered.
ghost use Rattle.std.specs.Prelude.{◌≡◌, IfSome};
ghost use Rattle.kx_server.specs.Reading.{AreEndsOf, IsPageOf};

use crate::notices::Notices;
use crate::peer::Peer;
use crate::readers::Readers;
use crate::reading::{FromLog, LogEnds, read_ends, read_page};
use crate::routes::Routes;
use crate::sessions::{Member, Sessions};
use crate::watches::{Waker, Watches};
use kx_machine::Input;
use kx_message::{ClientId, Fetch, Message, NodeId, PartitionId};
use kx_nodes::{Gate, Handle, Node, NodeFault, Receipt};
use kx_published::book::Naming;
use kx_publishing::{PublishedMachine, PublishedNode, Readable, Tended};
use std::alloc::{AllocError, Global};
use std::mem;
use std::sync::{Arc, Mutex, Wait};

// While more messages than these wait for workers, no request is taken from a connection.
const FEW_WAITING: u64 = 4095;

/// A node of a server: its log may be published.
pub type ServedNode<L, J, R> = Node<PublishedMachine<L, J, R>>;

/// A node of a server, and the readers of its log, if that is published.
#[derive(Drop)]
pub struct Place<L: Readable, J: Naming, R: Wait + Drop> {
    // dropped before the node, whose drop waits until they have left
    pub(crate) readers: Option<Readers<J>>,
    pub(crate) node: Arc<ServedNode<L, J, R>>,
}

impl<L: Readable, J: Naming, R: Wait + Drop> Place<L, J, R> {
    /// A node without readers: each page is a step of the node.
    pub fn unread(node: Arc<ServedNode<L, J, R>>) -> Self {
        Place {
            readers: None,
            node,
        }
    }

    /// A node with readers of its published log, from which pages are read.
    pub fn published(node: Arc<ServedNode<L, J, R>>, readers: Readers<J>) -> Self {
        Place {
            readers: Some(readers),
            node,
        }
    }

    /// Whether pages are read from the published log of the node; else each is a step of it.
    pub fn is_published(&self) -> bool {
        self.readers.is_some()
    }
}

/// The nodes of a server, and who is a member of a group by their logs.
#[derive(Drop)]
pub struct Nodes<L: Readable, J: Naming, R: Wait + Drop> {
    /// The coordinator, the data partitions in order, and the offsets partition.
    pub places: Vec<Place<L, J, R>>,
    /// The members.
    pub members: Vec<Member>,
}

// Whether a step with this input may append to a partition's log what readers are to see.
fn may_append(input: &Input) -> bool {
    matches!(
        input,
        Input::Deliver(Message::Produce(_) | Message::WriteMarker(_) | Message::AddReply(_))
            | Input::Restart(_)
    )
}

/// Answers each client over the connection that spoke last for it.
#[derive(Drop)]
pub struct Answers<R: Wait + Drop> {
    rt: R,
    routes: Mutex<Routes>,
    watches: Watches,
}

impl<R: Wait + Drop> Answers<R> {
    /// With no connection yet.
    pub(crate) fn new(rt: R, routes: Routes, watches: Watches) -> Answers<R> {
        Answers {
            rt,
            routes: Mutex::new(routes),
            watches,
        }
    }

    /// Replies to a client go over this connection from now on.
    pub(crate) fn speaks(&self, client: ClientId, peer: &Arc<Peer>) -> Result<(), AllocError> {
        let mut routes = self.routes.lock(&self.rt);
        if !routes.is_of(client, peer) {
            routes.set(client, Arc::try_clone(peer)?)?;
        }
        Ok(())
    }

    /// Sends no reply over this connection any more.
    pub(crate) fn forget(&self, peer: &Peer) {
        self.routes.lock(&self.rt).forget(peer.number());
    }

    /// No connection speaks for this client any more.
    pub(crate) fn forget_client(&self, client: ClientId) {
        self.routes.lock(&self.rt).forget_client(client);
    }

    // Answers a client. A client for which no connection speaks gets no answer, and an answer for
    // which there is no memory is lost.
    fn answer(&self, client: ClientId, message: &Message) {
        let peer = self.routes.lock(&self.rt).of(client);
        if let Some(peer) = peer {
            if let Ok(copy) = message.clone() {
                peer.answer(&self.rt, copy);
            }
        }
    }

    // Answers the clients to which a step sends.
    fn answer_all(&self, messages: &[Message]) {
        for message in messages {
            if let NodeId::Client(client) = message.receiver() {
                self.answer(client, message);
            }
        }
    }
}

impl<R: Wait + Drop> Gate for Answers<R> {
    fn pass(&self, _ticket: u64) {}

    fn answered(&self, _ticket: u64, answer: &Result<Receipt, NodeFault>) {
        if let Ok(receipt) = answer {
            if may_append(&receipt.input) {
                self.watches.wake(&self.rt, receipt.node);
            }
            self.answer_all(receipt.taken.messages.as_slice());
        }
    }
}

/// What the threads of a server share.
#[derive(Drop)]
pub struct Hub<L: Readable, J: Naming, R: Wait + Drop> {
    alloc: Global,
    places: Vec<Place<L, J, R>>,
    nodes: Handle<PublishedMachine<L, J, R>, Answers<R>>,
    // the receipts of steps that no worker made; None once some were lost
    kept: Mutex<Option<Vec<Receipt>>>,
    pub(crate) sessions: Sessions,
    notices: Arc<Notices>,
}

impl<L: Readable, J: Naming, R: Wait + Drop> Hub<L, J, R> {
    /// Nodes with their readers, what their workers share, and the notices of all that.
    pub(crate) fn new(
        alloc: Global,
        places: Vec<Place<L, J, R>>,
        nodes: Handle<PublishedMachine<L, J, R>, Answers<R>>,
        notices: Arc<Notices>,
    ) -> Self {
        Hub {
            alloc,
            places,
            nodes,
            kept: Mutex::new(Some(Vec::new(alloc))),
            sessions: Sessions::new(alloc),
            notices,
        }
    }

    /// The notices for whoever runs the server.
    pub fn notices(&self) -> &Notices {
        &*self.notices
    }

    /// Replies to a client go over this connection from now on.
    pub fn speaks(&self, client: ClientId, peer: &Arc<Peer>) -> Result<(), AllocError> {
        self.nodes.gate().speaks(client, peer)
    }

    /// Sends no reply over this connection any more.
    pub fn forget(&self, peer: &Peer) {
        self.nodes.gate().forget(peer);
    }

    /// No connection speaks for this client any more.
    pub fn forget_client(&self, client: ClientId) {
        self.nodes.gate().forget_client(client);
    }

    /// The next append to a partition that readers see wakes this waker, once.
    pub fn watch(
        &self,
        rt: &R,
        partition: PartitionId,
        waker: Arc<Waker>,
    ) -> Result<(), AllocError> {
        self.nodes.gate().watches.add(rt, partition, waker)
    }

    /// No append to a partition wakes the waker of this connection any more.
    pub fn unwatch(&self, rt: &R, partition: PartitionId, peer: &Peer) {
        self.nodes
            .gate()
            .watches
            .remove(rt, partition, peer.number());
    }

    /// Waits while many messages wait for workers.
    pub fn wait_for_workers(&self, rt: &R) {
        self.nodes.wait_for_few(rt, FEW_WAITING);
    }

    // Keeps the receipt of a traced node's step. If memory runs out, all are lost.
    fn keep(&self, rt: &R, receipt: Receipt) {
        let mut kept = self.kept.lock(rt);
        let fits = match &mut *kept {
            Some(receipts) => receipts.push(receipt).is_ok(),
            None => false,
        };
        if !fits {
            *kept = None;
        }
    }

    /// The receipts of the steps of traced nodes that no worker made.
    ///
    /// # Errors
    ///
    /// Only if memory ran out for one of them.
    pub(crate) fn take_receipts(&self, rt: &R) -> Result<Vec<Receipt>, AllocError> {
        let mut kept = self.kept.lock(rt);
        match mem::replace(&mut *kept, Some(Vec::new(self.alloc))) {
            Some(receipts) => Ok(receipts),
            None => Err(AllocError),
        }
    }

    // The node of this name, if it is one of these.
    fn place(&self, name: NodeId) -> Option<&Place<L, J, R>> {
        self.places.iter().find(|place| place.node.name() == name)
    }

    // Whether receipts of the steps of the node of this name are kept.
    fn is_traced(&self, name: NodeId) -> bool {
        match self.place(name) {
            Some(place) => place.node.is_traced(),
            None => false,
        }
    }

    /// One step of the node of this name, and how many messages it sends. None if there is no
    /// such node, or no memory for a step; then there was none.
    pub(crate) fn step(&self, rt: &R, name: NodeId, input: Input) -> Option<usize> {
        let receipt = self.nodes.take(rt, name, input)?.ok()?;
        let count = receipt.taken.messages.as_slice().len();
        if self.is_traced(name) {
            self.keep(rt, receipt);
        }
        Some(count)
    }

    /// The coordinator ends the first transaction that has lasted too long at this time, in
    /// milliseconds since 1970. Says whether it sent anything.
    pub(crate) fn expire(&self, rt: &R, now: u64) -> bool {
        match self.step(rt, NodeId::Coordinator, Input::Expire(now)) {
            Some(count) => count > 0,
            None => false,
        }
    }

    /// The coordinator sends again the markers that weren't answered.
    pub(crate) fn remind(&self, rt: &R) {
        let _ = self.step(rt, NodeId::Coordinator, Input::Remind);
    }

    /// Drops members of groups whose clients weren't heard for this long, in milliseconds, now that
    /// so many have passed.
    pub(crate) fn drop_silent(&self, rt: &R, passed: u64, limit: u64) {
        self.sessions.pass(rt, passed);
        for _ in rt.forever() {
            let Some(member) = self.sessions.take_silent(rt, limit) else {
                break;
            };
            self.drop_member(rt, member);
        }
    }

    /// A member leaves its group without being asked.
    pub(crate) fn drop_member(&self, rt: &R, member: Member) {
        let offsets = NodeId::Partition(PartitionId::OFFSETS);
        let _ = self.step(rt, offsets, Input::Drop(member.group, member.client));
    }

    /// Each node whose log is closed is opened again, and each log that readers don't see yet is
    /// published. If that fails, it is tried again by the next call.
    pub(crate) fn tend(&self, rt: &R, now: u64) {
        for place in &self.places {
            if let Ok(Tended::Restarted(served)) = place.node.tend(rt, now) {
                let receipt = self.nodes.send_on(rt, served.receipt);
                if place.node.is_traced() {
                    self.keep(rt, receipt);
                }
            }
        }
    }

    /// A message arrives at the node that it names. Says whether the node took a step for it: if
    /// memory runs out, or the node's trace can't be written, the message is lost.
    pub fn deliver(&self, rt: &R, message: Message) -> bool {
        self.step(rt, message.receiver(), Input::Deliver(message))
            .is_some()
    }

    // The readers of the published log of a node. None if it isn't published.
    fn readers(&self, name: NodeId) -> Option<&Readers<J>> {
        self.place(name)?.readers.as_ref()
    }

    /// Where the published log of a partition ends: no step. None if it isn't published.
    pub fn ends(&self, rt: &R, partition: PartitionId) -> Option<FromLog<LogEnds, J>>
        ensures { IfSome result (λ read. AreEndsOf partition read.seen read.value) }
    {
        let readers = self.readers(NodeId::Partition(partition))?;
        let mut reader = readers.take(rt)?;
        let read = read_ends(partition, &mut reader);
        readers.give_back(rt, reader);
        read
    }

    /// The reply with the page that is asked for, read from the published log of its partition, so
    /// that the node takes no step. Returns None if the log isn't published or memory runs out.
    pub fn page(&self, rt: &R, fetch: &Fetch) -> Option<FromLog<Message, J>>
        ensures { IfSome result (λ read. IsPageOf fetch.now read.seen read.value) }
    {
        let readers = self.readers(NodeId::Partition(fetch.partition))?;
        let mut reader = readers.take(rt)?;
        let read = read_page(self.alloc, &mut reader, fetch);
        readers.give_back(rt, reader);
        read
    }
}
