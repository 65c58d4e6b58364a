//! What workers share: the nodes, the inboxes, and how many steps are still to come.
ghost use Rattle.std.specs.Prelude.{◌≡◌, ◌+◌, ◌-◌, IfOk, IfSome, None};
ghost use Rattle.kx_machine.specs.Meaning.{input_of};
ghost use Rattle.kx_nodes.specs.Taking.{IsAnswer};

use crate::fault::{HandFault, NodeFault};
use crate::gate::Gate;
use crate::locked::Locked;
use crate::node::Node;
use crate::receipt::Receipt;
use crossbeam_channel::{Receiver, Sender};
use kx_machine::Input;
use kx_message::NodeId;
use std::alloc::Global;
use std::mem;
use std::sync::{Arc, Condvar, Mutex, Wait};

/// An input for a node, by the node's place among those that are served.
#[derive(Drop)]
pub(crate) struct Task {
    ticket: u64,
    node: usize,
    input: Input,
}

// How many tickets were given, and how many of their steps aren't over.
#[derive(Drop)]
struct Counts {
    given: u64,
    open: u64,
}

impl Counts {
    // Gives the next ticket, whose step is still to come. None if all were given.
    fn open(&mut self) -> Option<u64>
        ensures some { IfSome result (λ ticket. (ticket ≡ self.old.given + 1)
            × (self.new.given ≡ ticket) × (self.new.open ≡ self.old.open + 1)) }
        ensures none { result ≡ None → self.new ≡ self.old }
    {
        let given = self.given.checked_add(1)?;
        self.open = self.open.checked_add(1)?;
        self.given = given;
        Some(given)
    }

    // A step is over.
    fn close(&mut self)
        ensures { (self.new.given ≡ self.old.given) × (self.new.open ≡ self.old.open - 1) }
    {
        self.open = self.open.saturating_sub(1);
    }
}

/// What workers share.
#[derive(Drop)]
pub(crate) struct Shared<L: Locked, G: Gate> {
    nodes: Vec<Arc<Node<L>>>,
    gate: G,
    inboxes: Mutex<Vec<Sender<Task>>>,
    counts: Mutex<Counts>,
    moved: Condvar,
}

impl<L: Locked, G: Gate> Shared<L, G> {
    /// Nodes, and an inbox for each worker.
    pub(crate) fn new(
        nodes: Vec<Arc<Node<L>>>,
        gate: G,
        inboxes: Vec<Sender<Task>>,
    ) -> Shared<L, G> {
        Shared {
            nodes,
            gate,
            inboxes: Mutex::new(inboxes),
            counts: Mutex::new(Counts { given: 0, open: 0 }),
            moved: Condvar::new(),
        }
    }

    // Gives the next ticket, whose step is still to come. None if all were given.
    fn open_one<R: Wait>(&self, rt: &R) -> Option<u64> {
        self.counts.lock(rt).open()
    }

    // A step is over.
    fn close_one<R: Wait>(&self, rt: &R) {
        self.counts.lock(rt).close();
        self.moved.notify_all();
    }

    // Puts a task into the inbox of its node's worker.
    fn post<R: Wait>(&self, rt: &R, task: Task) -> bool {
        let inboxes = self.inboxes.lock(rt);
        let count = inboxes.len();
        if count == 0 {
            return false;
        }
        inboxes[task.node % count].send(rt, task).is_ok()
    }

    /// Puts an input into the inbox of a node's worker, and gives its ticket.
    pub(crate) fn send<R: Wait>(
        &self,
        rt: &R,
        node: usize,
        input: Input,
    ) -> Result<u64, HandFault> {
        let Some(ticket) = self.open_one(rt) else {
            return Err(HandFault::UsedUp);
        };
        let task = Task {
            ticket,
            node,
            input,
        };
        if self.post(rt, task) {
            Ok(ticket)
        } else {
            self.close_one(rt);
            Err(HandFault::Memory)
        }
    }

    /// The gate.
    pub(crate) fn gate(&self) -> &G {
        &self.gate
    }

    // The place of the node of this name, if it is one of these.
    fn place_of(&self, name: NodeId) -> Option<usize> {
        self.nodes.iter().position(|node| node.name() == name)
    }

    // Sends on what a step sent to nodes of these. A message for which there is no memory is lost.
    fn pass_on<R: Wait>(&self, rt: &R, receipt: &Receipt) {
        for message in receipt.taken.messages.as_slice() {
            if let Some(node) = self.place_of(message.receiver()) {
                if let Ok(copy) = message.clone() {
                    let _ = self.send(rt, node, Input::Deliver(copy));
                }
            }
        }
    }

    // What follows a step: the gate sees its answer, and what it sends to nodes of these goes to
    // their inboxes. Then it is over.
    fn follow<R: Wait>(&self, rt: &R, ticket: u64, answer: &Result<Receipt, NodeFault>) {
        self.gate.answered(ticket, answer);
        if let Ok(receipt) = answer {
            self.pass_on(rt, receipt);
        }
        self.close_one(rt);
    }

    // Whether the steps of the node at this place leave receipts: where it keeps a trace.
    fn leaves_receipts(&self, place: usize) -> bool {
        match self.nodes.get(place) {
            Some(node) => node.is_traced(),
            None => false,
        }
    }

    // One step, for whose receipt there is room. The receipt is kept if it can be compared with
    // the node's trace.
    fn step<R: Wait>(&self, rt: &R, task: Task, receipts: &mut Vec<Receipt>) {
        let Task {
            ticket,
            node,
            input,
        } = task;
        self.gate.pass(ticket);
        let answer = match self.nodes.get(node) {
            Some(node) if receipts.reserve(1).is_ok() => node.take(rt, input),
            _ => Err(NodeFault::Memory),
        };
        self.follow(rt, ticket, &answer);
        if let Ok(receipt) = answer {
            if self.leaves_receipts(node) {
                let _ = receipts.push(receipt);
            }
        }
    }

    // One step of a node, in the caller's own thread.
    fn take_here<R: Wait>(&self, rt: &R, node: &Node<L>, input: Input) -> Result<Receipt, NodeFault>
        ensures input { IfOk result (λ receipt. receipt.input ≡ input) }
        ensures answer { IfOk result (λ receipt. IsAnswer (input_of input) receipt.taken) }
        ensures node { IfOk result (λ receipt. receipt.node ≡ node.now) }
    {
        let Some(ticket) = self.open_one(rt) else {
            return Err(NodeFault::Memory);
        };
        self.gate.pass(ticket);
        let answer = node.take(rt, input);
        self.follow(rt, ticket, &answer);
        answer
    }

    /// Does what follows a step that the caller made, with a ticket of its own, and returns its
    /// receipt. If no ticket is left, what the step sends is lost.
    pub(crate) fn send_on<R: Wait>(&self, rt: &R, receipt: Receipt) -> Receipt
        ensures { result ≡ receipt }
    {
        let Some(ticket) = self.open_one(rt) else {
            return receipt;
        };
        let answer = Ok(receipt);
        self.follow(rt, ticket, &answer);
        let Ok(receipt) = answer else {
            unreachable!();
        };
        receipt
    }

    /// One step of the node of this name in the caller's own thread. None if it is none of
    /// these.
    pub(crate) fn take<R: Wait>(
        &self,
        rt: &R,
        name: NodeId,
        input: Input,
    ) -> Option<Result<Receipt, NodeFault>>
        ensures input { IfSome result (λ answer. IfOk answer
            (λ receipt. receipt.input ≡ input)) }
        ensures answer { IfSome result (λ answer. IfOk answer
            (λ receipt. IsAnswer (input_of input) receipt.taken)) }
        ensures node { IfSome result (λ answer. IfOk answer
            (λ receipt. receipt.node ≡ name)) }
    {
        for node in &self.nodes {
            if node.name() == name {
                return Some(self.take_here(rt, node, input));
            }
        }
        None
    }

    /// What a worker does: makes the steps of its inbox, until the inbox is empty and no sender of
    /// it is left. Returns the receipts of traced nodes' steps.
    pub(crate) fn work<R: Wait>(
        &self,
        rt: &R,
        inbox: &Receiver<Task>,
        alloc: Global,
    ) -> Vec<Receipt> {
        let mut receipts = Vec::new(alloc);
        for task in inbox.iter(rt) {
            self.step(rt, task, &mut receipts);
        }
        receipts
    }

    /// Waits while more steps than these are under way or to come.
    pub(crate) fn wait_for_few<R: Wait>(&self, rt: &R, few: u64) {
        let counts = self
            .moved
            .wait_while(rt, self.counts.lock(rt), |counts| counts.open > few);
        drop(counts);
    }

    /// Waits until no step is under way and none is to come.
    pub(crate) fn settle<R: Wait>(&self, rt: &R) {
        self.wait_for_few(rt, 0);
    }

    /// Waits until no step is under way and none is to come, and then drops the inboxes.
    pub(crate) fn close<R: Wait>(&self, rt: &R, alloc: Global) {
        self.settle(rt);
        let inboxes = mem::replace(&mut *self.inboxes.lock(rt), Vec::new(alloc));
        drop(inboxes);
    }
}
