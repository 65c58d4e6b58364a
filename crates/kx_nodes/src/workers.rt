//! Threads that serve nodes.
ghost use Rattle.std.specs.Prelude.{◌≡◌, ◌<◌, ◌≤◌, IfOk, vec_len};

use crate::fault::HandFault;
use crate::gate::Gate;
use crate::handle::Handle;
use crate::locked::Locked;
use crate::node::Node;
use crate::receipt::Receipt;
use crate::shared::{Shared, Task};
use crossbeam_channel::Receiver;
use kx_machine::Input;
use std::alloc::{AllocError, Global};
use std::marker::Model;
use std::sync::{Arc, Wait};
use std::thread;
use std::thread::{JoinHandle, Threads};

/// Running threads that serve nodes. Each thread has an inbox with room for any number of inputs,
/// and each node is served by one thread. What a step sends to one of these nodes goes to the inbox
/// of that node's thread, with a ticket of its own; if there is no memory or no ticket for it,
/// it is lost. Only steps of nodes that keep a trace leave receipts. The threads are ended by
/// [`end`](Workers::end).
pub struct Workers<L: Locked, G: Gate, R: Threads + Wait> {
    rt: R,
    alloc: Global,
    // how many nodes are served
    served: usize,
    shared: Arc<Shared<L, G>>,
    handles: Vec<JoinHandle<Vec<Receipt>>>,
}

/// Workers are seen as the number of nodes that they serve.
impl<L: Locked, G: Gate, R: Threads + Wait> Model for Workers<L, G, R> {
    ghost use Rattle.std.specs.Prelude.{ℕ};

    ghost Value = { ℕ };

    ghost view = { λ w. w.served };
}

impl<
    L: Locked + Send + 'static,
    G: Gate + Send + Sync + 'static,
    R: Threads + Wait + Copy + Send + 'static,
> Workers<L, G, R> {
    /// Starts `count` threads that serve these nodes behind a gate.
    ///
    /// # Errors
    ///
    /// Only if memory or threads run out; then those that were started have ended.
    pub fn start(
        rt: R,
        alloc: Global,
        nodes: Vec<Arc<Node<L>>>,
        count: usize,
        gate: G,
    ) -> Result<Workers<L, G, R>, AllocError>
        requires { 1 ≤ count }
        ensures { IfOk result (λ workers. workers ≡ vec_len nodes) }
    {
        let served = nodes.len();
        let mut inboxes = Vec::new(alloc);
        let mut receivers = Vec::new(alloc);
        for _ in 0..count {
            let (sender, receiver) = crossbeam_channel::unbounded(alloc)?;
            inboxes.push(sender)?;
            receivers.push(receiver)?;
        }
        let mut workers = Workers {
            rt,
            alloc,
            served,
            shared: Arc::new(alloc, Shared::new(nodes, gate, inboxes))?,
            handles: Vec::new(alloc),
        };
        if workers.add_all(receivers) {
            return Ok(workers);
        }
        // The threads that were started were handed nothing, so they have no receipts.
        let _ = workers.end();
        Err(AllocError)
    }

    // Starts a thread for each inbox.
    fn add_all(&mut self, inboxes: Vec<Receiver<Task>>) -> bool
        ensures { self.new ≡ self.old }
    {
        for inbox in inboxes {
            if !self.add(inbox) {
                return false;
            }
        }
        true
    }

    // Starts a thread. Room for its handle is made first, so that none is lost.
    fn add(&mut self, inbox: Receiver<Task>) -> bool
        ensures { self.new ≡ self.old }
    {
        let (rt, alloc) = (self.rt, self.alloc);
        let Ok(theirs) = Arc::try_clone(&self.shared) else {
            return false;
        };
        if self.handles.reserve(1).is_err() {
            return false;
        }
        let Ok(handle) = thread::spawn(&rt, move || theirs.work(&rt, &inbox, alloc)) else {
            return false;
        };
        self.handles.push_reserved(handle);
        true
    }

    /// How many nodes are served.
    pub fn served(&self) -> usize
        ensures { result ≡ self.now }
    {
        self.served
    }

    /// Hands an input to a node, by its place among those that were given, from 0, and gives the
    /// ticket of its step. Tickets are counted from 1.
    ///
    /// # Errors
    ///
    /// `Memory` if memory runs out, `UsedUp` if 2^64 - 1 tickets were given. Then there is no
    /// step.
    pub fn hand(&self, node: usize, input: Input) -> Result<u64, HandFault>
        requires { node < self.now }
    {
        self.shared.send(&self.rt, node, input)
    }

    /// What other threads share of the workers.
    ///
    /// # Errors
    ///
    /// Only if 2^63 - 1 of them exist.
    pub fn handle(&self) -> Result<Handle<L, G>, AllocError> {
        Ok(Handle::of(Arc::try_clone(&self.shared)?))
    }

    /// Waits until the inboxes are empty and no step is under way. What other threads hand in
    /// meanwhile is waited for as well.
    pub fn settle(&self) {
        self.shared.settle(&self.rt);
    }

    /// Waits until the inboxes are empty and no step is under way, and ends the threads, which then
    /// have none of the nodes. Returns the receipts of all steps of traced nodes, in any order.
    ///
    /// # Errors
    ///
    /// Only if memory runs out; then the threads have ended as well, and receipts are lost.
    pub fn end(self) -> Result<Vec<Receipt>, AllocError> {
        let Workers {
            rt,
            alloc,
            served: _,
            shared,
            handles,
        } = self;
        shared.close(&rt, alloc);
        let mut all = Vec::new(alloc);
        let mut fits = true;
        for handle in handles {
            let mut theirs = handle.join(&rt);
            fits = all.append(&mut theirs).is_ok() && fits;
        }
        if fits { Ok(all) } else { Err(AllocError) }
    }
}
