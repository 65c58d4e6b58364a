//! A node that threads share.
ghost use Rattle.std.specs.Prelude.{◌≡◌, IfOk};
ghost use Rattle.kx_machine.specs.Meaning.{input_of};
ghost use Rattle.kx_nodes.specs.Taking.{IsAnswer};

use crate::fault::NodeFault;
use crate::locked::Locked;
use crate::receipt::Receipt;
use kx_machine::Input;
use kx_message::NodeId;
use std::marker::Model;
use std::sync::{Mutex, MutexGuard, Wait};

/// What threads share of a node: what is under its one lock, and its name. Each step is made
/// under the lock, as [`Locked::take`] makes it.
#[derive(Drop)]
pub struct Node<L: Locked> {
    name: NodeId,
    is_traced: bool,
    lock: Mutex<L>,
}

/// A node is seen as its name, which stays.
impl<L: Locked> Model for Node<L> {
    ghost use Rattle.std.specs.Prelude.{◌≡◌};
    ghost use Rattle.kx_message.specs.declared.message.NodeId.{NodeId};

    ghost Value = { NodeId };

    ghost view = { λ n. n.name };

    ghost invariant = { λ n. n.is_traced ≡ L.keeps_trace };
}

impl<L: Locked> Node<L> {
    /// A node that threads may share from now on.
    pub fn new(locked: L) -> Self
        ensures { result ≡ L.named locked }
    {
        Node {
            name: locked.name(),
            is_traced: locked.is_traced(),
            lock: Mutex::new(locked),
        }
    }

    /// Its name: where messages to it go.
    pub fn name(&self) -> NodeId
        ensures { result ≡ self.now }
    {
        self.name
    }

    /// Whether it keeps a trace of its steps, with which their receipts can be compared.
    pub fn is_traced(&self) -> bool
        ensures { result ≡ L.keeps_trace }
    {
        self.is_traced
    }

    /// One step, whose receipt names this node. Waits until no other thread makes one here.
    ///
    /// # Errors
    ///
    /// As [`Locked::take`]. Then there was no step.
    pub fn take<R: Wait>(&self, rt: &R, input: Input) -> Result<Receipt, NodeFault>
        ensures input { IfOk result (λ receipt. receipt.input ≡ input) }
        ensures answer { IfOk result (λ receipt. IsAnswer (input_of input) receipt.taken) }
        ensures node { IfOk result (λ receipt. receipt.node ≡ self.now) }
    {
        let Receipt {
            place,
            input,
            taken,
            ..
        } = self.lock.lock(rt).take(input)?;
        Ok(Receipt {
            node: self.name,
            place,
            input,
            taken,
        })
    }

    /// Waits until no thread makes a step here, and borrows what is under the lock.
    pub fn lock<R: Wait>(&self, rt: &R) -> MutexGuard<'_, L> {
        self.lock.lock(rt)
    }

    /// Ends the steps, and returns what stood under the lock.
    pub fn finish(self) -> L {
        let Node { lock, .. } = self;
        lock.into_inner()
    }
}
