//! What threads share of workers.
ghost use Rattle.std.specs.Prelude.{◌≡◌, IfOk, IfSome};
ghost use Rattle.kx_machine.specs.Meaning.{input_of};
ghost use Rattle.kx_nodes.specs.Taking.{IsAnswer};

use crate::fault::NodeFault;
use crate::gate::Gate;
use crate::locked::Locked;
use crate::receipt::Receipt;
use crate::shared::Shared;
use kx_machine::Input;
use kx_message::NodeId;
use std::sync::{Arc, Wait};

/// What threads share of workers: the nodes that they serve, and the gate. A thread that has one
/// makes steps of the nodes itself, beside the workers.
#[derive(Drop)]
pub struct Handle<L: Locked, G: Gate> {
    shared: Arc<Shared<L, G>>,
}

impl<L: Locked, G: Gate> Handle<L, G> {
    // One of these.
    pub(crate) fn of(shared: Arc<Shared<L, G>>) -> Handle<L, G> {
        Handle { shared }
    }

    /// The gate through which the steps go.
    pub fn gate(&self) -> &G {
        self.shared.gate()
    }

    /// One step of the node of this name, in the caller's own thread, with a ticket of its own,
    /// between the gate's two calls. What the step sends to nodes goes to their inboxes. None if
    /// no node of this name is served. A receipt is only returned, and isn't among those that
    /// [`Workers::end`](crate::Workers::end) returns.
    ///
    /// # Errors
    ///
    /// As [`Node::take`](crate::Node::take); `Memory` also if 2^64 - 1 tickets were given. Then
    /// there was no step.
    pub fn take<R: Wait>(
        &self,
        rt: &R,
        name: NodeId,
        input: Input,
    ) -> Option<Result<Receipt, NodeFault>>
        ensures input { IfSome result (λ answer. IfOk answer
            (λ receipt. receipt.input ≡ input)) }
        ensures answer { IfSome result (λ answer. IfOk answer
            (λ receipt. IsAnswer (input_of input) receipt.taken)) }
        ensures node { IfSome result (λ answer. IfOk answer
            (λ receipt. receipt.node ≡ name)) }
    {
        self.shared.take(rt, name, input)
    }

    /// Does what follows a step that the caller made under the lock of a node that is served: the
    /// gate sees its answer, with a ticket of its own, and what it sends to nodes goes to their
    /// inboxes. Returns the receipt of the step.
    pub fn send_on<R: Wait>(&self, rt: &R, receipt: Receipt) -> Receipt
        ensures { result ≡ receipt }
    {
        self.shared.send_on(rt, receipt)
    }

    /// Waits while more steps than these are under way or to come.
    pub fn wait_for_few<R: Wait>(&self, rt: &R, few: u64) {
        self.shared.wait_for_few(rt, few);
    }
}
