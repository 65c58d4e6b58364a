//! What threads do with a node whose log is published.
ghost use Rattle.std.specs.Prelude.{◌≡◌, IfOk};

use crate::fault::PublishFault;
use crate::published_machine::{PublishedMachine, Tended};
use crate::readable::Readable;
use kx_message::NodeId;
use kx_nodes::{Node, NodeFault};
use kx_published::book::Naming;
use kx_published::ends::PageReader;
use kx_published::told::Told;
use std::sync::Wait;

/// A node whose log may be published. Publishes are made under the node's own lock, and readers
/// take no lock.
///
/// Dropping a node waits for readers that are in its log, so whatever holds both drops the reader
/// first.
pub trait PublishedNode<J: Naming, R: Wait> {
    ghost use Rattle.std.specs.Prelude.{◌≡◌, IfErr, IfOk};
    ghost use Rattle.kx_message.specs.declared.message.NodeId.{NodeId};
    ghost use Rattle.kx_message.specs.declared.message.NodeId.TheVariants as node;
    ghost use Rattle.kx_publishing.specs.Publishing.{MayRestart};
    ghost use Rattle.kx_publishing.specs.declared.fault.PublishFault.TheVariants.{NoReader};

    // the node's name
    ghost named: { Self → NodeId };

    /// Publishes the log as the steps so far have made it: readers that enter from now on see it.
    /// What it tells may go to any thread; a reader that learned it sees no log of an earlier
    /// publish any more.
    ///
    /// A reader that stays inside a published log makes the second publish after it wait, under the
    /// node's lock, so that steps wait as well. So a thread leaves before it takes a step here or
    /// publishes.
    ///
    /// # Errors
    ///
    /// As [`PublishedMachine::publish`]. Readers then see what they saw.
    fn publish(&self, rt: &R) -> Result<Told<J>, PublishFault>
        ensures { IfOk result (λ told. node.Partition told.partition ≡ named self.now) };

    /// A reader of the published log, which knows of the publishes so far. It may go to any thread,
    /// and keeps its place until it is dropped.
    ///
    /// # Errors
    ///
    /// As [`PublishedMachine::reader`].
    fn reader(&self, rt: &R) -> Result<PageReader<J>, PublishFault>
        ensures reader { IfOk result
            (λ reader. node.Partition reader.known.partition ≡ named self.now) }
        ensures full { IfErr result (λ fault. fault ≡ NoReader) };

    /// What the clock does for the node at this time, in milliseconds since 1970, as
    /// [`PublishedMachine::tend`] does it. Waits until no other thread makes a step here.
    ///
    /// # Errors
    ///
    /// As [`PublishedMachine::tend`]. Then there was no step.
    fn tend(&self, rt: &R, now: u64) -> Result<Tended, NodeFault>
        ensures { IfOk result (MayRestart now) };
}

impl<L: Readable, J: Naming, R: Wait + Drop> PublishedNode<J, R>
    for Node<PublishedMachine<L, J, R>> {
    ghost named = { λ name. name };

    fn publish(&self, rt: &R) -> Result<Told<J>, PublishFault> {
        let mut machine = self.lock(rt);
        let Some(partition) = machine.partition() else {
            return Err(PublishFault::NoReader);
        };
        // Never so, since the log of this partition was opened for it.
        if self.name() != NodeId::Partition(partition) {
            return Err(PublishFault::NoReader);
        }
        machine.publish()
    }

    fn reader(&self, rt: &R) -> Result<PageReader<J>, PublishFault> {
        let reader = self.lock(rt).reader()?;
        // Never so, since the log of this partition was opened for it.
        if self.name() != NodeId::Partition(reader.partition()) {
            return Err(PublishFault::NoReader);
        }
        Ok(reader)
    }

    fn tend(&self, rt: &R, now: u64) -> Result<Tended, NodeFault> {
        self.lock(rt).tend(now)
    }
}
