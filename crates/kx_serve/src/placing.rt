//! A server's nodes, with the readers of their logs.
//!
//! A log in which another program wrote (a leader epoch, a longer marker) can't be copied byte by
//! byte by produce and marker, so its pages are steps of the node.
ghost use Rattle.std.specs.Prelude.{All};
ghost use Rattle.kx_bounded.specs.Bounds.{IsWithin};
ghost use Rattle.kx_machine.specs.Meaning.{NodeState};
ghost use Rattle.kx_serve.specs.Opening.{IsItsBook, IsReady, Serves};

use crate::files::LogFile;
use crate::folder::Folder;
use kx_nodes::Node;
use kx_published::book::{Naming, Opened};
use kx_publishing::{PublishedMachine, Publishes, Readable, wrote_itself};
use kx_server::{Connections, MOST_READERS, Member, Nodes, Place, Readers};
use std::alloc::{AllocError, Global};
use std::sync::{Arc, Wait};

/// A partition's node, whose log was opened, and the book of the log that it publishes.
#[derive(Drop)]
pub(crate) struct OpenedNode<L: Drop> {
    pub(crate) locked: L,
    pub(crate) opened: Opened,
}

/// The nodes of a server, as their logs were opened, and who is a member of a group by their logs.
#[derive(Drop)]
pub(crate) struct OpenedNodes<L: Drop> {
    pub(crate) coordinator: L,
    /// the data partitions in order, and the offsets partition
    pub(crate) partitions: Vec<OpenedNode<L>>,
    pub(crate) members: Vec<Member>,
}

// A node whose log isn't published.
fn unpublished<L: Readable, J: Naming, R: Wait + Drop>(
    alloc: Global,
    locked: L,
) -> Result<Place<L, J, R>, AllocError>
    requires { (node : NodeState) × L.stands node locked }
{
    let node = Arc::new(alloc, Node::new(PublishedMachine::new(locked)))?;
    Ok(Place::unread(node))
}

// A partition's node, whose log was opened, and the readers of its log, at most this many at a
// time. A log that another program wrote, with a leader epoch or a longer spelling of a marker,
// isn't published, since published copies are written by a partition; its pages are steps of the
// node.
fn placed<L: Readable, J: Naming, R: Wait + Drop + Copy>(
    rt: R,
    alloc: Global,
    locked: L,
    opened: Opened,
    readers: usize,
) -> Result<Place<L, J, R>, AllocError>
    requires serves { Serves L.stands L.log opened.partition locked }
    requires readers { IsWithin 1 1024 readers }
    requires book { IsItsBook J.book opened }
{
    if !wrote_itself(opened.partition, &locked) {
        return unpublished(alloc, locked);
    }
    let when = Publishes::EachStep;
    let machine = PublishedMachine::publishing(rt, alloc, locked, opened, readers, when)?;
    let node = Arc::new(alloc, Node::new(machine))?;
    let readers = Readers::of(&rt, alloc, &node, readers)?;
    Ok(Place::published(node, readers))
}

/// What nodes are placed with.
#[derive(Drop)]
pub(crate) struct Placing<'a, F: Folder, R: Drop> {
    pub(crate) rt: R,
    pub(crate) alloc: Global,
    pub(crate) folder: &'a F,
    /// how many connections are served, and so how many pages at most are taken at a time
    pub(crate) connections: Connections,
}

impl<'a, F: Folder, R: Wait + Drop + Copy> Placing<'a, F, R> {
    // Places a partition's node, and warns if its log isn't published.
    fn place<L: Readable, J: Naming>(
        &self,
        node: OpenedNode<L>,
    ) -> Result<Place<L, J, R>, AllocError>
        requires { IsReady L.stands L.log J.book node }
    {
        let OpenedNode { locked, opened } = node;
        let file = LogFile::of(opened.partition);
        let readers = usize::from(self.connections.get()).min(MOST_READERS);
        let place = placed(self.rt, self.alloc, locked, opened, readers)?;
        if !place.is_published() {
            self.folder.warn(
                file,
                "another program wrote a batch; pages are steps of the node",
            );
        }
        Ok(place)
    }

    // Places the partitions' nodes in order.
    fn place_partitions<L: Readable, J: Naming>(
        &self,
        places: &mut Vec<Place<L, J, R>>,
        partitions: Vec<OpenedNode<L>>,
    ) -> Result<(), AllocError>
        requires { All (IsReady L.stands L.log J.book) partitions.items }
    {
        for node in partitions {
            let place = self.place(node)?;
            places.push(place)?;
        }
        Ok(())
    }

    /// Places the nodes in order.
    ///
    /// # Errors
    ///
    /// Only if memory runs out.
    pub(crate) fn place_all<L: Readable, J: Naming>(
        &self,
        nodes: OpenedNodes<L>,
    ) -> Result<Nodes<L, J, R>, AllocError>
        requires coordinator { (node : NodeState) × L.stands node nodes.coordinator }
        requires partitions { All (IsReady L.stands L.log J.book) nodes.partitions.items }
    {
        let OpenedNodes {
            coordinator,
            partitions,
            members,
        } = nodes;
        let mut places = Vec::new(self.alloc);
        places.push(unpublished(self.alloc, coordinator)?)?;
        self.place_partitions(&mut places, partitions)?;
        Ok(Nodes { places, members })
    }
}
