//! A world of running nodes under a script, and which appends of its nodes are to fail.
ghost use Rattle.std.specs.Prelude.{◌≡◌, None, Ok, IfOk, MatchOption, MatchResult, is_some, length};
ghost use Rattle.std.specs.Prelude.{option_copied, slice_get, true};
ghost use Rattle.kx_core.specs.Local.{IsLocal};
ghost use Rattle.kx_core.specs.Sent.{joined};
ghost use Rattle.kx_core.specs.World.{Steps};
ghost use Rattle.kx_model.specs.Page.{answer_to};
ghost use Rattle.kx_model.specs.World.{client_at, log_at, notes, partition_at};
ghost use Rattle.kx_partition.specs.Fetch.{FetchRefuses};
ghost use Rattle.kx_processor.specs.Prefixed.{images_of};
ghost use Rattle.kx_script.specs.Session.{has_node, has_partition, opening};
ghost use Rattle.kx_system.specs.System.{System};

use crate::marks::Marks;
use kx_core::{Config, Event, Happened, LocalWorld, PartitionCount, Sent};
use kx_machines::LocalStore;
use kx_message::{ClientId, Message, NodeId, PartitionId};
use kx_partition::{FetchFault, FetchPage, Partition};
use kx_processor::Prefixed;
use std::alloc::{AllocError, Global};

/// A world in memory, whose processors are those of scripts.
pub type ScriptWorld = LocalWorld<Prefixed>;

/// A world, and which appends of its nodes are to fail.
#[derive(Drop)]
pub struct Running {
    /// The world.
    pub world: ScriptWorld,
    /// The appends that are to fail.
    pub marks: Marks,
}

impl Running {
    ghost use Rattle.kx_script.specs.Running.{StandsFor};

    /// A world of this many data partitions and all other nodes, with empty logs, in which no
    /// append is to fail.
    ///
    /// # Errors
    ///
    /// Only if memory runs out.
    pub fn new(alloc: Global, partitions: PartitionCount) -> Result<Running, AllocError>
        ensures { IfOk result (λ running. StandsFor running (opening partitions)) }
    {
        let world = ScriptWorld::new(alloc, Config { partitions })?;
        Ok(Running {
            world,
            marks: Marks::none(),
        })
    }

    /// An event happens in the world, and one node makes one step: what it answers, and whether its
    /// store failed.
    ///
    /// # Errors
    ///
    /// As of [`World::happen`](kx_core::World::happen), only if memory runs out; then the world
    /// stands for what it stood for.
    pub fn happen(&mut self, event: &Event<Prefixed>) -> Result<Happened, AllocError>
        ensures step { (s : System) → IsLocal images_of self.old.world s → MatchResult result
            (Steps images_of s event.now (IsLocal images_of self.new.world))
            (λ refused. IsLocal images_of self.new.world s) }
        ensures marks { self.new.marks ≡ self.old.marks }
    {
        self.world.happen(event)
    }

    /// All messages that were ever sent, step by step.
    pub fn sent(&self) -> &Sent
        ensures { (s : System) → IsLocal images_of self.now.world s
            → joined result.now.steps ≡ s.world.sent }
    {
        all_sent(&self.world)
    }

    /// The partition of this number, borrowed, the offsets partition among them; None if it isn't
    /// there.
    pub fn partition(&self, number: PartitionId) -> Option<&Partition<LocalStore>>
        ensures { (s : System) → IsLocal images_of self.now.world s → MatchOption result
            (partition_at s.world number ≡ None)
            (λ partition. partition.now.batches ≡ log_at s.world number) }
    {
        if number.is_data() {
            let server = self.world.partition(number)?;
            return Some(server.partition());
        }
        Some(self.world.offsets().groups().partition())
    }

    /// How many entries the log of the coordinator has.
    pub fn entry_count(&self) -> usize
        ensures { (s : System) → IsLocal images_of self.now.world s
            → result ≡ length (notes s.world) }
    {
        self.world.coordinator().coordinator().entry_count()
    }

    /// Drops the world. A crate that ends it by this call, and not by dropping it, need not prove the
    /// drop of each of its types.
    pub fn end(self) {
        drop(self);
    }
}

// Whether a client is there.
pub(crate) fn has_client(world: &ScriptWorld, client: ClientId) -> bool
    ensures { (s : System) → IsLocal images_of world.now s
        → result ≡ is_some (client_at s.world client) }
{
    world.client(client).is_some()
}

// Whether a data partition is there.
pub(crate) fn has_partition(world: &ScriptWorld, partition: PartitionId) -> bool
    ensures { (s : System) → IsLocal images_of world.now s
        → result ≡ has_partition s.world partition }
{
    usize::from(partition.get()) < world.partitions()
}

// Whether a node is there that has a log.
pub(crate) fn has_node(world: &ScriptWorld, node: &NodeId) -> bool
    ensures { (s : System) → IsLocal images_of world.now s → result ≡ has_node s.world node.now }
{
    match node {
        NodeId::Coordinator => true,
        NodeId::Partition(partition) if !partition.is_data() => true,
        NodeId::Partition(partition) => has_partition(world, *partition),
        NodeId::Client(_) => false,
    }
}

// All messages that were ever sent.
fn all_sent(world: &ScriptWorld) -> &Sent
    ensures { (s : System) → IsLocal images_of world.now s
        → joined result.now.steps ≡ s.world.sent }
{
    world.sent()
}

// How many messages were ever sent.
pub(crate) fn sent(world: &ScriptWorld) -> usize
    ensures { (s : System) → IsLocal images_of world.now s → result ≡ length s.world.sent }
{
    all_sent(world).len()
}

// The message of this number.
pub(crate) fn message(world: &ScriptWorld, number: usize) -> Option<&Message>
    ensures { (s : System) → IsLocal images_of world.now s
        → option_copied result ≡ slice_get s.world.sent number }
{
    all_sent(world).get(number)
}

// A page of a data partition that is there.
pub(crate) fn page_at(
    world: &ScriptWorld,
    partition: PartitionId,
    from: i64,
    max: u32,
    committed: bool,
) -> Result<FetchPage<'_>, FetchFault>
    requires { (s : System) → IsLocal images_of world.now s
        → has_partition s.world partition ≡ true }
    ensures { (s : System) → IsLocal images_of world.now s → MatchResult result
        (λ page. answer_to (log_at s.world partition) from max committed ≡ Ok page)
        (FetchRefuses (answer_to (log_at s.world partition) from max committed)) }
{
    world.fetch(partition, from, max, committed)
}
