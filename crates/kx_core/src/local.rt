//! A world whose nodes keep their logs in memory, and what can be read of it.
ghost use Rattle.std.specs.Prelude.{◌≡◌, ◌⊎◌, ◌<◌, ℕ, [], pos, true, None, Ok, Some, IfOk};
ghost use Rattle.std.specs.Prelude.{IsNone, MatchOption, MatchResult, Contains, false, length, map};
ghost use Rattle.kx_broker.specs.Offsets.{StandsForGroups};
ghost use Rattle.kx_broker.specs.Serving.{StandsFor};
ghost use Rattle.kx_coord_node.specs.Stands.{Stands};
ghost use Rattle.kx_core.specs.Internal.{AreServers};
ghost use Rattle.kx_core.specs.Local.{IsLocal, between};
ghost use Rattle.kx_core.specs.World.{ServesAt};
ghost use Rattle.kx_machine.specs.Meaning.{AtCoordinator, AtPartition};
ghost use Rattle.kx_message.specs.Ranges.{data_partitions, offsets_partition};
ghost use Rattle.kx_message.specs.declared.code.ErrorCode.TheVariants.{UnknownTopicOrPartition};
ghost use Rattle.kx_model.specs.Coordinator.{commits, owed, rows};
ghost use Rattle.kx_model.specs.CoordinatorNode.{new_coordinator};
ghost use Rattle.kx_model.specs.Groups.{generation, members, offset_fetch};
ghost use Rattle.kx_model.specs.Headline.{FollowsDecisions};
ghost use Rattle.kx_model.specs.Log.{Placed, Sequenced};
ghost use Rattle.kx_model.specs.Page.{answer_to};
ghost use Rattle.kx_model.specs.OpenHeadline.{ReadersGetVisible};
ghost use Rattle.kx_model.specs.PartitionNode.{empty_partition};
ghost use Rattle.kx_model.specs.Reading.{committed_of, visible};
ghost use Rattle.kx_model.specs.Transactions.{last_stable_offset, open_transactions};
ghost use Rattle.kx_model.specs.World as model;
ghost use Rattle.kx_model.specs.World.{data_partition_at, entries_at, log_at, notes};
ghost use Rattle.kx_partition.specs.Fetch.{FetchRefuses};
ghost use Rattle.kx_partition.specs.declared.fault.FetchFault.TheVariants.{Refused};
ghost use Rattle.kx_system.specs.System.{System, start_system};
ghost use Rattle.kx_txnlog.specs.Entry.{row_of};

use crate::count::PartitionCount;
use crate::world::World;
use kx_broker::{OffsetsMachine, PartitionMachine};
use kx_coord_node::CoordinatorMachine;
use kx_machines::{LocalStore, local_coordinator, local_offsets, local_partition};
use kx_message::{ClientId, ErrorCode, GroupId, PartitionId};
use kx_partition::{FetchFault, FetchPage};
use kx_pipeline::open_systems_keep_promises;
use kx_processor::Process;
use kx_txnlog::Row;
use std::alloc::{AllocError, Global};

/// A world whose nodes keep their logs in memory.
pub type LocalWorld<F> = World<
    CoordinatorMachine<LocalStore>,
    PartitionMachine<LocalStore>,
    OffsetsMachine<LocalStore>,
    F,
>;

/// How a world is made.
#[derive(Clone, Copy, Debug, PartialEq, Eq)]
pub struct Config {
    /// How many data partitions it has.
    pub partitions: PartitionCount,
}

// The server of a data partition, with an empty log.
fn server(alloc: Global, number: usize) -> Result<PartitionMachine<LocalStore>, AllocError>
    requires { number < data_partitions }
    ensures { IfOk result (StandsFor (AtPartition number empty_partition)) }
{
    let Ok(id) = PartitionId::try_from(number as u16) else {
        return Err(AllocError);
    };
    local_partition(alloc, id)
}

// The servers of this many data partitions, in the order of their numbers.
fn servers(
    alloc: Global,
    count: PartitionCount,
) -> Result<Vec<PartitionMachine<LocalStore>>, AllocError>
    ensures count { IfOk result (λ servers. length servers.items ≡ count) }
    ensures few { IfOk result (λ servers. length servers.items < offsets_partition) }
    ensures each { IfOk result (λ servers. AreServers servers.items) }
{
    let count = usize::from(count.get());
    let mut servers = Vec::with_capacity(alloc, count)?;
    for number in 0..count {
        servers.push(server(alloc, number)?)?;
    }
    Ok(servers)
}

// A world of these nodes, whose logs are empty.
fn begun<F: Process + Copy>(
    alloc: Global,
    coordinator: CoordinatorMachine<LocalStore>,
    partitions: Vec<PartitionMachine<LocalStore>>,
    offsets: OffsetsMachine<LocalStore>,
) -> LocalWorld<F>
    requires coordinator { Stands (AtCoordinator new_coordinator) coordinator }
    requires few { length partitions.items < offsets_partition }
    requires each { AreServers partitions.items }
    requires offsets { StandsForGroups (AtPartition offsets_partition empty_partition) offsets }
    ensures stands { IsLocal F.image_of result (start_system (length partitions.items)) }
    ensures arrived { result.arrived ≡ false }
{
    World::of(alloc, coordinator, partitions, offsets)
}

// A page of a data partition's log, borrowed from its server.
fn page_of(
    server: &PartitionMachine<LocalStore>,
    from: i64,
    max: u32,
    committed: bool,
) -> Result<FetchPage<'_>, FetchFault>
    ensures answer { (w : model.World) (number : ℕ) → ServesAt StandsFor w number server.now
        → MatchResult result
        (λ page. answer_to (log_at w number) from max committed ≡ Ok page)
        (FetchRefuses (answer_to (log_at w number) from max committed)) }
    ensures visible { (w : model.World) (number : ℕ) → ReadersGetVisible w
        → ServesAt StandsFor w number server.now → committed ≡ true
        → IfOk result (λ page. committed_of page
        ≡ between page.from page.next (visible (entries_at w number) (commits (notes w)))) }
{
    server.partition().fetch(from, max, committed)
}

impl<F: Process + Copy> World<
    CoordinatorMachine<LocalStore>,
    PartitionMachine<LocalStore>,
    OffsetsMachine<LocalStore>,
    F,
> {
    /// A world in which nothing has happened: the coordinator, this many data partitions and the
    /// offsets partition, with empty logs in memory.
    ///
    /// # Errors
    ///
    /// For an error if memory runs out.
    pub fn new(alloc: Global, config: Config) -> Result<LocalWorld<F>, AllocError>
        ensures stands { IfOk result (λ world.
            IsLocal F.image_of world (start_system config.partitions)) }
        ensures arrived { IfOk result (λ world. world.arrived ≡ false) }
    {
        let coordinator = local_coordinator(alloc)?;
        let partitions = servers(alloc, config.partitions)?;
        let offsets = local_offsets(alloc)?;
        Ok(begun(alloc, coordinator, partitions, offsets))
    }

    /// A page of a data partition, borrowed from its log: from the batch that holds the offset
    /// `from` on, as many as have at most `max` bytes in all, and at least one if there is one,
    /// of committed records or of all (Kafka's Fetch; KIP-98, "READ_COMMITTED"). A reader of
    /// committed records gets exactly what is visible by the coordinator's decisions.
    ///
    /// # Errors
    ///
    /// Those of [`Partition::fetch`](kx_partition::Partition::fetch), and
    /// [`FetchFault::Refused`] with `UnknownTopicOrPartition` if there is no such partition.
    pub fn fetch(
        &self,
        partition: PartitionId,
        from: i64,
        max: u32,
        committed: bool,
    ) -> Result<FetchPage<'_>, FetchFault>
        ensures answer { (s : System) → IsLocal F.image_of self.now s → MatchResult result
            (λ page. answer_to (log_at s.world partition) from max committed ≡ Ok page)
            (λ fault. FetchRefuses (answer_to (log_at s.world partition) from max committed) fault
            ⊎ ((data_partition_at s.world partition ≡ None)
            × (fault ≡ Refused UnknownTopicOrPartition))) }
        // If there is no such partition, that is told.
        ensures missing { (s : System) → IsLocal F.image_of self.now s
            → data_partition_at s.world partition ≡ None → MatchResult result (λ page. ⊥)
            (λ fault. fault ≡ Refused UnknownTopicOrPartition) }
        // Of committed records it has exactly what is visible, by decision.
        ensures visible { (s : System) → IsLocal F.image_of self.now s → committed ≡ true
            → IfOk result (λ page. committed_of page
            ≡ between page.from page.next
            (visible (entries_at s.world partition) (commits (notes s.world)))) }
    {
        open_systems_keep_promises();
        match self.partition(partition) {
            Some(server) => page_of(server, from, max, committed),
            None => Err(FetchFault::Refused(ErrorCode::UnknownTopicOrPartition)),
        }
    }

    /// The last stable offset of a data partition, if there is the partition: the first offset
    /// of its earliest open transaction, or its end (KIP-98, "READ_COMMITTED"). Each transaction
    /// that is open there is owed its marker by the coordinator.
    pub fn last_stable_offset(&self, partition: PartitionId) -> Option<i64>
        ensures offset { (s : System) → IsLocal F.image_of self.now s → MatchOption result
            (data_partition_at s.world partition ≡ None)
            (λ offset. offset ≡ pos (last_stable_offset (entries_at s.world partition))) }
        ensures missing { (s : System) → IsLocal F.image_of self.now s
            → data_partition_at s.world partition ≡ None → IsNone result }
        ensures owed { (s : System) → IsLocal F.image_of self.now s → (opened : Placed Sequenced)
            → Contains (open_transactions (entries_at s.world partition)) opened
            → owed (notes s.world) partition opened.item.id opened.item.epoch ≡ true }
    {
        open_systems_keep_promises();
        let server = self.partition(partition)?;
        Some(server.partition().lso())
    }

    /// A group's committed offset of a data partition that it reads, -1 if there is none, or the
    /// code that one is pending if a stable one is asked for (KIP-447). It is that of the last
    /// transaction that the coordinator decided to commit.
    pub fn committed_offset(
        &self,
        group: GroupId,
        partition: PartitionId,
        stable: bool,
    ) -> (ErrorCode, i64)
        ensures answer { (s : System) → IsLocal F.image_of self.now s
            → record { code = result.0; offset = result.1 }
            ≡ offset_fetch (entries_at s.world offsets_partition) group partition stable }
        ensures decided { (s : System) → IsLocal F.image_of self.now s
            → FollowsDecisions s.world group partition }
    {
        open_systems_keep_promises();
        self.offsets()
            .groups()
            .offset_fetch(group, partition, stable)
    }

    /// A group's generation, 0 to 2^31 - 1: how often its membership has changed.
    pub fn generation(&self, group: GroupId) -> i32
        ensures { (s : System) → IsLocal F.image_of self.now s
            → result ≡ pos (generation (entries_at s.world offsets_partition) group) }
    {
        self.offsets().groups().generation(group)
    }

    /// A group's members, in joining order.
    pub fn members(&self, group: GroupId) -> &[ClientId]
        ensures { (s : System) → IsLocal F.image_of self.now s
            → result.now ≡ members (entries_at s.world offsets_partition) group }
    {
        self.offsets().groups().members(group)
    }

    /// The coordinator's row of each transactional id, in order of first use.
    pub fn rows(&self) -> &[Row]
        ensures { (s : System) → IsLocal F.image_of self.now s
            → map row_of result.now ≡ rows (notes s.world) }
    {
        self.coordinator().coordinator().rows()
    }
}
