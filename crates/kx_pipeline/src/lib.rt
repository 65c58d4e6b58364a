//! Schedules of systems with processors, which consume, process and produce: each comes to a
//! schedule of a world without processors, and keeps the promises of exactly-once semantics. The
//! definitions are in `kx_system` and `kx_model`; the functions here do nothing when they run,
//! and carry the laws in their contracts.
//!
//! In `proofs/`:
//!
//! - What replies say, over every schedule of a world: `GrownEnds` (where a page of a log that grew
//!   ends), `OffsetsRead` (which offsets a log's records have), `PartitionReplies` (what a
//!   partition sends in its turn), `RepliesInRange`; and of the offsets partition `RefusedCodes`
//!   (which codes speak of a group), `OffsetsSay`, `NewReplies` (what a reply says of the log in
//!   whose turn it is new), `RepliesStand` (what it says for good).
//! - The offsets partition's log: `Generations` (of a group), `CommitsFit` (the commits that were
//!   sent), `CommitsCame` (by which of them a batch stands), `LastFetches`, and `LinkedCommits`
//!   (commits that rest on what their clients had read are linked).
//! - A chain: `LinkedLogs` (what a link is), `LinkedRanges`, `ChainOrder`, `ChainHolds`, `Chained`.
//! - What fetches are answered with, over every schedule of a world: `TextsRead` (a log's texts
//!   read as its batches), `VisibleStays` (what is visible below a last stable offset stays so),
//!   `PublishedPages` (a page of a log that a partition had),
//!   `VisibleParts` (what is visible of a range and of the next), `FetchReplies` (each page has
//!   what is visible).
//! - What a transaction wrote: `BatchesRead` (a client's batch reads as it was made), `SentTexts`
//!   (what its producer sent, request by request), `WrittenBatches` (it is in that order).
//! - A processor: `ProcessorsFit` (its names, numbers and bytes, and those of the commands to which
//!   its polls come), `StagesFit` (its steps keep them in their ranges), `Batches` (its batches of
//!   images), `ProcessorWorks` (what stands of it at each stage, whatever others do),
//!   `ProcessorHears` (when a reply comes), `ProcessorAsks` (when it is told something),
//!   `ProcessorTurns`.
//! - What a processor writes: `SoleBatches` (what one client sent as one pair), `ProcessorWrites`
//!   (what stands of its batches at each stage, whatever others do), `WritesHears` (when a reply
//!   comes), `WritesAsks` (when it is told something), `SystemWrites` (over every schedule),
//!   `WrittenImages` (what a group's transactions wrote), `AllImages` (what all of them wrote, one
//!   after the other), `SystemImages`.
//! - A system: `SystemEvents` (the events of its step, and of its schedules), `OpenSystems` (the
//!   same if requests arrive from outside), `QuietTurns` (events that are no processor's turn),
//!   `SystemHolds` (what stands of its processors after each event), `SystemLinks`.
#![tactic(auto)]

mod promises;

ghost use Rattle.std.specs.Prelude.{◌≡◌, ◌≢◌, ◌<◌, ℕ, ℤ, pos, ◌≤ℤ◌, List, true, map, Ok, Some};
ghost use mathlib.Core.List.{IsPrefix};
ghost use Rattle.kx_client.specs.declared.values.Values.{Values};
ghost use Rattle.kx_message.specs.Ranges.{offsets_partition};
ghost use Rattle.kx_message.specs.declared.outcome.Outcome.TheVariants.{Commit};
ghost use Rattle.kx_model.specs.Coordinator.{decision};
ghost use Rattle.kx_model.specs.Headline.{Always};
ghost use Rattle.kx_model.specs.Log.{Stored};
ghost use Rattle.kx_model.specs.Open.{AlwaysOpen};
ghost use Rattle.kx_model.specs.Page.{Fetched, answer_to};
ghost use Rattle.kx_model.specs.Reading.{committed_of};
ghost use Rattle.kx_model.specs.Transactions.{last_stable_offset};
ghost use Rattle.kx_model.specs.World.{Event, IsSchedule, entries_at, log_at, notes, run, start};
ghost use Rattle.kx_system.specs.Events.{schedule_of};
ghost use Rattle.kx_pipeline.specs.Chain.{IsChained};
ghost use Rattle.kx_pipeline.specs.Outputs.{Wrote, content_of, keyless, outputs, values_of};
ghost use Rattle.kx_pipeline.specs.Premises.{IsPipeline};
ghost use Rattle.kx_pipeline.specs.Visible.{visible_in};
ghost use Rattle.kx_pipeline.specs.Written.{WritesImages, all_outputs, all_read, images_in};
ghost use Rattle.kx_system.specs.Processor.{Images};
ghost use Rattle.kx_system.specs.System.{IsSystemSchedule, SystemEvent, run_system, start_system};

use kx_headline::{
    logs_grow_as_they_are_judged, logs_grow_as_they_are_judged_whoever_asks, markers_agree,
    markers_agree_whoever_asks,
};
use kx_system::systems_run_as_worlds;
pub use promises::{
    open_systems_keep_promises, open_systems_run_as_worlds, schedules_keep_promises,
    systems_keep_promises,
};

/// The events that a system's schedule comes to are a schedule of its world: names, numbers and
/// bytes are in their ranges.
pub fn schedules_of_systems_are_schedules()
    ensures { (count : ℕ) (events : List SystemEvent) → IsSystemSchedule events
        → IsSchedule (schedule_of events (start_system count)) }
{
    systems_run_as_worlds();
}

/// What is visible below a last stable offset stays so, over any schedule: a reader of committed
/// records gets the same of a range whenever it reads it again (KIP-98, "READ_COMMITTED").
pub fn visible_records_stay()
    ensures { (count : ℕ) (before after : List Event) → IsSchedule before → IsSchedule after
        → (partition : ℕ) (from next : ℤ)
        → next ≤ℤ pos (last_stable_offset (entries_at (run before (start count)) partition))
        → visible_in (run after (run before (start count))) partition from next
        ≡ visible_in (run before (start count)) partition from next }
{
    logs_grow_as_they_are_judged();
    markers_agree();
}

/// A page of committed records of a log that a partition had, as one that was published, gives a
/// reader exactly the records of its range that are visible in the world, by the coordinator's
/// decisions: whatever clients ask, and however the partition's log went on (KIP-98,
/// "READ_COMMITTED").
pub fn pages_show_what_is_visible()
    ensures { AlwaysOpen (λ w. (partition : ℕ) (log : List Stored)
        → IsPrefix log (log_at w partition) → (from : ℤ) (room : ℕ) (got : Fetched)
        → answer_to log from room true ≡ Ok got
        → committed_of got ≡ visible_in w partition from got.next) }
{
    logs_grow_as_they_are_judged_whoever_asks();
    markers_agree_whoever_asks();
}

/// What a transaction that is decided to commit wrote to a partition are the records of the batches
/// that its producer sent there, with null keys and no headers, in the order of sending, each once
/// (KIP-98, "Idempotent Producer Guarantees" and "Transactional Guarantees").
pub fn committed_batches_stand_in_order()
    ensures { Always (λ w. (partition : ℕ) → partition ≢ offsets_partition
        → (id epoch : ℕ) (batches : List Values) → Wrote w.sent partition id epoch batches
        → decision (notes w) id epoch ≡ Some Commit
        → map content_of (outputs w partition id epoch) ≡ map keyless (values_of batches)) }
{}

/// Over every schedule, the ranges of an input partition that a group's transactions read follow
/// one another: the first begins at 0, each other where the one before ends, none is empty, and the
/// group's committed offset is the end of the last whose commit marker is in the offsets
/// partition, -1 if there is none; if no offset is pending, that is the end of the last range
/// of all. Asked is that every member of the group is a processor with
/// the same process and as many input partitions, and that nobody else sends offsets for the group
/// (KIP-98, "Transactional Guarantees"; KIP-447).
pub fn ranges_follow_one_another()
    ensures { (count : ℕ) (events : List SystemEvent) → IsSystemSchedule events
        → (group : List ℕ) (inputs : ℕ) (image : Images)
        → IsPipeline (run_system events (start_system count)) group inputs image
        → (q : ℕ) → IsChained (run_system events (start_system count)).world group q }
{
    logs_grow_as_they_are_judged();
    systems_run_as_worlds();
}

/// Over every schedule, the transactions of such a group write the images of what they read of an
/// input partition, each once and in order: those that read a range of the chain write the images
/// of what is visible in that range to the partition's output, one record for each, and no other
/// transaction of the group's processors that is decided to commit writes any there (KIP-98,
/// "Transactional Guarantees"; KIP-447).
pub fn transactions_write_images()
    ensures { (count : ℕ) (events : List SystemEvent) → IsSystemSchedule events
        → (group : List ℕ) (inputs : ℕ) (image : Images)
        → IsPipeline (run_system events (start_system count)) group inputs image
        → (q : ℕ) → q < inputs
        → WritesImages (run_system events (start_system count)) group q inputs image }
{
    logs_grow_as_they_are_judged();
    systems_run_as_worlds();
}

/// So the outputs of a group's transactions that are decided to commit, one after the other, are
/// the images of all that is visible of the input partition up to where they have read, each once.
pub fn outputs_are_images_of_all_that_was_read()
    ensures { (count : ℕ) (events : List SystemEvent) → IsSystemSchedule events
        → (group : List ℕ) (inputs : ℕ) (image : Images)
        → IsPipeline (run_system events (start_system count)) group inputs image
        → (q : ℕ) → q < inputs
        → all_outputs (run_system events (start_system count)) group q inputs
        ≡ map keyless (images_in (run_system events (start_system count)).world image q
        (all_read (run_system events (start_system count)).world group q)) }
{
    logs_grow_as_they_are_judged();
    systems_run_as_worlds();
}
