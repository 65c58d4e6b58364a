//! What every world keeps, and every system with processors.
ghost use Rattle.std.specs.Prelude.{◌≡◌, ℕ, List};
ghost use Rattle.kx_model.specs.World.{Event, IsSchedule, run, start};
ghost use Rattle.kx_model.specs.OpenHeadline.{KeepsOpenPromises};
ghost use Rattle.kx_pipeline.specs.OpenSystems.{IsLedTo, IsOpenSystemSchedule, OpenSystemEvent};
ghost use Rattle.kx_pipeline.specs.OpenSystems.{run_open_system};
ghost use Rattle.kx_pipeline.specs.Promises.{KeepsAll, KeepsPromises};
ghost use Rattle.kx_system.specs.System.{IsSystemSchedule, SystemEvent, run_system, start_system};

use crate::{
    outputs_are_images_of_all_that_was_read, ranges_follow_one_another,
    schedules_of_systems_are_schedules, transactions_write_images,
};
use kx_headline::{
    batches_stand_once, ids_have_one_holder, markers_agree, nothing_fenced_commits,
    offsets_commit_with_their_transaction, open_promises_are_kept,
    open_transactions_are_owed_markers, readers_get_exactly_what_is_visible,
};
use kx_model::{open_schedules_go_on, schedules_are_open_ones};
use kx_system::systems_run_as_worlds;

/// Every schedule leads to a world that keeps the promises of exactly-once semantics (KIP-98,
/// KIP-447, KIP-890). This does nothing when it runs.
pub fn schedules_keep_promises()
    ensures { (partitions : ℕ) (events : List Event) → IsSchedule events
        → KeepsPromises (run events (start partitions)) }
{
    markers_agree();
    readers_get_exactly_what_is_visible();
    batches_stand_once();
    ids_have_one_holder();
    nothing_fenced_commits();
    offsets_commit_with_their_transaction();
    open_transactions_are_owed_markers();
}

/// What holds of systems some of whose clients are processors; and where the members of a group are
/// processors of one kind, each record that they read has its image once. This does nothing when it
/// runs.
pub fn systems_keep_promises()
    ensures { (partitions : ℕ) (events : List SystemEvent) → IsSystemSchedule events
        → KeepsAll (run_system events (start_system partitions)) }
{
    schedules_keep_promises();
    schedules_of_systems_are_schedules();
    systems_run_as_worlds();
    ranges_follow_one_another();
    transactions_write_images();
    outputs_are_images_of_all_that_was_read();
}

/// Every open schedule of a system comes to an open schedule of its world. So what holds of every
/// world in which any request may arrive, as
/// [`acknowledged_batches_are_kept`](kx_headline::acknowledged_batches_are_kept), holds of a
/// running one. This does nothing when it runs.
pub fn open_systems_run_as_worlds()
    ensures { (partitions : ℕ) (events : List OpenSystemEvent) → IsOpenSystemSchedule events
        → IsLedTo partitions (run_open_system events (start_system partitions)).world }
{
    systems_run_as_worlds();
    schedules_are_open_ones();
    open_schedules_go_on();
}

/// Every open schedule of a system, in which any request of a client may also arrive from outside,
/// leads to a world that keeps the promises that need no trust in clients; and each answer of code
/// 0 that was ever sent can be believed (KIP-98, "Data Flow"; KIP-447). This does nothing when it
/// runs.
pub fn open_systems_keep_promises()
    ensures { (partitions : ℕ) (events : List OpenSystemEvent) → IsOpenSystemSchedule events
        → KeepsOpenPromises (run_open_system events (start_system partitions)).world }
{
    open_promises_are_kept();
    systems_run_as_worlds();
    schedules_are_open_ones();
    open_schedules_go_on();
}
