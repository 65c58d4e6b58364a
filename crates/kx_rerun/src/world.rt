//! A world in which a run happens again.
ghost use Rattle.std.specs.Prelude.{◌≡◌, IfOk, List, false};
ghost use Rattle.kx_audit.specs.Run.{IsYes};
ghost use Rattle.kx_cluster.specs.Any.{any_making};
ghost use Rattle.kx_core.specs.Local.{IsLocal};
ghost use Rattle.kx_machines.specs.Any.{any_stands};
ghost use Rattle.kx_message.specs.Ranges.{data_partitions};
ghost use Rattle.kx_nodes.specs.declared.receipt.Receipt.{Receipt};
ghost use Rattle.kx_system.specs.System.{System, start_system};

use crate::events::events_of;
use kx_audit::Run;
use kx_cluster::AnyMaking;
use kx_core::{Config, LocalWorld, PartitionCount};
use kx_message::PartitionId;
use kx_processor::Process;
use std::alloc::{AllocError, Global};

// A world of all data partitions, in which nothing has happened.
fn new_world<F: Process + Copy>(alloc: Global) -> Result<LocalWorld<F>, AllocError>
    ensures stands { IfOk result (λ world.
        IsLocal F.image_of world (start_system data_partitions)) }
    ensures arrived { IfOk result (λ world. world.arrived ≡ false) }
{
    let Some(partitions) = PartitionCount::new(PartitionId::DATA_COUNT) else {
        return Err(AllocError);
    };
    LocalWorld::new(alloc, Config { partitions })
}

/// A world of all data partitions in which the run's events happened, one after the other. It stands
/// for the system to which the audit's schedule led.
///
/// # Errors
///
/// Only if memory runs out.
pub fn world_of<F: Process + Copy>(
    alloc: Global,
    run: &Run<AnyMaking<F>>,
) -> Result<LocalWorld<F>, AllocError>
    ensures { IfOk result (λ world. (given : List Receipt) (s : System)
        → IsYes (any_making F.image_of) (any_stands F.image_of) run.now given s
        → IsLocal F.image_of world s) }
{
    let events = events_of(alloc, run)?;
    let mut world = new_world(alloc)?;
    match world.run(events.as_slice()) {
        Ok(()) => Ok(world),
        Err(_) => {
            drop(world);
            Err(AllocError)
        }
    }
}
