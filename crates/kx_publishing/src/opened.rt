//! Logs that were opened, and whether they may be published.
ghost use Rattle.std.specs.Prelude.{IsTrue};
ghost use Rattle.kx_broker.specs.Serving.{opened_partition};
ghost use Rattle.kx_laws.specs.Grown.{IsGrown};
ghost use Rattle.kx_log.specs.Log.{IsLog};
ghost use Rattle.kx_machine.specs.Meaning.{AtPartition};
ghost use Rattle.kx_publishing.specs.Publishing.{WroteItself};

use crate::growing::Growing;
use crate::readable::Readable;
use kx_message::PartitionId;
use kx_published::opened::is_written;

/// Whether what is under a node's lock, whose log was opened, wrote that log itself, so that it
/// may be [published](crate::PublishedMachine::publishing): whether the log is stored as a
/// partition writes one, as [`is_written`] finds. It stands for a partition that has parked
/// nothing.
pub fn wrote_itself<L: Readable>(partition: PartitionId, locked: &L) -> bool
    requires stands { L.stands (AtPartition partition (opened_partition (L.log locked.now)))
        locked.now }
    requires log { IsLog (L.log locked.now) }
    requires grown { IsGrown (L.log locked.now) }
    ensures { IsTrue result
        → WroteItself (AtPartition partition (opened_partition (L.log locked.now))) }
{
    is_written(&Growing { locked })
}
