//! Opening again.
ghost use Rattle.std.specs.Prelude.{◌≡◌, ◌≢◌, ℕ, MatchResult};
ghost use Rattle.kx_broker.specs.Serving.{IsServed, Restarts};
ghost use Rattle.kx_model.specs.PartitionNode.{Partition};

use crate::machine::PartitionMachine;
use kx_log::{OpenFault, Store};
use kx_verify::Guard;
use std::alloc::AllocError;

/// What a restart came to.
#[derive(Clone, Copy, Debug, PartialEq, Eq)]
pub(crate) enum Restarted {
    /// The log was read, and maybe the whole entry of an append that had failed with it.
    Read { found: bool },
    /// The log couldn't be read, and is closed.
    Unread,
}

/// What a restart comes to whose log isn't read, or out of memory.
pub(crate) fn unread_after(fault: OpenFault) -> Result<Restarted, AllocError>
    ensures { MatchResult result
        (λ restarted. (restarted ≡ Restarted.Unread) × (fault ≢ OpenFault.Memory))
        (λ refused. fault ≡ OpenFault.Memory) }
{
    match fault {
        OpenFault::Memory => Err(AllocError),
        OpenFault::Device | OpenFault::Damaged(_) | OpenFault::UsedUp => Ok(Restarted::Unread),
    }
}

impl<S: Store> PartitionMachine<S> {
    /// Opens the partition again: its log is what its store holds, and all else is lost. Where the
    /// store can't be read the log is closed.
    ///
    /// # Errors
    ///
    /// Only out of memory; then it stands for what it stood for.
    pub(crate) fn restart(&mut self) -> Result<Restarted, AllocError>
        ensures { (number : ℕ) (p : Partition) → IsServed number p self.old
            → MatchResult result (Restarts (IsServed number) p self.old self.new)
            (λ refused. IsServed number p self.new) }
    {
        let end = self.partition.end();
        match self.partition.reload() {
            Ok(content) => {
                let found = end < content.end();
                let _before = self.partition.install(content);
                self.guard = Guard::new(self.alloc);
                Ok(Restarted::Read { found })
            }
            Err(fault) => unread_after(fault),
        }
    }
}
