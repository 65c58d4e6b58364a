//! Why an audit refuses.
ghost use Rattle.std.specs.Prelude.{◌≡◌};
ghost use Rattle.kx_audit.specs.Refused.{fault_number};
ghost use Rattle.kx_audit.specs.declared.fault.AuditFault.TheVariants.{Memory};

use std::alloc::AllocError;
use thiserror::Error;

/// Why an audit refuses.
#[derive(Clone, Copy, Debug, PartialEq, Eq, Drop, Error)]
pub enum AuditFault {
    /// After what is merged no node can go on, and a trace isn't done.
    #[error("no node can go on")]
    Order = 1,
    /// A step takes in a message that no step of any trace sent, or two traces are of one node.
    #[error("a message has no origin, or a node two traces")]
    Origin = 2,
    /// A receipt's place doesn't exist, or the input or the answer of the step there aren't those
    /// that it holds.
    #[error("a receipt is of no step")]
    Receipt = 3,
    /// There are not as many receipts as steps, or two are of one step.
    #[error("the receipts are not one for each step")]
    Count = 4,
    /// Memory ran out.
    #[error("out of memory")]
    Memory = 5,
}

impl AuditFault {
    /// The number of the fault, by which another program knows it: `Order` 1, `Origin` 2, `Receipt`
    /// 3, `Count` 4, `Memory` 5.
    pub fn number(self) -> u8
        ensures { result ≡ fault_number self }
    {
        self as u8
    }
}

/// Out of memory.
impl From<AllocError> for AuditFault {
    ghost from_gives = { λ refused fault. fault ≡ Memory };

    fn from(_: AllocError) -> Self {
        AuditFault::Memory
    }
}
