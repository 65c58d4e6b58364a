//! What an audit found.
ghost use Rattle.std.specs.Prelude.{◌≡◌, Some};
ghost use Rattle.kx_server_audit.specs.Telling.{AreNone};

use crate::counts::Counts;
use crate::denial::Denial;

/// What an audit found: what it counted, and where and why it says no, if it does.
#[derive(Clone, Copy)]
pub(crate) struct Findings {
    pub(crate) counts: Counts,
    pub(crate) transactions: usize,
    pub(crate) denial: Option<Denial>,
}

impl Findings {
    /// A no before anything was counted.
    pub(crate) fn at_once(denial: Denial) -> Findings
        ensures denial { result.denial ≡ Some denial }
        ensures none { AreNone result.counts result.transactions }
    {
        Findings {
            counts: Counts::NONE,
            transactions: 0,
            denial: Some(denial),
        }
    }
}
