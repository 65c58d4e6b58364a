//! Scripts that threads carry out: nodes under locks are served by workers, and their traces and
//! receipts are audited.
#![tactic(auto)]

pub use served::try_served;

mod audits;
mod gate;
mod nodes;
mod rerun;
mod served;
mod serving;
mod turns;
