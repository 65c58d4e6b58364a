//! The audit of traces: what the nodes of a server wrote of their steps is read in pieces, each step
//! is made again as soon as what it takes was sent, and compared with what its trace tells. A yes is
//! one history of the definitions' steps, of which the bytes of the traces tell. After whatever steps
//! may have come before, it is an open schedule, and so keeps the promises that need no trust in
//! clients. What is kept is the nodes, what was sent and not taken yet, and what was read and not made
//! again yet: so traces may be of any length.
//!
//! A failed append leaves nothing or its whole entry, and so does one that was never answered: which
//! of them, the trace tells later, and the audit looks ahead for it (`lookahead`). A wrong guess
//! would be no danger: each restart is compared with the log that the node found.
//!
//! In `proofs/`: `Records` (what is at the front of a trace's bytes), `Ahead` (what follows a
//! step), `Telling` (what became of a step that is told), `Texts` (bytes that are fed), `Traces` (a
//! trace is read further, and tells of one more item).
#![tactic(auto)]

mod audit;
mod ending;
mod item;
mod lookahead;
mod peek;
mod progress;
mod reading;
mod refusal;
mod servers;
mod step;

pub use audit::TraceAudit;
pub use peek::ToldStep;
pub use progress::Progress;
pub use refusal::TraceRefusal;
pub use servers::{Server, TraceOf, node_name};
