//! Whether a server that ran was exactly-once: its traces are audited as streams, its nodes are made
//! again, with empty logs or those with which their traces begin, and the logs that it left are
//! compared with those to which its traces lead.
//!
//! `batches` and `entries` read and compare logs of one kind, `lengths` and `logs` those of machines;
//! `sources` are traces that are read in pieces, which `auditing` audits; `left` is what a server left
//! by its files, of which `traces` finds the traces and `folder` the logs; `opened` has the nodes whose
//! traces begin with a log; `server` audits it all, and `report` prints what was found. `steps` has the
//! steps that the traces tell of, for a page.
//!
//! In `proofs/`: `Texts` (texts of batches and of entries, by which logs are compared), `Restarting`
//! (a log before and after a restart), `OnLogs` (nodes that were opened on logs), `Reading` (sources are
//! read in pieces), `Advancing` (the audit goes on in one trace, and then in another).
#![tactic(auto)]

mod auditing;
mod batches;
mod counts;
mod denial;
mod entries;
mod fault;
mod file;
mod findings;
mod folder;
mod left;
mod lengths;
mod logs;
mod opened;
mod report;
mod server;
mod server_node;
mod sources;
mod steps;
mod traces;

pub use fault::AuditFault;
pub use file::AuditFile;
pub use left::{ServerFiles, ServerFolders};
pub use server::{AuditOptions, audit_server};
pub use steps::{end_steps, server_steps};
