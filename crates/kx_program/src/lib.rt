//! The program behind its arguments, for any words, streams and clock: `sim` runs a script over a
//! world of nodes whose logs are held in memory, `dump FILE` prints the record batches of a file,
//! `serve` serves clients over sockets, and `demo` plays both ends over a bad line and audits what
//! happened.
//!
//! `usage` has the command line, `task` what clap finds in words, `asking` what words ask for or
//! why they ask for nothing, `streams` what is done with the standard streams, `telling` what a fault
//! is about and why the system refuses that, and `program` does what is asked for.
#![tactic(auto)]

mod asking;
mod drawing;
mod kafka;
mod program;
mod streams;
mod task;
mod telling;
mod usage;

pub use asking::{Refusal, asked};
pub use program::run;
pub use streams::{dump_read, failed, played_ending, sim, usage_ending};
pub use task::{Auditing, Demonstration, Pictures, Task, task_in};
pub use usage::command_line;
