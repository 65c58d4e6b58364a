//! What `serve` and `kafka` do: nodes whose logs are in memory or in the files of a folder, and whose
//! steps are written to traces if that is asked for, are served to clients.
//!
//! A server has its folders alone. A log that another program wrote, in part, isn't published; its
//! pages are steps of its node.
#![tactic(auto)]

mod course;
mod fault;
mod files;
mod folder;
mod judging;
mod kafka;
mod limits;
mod listing;
mod locking;
mod members;
mod opening;
mod options;
mod owed;
mod placing;
mod reasons;
mod server;
mod tracing;
mod tying;

pub use fault::{About, ServeFault};
pub use files::LogFile;
pub use kafka::serve_kafka;
pub use listing::FolderFile;
pub use options::{KafkaOptions, ServeOptions};
pub use reasons::{Folders, refusal};
pub use server::serve;
