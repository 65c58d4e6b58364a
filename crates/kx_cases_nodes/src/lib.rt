//! Cases of the nodes: the coordinator, a partition, what readers get of pages, a world of nodes,
//! and the text of scripts and dumps.
#![tactic(auto)]

pub use files::try_nodes;
pub use pair::try_pair;

mod coordinator;
mod dump;
mod events;
mod files;
mod images;
mod lines;
mod pair;
mod partition;
mod parts;
mod replies;
mod scripts;
mod sending;
mod shown;
mod sweeps;
mod words;
