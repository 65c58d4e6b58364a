//! The servers of partitions as machines, of a data partition and of the offsets partition: the
//! partition's log on its store, and the requests that it has parked. What a server does with each
//! input is what the definitions say that the node of a partition does, and it stands for such a
//! node before each step and after it (KIP-98, KIP-447, KIP-890).
#![tactic(auto)]

mod add_reply;
mod as_partition;
mod commit;
mod fetch;
mod machine;
mod marker;
mod member;
mod offsets;
mod parking;
mod produce;
mod put;
mod reply;
mod restart;
mod resume;
mod waiting;

pub use fetch::{answer_fetch, page_room, refused_fetch};
pub use machine::PartitionMachine;
pub use offsets::OffsetsMachine;
