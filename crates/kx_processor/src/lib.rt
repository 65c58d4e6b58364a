//! A processor, which consumes, processes and produces (KIP-98, KIP-447): it reads the committed
//! records of the input partitions that it owns in its group, writes their images, and commits with
//! them, in one transaction, the offset up to which it read. So each record has its image in the
//! output once, whatever is fenced, dropped, repeated or lost on the way.
#![tactic(auto)]

mod batches;
mod fault;
mod inputs;
mod owned;
mod page;
mod poll;
mod prefixed;
mod process;
mod processor;
mod stage;

pub use fault::InputsFault;
pub use inputs::Inputs;
pub use prefixed::Prefixed;
pub use process::Process;
pub use processor::Processor;
