//! A run as it is watched: what each node took, did and sent, in Kafka's words, for a page (kx_page).
//!
//! `seen` is what a watcher sees of a step, `deeds` says what the step did and by which rule, with
//! the words of `words` and what `fields` reads of messages; `logs` reads logs as they end, `endings`
//! has what became of each batch in them, and `recorder` puts all of it together, in lists that
//! `push` adds to.
#![tactic(auto)]

mod deeds;
mod endings;
mod fields;
mod logs;
mod push;
mod recorder;
mod seen;
mod words;

pub use recorder::Recorder;
pub use seen::{LogAt, Seen, Took};
