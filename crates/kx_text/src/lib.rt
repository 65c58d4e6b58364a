//! All that is read or printed as text, whoever carries it out: the lines, words and numbers of a
//! script, what puts, fetches and refusals print, and dumps. `words` cuts a line and reads its
//! numbers, `mode` which records a fetch shows, `lines` takes a script line by line, `reads` counts
//! the reads, and `fault` says why it ends; `answers` and `pages` print answers; `dump` prints the
//! record batches of a file, and `program` does so for kx_main and has the statuses that it ends
//! with.
#![tactic(auto)]

mod answers;
mod dump;
mod fault;
mod lines;
mod mode;
mod pages;
mod program;
mod reads;
mod words;
mod writing;

pub use answers::{write_answer, write_refusal};
pub use dump::{DumpFault, dump_batches};
pub use fault::ScriptFault;
pub use lines::{next_line, written};
pub use mode::{DEFAULT_MAX, Mode, mode_of};
pub use pages::show;
pub use program::{Ending, run_dump};
pub use reads::{CountedReads, may_read, read_fault};
pub use words::{Words, number, number_below, without_newline, words_of};
pub use writing::write_whole;
