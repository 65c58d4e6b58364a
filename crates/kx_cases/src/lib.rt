//! Cases as data. A file of cases has the steps that are taken and the answer that each has to
//! give; a program of cases reads it, takes the steps, and says of each case whether the answers
//! were those. What the steps mean is the program's own.
//!
//! A line `case NAME` begins a case, in which nothing of the cases before it is left. Each other
//! line is a step and its answer, as `STEP = ANSWER`. A line `bytes NAME = BYTES` gives bytes a
//! name for the rest of the file. Empty lines, and lines that begin with `#`, say nothing.
#![tactic(auto)]

pub use fault::StepFault;
pub use lines::{Line, read_line};
pub use runs::Runs;
pub use script::{Script, judge_script, tell};
pub use streams::{Giving, Taking};
pub use subject::Subject;
pub use tally::{Tally, try_cases};
pub use telling::{
    known, told, told_bytes, told_done, told_name, told_option, told_same, told_value, value,
};
pub use texts::Texts;

mod fault;
mod lines;
mod runs;
mod script;
mod streams;
mod subject;
mod tally;
mod telling;
mod texts;
