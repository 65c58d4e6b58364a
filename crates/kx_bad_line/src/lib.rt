//! Why a line of a script is bad, for who wrote it: kx_script itself only says that it is.
//!
//! `forms` has the forms of lines, `why` says in what a line differs from each, and `last_line` keeps
//! the line at which a script ended.
#![tactic(auto)]

mod forms;
mod last_line;
mod why;

pub use forms::{Form, form_of};
pub use last_line::LastLine;
pub use why::{WhyBad, why_bad};
