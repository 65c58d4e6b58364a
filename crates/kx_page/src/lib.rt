//! One page that shows a run as a space-time diagram: a lane for each node, time downwards, an arrow
//! from each step that sent a message to each step that took it; beside it the logs as they end.
//!
//! A page is made of pieces (`piece`): the fixed `texts` of this crate, numbers, and values, which
//! are escaped as they are written. `run` has what is drawn, `drawing` draws it in SVG at the
//! `places`, and `document` puts the page together in HTML, with the `rules`, the `style` and the
//! `script`.
#![tactic(auto)]

mod document;
mod drawing;
mod laws;
mod piece;
mod places;
mod rule;
mod rules;
mod run;
mod script;
mod style;
mod texts;

pub use document::{diagram, page};
pub use laws::values_add_no_markup;
pub use rule::Rule;
pub use run::{Arrow, Fate, Lane, Log, LoggedBatch, Mark, Run, Step, Way};
