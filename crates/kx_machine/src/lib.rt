//! The nodes of the system as machines: what a node is handed, what it does with it, and what it
//! sends. Each kind of node is a [`Machine`], whose step is that of the definitions: it stands for
//! a node of theirs before the step and after it.
#![tactic(auto)]

mod fits;
mod input;
mod logs;
mod machine;
mod same;
mod taken;

pub use fits::{client_making_fits, input_fits};
pub use input::{Command, Input};
pub use kx_messages::{Messages, same_message};
pub use logs::steps_only_add;
pub use machine::{Failing, Machine, Making, StoreMode};
pub use taken::{Closing, Note, Taken};
