//! Scripts over a whole world: every line of their language is read here, carried out in a world
//! of nodes, and answered. `world` has the world, and `marks` which of its nodes' appends are to
//! fail; `event` reads a line as the event that it lets happen, and `command` as the `order` that it
//! is otherwise; `session` carries both out, `printing` writes the answers, and `script` goes from
//! line to line.
#![tactic(auto)]

mod command;
mod event;
mod marks;
mod order;
mod printing;
mod program;
mod script;
mod session;
mod values;
mod world;

pub use command::{order_in, world_in};
pub use event::{EventAt, end_event, event_in};
pub use marks::Marks;
pub use order::{Left, Order};
pub use printing::{write_dash, write_message, write_rows};
pub use program::{run_script, run_sim};
pub use script::answer_in;
pub use world::{Running, ScriptWorld};
