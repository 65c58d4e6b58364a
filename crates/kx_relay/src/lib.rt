//! A bad line: a relay between the two ends of a connection, which repeats every frame, loses some
//! and holds the copies of others back. Which frames are lost is drawn from a seed. `chance` draws,
//! `delayed` keeps the copies that go out later, `line` says what goes out when a frame comes,
//! `stream` reads frames off a socket, and `carrying` carries them over.
#![tactic(auto)]

mod carrying;
mod chance;
mod delayed;
mod line;
mod share;
mod stream;

pub use carrying::{Draw, relay};
pub use chance::Chance;
pub use delayed::Delayed;
pub use line::{Line, Passed};
pub use share::{Holding, Losses};
pub use stream::FrameStream;
