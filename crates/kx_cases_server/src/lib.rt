//! Sessions with a server over sockets: the server has a thread of its own, and its clients speak
//! frames to it as a script says. What comes back, what the server prints and how it ends is told.
#![tactic(auto)]

pub use trial::try_session;

mod client;
mod clients;
mod folder;
mod lines;
mod running;
mod session;
mod trial;
