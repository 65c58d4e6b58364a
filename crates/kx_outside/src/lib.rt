//! Requests that arrive from outside: those of clients that are no part of the system, as the
//! clients of a server are not. Nobody trusts such a client: its request is any of the eight that
//! clients send, with anything in its fields, so long as a frame can bring it.
#![tactic(auto)]

mod ranges;
mod request;

pub use ranges::request_fits;
pub use request::{OutsideRequest, can_arrive, is_request};
