//! The run that an audit found (kx_audit), as events of a world (kx_core): the clients of its traces
//! are made, and each step is an event, in the audit's order. So a run can be kept, cut and let
//! happen again, as any schedule can; and a world in which it happens again stands for the system to
//! which the audit's schedule led, of which more can be read than of single machines.
//!
//! In `proofs/`: `Placing` (clients in the order of their numbers), `Making` (they are made),
//! `Stepping` (each event leads if the step does), `Leading` (all of them, one after the other),
//! `Happening` (a world in which they happen).
#![tactic(auto)]

mod events;
mod makings;
mod numbers;
mod world;

pub use events::events_of;
pub use world::world_of;
