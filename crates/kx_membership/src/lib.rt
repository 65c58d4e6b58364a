//! Consumer groups of stock Kafka clients, as Kafka's group coordinator keeps them: members that
//! join, a leader that assigns, sessions that end. Pure code: sockets, waiting and the clock are
//! the server's, which says the time in milliseconds at each step.
//!
//! The core has groups of its own, which know their members' numbers alone and count generations.
//! A group's generation here is the core's: once all have joined, the server tells the core who has
//! gone and who is new, and settles the group with the generation that the core answers.
#![tactic(auto)]

mod ask;
mod fault;
mod group;
mod ids;
mod laws;
mod member;
mod roster;
mod votes;

pub use ask::{Assignment, Assignments, JoinAsk, Protocol, Protocols};
pub use fault::GroupFault;
pub use group::{Group, Joined, MOST_MEMBERS};
pub use ids::member_id;
pub use laws::{
    assignments_are_the_leaders, generations_are_settled, groups_are_sound, member_ids_say_numbers,
    members_are_known_by_their_ids, members_that_wait_stay, nothing_happens_before, preparing_ends,
    those_gone_are_unknown,
};
