//! What stock consumers and their producers ask of groups, as the core's messages, and the core's
//! replies as Kafka's responses: OffsetCommit, TxnOffsetCommit and OffsetFetch, and the frames of
//! the classic group protocol. Pure code: sockets, threads and waiting are the server's.
#![tactic(auto)]

mod claims;
mod code;
mod commits;
mod fetched;
mod ids;
mod members;
mod replies;

pub use claims::{Claim, ClaimedTopic, claims_of, txn_claims_of};
pub use code::GroupCode;
pub use commits::{commit_frame, offsets_of, txn_commit_frame};
pub use fetched::{FetchedTopic, fetched_offset, offset_fetch_frame};
pub use ids::group_of;
pub use members::{heartbeat_frame, join_frame, leave_frame, refused_join_frame, sync_frame};
pub use replies::{alone_code, generation_in, zero_is_committed};
