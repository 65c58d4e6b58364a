//! What stock Kafka clients ask, as the core's messages, and the core's replies as Kafka's
//! responses. Pure code: sockets, threads, waiting and files are the server's.
#![tactic(auto)]

mod code;
mod fetch;
mod find;
mod ids;
mod init;
mod laws;
mod metadata;
mod names;
mod offer;
mod offsets;
mod produce;
mod table_file;
mod topics;
mod transactions;
mod txn_batch;

pub use code::{GatewayCode, coordinator_code};
pub use fetch::{
    FetchAsk, FetchBudget, aborted_of, ask_fetch, fetch_frame, fetched, refused_fetch,
};
pub use find::find_coordinator_frame;
pub use ids::{held_of, txn_of};
pub use init::{InitAsk, ask_init, init_frame, refused_init_frame};
pub use laws::{
    fetches_stay_within_limits, lines_are_read_as_written, topics_keep_their_partitions,
};
pub use metadata::{Broker, NamedTopic, TopicAnswer, asks_all, metadata_frame};
pub use names::is_topic_name;
pub use offer::api_versions_frame;
pub use offsets::{list_offsets_frame, listed, refused_offset};
pub use produce::{ProduceAsk, ask_produce, produce_frame, produced, refused_produce};
pub use table_file::{TopicsFault, read_topics, topic_line};
pub use topics::{Topic, TopicFault, Topics};
pub use transactions::{add_offsets_frame, add_partitions_frame, end_txn_frame};
pub use txn_batch::TxnBatch;
