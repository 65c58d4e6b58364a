//! Kafka's own protocol over a server's connections: what stock clients ask of topics, partitions
//! and producer ids. What a request asks of the core and how it is answered is kx_gateway's; here
//! stand its threads, its files and its waiting.
#![tactic(auto)]

mod absent;
mod advertised;
mod answering;
mod asked;
mod closed;
mod committing;
mod fault;
mod fetching;
mod foreign;
mod grouping;
mod groups;
mod inbox;
mod kept;
mod left;
mod link;
mod named;
mod numbers;
mod owners;
mod places;
mod producers;
mod protocol;
mod replies;
mod span;
mod table;
mod transacting;
mod untaken;
mod users;

pub use advertised::{Advertised, advertised_in};
pub use asked::{AskFault, topics_asked};
pub use fault::{GatewayFault, GatewayFile};
pub use kx_gateway::{TopicFault, Topics};
pub use link::StockLink;
pub use protocol::{GatewayOptions, Kafka};
