//! What the benchmark of `bench/` measures, for C: checksums, reading, building and appending
//! batches, pages of a log, a log that is served, transactions of a coordinator, a stream of
//! frames, and Kafka's Produce, each in one call over the crates that do it.
#![tactic(auto)]

mod coordinators;
mod kafka;
mod logs;
mod reads;
mod served;
mod serving;

pub use coordinators::kx_bench_transactions;
pub use kafka::kx_bench_kafka_produce;
pub use logs::{kx_bench_pages, kx_bench_produce};
pub use reads::{kx_bench_build, kx_bench_crc32c, kx_bench_read};
pub use served::kx_bench_served;
pub use serving::kx_bench_serve;
