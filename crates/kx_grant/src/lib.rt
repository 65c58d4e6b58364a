//! What a stock Kafka producer with a transactional id holds, and how its requests become the
//! core's. Pure code: sockets, waiting and files are the server's.
//!
//! Such a producer keeps one id and epoch over many transactions, and its sequences go on. The core
//! raises the epoch at each end, and begins each epoch at sequence 0 in each partition.
#![tactic(auto)]

mod fenced;
mod grant;
mod heard;
mod laws;
mod producer;
mod sequence;
mod verdicts;

pub use fenced::{end_code, end_fenced_code, init_code, init_fenced_code, is_final, produce_code};
pub use grant::{Grant, LastRow};
pub use heard::{Heard, Role};
pub use laws::{
    a_batch_is_sent_as_one, a_batch_is_sent_in_one_transaction, a_bump_answers_another_pair,
    a_counted_batch_moves_on, a_fenced_producer_sends_nothing, an_end_is_decided_by_the_core,
    grants_know_sequences, offsets_are_sent_in_turn, older_connections_are_not_heard,
    zero_is_the_cores,
};
pub use producer::{ClientBatch, Producer, outcome_of};
pub use verdicts::{BatchVerdict, EndStep, EndVerdict, Granting, InitVerdict};
