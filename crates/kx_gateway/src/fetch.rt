//! Fetch: partitions that clients read, as the core is asked for them, and its replies.
ghost use Rattle.std.specs.Prelude.{◌≡◌, pos, negsuc, IfOk, map, Some, None, if◌then◌else◌};
ghost use Rattle.kx_kafka_types.specs.Rows.{elements};
ghost use Rattle.kx_kafka.specs.Frames.{frame_text, response_text};
ghost use Rattle.kx_kafka.specs.Layouts.{fetch_response, fetch_topic};
ghost use Rattle.kx_gateway.specs.Answers.{answered};
ghost use Rattle.kx_gateway.specs.Fetch.{aborted_of, budget_of, bytes_of, fetch_ask, fetched};
ghost use Rattle.kx_gateway.specs.Fetch.{limit_of, refused, sends, spent};

use crate::code::GatewayCode;
use crate::topics::Topics;
use kx_batch::BATCH_LIMIT;
use kx_kafka::{
    AbortedTransaction, Array, FetchPartition, FetchPartitionResponse, FetchRequest, FetchResponse,
    FetchTopic, FetchableTopicResponse, IsolationLevel, KafkaFault, RequestHeader, Writes,
    response_frame,
};
use kx_message::{Caller, ErrorCode, Fetch, FetchReply};
use std::alloc::{AllocError, Global};

// As a count of bytes: a negative one is 0.
fn bytes_of(number: i32) -> u32
    ensures { result ≡ bytes_of number }
{
    if number < 0 { 0 } else { number as u32 }
}

/// How many bytes of records a response may still have. Kafka's rule (KIP-74): no more than the
/// request's limit in all and than its own for each partition; but the records of the first
/// partition that has some are sent, however many, so that a reader goes on.
#[derive(Clone, Copy)]
pub struct FetchBudget {
    left: u32,
    empty: bool,
}

impl FetchBudget {
    /// The budget of a request that has this limit. A response has at most as many bytes as the
    /// largest batch, whatever the limit.
    pub fn of(max_bytes: i32) -> FetchBudget
        ensures { result ≡ budget_of max_bytes }
    {
        FetchBudget {
            left: bytes_of(max_bytes).min(BATCH_LIMIT as u32),
            empty: true,
        }
    }

    /// How many bytes of a partition are asked at most, whose own limit is this.
    pub fn limit(&self, partition_max_bytes: i32) -> u32
        ensures { result ≡ limit_of self.now partition_max_bytes }
    {
        self.left.min(bytes_of(partition_max_bytes))
    }

    /// Whether a byte more of a partition's records is sent.
    pub fn has_room(&self, partition_max_bytes: i32) -> bool
        ensures { result ≡ sends self.now partition_max_bytes 1 }
    {
        self.empty || 1 <= self.limit(partition_max_bytes)
    }

    /// Whether this many bytes of a partition's records are sent. If so they count.
    pub fn take(&mut self, partition_max_bytes: i32, len: usize) -> bool
        ensures sends { result ≡ sends self.old partition_max_bytes len }
        ensures counts { self.new ≡ (if result then spent self.old len else self.old) }
    {
        if !self.empty && (self.limit(partition_max_bytes) as usize) < len {
            return false;
        }
        if len > 0 {
            self.empty = false;
        }
        self.left = if len < self.left as usize {
            self.left - len as u32
        } else {
            0
        };
        true
    }
}

/// What becomes of a partition that a client reads.
#[derive(Clone, Copy)]
pub enum FetchAsk {
    /// It is refused with this code, and the core isn't asked.
    Refused(i16),
    /// The core is asked for its records.
    Read(Fetch),
}

/// What the core is asked for a partition that a client reads, or with which code it is refused,
/// the first that fits: 42 for an isolation level that Kafka has none of; 3 if the partition
/// isn't there.
#[tactic(auto, unfolding(crate::specs::Fetch::fetch_ask))]
pub fn ask_fetch(
    topics: &Topics,
    caller: Caller,
    isolation_level: i8,
    topic: &[u8],
    asked: &FetchPartition<'_>,
    budget: &FetchBudget,
) -> FetchAsk
    ensures { result ≡ fetch_ask topics.now caller isolation_level topic.now asked.now.partition
        asked.now.fetch_offset (limit_of budget.now asked.now.partition_max_bytes) }
{
    let Some(level) = IsolationLevel::from_number(isolation_level) else {
        return FetchAsk::Refused(GatewayCode::InvalidRequest.number());
    };
    let Some(partition) = topics.partition(topic, asked.partition) else {
        return FetchAsk::Refused(ErrorCode::UnknownTopicOrPartition.number());
    };
    FetchAsk::Read(Fetch {
        caller,
        partition,
        from: asked.fetch_offset,
        max: budget.limit(asked.partition_max_bytes),
        committed: matches!(level, IsolationLevel::ReadCommitted),
    })
}

/// The aborted transactions of a reply, as a response has them.
///
/// # Errors
///
/// Only if memory runs out.
pub fn aborted_of(alloc: Global, reply: &FetchReply) -> Result<Vec<AbortedTransaction>, AllocError>
    ensures { IfOk result (λ list. list.items ≡ map aborted_of reply.now.aborted) }
{
    let aborted = reply.aborted.as_slice();
    let mut list = Vec::with_capacity(alloc, aborted.len())?;
    for txn in aborted {
        list.push(AbortedTransaction {
            producer_id: txn.id.get(),
            first_offset: txn.first,
        })?;
    }
    Ok(list)
}

/// What a partition of a response says of the core's reply: the end of its log as the high
/// watermark, its last stable offset, its aborted transactions for a reader of committed records
/// alone, and the reply's records, or none if they aren't sent.
pub fn fetched<'a>(
    index: i32,
    committed: bool,
    reply: &'a FetchReply,
    aborted: &'a [AbortedTransaction],
    sends: bool,
) -> FetchPartitionResponse<'a>
    ensures { ⟦<FetchPartitionResponse<'a> as Writes>⟧.values result ≡ fetched index committed
        reply.now (map ⟦<AbortedTransaction as Writes>⟧.values aborted.now) sends }
{
    let records = if sends { reply.batches.as_slice() } else { &[] };
    FetchPartitionResponse {
        partition_index: index,
        error_code: reply.code.number(),
        high_watermark: reply.end,
        last_stable_offset: reply.lso,
        aborted_transactions: if committed { Some(aborted) } else { None },
        records: Some(records),
    }
}

/// What a partition of a response says where it was refused with this code.
pub fn refused_fetch<'a>(index: i32, code: i16) -> FetchPartitionResponse<'a>
    ensures { ⟦<FetchPartitionResponse<'a> as Writes>⟧.values result ≡ refused index code }
{
    FetchPartitionResponse {
        partition_index: index,
        error_code: code,
        high_watermark: -1,
        last_stable_offset: -1,
        aborted_transactions: None,
        records: Some(&[]),
    }
}

// The answers of each topic, as a response has them.
fn by_topic<'a, 'n: 'a>(
    alloc: Global,
    topics: Array<FetchTopic<'n>>,
    answers: &'a [FetchPartitionResponse<'a>],
) -> Result<Vec<FetchableTopicResponse<'a>>, AllocError>
    ensures { IfOk result (λ list. map ⟦<FetchableTopicResponse<'a> as Writes>⟧.values list.items
        ≡ answered (elements fetch_topic topics.entry)
        (map ⟦<FetchPartitionResponse<'a> as Writes>⟧.values answers.now)) }
{
    let mut responses = Vec::with_capacity(alloc, topics.len())?;
    let mut at = 0;
    for topic in topics {
        let end = at + topic.partitions.len().min(answers.len() - at);
        responses.push(FetchableTopicResponse {
            topic: topic.topic,
            partitions: &answers[at..end],
        })?;
        at = end;
    }
    Ok(responses)
}

/// The frame of the response to a request: the answers are those of all partitions that were asked,
/// in the request's order.
///
/// # Errors
///
/// As [`response_frame`].
pub fn fetch_frame<'a, 'n: 'a>(
    alloc: Global,
    header: &RequestHeader<'_>,
    request: FetchRequest<'n>,
    answers: &'a [FetchPartitionResponse<'a>],
) -> Result<Vec<u8>, KafkaFault>
    ensures { IfOk result (λ frame. frame.items ≡ frame_text (response_text header.now.version
        header.now.correlation_id fetch_response (
          pos 0,
          (
            answered (elements fetch_topic request.entry.topics)
                (map ⟦<FetchPartitionResponse<'a> as Writes>⟧.values answers.now),
            tt,
          ),
        ))) }
{
    let responses = by_topic(alloc, request.topics, answers)?;
    let response = FetchResponse {
        throttle_time_ms: 0,
        responses: &responses,
    };
    response_frame(alloc, header.version, header.correlation_id, &response)
}
