//! Produce: batches that clients send, as the core takes them, and its answers.
ghost use Rattle.std.specs.Prelude.{◌≡◌, pos, negsuc, IfOk, IsTrue, map, option_map};
ghost use Rattle.kx_batch.specs.Batch.{IsBatch, batch_at};
ghost use Rattle.kx_message.specs.Codes.{number_of};
ghost use Rattle.kx_kafka_types.specs.Rows.{elements};
ghost use Rattle.kx_kafka.specs.Frames.{frame_text, response_text};
ghost use Rattle.kx_kafka.specs.Layouts.{produce_response, topic_produce_data};
ghost use Rattle.kx_gateway.specs.Answers.{answered};
ghost use Rattle.kx_gateway.specs.Produce.{append_alone, append_in, append_to, has_sequence, is_odd};
ghost use Rattle.kx_gateway.specs.Produce.{is_plain, produce_ask, produced, sent_text};
ghost use Rattle.kx_gateway.specs.TxnBatch.{sent_batch, whole};

use crate::code::GatewayCode;
use crate::ids::txn_of;
use crate::topics::Topics;
use crate::txn_batch::TxnBatch;
use kx_batch::{BatchView, set_producer};
use kx_kafka::{
    Array, KafkaFault, PartitionProduceData, PartitionProduceResponse, ProduceRequest,
    ProduceResponse, RequestHeader, TopicProduceData, TopicProduceResponse, Writes, response_frame,
};
use kx_message::{Bytes, Caller, ErrorCode, PartitionId, Produce, ProduceReply, TxnId};
use std::alloc::{AllocError, Global};

/// What becomes of the batch for a partition.
#[derive(Drop)]
pub enum ProduceAsk<'a> {
    /// It is refused with this code, and the core isn't asked.
    Refused(i16),
    /// The core is asked to append it.
    Append(Produce),
    /// The grant of the transactional id decides.
    InTransaction(TxnBatch<'a>),
}

// The core takes a batch of no producer with base sequence -1 alone.
const NO_ID: i64 = -1;

const NO_EPOCH: i16 = -1;

const NO_SEQUENCE: i32 = -1;

// Whether it has no producer.
fn is_plain(batch: &BatchView<'_>) -> bool
    ensures { result ≡ is_plain batch.now.batch }
{
    batch.producer_id() == NO_ID && batch.producer_epoch() == NO_EPOCH
}

fn has_sequence(batch: &BatchView<'_>) -> bool
    ensures { result ≡ has_sequence batch.now.batch }
{
    batch.base_sequence() != NO_SEQUENCE
}

// Whether the text is a whole valid batch of no producer, but for its base sequence.
fn has_odd_sequence(text: &[u8]) -> bool
    ensures odd { result ≡ is_odd (batch_at text.now) }
    ensures batch { IsTrue result → IsBatch text.now }
{
    let Ok((batch, rest)) = BatchView::read(text) else {
        return false;
    };
    if !rest.is_empty() {
        return false;
    }
    is_plain(&batch) && has_sequence(&batch)
}

// The text that the core gets: some clients give a plain batch a base sequence, as 0.
#[tactic(auto, unfolding(crate::specs::Produce::sent_text))]
fn sent_text(alloc: Global, text: &[u8]) -> Result<Vec<u8>, AllocError>
    ensures { IfOk result (λ sent. sent.items ≡ sent_text text.now) }
{
    let mut sent = Vec::from_slice(alloc, text)?;
    if has_odd_sequence(text) {
        set_producer(&mut sent, NO_ID, NO_EPOCH, NO_SEQUENCE);
    }
    Ok(sent)
}

// What the core is asked outside of transactions.
fn append_alone<'a>(
    alloc: Global,
    caller: Caller,
    partition: PartitionId,
    text: &[u8],
) -> Result<ProduceAsk<'a>, AllocError>
    ensures { IfOk result (λ ask. ask ≡ append_alone caller partition text.now) }
{
    let batch = Bytes::from_vec(sent_text(alloc, text)?);
    Ok(ProduceAsk::Append(Produce {
        caller,
        txn: None,
        partition,
        batch,
    }))
}

// What becomes of the batch of a producer with a transactional id.
fn append_in<'a>(
    alloc: Global,
    caller: Caller,
    txn: TxnId,
    partition: PartitionId,
    text: &'a [u8],
) -> Result<ProduceAsk<'a>, AllocError>
    ensures { IfOk result (λ ask. ask ≡ append_in caller txn partition text.now
        (sent_batch txn partition (whole (batch_at text.now)))) }
{
    if let Some(batch) = TxnBatch::of_records(txn, partition, text) {
        return Ok(ProduceAsk::InTransaction(batch));
    }
    let batch = Bytes::from_vec(Vec::from_slice(alloc, text)?);
    Ok(ProduceAsk::Append(Produce {
        caller,
        txn: Some(txn),
        partition,
        batch,
    }))
}

// What becomes of a batch for a partition, if there is one and it is there.
fn append_to<'a>(
    alloc: Global,
    caller: Caller,
    partition: Option<PartitionId>,
    records: Option<&'a [u8]>,
    txn: Option<TxnId>,
) -> Result<ProduceAsk<'a>, AllocError>
    ensures { IfOk result (λ ask. ask ≡ append_to caller partition
        (option_map (λ s. s.now) records.entry) txn) }
{
    let Some(partition) = partition else {
        return Ok(ProduceAsk::Refused(ErrorCode::UnknownTopicOrPartition.number()));
    };
    let Some(text) = records else {
        return Ok(ProduceAsk::Refused(ErrorCode::InvalidRecord.number()));
    };
    match txn {
        None => append_alone(alloc, caller, partition, text),
        Some(txn) => append_in(alloc, caller, txn, partition, text),
    }
}

/// What becomes of the batch that a client sends to a partition, the first that fits. It is refused
/// with code 21 if `acks` isn't -1, 0 or 1; with 53 for a transactional id that the core can't
/// hold; with 3 if the partition isn't there; with 87 for null records. Without a transactional
/// id it is appended as it is; but a whole valid batch without a producer's id and epoch has base
/// sequence -1. With one, the grant decides of a whole valid batch that is part of a transaction
/// and has a producer's id and epoch; any other text goes to the core as it is.
///
/// # Errors
///
/// Only if memory runs out.
#[tactic(auto, unfolding(crate::specs::Produce::produce_ask))]
pub fn ask_produce<'a>(
    alloc: Global,
    topics: &Topics,
    caller: Caller,
    acks: i16,
    transactional_id: Option<&[u8]>,
    topic: &[u8],
    asked: &PartitionProduceData<'a>,
) -> Result<ProduceAsk<'a>, AllocError>
    ensures { IfOk result (λ ask. ask ≡ produce_ask topics.now caller acks
        (option_map (λ s. s.now) transactional_id.entry) topic.now asked.now.index
        (option_map (λ s. s.now) asked.now.records)) }
{
    if !matches!(acks, -1..=1) {
        return Ok(ProduceAsk::Refused(GatewayCode::InvalidRequiredAcks.number()));
    }
    let partition = topics.partition(topic, asked.index);
    let Some(id) = transactional_id else {
        return append_to(alloc, caller, partition, asked.records, None);
    };
    match txn_of(id) {
        None => Ok(ProduceAsk::Refused(GatewayCode::TransactionalIdAuthorizationFailed.number())),
        Some(txn) => append_to(alloc, caller, partition, asked.records, Some(txn)),
    }
}

/// What a partition of a response says of the core's reply: its code and its offset. Records keep
/// the time that they came with.
pub fn produced(index: i32, reply: &ProduceReply) -> PartitionProduceResponse
    ensures { result ≡ produced index (pos (number_of reply.now.code)) reply.now.offset }
{
    PartitionProduceResponse {
        index,
        error_code: reply.code.number(),
        base_offset: reply.offset,
        log_append_time_ms: -1,
    }
}

/// What a partition of a response says of a batch that was refused with this code.
pub fn refused_produce(index: i32, code: i16) -> PartitionProduceResponse
    ensures { result ≡ produced index code (negsuc 0) }
{
    PartitionProduceResponse {
        index,
        error_code: code,
        base_offset: -1,
        log_append_time_ms: -1,
    }
}

// The answers of each topic, as a response has them.
fn by_topic<'a, 'n: 'a>(
    alloc: Global,
    topics: Array<TopicProduceData<'n>>,
    answers: &'a [PartitionProduceResponse],
) -> Result<Vec<TopicProduceResponse<'a>>, AllocError>
    ensures { IfOk result (λ list. map ⟦<TopicProduceResponse<'a> as Writes>⟧.values list.items
        ≡ answered (elements topic_produce_data topics.entry)
        (map ⟦<PartitionProduceResponse as Writes>⟧.values answers.now)) }
{
    let mut responses = Vec::with_capacity(alloc, topics.len())?;
    let mut at = 0;
    for topic in topics {
        let end = at + topic.partition_data.len().min(answers.len() - at);
        responses.push(TopicProduceResponse {
            name: topic.name,
            partition_responses: &answers[at..end],
        })?;
        at = end;
    }
    Ok(responses)
}

/// The frame of the response to a request: the answers are those of all partitions that were asked,
/// in the request's order.
///
/// # Errors
///
/// As [`response_frame`].
pub fn produce_frame<'a, 'n: 'a>(
    alloc: Global,
    header: &RequestHeader<'_>,
    request: ProduceRequest<'n>,
    answers: &'a [PartitionProduceResponse],
) -> Result<Vec<u8>, KafkaFault>
    ensures { IfOk result (λ frame. frame.items ≡ frame_text (response_text header.now.version
        header.now.correlation_id produce_response (
          answered (elements topic_produce_data request.entry.topic_data)
              (map ⟦<PartitionProduceResponse as Writes>⟧.values answers.now),
          (pos 0, tt),
        ))) }
{
    let responses = by_topic(alloc, request.topic_data, answers)?;
    let response = ProduceResponse {
        responses: &responses,
        throttle_time_ms: 0,
    };
    response_frame(alloc, header.version, header.correlation_id, &response)
}
