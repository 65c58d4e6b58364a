//! AddPartitionsToTxn, AddOffsetsToTxn and EndTxn: a transaction's partitions and groups, and its
//! end.
ghost use Rattle.std.specs.Prelude.{◌≡◌, [], ◌∷◌, IfOk, MatchOption, map};
ghost use Rattle.kx_kafka_types.specs.Rows.{elements};
ghost use Rattle.kx_kafka.specs.Frames.{frame_text, response_text};
ghost use Rattle.kx_kafka.specs.Layouts.{add_offsets_to_txn_response};
ghost use Rattle.kx_kafka.specs.Layouts.{add_partitions_to_txn_response, end_txn_response};
ghost use Rattle.kx_kafka.specs.Layouts.{topic_partition};
ghost use Rattle.kx_gateway.specs.Transactions.{added_offsets, added_partitions, coded};
ghost use Rattle.kx_gateway.specs.Transactions.{coded_topics, ended, indexes_in};

use kx_kafka::{
    AddOffsetsToTxnResponse, AddPartitionsToTxnRequest, AddPartitionsToTxnResponse, Array,
    EndTxnResponse, Int32, KafkaFault, PartitionError, RequestHeader, TopicErrors, TopicPartition,
    Writes, response_frame,
};
use std::alloc::{AllocError, Global};

// The first code, and those after it.
fn first_of(codes: &[i16]) -> Option<(i16, &[i16])>
    ensures { MatchOption result (codes.now ≡ []) (λ x. codes.now ≡ x.0 ∷ x.1.now) }
{
    if codes.is_empty() {
        return None;
    }
    Some((codes[0], &codes[1..]))
}

// Partitions of a topic with their codes, the first of these.
fn coded(
    alloc: Global,
    partitions: Array<Int32<'_>>,
    codes: &[i16],
) -> Result<Vec<PartitionError>, AllocError>
    ensures { IfOk result (λ list. map ⟦<PartitionError as Writes>⟧.values list.items
        ≡ coded (indexes_in partitions.entry) codes.now) }
{
    let mut errors = Vec::with_capacity(alloc, partitions.len())?;
    let mut rest = codes;
    for partition in partitions {
        let Some((code, after)) = first_of(rest) else {
            return Ok(errors);
        };
        errors.push(PartitionError {
            partition_index: partition.value,
            error_code: code,
        })?;
        rest = after;
    }
    Ok(errors)
}

// A topic's name, and its partitions with their codes.
#[derive(Drop)]
struct CodedTopic<'a> {
    name: &'a [u8],
    errors: Vec<PartitionError>,
}

// Each topic with the codes of its partitions.
fn coded_topics<'a>(
    alloc: Global,
    topics: Array<TopicPartition<'a>>,
    codes: &[i16],
) -> Result<Vec<CodedTopic<'a>>, AllocError>
    ensures { IfOk result (λ list.
        map (λ t. (t.name.now, (map ⟦<PartitionError as Writes>⟧.values t.errors.items, tt)))
        list.items ≡ coded_topics (elements topic_partition topics.entry) codes.now) }
{
    let mut list = Vec::with_capacity(alloc, topics.len())?;
    let mut rest = codes;
    for topic in topics {
        let count = topic.partitions.len().min(rest.len());
        list.push(CodedTopic {
            name: topic.name,
            errors: coded(alloc, topic.partitions, rest)?,
        })?;
        let (_, after) = rest.split_at(count);
        rest = after;
    }
    Ok(list)
}

// The topics, as a response has them.
fn results_of<'a>(
    alloc: Global,
    topics: &'a [CodedTopic<'a>],
) -> Result<Vec<TopicErrors<'a>>, AllocError>
    ensures { IfOk result (λ list. map ⟦<TopicErrors<'a> as Writes>⟧.values list.items
        ≡ map (λ t. (t.name.now, (map ⟦<PartitionError as Writes>⟧.values t.errors.items, tt)))
        topics.now) }
{
    let mut results = Vec::with_capacity(alloc, topics.len())?;
    for topic in topics {
        results.push(TopicErrors {
            name: topic.name,
            partitions: &topic.errors,
        })?;
    }
    Ok(results)
}

/// The frame of the response to a request to add partitions: the codes are those of all partitions
/// that were listed, in the request's order.
///
/// # Errors
///
/// As [`response_frame`].
pub fn add_partitions_frame(
    alloc: Global,
    header: &RequestHeader<'_>,
    request: AddPartitionsToTxnRequest<'_>,
    codes: &[i16],
) -> Result<Vec<u8>, KafkaFault>
    ensures { IfOk result (λ frame. frame.items ≡ frame_text (response_text header.now.version
        header.now.correlation_id add_partitions_to_txn_response
        (added_partitions (elements topic_partition request.entry.topics) codes.now))) }
{
    let topics = coded_topics(alloc, request.topics, codes)?;
    let results = results_of(alloc, &topics)?;
    let response = AddPartitionsToTxnResponse {
        throttle_time_ms: 0,
        results: &results,
    };
    response_frame(alloc, header.version, header.correlation_id, &response)
}

/// The frame of the response to a request to add a group's offsets, with this code.
///
/// # Errors
///
/// Only [`KafkaFault::Memory`].
pub fn add_offsets_frame(
    alloc: Global,
    header: &RequestHeader<'_>,
    code: i16,
) -> Result<Vec<u8>, KafkaFault>
    ensures { IfOk result (λ frame. frame.items ≡ frame_text (response_text header.now.version
        header.now.correlation_id add_offsets_to_txn_response (added_offsets code))) }
{
    let response = AddOffsetsToTxnResponse {
        throttle_time_ms: 0,
        error_code: code,
    };
    response_frame(alloc, header.version, header.correlation_id, &response)
}

/// The frame of the response to a request to end a transaction, with this code.
///
/// # Errors
///
/// Only [`KafkaFault::Memory`].
pub fn end_txn_frame(
    alloc: Global,
    header: &RequestHeader<'_>,
    code: i16,
) -> Result<Vec<u8>, KafkaFault>
    ensures { IfOk result (λ frame. frame.items ≡ frame_text (response_text header.now.version
        header.now.correlation_id end_txn_response (ended code))) }
{
    let response = EndTxnResponse {
        throttle_time_ms: 0,
        error_code: code,
    };
    response_frame(alloc, header.version, header.correlation_id, &response)
}
