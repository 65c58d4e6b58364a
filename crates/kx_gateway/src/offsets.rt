//! ListOffsets: where a partition begins and ends.
ghost use Rattle.std.specs.Prelude.{◌≡◌, pos, negsuc, IfOk, map};
ghost use Rattle.kx_kafka_types.specs.Rows.{elements};
ghost use Rattle.kx_kafka.specs.Frames.{frame_text, response_text};
ghost use Rattle.kx_kafka.specs.Layouts.{list_offsets_response, list_offsets_topic};
ghost use Rattle.kx_gateway.specs.Answers.{answered};
ghost use Rattle.kx_gateway.specs.Fetch.{listed, listing};

use crate::code::GatewayCode;
use kx_kafka::{
    Array, KafkaFault, ListOffsetsPartitionResponse, ListOffsetsRequest, ListOffsetsResponse,
    ListOffsetsTopic, ListOffsetsTopicResponse, RequestHeader, Writes, response_frame,
};
use std::alloc::{AllocError, Global};

// An answer without a record's time.
fn listing(index: i32, code: i16, offset: i64) -> ListOffsetsPartitionResponse
    ensures { result ≡ listing index code offset }
{
    ListOffsetsPartitionResponse {
        partition_index: index,
        error_code: code,
        timestamp: -1,
        offset,
    }
}

/// What a partition of a response says of its log, which ends at `end` and whose last stable offset
/// is `lso`: for the timestamp -2 offset 0, where each log begins; for -1 the end, or for a reader
/// of committed records the last stable offset; for a time, which is 0 or more, offset -1, as none
/// is found. Any other timestamp is refused with code 42.
pub fn listed(
    index: i32,
    timestamp: i64,
    committed: bool,
    end: i64,
    lso: i64,
) -> ListOffsetsPartitionResponse
    ensures { result ≡ listed index timestamp committed end lso }
{
    match timestamp {
        -2 => listing(index, 0, 0),
        -1 => listing(index, 0, if committed { lso } else { end }),
        0.. => listing(index, 0, -1),
        _ => listing(index, GatewayCode::InvalidRequest.number(), -1),
    }
}

/// What a partition of a response says where it was refused with this code.
pub fn refused_offset(index: i32, code: i16) -> ListOffsetsPartitionResponse
    ensures { result ≡ listing index code (negsuc 0) }
{
    listing(index, code, -1)
}

// The answers of each topic, as a response has them.
fn by_topic<'a, 'n: 'a>(
    alloc: Global,
    topics: Array<ListOffsetsTopic<'n>>,
    answers: &'a [ListOffsetsPartitionResponse],
) -> Result<Vec<ListOffsetsTopicResponse<'a>>, AllocError>
    ensures { IfOk result (λ list. map ⟦<ListOffsetsTopicResponse<'a> as Writes>⟧.values list.items
        ≡ answered (elements list_offsets_topic topics.entry)
        (map ⟦<ListOffsetsPartitionResponse as Writes>⟧.values answers.now)) }
{
    let mut responses = Vec::with_capacity(alloc, topics.len())?;
    let mut at = 0;
    for topic in topics {
        let end = at + topic.partitions.len().min(answers.len() - at);
        responses.push(ListOffsetsTopicResponse {
            name: topic.name,
            partitions: &answers[at..end],
        })?;
        at = end;
    }
    Ok(responses)
}

/// The frame of the response to a request: the answers are those of all partitions that were asked,
/// in the request's order.
///
/// # Errors
///
/// As [`response_frame`].
pub fn list_offsets_frame<'a, 'n: 'a>(
    alloc: Global,
    header: &RequestHeader<'_>,
    request: ListOffsetsRequest<'n>,
    answers: &'a [ListOffsetsPartitionResponse],
) -> Result<Vec<u8>, KafkaFault>
    ensures { IfOk result (λ frame. frame.items ≡ frame_text (response_text header.now.version
        header.now.correlation_id list_offsets_response (
          pos 0,
          (
            answered (elements list_offsets_topic request.entry.topics)
                (map ⟦<ListOffsetsPartitionResponse as Writes>⟧.values answers.now),
            tt,
          ),
        ))) }
{
    let topics = by_topic(alloc, request.topics, answers)?;
    let response = ListOffsetsResponse {
        throttle_time_ms: 0,
        topics: &topics,
    };
    response_frame(alloc, header.version, header.correlation_id, &response)
}
