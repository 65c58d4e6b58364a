//! OffsetFetch: the offsets that a group has committed.
ghost use Rattle.std.specs.Prelude.{◌≡◌, IfOk, map, pos};
ghost use Rattle.kx_kafka.specs.Frames.{frame_text, response_text};
ghost use Rattle.kx_kafka.specs.Layouts.{offset_fetch_response};
ghost use Rattle.kx_group_gateway.specs.Fetched.{committed_in, fetched_offset};

use kx_kafka::{
    KafkaFault, OffsetFetchPartition, OffsetFetchResponse, OffsetFetchTopic, RequestHeader, Writes,
    response_frame,
};
use kx_message::{ErrorCode, OffsetFetchReply};
use std::alloc::{AllocError, Global};

/// A topic, and the answers to its partitions, in the order in which they are sent.
#[derive(Drop)]
pub struct FetchedTopic<'a> {
    /// The name of the topic.
    pub name: &'a [u8],
    /// The answers.
    pub answers: Vec<OffsetFetchPartition<'static>>,
}

/// The answer to a partition by its number in the request, by what the core replied: its code, and
/// the committed offset, -1 if there is none or the code isn't 0. Metadata is empty.
pub fn fetched_offset(index: i32, code: ErrorCode, offset: i64) -> OffsetFetchPartition<'static>
    ensures { ⟦<OffsetFetchPartition<'static> as Writes>⟧.values result
        ≡ fetched_offset index code offset }
{
    OffsetFetchPartition {
        partition_index: index,
        committed_offset: match code {
            ErrorCode::NoError => offset,
            _ => -1,
        },
        committed_leader_epoch: -1,
        metadata: Some(b""),
        error_code: code.number(),
    }
}

// The topics, as a response has them.
fn results_of<'a>(
    alloc: Global,
    topics: &'a [FetchedTopic<'a>],
) -> Result<Vec<OffsetFetchTopic<'a>>, AllocError>
    ensures { IfOk result (λ list. map ⟦<OffsetFetchTopic<'a> as Writes>⟧.values list.items
        ≡ map (λ t. (t.name.now, (map ⟦<OffsetFetchPartition<'a> as Writes>⟧.values t.answers.items, tt)))
        topics.now) }
{
    let mut results = Vec::with_capacity(alloc, topics.len())?;
    for topic in topics {
        results.push(OffsetFetchTopic {
            name: topic.name,
            partitions: &topic.answers,
        })?;
    }
    Ok(results)
}

/// The frame of the response to an OffsetFetch, with these answers and this code.
///
/// # Errors
///
/// As [`response_frame`].
pub fn offset_fetch_frame<'a>(
    alloc: Global,
    header: &RequestHeader<'_>,
    topics: &'a [FetchedTopic<'a>],
    code: i16,
) -> Result<Vec<u8>, KafkaFault>
    ensures { IfOk result (λ frame. frame.items ≡ frame_text (response_text header.now.version
        header.now.correlation_id offset_fetch_response (
          pos 0,
          (
            map (λ t. (t.name.now, (map ⟦<OffsetFetchPartition<'a> as Writes>⟧.values t.answers.items, tt)))
                topics.now,
            (code, tt),
          ),
        ))) }
{
    let results = results_of(alloc, topics)?;
    let response = OffsetFetchResponse {
        throttle_time_ms: 0,
        topics: &results,
        error_code: code,
    };
    response_frame(alloc, header.version, header.correlation_id, &response)
}
