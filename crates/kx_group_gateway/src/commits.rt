//! OffsetCommit and TxnOffsetCommit: what the core is asked, and their responses.
ghost use Rattle.std.specs.Prelude.{◌≡◌, ◌++◌, [], IfOk, map, pos};
ghost use Rattle.kx_kafka.specs.Frames.{frame_text, response_text};
ghost use Rattle.kx_kafka.specs.Layouts.{offset_commit_response, txn_offset_commit_response};
ghost use Rattle.kx_gateway.specs.Topics.{partition_at};
ghost use Rattle.kx_group_gateway.specs.Claims.{answered_claim, answered_topic, code_at};
ghost use Rattle.kx_group_gateway.specs.Claims.{offsets_in, offsets_of, with_offset};

use crate::claims::{Claim, ClaimedTopic};
use kx_gateway::Topics;
use kx_kafka::{
    KafkaFault, OffsetCommitResponse, PartitionError, RequestHeader, TopicErrors,
    TxnOffsetCommitResponse, Writes, response_frame,
};
use kx_message::{ErrorCode, PartitionId, PartitionOffset};
use std::alloc::{AllocError, Global};

/// The offsets that the core is asked to commit: those of partitions that are there, in the
/// request's order.
///
/// # Errors
///
/// Only if memory runs out.
pub fn offsets_of(
    alloc: Global,
    table: &Topics,
    topics: &[ClaimedTopic<'_>],
) -> Result<Vec<PartitionOffset>, AllocError>
    ensures { IfOk result (λ offsets. offsets.items ≡ offsets_of table.now topics.now) }
{
    let mut offsets = Vec::new(alloc);
    for topic in topics {
        add_offsets(&mut offsets, table, topic.name(), topic.claims())?;
    }
    Ok(offsets)
}

// Adds the offsets of a topic's partitions that are there.
fn add_offsets(
    offsets: &mut Vec<PartitionOffset>,
    table: &Topics,
    name: &[u8],
    claims: &[Claim],
) -> Result<(), AllocError>
    ensures { IfOk result (λ done. offsets.new.items
        ≡ offsets.old.items ++ offsets_in table.now name.now claims.now) }
{
    for claim in claims {
        add_offset(offsets, table, name, claim)?;
    }
    Ok(())
}

// Adds the offset of a partition, if it is there.
fn add_offset(
    offsets: &mut Vec<PartitionOffset>,
    table: &Topics,
    name: &[u8],
    claim: &Claim,
) -> Result<(), AllocError>
    ensures { IfOk result (λ done. offsets.new.items ≡ offsets.old.items
        ++ with_offset (partition_at table.now name.now claim.now.index) claim.now.offset []) }
{
    if let Some(partition) = table.partition(name, claim.index) {
        offsets.push(PartitionOffset {
            partition,
            offset: claim.offset,
        })?;
    }
    Ok(())
}

// The code of an offset's partition, if the core's is this one.
fn code_at(partition: Option<PartitionId>, code: i16) -> i16
    ensures { result ≡ code_at partition code }
{
    match partition {
        None => ErrorCode::UnknownTopicOrPartition.number(),
        Some(_) => code,
    }
}

// The answer to an offset of a topic.
fn error_of(table: &Topics, name: &[u8], code: i16, claim: &Claim) -> PartitionError
    ensures { ⟦<PartitionError as Writes>⟧.values result
        ≡ answered_claim table.now name.now code claim.now }
{
    PartitionError {
        partition_index: claim.index,
        error_code: code_at(table.partition(name, claim.index), code),
    }
}

// The answers to the offsets of a topic.
fn errors_of(
    alloc: Global,
    table: &Topics,
    code: i16,
    topic: &ClaimedTopic<'_>,
) -> Result<Vec<PartitionError>, AllocError>
    ensures { IfOk result (λ list. map ⟦<PartitionError as Writes>⟧.values list.items
        ≡ map (answered_claim table.now topic.now.name code) topic.now.claims) }
{
    let claims = topic.claims();
    let mut errors = Vec::with_capacity(alloc, claims.len())?;
    for claim in claims {
        errors.push(error_of(table, topic.name(), code, claim))?;
    }
    Ok(errors)
}

// A topic's name, and its partitions with their codes.
#[derive(Drop)]
struct CodedTopic<'a> {
    name: &'a [u8],
    errors: Vec<PartitionError>,
}

// The answers to each topic's offsets.
fn answers_of<'a>(
    alloc: Global,
    table: &Topics,
    topics: &[ClaimedTopic<'a>],
    code: i16,
) -> Result<Vec<CodedTopic<'a>>, AllocError>
    ensures { IfOk result (λ list.
        map (λ t. (t.name.now, (map ⟦<PartitionError as Writes>⟧.values t.errors.items, tt)))
        list.items ≡ map (answered_topic table.now code) topics.now) }
{
    let mut list = Vec::with_capacity(alloc, topics.len())?;
    for topic in topics {
        list.push(CodedTopic {
            name: topic.name(),
            errors: errors_of(alloc, table, code, topic)?,
        })?;
    }
    Ok(list)
}

// The topics, as a response has them.
fn results_of<'a>(
    alloc: Global,
    topics: &'a [CodedTopic<'a>],
) -> Result<Vec<TopicErrors<'a>>, AllocError>
    ensures { IfOk result (λ list. map ⟦<TopicErrors<'a> as Writes>⟧.values list.items
        ≡ map (λ t. (t.name.now, (map ⟦<PartitionError as Writes>⟧.values t.errors.items, tt)))
        topics.now) }
{
    let mut results = Vec::with_capacity(alloc, topics.len())?;
    for topic in topics {
        results.push(TopicErrors {
            name: topic.name,
            partitions: &topic.errors,
        })?;
    }
    Ok(results)
}

/// The frame of the response to an OffsetCommit of these topics, of which the core answered with
/// this code: each offset has the code, but 3 if its partition isn't there.
///
/// # Errors
///
/// As [`response_frame`].
pub fn commit_frame(
    alloc: Global,
    header: &RequestHeader<'_>,
    table: &Topics,
    topics: &[ClaimedTopic<'_>],
    code: i16,
) -> Result<Vec<u8>, KafkaFault>
    ensures { IfOk result (λ frame. frame.items ≡ frame_text (response_text header.now.version
        header.now.correlation_id offset_commit_response
        (map (answered_topic table.now code) topics.now, tt))) }
{
    let answers = answers_of(alloc, table, topics, code)?;
    let results = results_of(alloc, &answers)?;
    let response = OffsetCommitResponse { topics: &results };
    response_frame(alloc, header.version, header.correlation_id, &response)
}

/// The frame of the response to a TxnOffsetCommit of these topics, of which the core answered with
/// this code: each offset has the code, but 3 if its partition isn't there.
///
/// # Errors
///
/// As [`response_frame`].
pub fn txn_commit_frame(
    alloc: Global,
    header: &RequestHeader<'_>,
    table: &Topics,
    topics: &[ClaimedTopic<'_>],
    code: i16,
) -> Result<Vec<u8>, KafkaFault>
    ensures { IfOk result (λ frame. frame.items ≡ frame_text (response_text header.now.version
        header.now.correlation_id txn_offset_commit_response
        (pos 0, (map (answered_topic table.now code) topics.now, tt)))) }
{
    let answers = answers_of(alloc, table, topics, code)?;
    let results = results_of(alloc, &answers)?;
    let response = TxnOffsetCommitResponse {
        throttle_time_ms: 0,
        topics: &results,
    };
    response_frame(alloc, header.version, header.correlation_id, &response)
}
