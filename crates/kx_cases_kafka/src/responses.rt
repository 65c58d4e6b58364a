//! Responses as cases write them: `response API VERSION CORRELATION WORD.. BYTES` reports the frame
//! of a response whose values are the words; those that no word says are here.
//!
//! - ApiVersions: the error; the versions are those that all clients work with.
//! - Metadata: none, or a topic and how many partitions it has.
//! - FindCoordinator: none.
//! - InitProducerId: id, epoch.
//! - Produce: topic, and of each partition `INDEX:ERROR:BASE`.
//! - Fetch: topic; aborted transactions, as `null`, `-` for none, or one as `ID:FIRST`; and of each
//!   partition `INDEX:END:STABLE`. The bytes are the records of each.
//! - ListOffsets, OffsetFetch: topic, and of each partition `INDEX:ERROR:OFFSET`.
//! - AddPartitionsToTxn, TxnOffsetCommit, OffsetCommit: topic, and of each partition `INDEX:ERROR`.
//! - AddOffsetsToTxn, EndTxn, Heartbeat, LeaveGroup: the error.
//! - JoinGroup: the member, who leads; the bytes are its metadata.
//! - SyncGroup: none; the bytes are the assignment.
use kx_cases::{StepFault, known, value};
use kx_kafka::{
    AbortedTransaction, AddOffsetsToTxnResponse, AddPartitionsToTxnResponse, ApiKey, ApiVersion,
    ApiVersionsResponse, EndTxnResponse, FetchPartitionResponse, FetchResponse,
    FetchableTopicResponse, FindCoordinatorResponse, HeartbeatResponse, InitProducerIdResponse,
    JoinGroupMember, JoinGroupResponse, LeaveGroupResponse, ListOffsetsPartitionResponse,
    ListOffsetsResponse, ListOffsetsTopicResponse, MetadataResponse, MetadataResponseBroker,
    MetadataResponsePartition, MetadataResponseTopic, OffsetCommitResponse, OffsetFetchPartition,
    OffsetFetchResponse, OffsetFetchTopic, PartitionError, PartitionProduceResponse,
    ProduceResponse, SyncGroupResponse, TopicErrors, TopicProduceResponse, TxnOffsetCommitResponse,
    Writes, response_frame,
};
use std::alloc::Global;

/// What a case says of a response.
#[derive(Clone, Copy)]
pub(crate) struct Said<'a> {
    pub(crate) alloc: Global,
    pub(crate) version: i16,
    pub(crate) correlation_id: i32,
    pub(crate) words: &'a [&'a str],
    pub(crate) bytes: &'a [u8],
}

type Written = Result<Vec<u8>, StepFault>;

// The frame of a response of an API.
fn frame<T: Writes>(said: Said<'_>, api: ApiKey, response: &T) -> Written {
    let version = api.version(said.version).ok_or(StepFault::Unknown)?;
    known(response_frame(said.alloc, version, said.correlation_id, response))
}

// A topic and the words of its partitions.
fn topic<'a>(said: Said<'a>) -> Result<(&'a [u8], &'a [&'a str]), StepFault> {
    let [name, partitions @ ..] = said.words else {
        return Err(StepFault::Unknown);
    };
    Ok((name.as_bytes(), partitions))
}

// The error that is the only word.
fn error_code(said: Said<'_>) -> Result<i16, StepFault> {
    let [code] = said.words else {
        return Err(StepFault::Unknown);
    };
    value(code)
}

fn two_parts(word: &str) -> Result<(&str, &str), StepFault> {
    word.split_once(':').ok_or(StepFault::Unknown)
}

fn three_parts(word: &str) -> Result<(&str, &str, &str), StepFault> {
    let (first, others) = two_parts(word)?;
    let (second, third) = two_parts(others)?;
    Ok((first, second, third))
}

// The versions that all clients work with.
const VERSIONS: [(i16, i16, i16); 17] = [
    (0, 3, 4),
    (1, 4, 4),
    (2, 1, 2),
    (3, 0, 5),
    (8, 1, 2),
    (9, 1, 1),
    (10, 0, 1),
    (11, 0, 2),
    (12, 0, 1),
    (13, 0, 1),
    (14, 0, 1),
    (18, 0, 0),
    (22, 0, 0),
    (24, 0, 0),
    (25, 0, 0),
    (26, 0, 1),
    (28, 0, 0),
];

fn api_versions(said: Said<'_>) -> Written {
    let error_code = error_code(said)?;
    let mut api_keys = Vec::new(said.alloc);
    for (api_key, min_version, max_version) in VERSIONS {
        if error_code == 0 || api_key == 18 {
            api_keys.push(ApiVersion {
                api_key,
                min_version,
                max_version,
            })?;
        }
    }
    let response = ApiVersionsResponse {
        error_code,
        api_keys: &api_keys,
    };
    frame(said, ApiKey::ApiVersions, &response)
}

// One broker, which leads the partitions of the topic, if there is one.
fn metadata(said: Said<'_>) -> Written {
    let (name, count, shown) = match said.words {
        [name, count] => (*name, value(count)?, 1),
        _ => ("", 0, 0),
    };
    let mut partitions = Vec::new(said.alloc);
    for partition_index in 0..count {
        partitions.push(MetadataResponsePartition {
            error_code: 0,
            partition_index,
            leader_id: 0,
            replica_nodes: &[0],
            isr_nodes: &[0],
            offline_replicas: &[],
        })?;
    }
    let topics = [MetadataResponseTopic {
        error_code: 0,
        name: name.as_bytes(),
        is_internal: false,
        partitions: &partitions,
    }];
    let response = MetadataResponse {
        throttle_time_ms: 0,
        brokers: &[MetadataResponseBroker {
            node_id: 0,
            host: b"127.0.0.1",
            port: 9292,
            rack: None,
        }],
        cluster_id: Some(b"kx"),
        controller_id: 0,
        topics: &topics[..shown],
    };
    frame(said, ApiKey::Metadata, &response)
}

fn find_coordinator(said: Said<'_>) -> Written {
    let response = FindCoordinatorResponse {
        throttle_time_ms: 0,
        error_code: 0,
        error_message: None,
        node_id: 0,
        host: b"127.0.0.1",
        port: 9292,
    };
    frame(said, ApiKey::FindCoordinator, &response)
}

fn init_producer_id(said: Said<'_>) -> Written {
    let [id, epoch] = said.words else {
        return Err(StepFault::Unknown);
    };
    let response = InitProducerIdResponse {
        throttle_time_ms: 0,
        error_code: 0,
        producer_id: value(id)?,
        producer_epoch: value(epoch)?,
    };
    frame(said, ApiKey::InitProducerId, &response)
}

fn produce(said: Said<'_>) -> Written {
    let (name, words) = topic(said)?;
    let mut partitions = Vec::new(said.alloc);
    for word in words {
        let (index, error, base) = three_parts(word)?;
        partitions.push(PartitionProduceResponse {
            index: value(index)?,
            error_code: value(error)?,
            base_offset: value(base)?,
            log_append_time_ms: -1,
        })?;
    }
    let response = ProduceResponse {
        responses: &[TopicProduceResponse {
            name,
            partition_responses: &partitions,
        }],
        throttle_time_ms: 0,
    };
    frame(said, ApiKey::Produce, &response)
}

fn fetch_of<'x>(said: Said<'x>, aborted: Option<&'x [AbortedTransaction]>) -> Written {
    let [name, _, words @ ..] = said.words else {
        return Err(StepFault::Unknown);
    };
    let mut partitions = Vec::new(said.alloc);
    for word in words {
        let (index, end, stable) = three_parts(word)?;
        partitions.push(FetchPartitionResponse {
            partition_index: value(index)?,
            error_code: 0,
            high_watermark: value(end)?,
            last_stable_offset: value(stable)?,
            aborted_transactions: aborted,
            records: Some(said.bytes),
        })?;
    }
    let response = FetchResponse {
        throttle_time_ms: 0,
        responses: &[FetchableTopicResponse {
            topic: name.as_bytes(),
            partitions: &partitions,
        }],
    };
    frame(said, ApiKey::Fetch, &response)
}

fn fetch(said: Said<'_>) -> Written {
    match said.words.get(1) {
        Some(&"null") => fetch_of(said, None),
        Some(&"-") => fetch_of(said, Some(&[])),
        Some(word) => {
            let (id, first) = two_parts(word)?;
            let aborted = AbortedTransaction {
                producer_id: value(id)?,
                first_offset: value(first)?,
            };
            fetch_of(said, Some(&[aborted]))
        }
        None => Err(StepFault::Unknown),
    }
}

fn list_offsets(said: Said<'_>) -> Written {
    let (name, words) = topic(said)?;
    let mut partitions = Vec::new(said.alloc);
    for word in words {
        let (index, error, offset) = three_parts(word)?;
        partitions.push(ListOffsetsPartitionResponse {
            partition_index: value(index)?,
            error_code: value(error)?,
            timestamp: -1,
            offset: value(offset)?,
        })?;
    }
    let response = ListOffsetsResponse {
        throttle_time_ms: 0,
        topics: &[ListOffsetsTopicResponse {
            name,
            partitions: &partitions,
        }],
    };
    frame(said, ApiKey::ListOffsets, &response)
}

fn offset_fetch(said: Said<'_>) -> Written {
    let (name, words) = topic(said)?;
    let mut partitions = Vec::new(said.alloc);
    for word in words {
        let (index, error, offset) = three_parts(word)?;
        partitions.push(OffsetFetchPartition {
            partition_index: value(index)?,
            committed_offset: value(offset)?,
            committed_leader_epoch: -1,
            metadata: Some(b""),
            error_code: value(error)?,
        })?;
    }
    let response = OffsetFetchResponse {
        throttle_time_ms: 0,
        topics: &[OffsetFetchTopic {
            name,
            partitions: &partitions,
        }],
        error_code: 0,
    };
    frame(said, ApiKey::OffsetFetch, &response)
}

// The errors of the partitions of these words.
fn errors(alloc: Global, words: &[&str]) -> Result<Vec<PartitionError>, StepFault> {
    let mut partitions = Vec::new(alloc);
    for word in words {
        let (index, error) = two_parts(word)?;
        partitions.push(PartitionError {
            partition_index: value(index)?,
            error_code: value(error)?,
        })?;
    }
    Ok(partitions)
}

fn add_partitions(said: Said<'_>) -> Written {
    let (name, words) = topic(said)?;
    let partitions = errors(said.alloc, words)?;
    let response = AddPartitionsToTxnResponse {
        throttle_time_ms: 0,
        results: &[TopicErrors {
            name,
            partitions: &partitions,
        }],
    };
    frame(said, ApiKey::AddPartitionsToTxn, &response)
}

fn txn_offset_commit(said: Said<'_>) -> Written {
    let (name, words) = topic(said)?;
    let partitions = errors(said.alloc, words)?;
    let response = TxnOffsetCommitResponse {
        throttle_time_ms: 0,
        topics: &[TopicErrors {
            name,
            partitions: &partitions,
        }],
    };
    frame(said, ApiKey::TxnOffsetCommit, &response)
}

fn offset_commit(said: Said<'_>) -> Written {
    let (name, words) = topic(said)?;
    let partitions = errors(said.alloc, words)?;
    let response = OffsetCommitResponse {
        topics: &[TopicErrors {
            name,
            partitions: &partitions,
        }],
    };
    frame(said, ApiKey::OffsetCommit, &response)
}

fn add_offsets(said: Said<'_>) -> Written {
    let response = AddOffsetsToTxnResponse {
        throttle_time_ms: 0,
        error_code: error_code(said)?,
    };
    frame(said, ApiKey::AddOffsetsToTxn, &response)
}

fn end_txn(said: Said<'_>) -> Written {
    let response = EndTxnResponse {
        throttle_time_ms: 0,
        error_code: error_code(said)?,
    };
    frame(said, ApiKey::EndTxn, &response)
}

fn heartbeat(said: Said<'_>) -> Written {
    let response = HeartbeatResponse {
        throttle_time_ms: 0,
        error_code: error_code(said)?,
    };
    frame(said, ApiKey::Heartbeat, &response)
}

fn leave_group(said: Said<'_>) -> Written {
    let response = LeaveGroupResponse {
        throttle_time_ms: 0,
        error_code: error_code(said)?,
    };
    frame(said, ApiKey::LeaveGroup, &response)
}

fn join_group(said: Said<'_>) -> Written {
    let [member] = said.words else {
        return Err(StepFault::Unknown);
    };
    let member_id = member.as_bytes();
    let response = JoinGroupResponse {
        throttle_time_ms: 0,
        error_code: 0,
        generation_id: 1,
        protocol_name: b"range",
        leader: member_id,
        member_id,
        members: &[JoinGroupMember {
            member_id,
            metadata: said.bytes,
        }],
    };
    frame(said, ApiKey::JoinGroup, &response)
}

fn sync_group(said: Said<'_>) -> Written {
    let response = SyncGroupResponse {
        throttle_time_ms: 0,
        error_code: 0,
        assignment: said.bytes,
    };
    frame(said, ApiKey::SyncGroup, &response)
}

/// The frame of a response of the API of this name.
pub(crate) fn response(name: &str, said: Said<'_>) -> Written {
    match name {
        "ApiVersions" => api_versions(said),
        "Metadata" => metadata(said),
        "FindCoordinator" => find_coordinator(said),
        "InitProducerId" => init_producer_id(said),
        "Produce" => produce(said),
        "Fetch" => fetch(said),
        "ListOffsets" => list_offsets(said),
        "OffsetFetch" => offset_fetch(said),
        "AddPartitionsToTxn" => add_partitions(said),
        "AddOffsetsToTxn" => add_offsets(said),
        "EndTxn" => end_txn(said),
        "TxnOffsetCommit" => txn_offset_commit(said),
        "OffsetCommit" => offset_commit(said),
        "JoinGroup" => join_group(said),
        "SyncGroup" => sync_group(said),
        "Heartbeat" => heartbeat(said),
        "LeaveGroup" => leave_group(said),
        _ => Err(StepFault::Unknown),
    }
}
