//! Requests as cases tell them: `request BYTES` tells the API, the version, the correlation id, the
//! client's id and the fields, or the fault; `cuts BYTES` tells what each proper front of them is;
//! `changes BYTES` counts what comes of them with each byte in turn as each of its 255 others;
//! `front BYTES` tells what stands alike in front of each request, whatever its version.
use kx_cases::{Runs, StepFault, told_bytes, told_name};
use kx_kafka::{
    AddOffsetsToTxnRequest, AddPartitionsToTxnRequest, Array, EndTxnRequest, FetchRequest,
    FieldReader, FindCoordinatorRequest, HeartbeatRequest, InitProducerIdRequest, Int32,
    JoinGroupRequest, KafkaFault, LeaveGroupRequest, ListOffsetsRequest, MetadataRequest,
    OffsetCommitRequest, OffsetFetchRequest, ProduceRequest, Request, RequestFront, RequestHeader,
    Struct, SyncGroupRequest, TopicPartition, TxnOffsetCommitRequest, Version, read_request,
};
use std::alloc::Global;
use std::fmt::{self, Write};
use std::str;

// A string, or null: its text, or `x` and its bytes in hexadecimal if they are no UTF-8.
#[derive(Clone, Copy)]
struct Shown<'a>(Option<&'a [u8]>);

impl<'a> fmt::Display for Shown<'a> {
    fn fmt<W: fmt::Write>(&self, f: &mut fmt::Formatter<W>) -> fmt::Result {
        let Some(bytes) = self.0 else {
            return f.write_str("null");
        };
        match str::from_utf8(bytes) {
            Ok(text) => f.write_str(text),
            Err(_) => {
                f.write_str("x")?;
                for byte in bytes {
                    write!(f, "{byte:02x}")?;
                }
                Ok(())
            }
        }
    }
}

fn word(bytes: &[u8]) -> Shown<'_> {
    Shown(Some(bytes))
}

fn word_or_null(bytes: Option<&[u8]>) -> Shown<'_> {
    Shown(bytes)
}

// Bytes in hexadecimal, or null.
fn bytes_or_null(alloc: Global, bytes: Option<&[u8]>) -> Result<String, StepFault> {
    match bytes {
        None => Ok(format!(in alloc; "null")?),
        Some(bytes) => Ok(told_bytes(alloc, bytes)?),
    }
}

fn metadata(text: &mut String, it: MetadataRequest<'_>) -> Result<(), StepFault> {
    let MetadataRequest {
        topics,
        allow_auto_topic_creation,
    } = it;
    match topics {
        None => text.push_str(" all")?,
        Some(topics) => {
            for topic in topics {
                write!(text, " [{}]", word(topic.name))?;
            }
        }
    }
    write!(text, " create {allow_auto_topic_creation}")?;
    Ok(())
}

fn produce(alloc: Global, text: &mut String, it: ProduceRequest<'_>) -> Result<(), StepFault> {
    let txn = word_or_null(it.transactional_id);
    write!(
        text,
        " txn {txn} acks {} timeout {}",
        it.acks, it.timeout_ms
    )?;
    for topic in it.topic_data {
        write!(text, " [{}", word(topic.name))?;
        for partition in topic.partition_data {
            let records = bytes_or_null(alloc, partition.records)?;
            write!(text, " {}:{records}", partition.index)?;
        }
        text.push_str("]")?;
    }
    Ok(())
}

fn fetch(text: &mut String, it: FetchRequest<'_>) -> Result<(), StepFault> {
    write!(text, " replica {} wait {}", it.replica_id, it.max_wait_ms)?;
    write!(text, " min {} max {}", it.min_bytes, it.max_bytes)?;
    write!(text, " isolation {}", it.isolation_level)?;
    for topic in it.topics {
        write!(text, " [{}", word(topic.topic))?;
        for p in topic.partitions {
            write!(
                text,
                " {}:{}:{}",
                p.partition, p.fetch_offset, p.partition_max_bytes
            )?;
        }
        text.push_str("]")?;
    }
    Ok(())
}

fn list_offsets(text: &mut String, it: ListOffsetsRequest<'_>) -> Result<(), StepFault> {
    write!(
        text,
        " replica {} isolation {}",
        it.replica_id, it.isolation_level
    )?;
    for topic in it.topics {
        write!(text, " [{}", word(topic.name))?;
        for p in topic.partitions {
            write!(text, " {}:{}", p.partition_index, p.timestamp)?;
        }
        text.push_str("]")?;
    }
    Ok(())
}

fn init_producer_id(text: &mut String, it: InitProducerIdRequest<'_>) -> Result<(), StepFault> {
    let txn = word_or_null(it.transactional_id);
    write!(text, " txn {txn} timeout {}", it.transaction_timeout_ms)?;
    write!(text, " id {} epoch {}", it.producer_id, it.producer_epoch)?;
    Ok(())
}

fn find_coordinator(text: &mut String, it: FindCoordinatorRequest<'_>) -> Result<(), StepFault> {
    write!(text, " key {} type {}", word(it.key), it.key_type)?;
    Ok(())
}

fn indexes(text: &mut String, partitions: Array<Int32<'_>>) -> Result<(), StepFault> {
    for partition in partitions {
        write!(text, " {}", partition.value)?;
    }
    Ok(())
}

fn topics(text: &mut String, topics: Array<TopicPartition<'_>>) -> Result<(), StepFault> {
    for topic in topics {
        write!(text, " [{}", word(topic.name))?;
        indexes(text, topic.partitions)?;
        text.push_str("]")?;
    }
    Ok(())
}

fn add_partitions(text: &mut String, it: AddPartitionsToTxnRequest<'_>) -> Result<(), StepFault> {
    write!(text, " txn {}", word(it.transactional_id))?;
    write!(text, " id {} epoch {}", it.producer_id, it.producer_epoch)?;
    topics(text, it.topics)
}

fn add_offsets(text: &mut String, it: AddOffsetsToTxnRequest<'_>) -> Result<(), StepFault> {
    write!(text, " txn {}", word(it.transactional_id))?;
    write!(text, " id {} epoch {}", it.producer_id, it.producer_epoch)?;
    write!(text, " group {}", word(it.group_id))?;
    Ok(())
}

fn end_txn(text: &mut String, it: EndTxnRequest<'_>) -> Result<(), StepFault> {
    write!(text, " txn {}", word(it.transactional_id))?;
    write!(text, " id {} epoch {}", it.producer_id, it.producer_epoch)?;
    write!(text, " commit {}", it.committed)?;
    Ok(())
}

fn txn_offset_commit(text: &mut String, it: TxnOffsetCommitRequest<'_>) -> Result<(), StepFault> {
    write!(
        text,
        " txn {} group {}",
        word(it.transactional_id),
        word(it.group_id)
    )?;
    write!(text, " id {} epoch {}", it.producer_id, it.producer_epoch)?;
    write!(
        text,
        " generation {} member {}",
        it.generation_id,
        word(it.member_id)
    )?;
    write!(text, " instance {}", word_or_null(it.group_instance_id))?;
    for topic in it.topics {
        write!(text, " [{}", word(topic.name))?;
        for p in topic.partitions {
            let metadata = word_or_null(p.committed_metadata);
            write!(text, " {}:{}", p.partition_index, p.committed_offset)?;
            write!(text, ":{}:{metadata}", p.committed_leader_epoch)?;
        }
        text.push_str("]")?;
    }
    Ok(())
}

fn offset_commit(text: &mut String, it: OffsetCommitRequest<'_>) -> Result<(), StepFault> {
    write!(
        text,
        " group {} generation {}",
        word(it.group_id),
        it.generation_id
    )?;
    write!(
        text,
        " member {} retention {}",
        word(it.member_id),
        it.retention_time_ms
    )?;
    for topic in it.topics {
        write!(text, " [{}", word(topic.name))?;
        for p in topic.partitions {
            let metadata = word_or_null(p.committed_metadata);
            write!(text, " {}:{}", p.partition_index, p.committed_offset)?;
            write!(text, ":{}:{metadata}", p.commit_timestamp)?;
        }
        text.push_str("]")?;
    }
    Ok(())
}

fn offset_fetch(text: &mut String, it: OffsetFetchRequest<'_>) -> Result<(), StepFault> {
    let OffsetFetchRequest {
        group_id,
        topics: asked,
        require_stable,
    } = it;
    write!(text, " group {} stable {require_stable}", word(group_id))?;
    match asked {
        None => Ok(text.push_str(" all")?),
        Some(found) => topics(text, found),
    }
}

fn join(alloc: Global, text: &mut String, it: JoinGroupRequest<'_>) -> Result<(), StepFault> {
    write!(
        text,
        " group {} session {}",
        word(it.group_id),
        it.session_timeout_ms
    )?;
    write!(
        text,
        " rebalance {} member {}",
        it.rebalance_timeout_ms,
        word(it.member_id)
    )?;
    write!(text, " type {}", word(it.protocol_type))?;
    for protocol in it.protocols {
        let metadata = told_bytes(alloc, protocol.metadata)?;
        write!(text, " [{} {metadata}]", word(protocol.name))?;
    }
    Ok(())
}

fn sync(alloc: Global, text: &mut String, it: SyncGroupRequest<'_>) -> Result<(), StepFault> {
    write!(
        text,
        " group {} generation {}",
        word(it.group_id),
        it.generation_id
    )?;
    write!(text, " member {}", word(it.member_id))?;
    for member in it.assignments {
        let assignment = told_bytes(alloc, member.assignment)?;
        write!(text, " [{} {assignment}]", word(member.member_id))?;
    }
    Ok(())
}

fn heartbeat(text: &mut String, it: HeartbeatRequest<'_>) -> Result<(), StepFault> {
    write!(
        text,
        " group {} generation {}",
        word(it.group_id),
        it.generation_id
    )?;
    write!(text, " member {}", word(it.member_id))?;
    Ok(())
}

fn leave(text: &mut String, it: LeaveGroupRequest<'_>) -> Result<(), StepFault> {
    write!(
        text,
        " group {} member {}",
        word(it.group_id),
        word(it.member_id)
    )?;
    Ok(())
}

// The fields of a request.
fn fields(alloc: Global, text: &mut String, request: Request<'_>) -> Result<(), StepFault> {
    match request {
        Request::ApiVersions(_) => Ok(()),
        Request::Metadata(it) => metadata(text, it),
        Request::Produce(it) => produce(alloc, text, it),
        Request::Fetch(it) => fetch(text, it),
        Request::ListOffsets(it) => list_offsets(text, it),
        Request::InitProducerId(it) => init_producer_id(text, it),
        Request::FindCoordinator(it) => find_coordinator(text, it),
        Request::AddPartitionsToTxn(it) => add_partitions(text, it),
        Request::AddOffsetsToTxn(it) => add_offsets(text, it),
        Request::EndTxn(it) => end_txn(text, it),
        Request::TxnOffsetCommit(it) => txn_offset_commit(text, it),
        Request::OffsetCommit(it) => offset_commit(text, it),
        Request::OffsetFetch(it) => offset_fetch(text, it),
        Request::JoinGroup(it) => join(alloc, text, it),
        Request::SyncGroup(it) => sync(alloc, text, it),
        Request::Heartbeat(it) => heartbeat(text, it),
        Request::LeaveGroup(it) => leave(text, it),
    }
}

fn told(
    alloc: Global,
    header: RequestHeader<'_>,
    request: Request<'_>,
) -> Result<String, StepFault> {
    let client = word_or_null(header.client_id);
    let mut text = format!(in alloc; "{:?} {}", header.api, header.version.number)?;
    write!(
        text,
        " correlation {} client {client}",
        header.correlation_id
    )?;
    fields(alloc, &mut text, request)?;
    Ok(text)
}

/// What a request tells, or its fault.
pub(crate) fn told_request(alloc: Global, bytes: &[u8]) -> Result<String, StepFault> {
    match read_request(bytes) {
        Ok((header, request)) => told(alloc, header, request),
        Err(fault) => told_name(alloc, fault),
    }
}

// What is in front of a request is read alike in any version.
const ANY_VERSION: Version = Version {
    number: 0,
    flexible: false,
};

/// The key, the version and the correlation id of a request in any version.
pub(crate) fn told_front(alloc: Global, bytes: &[u8]) -> Result<String, StepFault> {
    let mut reader = FieldReader { rest: bytes };
    match RequestFront::read(&mut reader, ANY_VERSION) {
        Ok(front) => {
            let mut text = format!(in alloc;
                "key {} version {}",
                front.api_key, front.api_version
            )?;
            write!(text, " correlation {}", front.correlation_id)?;
            Ok(text)
        }
        Err(fault) => told_name(alloc, fault),
    }
}

/// What the proper fronts of a request are, by their lengths.
pub(crate) fn told_cuts(alloc: Global, bytes: &[u8]) -> Result<String, StepFault> {
    let mut runs = Runs::new(alloc);
    for len in 0..bytes.len() {
        runs.push(len, told_request(alloc, &bytes[..len])?)?;
    }
    Ok(runs.finish()?)
}

// How many changed requests are refused, by the numbers of the faults, how many are another
// request, and how many are the same.
#[derive(Drop)]
struct Changes {
    refused: [u32; 6],
    another: u32,
    same: u32,
}

const REFUSALS: [KafkaFault; 6] = [
    KafkaFault::Short,
    KafkaFault::TooLong,
    KafkaFault::Key,
    KafkaFault::Version,
    KafkaFault::Field,
    KafkaFault::Memory,
];

impl Changes {
    // Counts a changed request, if the unchanged one tells this.
    fn count(&mut self, alloc: Global, changed: &[u8], unchanged: &str) -> Result<(), StepFault> {
        match read_request(changed) {
            Err(fault) => {
                if let Some(count) = self.refused.get_mut(usize::from(fault.number()) - 1) {
                    *count = count.saturating_add(1);
                }
            }
            Ok((header, request)) => {
                let text = told(alloc, header, request)?;
                if text.as_str() == unchanged {
                    self.same = self.same.saturating_add(1);
                } else {
                    self.another = self.another.saturating_add(1);
                }
            }
        }
        Ok(())
    }

    // As `Short 12 Key 3 another 40`, without those that are 0.
    fn finish(&self, alloc: Global) -> Result<String, StepFault> {
        let mut text = String::new(alloc);
        for (fault, count) in REFUSALS.iter().zip(self.refused.iter()) {
            if *count > 0 {
                write!(text, "{fault:?} {count} ")?;
            }
        }
        write!(text, "another {}", self.another)?;
        if self.same > 0 {
            write!(text, " same {}", self.same)?;
        }
        Ok(text)
    }
}

/// What comes of a request with each of its bytes in turn as each of its 255 others: how many are
/// refused, by their faults, how many are another request, and how many are the same.
pub(crate) fn told_changes(alloc: Global, bytes: &[u8]) -> Result<String, StepFault> {
    let unchanged = told_request(alloc, bytes)?;
    let mut changes = Changes {
        refused: [0; 6],
        another: 0,
        same: 0,
    };
    let mut changed = Vec::from_slice(alloc, bytes)?;
    for place in 0..bytes.len() {
        for by in 1..=255u8 {
            changed[place] = bytes[place].wrapping_add(by);
            changes.count(alloc, changed.as_slice(), unchanged.as_str())?;
        }
        changed[place] = bytes[place];
    }
    changes.finish(alloc)
}
