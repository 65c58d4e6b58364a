//! Metadata: the one broker, and the topics with their partitions.
ghost use Rattle.std.specs.Prelude.{◌≡◌, ◌≤◌, [], ◌∷◌, length, All, IfOk, map, option_map};
ghost use Rattle.kx_kafka_types.specs.Rows.{elements};
ghost use Rattle.kx_kafka.specs.Frames.{frame_text, response_text};
ghost use Rattle.kx_kafka.specs.Layouts.{metadata_request_topic, metadata_response};
ghost use Rattle.kx_gateway.specs.Metadata.{asks_all, broker_values, code_of, metadata_values};
ghost use Rattle.kx_gateway.specs.Metadata.{count_of, partition_values, topic_values};
ghost use Rattle.std.specs.List.{range_with_len};

use kx_kafka::{
    KafkaFault, MetadataRequest, MetadataResponse, MetadataResponseBroker,
    MetadataResponsePartition, MetadataResponseTopic, RequestHeader, Version, Writes,
    response_frame,
};
use std::alloc::{AllocError, Global};

/// The number of the one broker.
pub(crate) const NODE_ID: i32 = 1;

// It alone has the partitions.
const NODES: [i32; 1] = [NODE_ID];

// The name of the cluster.
const CLUSTER_ID: &[u8] = b"mokeupahi";

/// Where clients reach the broker, which is the leader of each partition and each coordinator.
#[derive(Clone, Copy)]
pub struct Broker<'a> {
    /// Its host name or address.
    pub host: &'a [u8],
    /// Its port.
    pub port: u16,
}

/// What a response says of a topic.
#[derive(Clone, Copy)]
pub enum TopicAnswer {
    /// It has this many partitions.
    Partitions(u16),
    /// There is none, with this code.
    Refused(i16),
}

impl TopicAnswer {
    // How many partitions it has.
    fn count(self) -> u16
        ensures { result ≡ count_of self }
    {
        match self {
            TopicAnswer::Partitions(count) => count,
            TopicAnswer::Refused(_) => 0,
        }
    }

    // Its code.
    fn code(self) -> i16
        ensures { result ≡ code_of self }
    {
        match self {
            TopicAnswer::Partitions(_) => 0,
            TopicAnswer::Refused(code) => code,
        }
    }
}

/// A topic that was asked for, and what is said of it.
#[derive(Clone, Copy)]
pub struct NamedTopic<'a> {
    /// Its name.
    pub name: &'a [u8],
    /// What is said of it.
    pub answer: TopicAnswer,
}

/// Whether a request asks for all topics: in version 0 by an empty list, from version 1 on by null.
pub fn asks_all(header: &RequestHeader<'_>, request: &MetadataRequest<'_>) -> bool
    ensures { result ≡ asks_all header.now.version
        (option_map (elements metadata_request_topic) request.now.topics) }
{
    match &request.topics {
        None => true,
        Some(topics) => header.version.number == 0 && topics.is_empty(),
    }
}

// How many partitions the topic with the most has.
fn most_partitions(topics: &[NamedTopic<'_>]) -> u16
    ensures { All (λ t. count_of t.answer ≤ result) topics.now }
{
    let mut most = 0;
    for topic in topics {
        most = topic.answer.count().max(most);
    }
    most
}

// A partition, which the broker leads.
fn led_partition(index: u16) -> MetadataResponsePartition<'static>
    ensures { ⟦<MetadataResponsePartition<'static> as Writes>⟧.values result
        ≡ partition_values index }
{
    MetadataResponsePartition {
        error_code: 0,
        partition_index: i32::from(index),
        leader_id: NODE_ID,
        replica_nodes: &NODES,
        isr_nodes: &NODES,
        offline_replicas: &[],
    }
}

// The first partitions of any topic: all are led by the broker.
fn led(alloc: Global, count: u16) -> Result<Vec<MetadataResponsePartition<'static>>, AllocError>
    ensures { IfOk result (λ list. (length list.items ≡ count)
        × (map ⟦<MetadataResponsePartition<'static> as Writes>⟧.values list.items
        ≡ map partition_values (range_with_len 0 count))) }
{
    let mut partitions = Vec::with_capacity(alloc, usize::from(count))?;
    for index in 0..count {
        partitions.push(led_partition(index))?;
    }
    Ok(partitions)
}

// What a response says of a topic, with the partitions that any has.
#[tactic(auto, using(crate::proofs::Named::first_led))]
fn named_topic<'a>(
    topic: NamedTopic<'a>,
    partitions: &'a [MetadataResponsePartition<'a>],
) -> MetadataResponseTopic<'a>
    requires enough { count_of topic.answer ≤ length partitions.now }
    requires led { map ⟦<MetadataResponsePartition<'a> as Writes>⟧.values partitions.now
        ≡ map partition_values (range_with_len 0 (length partitions.now)) }
    ensures { ⟦<MetadataResponseTopic<'a> as Writes>⟧.values result
        ≡ topic_values topic.entry.name.now topic.entry.answer }
{
    MetadataResponseTopic {
        error_code: topic.answer.code(),
        name: topic.name,
        is_internal: false,
        partitions: &partitions[..usize::from(topic.answer.count())],
    }
}

// What a response says of each topic, with the partitions that any has.
fn by_name<'a>(
    alloc: Global,
    topics: &[NamedTopic<'a>],
    partitions: &'a [MetadataResponsePartition<'a>],
) -> Result<Vec<MetadataResponseTopic<'a>>, AllocError>
    requires enough { All (λ t. count_of t.answer ≤ length partitions.now) topics.now }
    requires led { map ⟦<MetadataResponsePartition<'a> as Writes>⟧.values partitions.now
        ≡ map partition_values (range_with_len 0 (length partitions.now)) }
    ensures { IfOk result (λ list. map ⟦<MetadataResponseTopic<'a> as Writes>⟧.values list.items
        ≡ map (λ t. topic_values t.name.now t.answer) topics.now) }
{
    let mut named = Vec::with_capacity(alloc, topics.len())?;
    for topic in topics {
        named.push(named_topic(*topic, partitions))?;
    }
    Ok(named)
}

fn broker_of<'a>(broker: Broker<'a>) -> MetadataResponseBroker<'a>
    ensures { ⟦<MetadataResponseBroker<'a> as Writes>⟧.values result
        ≡ broker_values broker.entry.host.now broker.entry.port }
{
    MetadataResponseBroker {
        node_id: NODE_ID,
        host: broker.host,
        port: i32::from(broker.port),
        rack: None,
    }
}

// The frame of a response with these topics.
fn frame_of<'a>(
    alloc: Global,
    version: Version,
    correlation_id: i32,
    brokers: &'a [MetadataResponseBroker<'a>],
    topics: &'a [MetadataResponseTopic<'a>],
) -> Result<Vec<u8>, KafkaFault>
    ensures { IfOk result (λ frame. frame.items ≡ frame_text (response_text version
        correlation_id metadata_response (metadata_values
        (map ⟦<MetadataResponseBroker<'a> as Writes>⟧.values brokers.now)
        (map ⟦<MetadataResponseTopic<'a> as Writes>⟧.values topics.now)))) }
{
    let response = MetadataResponse {
        throttle_time_ms: 0,
        brokers,
        cluster_id: Some(CLUSTER_ID),
        controller_id: NODE_ID,
        topics,
    };
    response_frame(alloc, version, correlation_id, &response)
}

/// The frame of a response: the broker, and these topics, each partition of which it leads.
///
/// # Errors
///
/// As [`response_frame`].
pub fn metadata_frame(
    alloc: Global,
    header: &RequestHeader<'_>,
    broker: Broker<'_>,
    topics: &[NamedTopic<'_>],
) -> Result<Vec<u8>, KafkaFault>
    ensures { IfOk result (λ frame. frame.items ≡ frame_text (response_text header.now.version
        header.now.correlation_id metadata_response (metadata_values
        (broker_values broker.entry.host.now broker.entry.port ∷ [])
        (map (λ t. topic_values t.name.now t.answer) topics.now)))) }
{
    let most = most_partitions(topics);
    let partitions = led(alloc, most)?;
    let named = by_name(alloc, topics, &partitions)?;
    let brokers = [broker_of(broker)];
    frame_of(
        alloc,
        header.version,
        header.correlation_id,
        &brokers,
        &named,
    )
}
