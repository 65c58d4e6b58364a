//! Metadata: which brokers there are, and which topics with which partitions.
use kx_kafka_types::{
    Array, FieldReader, KafkaFault, Struct, Version, Writes, put_array, put_array_since,
    put_boolean_since, put_end, put_i32_since, put_nullable_text_since, put_text,
};
use kx_varint::{put_i16, put_i32};

/// A topic that is asked for.
#[derive(Drop)]
pub struct MetadataRequestTopic<'a> {
    /// The name of the topic.
    pub name: &'a [u8],
}

impl<'a> Struct for MetadataRequestTopic<'a> {
    type Reader = FieldReader<'a>;

    ghost use Rattle.kx_kafka.specs.Layouts.{metadata_request_topic};

    ghost fields = { metadata_request_topic };

    ghost values = { λ it. (it.name.now, tt) };

    fn read(reader: &mut FieldReader<'a>, version: Version) -> Result<Self, KafkaFault> {
        let name = reader.text(version)?;
        reader.end(version)?;
        Ok(MetadataRequestTopic { name })
    }
}

/// A request for brokers and topics, versions 0 to 5.
#[derive(Drop)]
pub struct MetadataRequest<'a> {
    /// The topics: `None` for all. In version 0 no topics are all topics too.
    pub topics: Option<Array<MetadataRequestTopic<'a>>>,
    /// Whether a topic that isn't there is to be made; from version 4 on, before it is so.
    pub allow_auto_topic_creation: bool,
}

impl<'a> Struct for MetadataRequest<'a> {
    type Reader = FieldReader<'a>;

    ghost use Rattle.std.specs.Prelude.{option_map};
    ghost use Rattle.kx_kafka_types.specs.Rows.{elements};
    ghost use Rattle.kx_kafka.specs.Layouts.{metadata_request, metadata_request_topic};

    ghost fields = { metadata_request };

    ghost values = { λ it. (
      option_map (elements metadata_request_topic) it.topics,
      (
        it.allow_auto_topic_creation,
        tt,
      ),
    ) };

    fn read(reader: &mut FieldReader<'a>, version: Version) -> Result<Self, KafkaFault> {
        let topics = Array::read_nullable(reader, version, 1)?;
        let allow_auto_topic_creation = reader.boolean_since(version, 4, true)?;
        reader.end(version)?;
        Ok(MetadataRequest {
            topics,
            allow_auto_topic_creation,
        })
    }
}

/// A broker.
#[derive(Clone, Copy)]
pub struct MetadataResponseBroker<'a> {
    /// Its number.
    pub node_id: i32,
    /// Its host name or address.
    pub host: &'a [u8],
    /// Its port.
    pub port: i32,
    /// Its rack, or null; from version 1 on.
    pub rack: Option<&'a [u8]>,
}

impl<'a> Writes for MetadataResponseBroker<'a> {
    ghost use Rattle.std.specs.Prelude.{option_map};
    ghost use Rattle.kx_kafka.specs.Layouts.{metadata_response_broker};

    ghost fields = { metadata_response_broker };

    ghost values = { λ it.
        (it.node_id, (it.host.now, (it.port, (option_map (λ s. s.now) it.rack, tt)))) };

    fn put(&self, out: &mut Vec<u8>, version: Version) -> Result<(), KafkaFault> {
        put_i32(out, self.node_id)?;
        put_text(out, version, self.host)?;
        put_i32(out, self.port)?;
        put_nullable_text_since(out, version, 1, self.rack)?;
        put_end(out, version)
    }
}

/// A partition.
#[derive(Clone, Copy)]
pub struct MetadataResponsePartition<'a> {
    /// The number of the error, or 0.
    pub error_code: i16,
    /// The number of the partition.
    pub partition_index: i32,
    /// The number of its leader, or -1.
    pub leader_id: i32,
    /// The brokers that have a copy.
    pub replica_nodes: &'a [i32],
    /// The brokers whose copies are in sync.
    pub isr_nodes: &'a [i32],
    /// The brokers that are offline; from version 5 on.
    pub offline_replicas: &'a [i32],
}

impl<'a> Writes for MetadataResponsePartition<'a> {
    ghost use Rattle.std.specs.Prelude.{map};
    ghost use Rattle.kx_kafka.specs.Layouts.{metadata_response_partition};

    ghost fields = { metadata_response_partition };

    ghost values = { λ it. (
      it.error_code,
      (
        it.partition_index,
        (
          it.leader_id,
          (
            map (λ n. n) it.replica_nodes.now,
            (map (λ n. n) it.isr_nodes.now, (map (λ n. n) it.offline_replicas.now, tt)),
          ),
        ),
      ),
    ) };

    fn put(&self, out: &mut Vec<u8>, version: Version) -> Result<(), KafkaFault> {
        put_i16(out, self.error_code)?;
        put_i32(out, self.partition_index)?;
        put_i32(out, self.leader_id)?;
        put_array(out, version, self.replica_nodes)?;
        put_array(out, version, self.isr_nodes)?;
        put_array_since(out, version, 5, self.offline_replicas)?;
        put_end(out, version)
    }
}

/// A topic.
#[derive(Clone, Copy)]
pub struct MetadataResponseTopic<'a> {
    /// The number of the error, or 0.
    pub error_code: i16,
    /// The name of the topic.
    pub name: &'a [u8],
    /// Whether it is Kafka's own; from version 1 on.
    pub is_internal: bool,
    /// Its partitions.
    pub partitions: &'a [MetadataResponsePartition<'a>],
}

impl<'a> Writes for MetadataResponseTopic<'a> {
    ghost use Rattle.std.specs.Prelude.{map};
    ghost use Rattle.kx_kafka.specs.Layouts.{metadata_response_topic};

    ghost fields = { metadata_response_topic };

    ghost values = { λ it. (
      it.error_code,
      (
        it.name.now,
        (
          it.is_internal,
          (map ⟦<MetadataResponsePartition<'a> as Writes>⟧.values it.partitions.now, tt),
        ),
      ),
    ) };

    fn put(&self, out: &mut Vec<u8>, version: Version) -> Result<(), KafkaFault> {
        put_i16(out, self.error_code)?;
        put_text(out, version, self.name)?;
        put_boolean_since(out, version, 1, self.is_internal)?;
        put_array(out, version, self.partitions)?;
        put_end(out, version)
    }
}

/// The response to a [`MetadataRequest`].
#[derive(Clone, Copy)]
pub struct MetadataResponse<'a> {
    /// For how long the client is to wait before it asks again, in milliseconds; from version 3 on.
    pub throttle_time_ms: i32,
    /// The brokers.
    pub brokers: &'a [MetadataResponseBroker<'a>],
    /// The name of the cluster, or null; from version 2 on.
    pub cluster_id: Option<&'a [u8]>,
    /// The number of the controller; from version 1 on.
    pub controller_id: i32,
    /// The topics.
    pub topics: &'a [MetadataResponseTopic<'a>],
}

impl<'a> Writes for MetadataResponse<'a> {
    ghost use Rattle.std.specs.Prelude.{map, option_map};
    ghost use Rattle.kx_kafka.specs.Layouts.{metadata_response};

    ghost fields = { metadata_response };

    ghost values = { λ it. (
      it.throttle_time_ms,
      (
        map ⟦<MetadataResponseBroker<'a> as Writes>⟧.values it.brokers.now,
        (
          option_map (λ s. s.now) it.cluster_id,
          (
            it.controller_id,
            (map ⟦<MetadataResponseTopic<'a> as Writes>⟧.values it.topics.now, tt),
          ),
        ),
      ),
    ) };

    fn put(&self, out: &mut Vec<u8>, version: Version) -> Result<(), KafkaFault> {
        put_i32_since(out, version, 3, self.throttle_time_ms)?;
        put_array(out, version, self.brokers)?;
        put_nullable_text_since(out, version, 2, self.cluster_id)?;
        put_i32_since(out, version, 1, self.controller_id)?;
        put_array(out, version, self.topics)?;
        put_end(out, version)
    }
}
