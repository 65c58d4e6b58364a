//! Produce: record batches are appended to partitions.
use kx_kafka_types::{
    Array, FieldReader, KafkaFault, Struct, Version, Writes, put_array, put_end, put_text,
};
use kx_varint::{put_i16, put_i32, put_i64};

/// The record batches for a partition.
#[derive(Drop)]
pub struct PartitionProduceData<'a> {
    /// The number of the partition.
    pub index: i32,
    /// Its record batches.
    pub records: Option<&'a [u8]>,
}

impl<'a> Struct for PartitionProduceData<'a> {
    type Reader = FieldReader<'a>;

    ghost use Rattle.std.specs.Prelude.{option_map};
    ghost use Rattle.kx_kafka.specs.Layouts.{partition_produce_data};

    ghost fields = { partition_produce_data };

    ghost values = { λ it. (it.index, (option_map (λ s. s.now) it.records, tt)) };

    fn read(reader: &mut FieldReader<'a>, version: Version) -> Result<Self, KafkaFault> {
        let index = reader.int32()?;
        let records = reader.nullable_bytes(version)?;
        reader.end(version)?;
        Ok(PartitionProduceData { index, records })
    }
}

/// The record batches for a topic's partitions.
#[derive(Drop)]
pub struct TopicProduceData<'a> {
    /// The name of the topic.
    pub name: &'a [u8],
    /// Its partitions.
    pub partition_data: Array<PartitionProduceData<'a>>,
}

impl<'a> Struct for TopicProduceData<'a> {
    type Reader = FieldReader<'a>;

    ghost use Rattle.kx_kafka_types.specs.Rows.{elements};
    ghost use Rattle.kx_kafka.specs.Layouts.{partition_produce_data, topic_produce_data};

    ghost fields = { topic_produce_data };

    ghost values = { λ it. (it.name.now, (elements partition_produce_data it.partition_data, tt)) };

    fn read(reader: &mut FieldReader<'a>, version: Version) -> Result<Self, KafkaFault> {
        let name = reader.text(version)?;
        let partition_data = Array::read(reader, version)?;
        reader.end(version)?;
        Ok(TopicProduceData {
            name,
            partition_data,
        })
    }
}

/// A request to append record batches, versions 3 and 4.
#[derive(Drop)]
pub struct ProduceRequest<'a> {
    /// The id of the transaction, or null outside of one.
    pub transactional_id: Option<&'a [u8]>,
    /// How many replicas have to have the batches: 0 none, and then nothing is answered; 1 the
    /// leader; -1 all.
    pub acks: i16,
    /// How long to wait for the replicas, in milliseconds.
    pub timeout_ms: i32,
    /// The topics.
    pub topic_data: Array<TopicProduceData<'a>>,
}

impl<'a> Struct for ProduceRequest<'a> {
    type Reader = FieldReader<'a>;

    ghost use Rattle.std.specs.Prelude.{option_map};
    ghost use Rattle.kx_kafka_types.specs.Rows.{elements};
    ghost use Rattle.kx_kafka.specs.Layouts.{produce_request, topic_produce_data};

    ghost fields = { produce_request };

    ghost values = { λ it. (
      option_map (λ s. s.now) it.transactional_id,
      (
        it.acks,
        (
          it.timeout_ms,
          (elements topic_produce_data it.topic_data, tt),
        ),
      ),
    ) };

    fn read(reader: &mut FieldReader<'a>, version: Version) -> Result<Self, KafkaFault> {
        let transactional_id = reader.nullable_text(version)?;
        let acks = reader.int16()?;
        let timeout_ms = reader.int32()?;
        let topic_data = Array::read(reader, version)?;
        reader.end(version)?;
        Ok(ProduceRequest {
            transactional_id,
            acks,
            timeout_ms,
            topic_data,
        })
    }
}

/// What became of the record batches for a partition.
#[derive(Clone, Copy)]
pub struct PartitionProduceResponse {
    /// The number of the partition.
    pub index: i32,
    /// The number of the error, or 0.
    pub error_code: i16,
    /// The offset of the first record, or -1.
    pub base_offset: i64,
    /// When they were appended, in milliseconds, or -1 if records have their own time.
    pub log_append_time_ms: i64,
}

impl Writes for PartitionProduceResponse {
    ghost use Rattle.kx_kafka.specs.Layouts.{partition_produce_response};

    ghost fields = { partition_produce_response };

    ghost values = { λ it.
        (it.index, (it.error_code, (it.base_offset, (it.log_append_time_ms, tt)))) };

    fn put(&self, out: &mut Vec<u8>, version: Version) -> Result<(), KafkaFault> {
        put_i32(out, self.index)?;
        put_i16(out, self.error_code)?;
        put_i64(out, self.base_offset)?;
        put_i64(out, self.log_append_time_ms)?;
        put_end(out, version)
    }
}

/// What became of the record batches for a topic's partitions.
#[derive(Clone, Copy)]
pub struct TopicProduceResponse<'a> {
    /// The name of the topic.
    pub name: &'a [u8],
    /// Its partitions.
    pub partition_responses: &'a [PartitionProduceResponse],
}

impl<'a> Writes for TopicProduceResponse<'a> {
    ghost use Rattle.std.specs.Prelude.{map};
    ghost use Rattle.kx_kafka.specs.Layouts.{topic_produce_response};

    ghost fields = { topic_produce_response };

    ghost values = { λ it. (
      it.name.now,
      (map ⟦<PartitionProduceResponse as Writes>⟧.values it.partition_responses.now, tt),
    ) };

    fn put(&self, out: &mut Vec<u8>, version: Version) -> Result<(), KafkaFault> {
        put_text(out, version, self.name)?;
        put_array(out, version, self.partition_responses)?;
        put_end(out, version)
    }
}

/// The response to a [`ProduceRequest`].
#[derive(Clone, Copy)]
pub struct ProduceResponse<'a> {
    /// The topics.
    pub responses: &'a [TopicProduceResponse<'a>],
    /// For how long the client is to wait before it asks again, in milliseconds.
    pub throttle_time_ms: i32,
}

impl<'a> Writes for ProduceResponse<'a> {
    ghost use Rattle.std.specs.Prelude.{map};
    ghost use Rattle.kx_kafka.specs.Layouts.{produce_response};

    ghost fields = { produce_response };

    ghost values = { λ it. (
      map ⟦<TopicProduceResponse<'a> as Writes>⟧.values it.responses.now,
      (
        it.throttle_time_ms,
        tt,
      ),
    ) };

    fn put(&self, out: &mut Vec<u8>, version: Version) -> Result<(), KafkaFault> {
        put_array(out, version, self.responses)?;
        put_i32(out, self.throttle_time_ms)?;
        put_end(out, version)
    }
}
