//! ListOffsets: where a partition begins and ends.
use kx_kafka_types::{
    Array, FieldReader, KafkaFault, Struct, Version, Writes, put_array, put_end, put_i32_since,
    put_text,
};
use kx_varint::{put_i16, put_i32, put_i64};
use std::marker::PhantomData;

/// A partition.
#[derive(Drop)]
pub struct ListOffsetsPartition<'a> {
    /// The number of the partition.
    pub partition_index: i32,
    /// The time of the records, in milliseconds: -1 for the end, -2 for the start.
    pub timestamp: i64,
    from: PhantomData<&'a [u8]>,
}

impl<'a> Struct for ListOffsetsPartition<'a> {
    type Reader = FieldReader<'a>;

    ghost use Rattle.kx_kafka.specs.Layouts.{list_offsets_partition};

    ghost fields = { list_offsets_partition };

    ghost values = { λ it. (it.partition_index, (it.timestamp, tt)) };

    fn read(reader: &mut FieldReader<'a>, version: Version) -> Result<Self, KafkaFault> {
        let partition_index = reader.int32()?;
        let timestamp = reader.int64()?;
        reader.end(version)?;
        Ok(ListOffsetsPartition {
            partition_index,
            timestamp,
            from: PhantomData,
        })
    }
}

/// A topic.
#[derive(Drop)]
pub struct ListOffsetsTopic<'a> {
    /// The name of the topic.
    pub name: &'a [u8],
    /// Its partitions.
    pub partitions: Array<ListOffsetsPartition<'a>>,
}

impl<'a> Struct for ListOffsetsTopic<'a> {
    type Reader = FieldReader<'a>;

    ghost use Rattle.kx_kafka_types.specs.Rows.{elements};
    ghost use Rattle.kx_kafka.specs.Layouts.{list_offsets_partition, list_offsets_topic};

    ghost fields = { list_offsets_topic };

    ghost values = { λ it. (it.name.now, (elements list_offsets_partition it.partitions, tt)) };

    fn read(reader: &mut FieldReader<'a>, version: Version) -> Result<Self, KafkaFault> {
        let name = reader.text(version)?;
        let partitions = Array::read(reader, version)?;
        reader.end(version)?;
        Ok(ListOffsetsTopic { name, partitions })
    }
}

/// A request for offsets, versions 1 and 2.
#[derive(Drop)]
pub struct ListOffsetsRequest<'a> {
    /// The number of the broker that asks, -1 for a client.
    pub replica_id: i32,
    /// Which records, by the number of an [`IsolationLevel`](crate::IsolationLevel); from version 2
    /// on, 0 before.
    pub isolation_level: i8,
    /// The topics.
    pub topics: Array<ListOffsetsTopic<'a>>,
}

impl<'a> Struct for ListOffsetsRequest<'a> {
    type Reader = FieldReader<'a>;

    ghost use Rattle.kx_kafka_types.specs.Rows.{elements};
    ghost use Rattle.kx_kafka.specs.Layouts.{list_offsets_request, list_offsets_topic};

    ghost fields = { list_offsets_request };

    ghost values = { λ it.
        (it.replica_id, (it.isolation_level, (elements list_offsets_topic it.topics, tt))) };

    fn read(reader: &mut FieldReader<'a>, version: Version) -> Result<Self, KafkaFault> {
        let replica_id = reader.int32()?;
        let isolation_level = reader.int8_since(version, 2, 0)?;
        let topics = Array::read(reader, version)?;
        reader.end(version)?;
        Ok(ListOffsetsRequest {
            replica_id,
            isolation_level,
            topics,
        })
    }
}

/// An offset of a partition.
#[derive(Clone, Copy)]
pub struct ListOffsetsPartitionResponse {
    /// The number of the partition.
    pub partition_index: i32,
    /// The number of the error, or 0.
    pub error_code: i16,
    /// The time of the record, in milliseconds, or -1.
    pub timestamp: i64,
    /// The offset, or -1.
    pub offset: i64,
}

impl Writes for ListOffsetsPartitionResponse {
    ghost use Rattle.kx_kafka.specs.Layouts.{list_offsets_partition_response};

    ghost fields = { list_offsets_partition_response };

    ghost values = { λ it. (it.partition_index, (it.error_code, (it.timestamp, (it.offset, tt)))) };

    fn put(&self, out: &mut Vec<u8>, version: Version) -> Result<(), KafkaFault> {
        put_i32(out, self.partition_index)?;
        put_i16(out, self.error_code)?;
        put_i64(out, self.timestamp)?;
        put_i64(out, self.offset)?;
        put_end(out, version)
    }
}

/// The offsets of a topic.
#[derive(Clone, Copy)]
pub struct ListOffsetsTopicResponse<'a> {
    /// The name of the topic.
    pub name: &'a [u8],
    /// Its partitions.
    pub partitions: &'a [ListOffsetsPartitionResponse],
}

impl<'a> Writes for ListOffsetsTopicResponse<'a> {
    ghost use Rattle.std.specs.Prelude.{map};
    ghost use Rattle.kx_kafka.specs.Layouts.{list_offsets_topic_response};

    ghost fields = { list_offsets_topic_response };

    ghost values = { λ it. (
      it.name.now,
      (
        map ⟦<ListOffsetsPartitionResponse as Writes>⟧.values it.partitions.now,
        tt,
      ),
    ) };

    fn put(&self, out: &mut Vec<u8>, version: Version) -> Result<(), KafkaFault> {
        put_text(out, version, self.name)?;
        put_array(out, version, self.partitions)?;
        put_end(out, version)
    }
}

/// The response to a [`ListOffsetsRequest`].
#[derive(Clone, Copy)]
pub struct ListOffsetsResponse<'a> {
    /// For how long the client is to wait before it asks again, in milliseconds; from version 2 on.
    pub throttle_time_ms: i32,
    /// The topics.
    pub topics: &'a [ListOffsetsTopicResponse<'a>],
}

impl<'a> Writes for ListOffsetsResponse<'a> {
    ghost use Rattle.std.specs.Prelude.{map};
    ghost use Rattle.kx_kafka.specs.Layouts.{list_offsets_response};

    ghost fields = { list_offsets_response };

    ghost values = { λ it. (
      it.throttle_time_ms,
      (
        map ⟦<ListOffsetsTopicResponse<'a> as Writes>⟧.values it.topics.now,
        tt,
      ),
    ) };

    fn put(&self, out: &mut Vec<u8>, version: Version) -> Result<(), KafkaFault> {
        put_i32_since(out, version, 2, self.throttle_time_ms)?;
        put_array(out, version, self.topics)?;
        put_end(out, version)
    }
}
