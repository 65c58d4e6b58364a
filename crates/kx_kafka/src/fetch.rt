//! Fetch: record batches are read from partitions.
use kx_kafka_types::{
    Array, FieldReader, KafkaFault, Struct, Version, Writes, put_array, put_end,
    put_nullable_array, put_nullable_bytes, put_text,
};
use kx_varint::{put_i16, put_i32, put_i64};
use std::marker::PhantomData;

/// A partition that is read.
#[derive(Drop)]
pub struct FetchPartition<'a> {
    /// The number of the partition.
    pub partition: i32,
    /// The offset from which to read.
    pub fetch_offset: i64,
    /// How many bytes of it to answer at most.
    pub partition_max_bytes: i32,
    from: PhantomData<&'a [u8]>,
}

impl<'a> Struct for FetchPartition<'a> {
    type Reader = FieldReader<'a>;

    ghost use Rattle.kx_kafka.specs.Layouts.{fetch_partition};

    ghost fields = { fetch_partition };

    ghost values = { λ it. (it.partition, (it.fetch_offset, (it.partition_max_bytes, tt))) };

    fn read(reader: &mut FieldReader<'a>, version: Version) -> Result<Self, KafkaFault> {
        let partition = reader.int32()?;
        let fetch_offset = reader.int64()?;
        let partition_max_bytes = reader.int32()?;
        reader.end(version)?;
        Ok(FetchPartition {
            partition,
            fetch_offset,
            partition_max_bytes,
            from: PhantomData,
        })
    }
}

/// A topic that is read.
#[derive(Drop)]
pub struct FetchTopic<'a> {
    /// The name of the topic.
    pub topic: &'a [u8],
    /// Its partitions.
    pub partitions: Array<FetchPartition<'a>>,
}

impl<'a> Struct for FetchTopic<'a> {
    type Reader = FieldReader<'a>;

    ghost use Rattle.kx_kafka_types.specs.Rows.{elements};
    ghost use Rattle.kx_kafka.specs.Layouts.{fetch_partition, fetch_topic};

    ghost fields = { fetch_topic };

    ghost values = { λ it. (it.topic.now, (elements fetch_partition it.partitions, tt)) };

    fn read(reader: &mut FieldReader<'a>, version: Version) -> Result<Self, KafkaFault> {
        let topic = reader.text(version)?;
        let partitions = Array::read(reader, version)?;
        reader.end(version)?;
        Ok(FetchTopic { topic, partitions })
    }
}

/// A request for record batches, version 4.
#[derive(Drop)]
pub struct FetchRequest<'a> {
    /// The number of the broker that asks, -1 for a client.
    pub replica_id: i32,
    /// How long to wait for `min_bytes`, in milliseconds.
    pub max_wait_ms: i32,
    /// How many bytes to wait for.
    pub min_bytes: i32,
    /// How many bytes to answer at most.
    pub max_bytes: i32,
    /// Which records, by the number of an [`IsolationLevel`](crate::IsolationLevel).
    pub isolation_level: i8,
    /// The topics.
    pub topics: Array<FetchTopic<'a>>,
}

impl<'a> Struct for FetchRequest<'a> {
    type Reader = FieldReader<'a>;

    ghost use Rattle.kx_kafka_types.specs.Rows.{elements};
    ghost use Rattle.kx_kafka.specs.Layouts.{fetch_request, fetch_topic};

    ghost fields = { fetch_request };

    ghost values = { λ it. (
      it.replica_id,
      (
        it.max_wait_ms,
        (
          it.min_bytes,
          (
            it.max_bytes,
            (
              it.isolation_level,
              (elements fetch_topic it.topics, tt),
            ),
          ),
        ),
      ),
    ) };

    fn read(reader: &mut FieldReader<'a>, version: Version) -> Result<Self, KafkaFault> {
        let replica_id = reader.int32()?;
        let max_wait_ms = reader.int32()?;
        let min_bytes = reader.int32()?;
        let max_bytes = reader.int32()?;
        let isolation_level = reader.int8()?;
        let topics = Array::read(reader, version)?;
        reader.end(version)?;
        Ok(FetchRequest {
            replica_id,
            max_wait_ms,
            min_bytes,
            max_bytes,
            isolation_level,
            topics,
        })
    }
}

/// A transaction that was aborted.
#[derive(Clone, Copy)]
pub struct AbortedTransaction {
    /// The id of its producer.
    pub producer_id: i64,
    /// The offset of its first record.
    pub first_offset: i64,
}

impl Writes for AbortedTransaction {
    ghost use Rattle.kx_kafka.specs.Layouts.{aborted_transaction};

    ghost fields = { aborted_transaction };

    ghost values = { λ it. (it.producer_id, (it.first_offset, tt)) };

    fn put(&self, out: &mut Vec<u8>, version: Version) -> Result<(), KafkaFault> {
        put_i64(out, self.producer_id)?;
        put_i64(out, self.first_offset)?;
        put_end(out, version)
    }
}

/// What was read of a partition.
#[derive(Clone, Copy)]
pub struct FetchPartitionResponse<'a> {
    /// The number of the partition.
    pub partition_index: i32,
    /// The number of the error, or 0.
    pub error_code: i16,
    /// The offset after the last record that is on all replicas.
    pub high_watermark: i64,
    /// The offset of the first record whose transaction is open, or the high watermark.
    pub last_stable_offset: i64,
    /// The aborted transactions of the records, for committed ones alone; `None` for null.
    pub aborted_transactions: Option<&'a [AbortedTransaction]>,
    /// The record batches. Clients fail at null: let it be empty.
    pub records: Option<&'a [u8]>,
}

impl<'a> Writes for FetchPartitionResponse<'a> {
    ghost use Rattle.std.specs.Prelude.{map, option_map};
    ghost use Rattle.kx_kafka.specs.Layouts.{fetch_response_partition};

    ghost fields = { fetch_response_partition };

    ghost values = { λ it. (
      it.partition_index,
      (
        it.error_code,
        (
          it.high_watermark,
          (
            it.last_stable_offset,
            (
              option_map (λ s. map ⟦<AbortedTransaction as Writes>⟧.values s.now) it.aborted_transactions,
              (option_map (λ s. s.now) it.records, tt),
            ),
          ),
        ),
      ),
    ) };

    fn put(&self, out: &mut Vec<u8>, version: Version) -> Result<(), KafkaFault> {
        put_i32(out, self.partition_index)?;
        put_i16(out, self.error_code)?;
        put_i64(out, self.high_watermark)?;
        put_i64(out, self.last_stable_offset)?;
        put_nullable_array(out, version, 4, self.aborted_transactions)?;
        put_nullable_bytes(out, version, self.records)?;
        put_end(out, version)
    }
}

/// What was read of a topic.
#[derive(Clone, Copy)]
pub struct FetchableTopicResponse<'a> {
    /// The name of the topic.
    pub topic: &'a [u8],
    /// Its partitions.
    pub partitions: &'a [FetchPartitionResponse<'a>],
}

impl<'a> Writes for FetchableTopicResponse<'a> {
    ghost use Rattle.std.specs.Prelude.{map};
    ghost use Rattle.kx_kafka.specs.Layouts.{fetchable_topic_response};

    ghost fields = { fetchable_topic_response };

    ghost values = { λ it.
        (it.topic.now, (map ⟦<FetchPartitionResponse<'a> as Writes>⟧.values it.partitions.now, tt)) };

    fn put(&self, out: &mut Vec<u8>, version: Version) -> Result<(), KafkaFault> {
        put_text(out, version, self.topic)?;
        put_array(out, version, self.partitions)?;
        put_end(out, version)
    }
}

/// The response to a [`FetchRequest`].
#[derive(Clone, Copy)]
pub struct FetchResponse<'a> {
    /// For how long the client is to wait before it asks again, in milliseconds.
    pub throttle_time_ms: i32,
    /// The topics.
    pub responses: &'a [FetchableTopicResponse<'a>],
}

impl<'a> Writes for FetchResponse<'a> {
    ghost use Rattle.std.specs.Prelude.{map};
    ghost use Rattle.kx_kafka.specs.Layouts.{fetch_response};

    ghost fields = { fetch_response };

    ghost values = { λ it. (
      it.throttle_time_ms,
      (map ⟦<FetchableTopicResponse<'a> as Writes>⟧.values it.responses.now, tt),
    ) };

    fn put(&self, out: &mut Vec<u8>, version: Version) -> Result<(), KafkaFault> {
        put_i32(out, self.throttle_time_ms)?;
        put_array(out, version, self.responses)?;
        put_end(out, version)
    }
}
