//! A transaction's partitions and groups, and its end.
use crate::topics::{TopicErrors, TopicPartition};
use kx_kafka_types::{Array, FieldReader, KafkaFault, Struct, Version, Writes, put_array, put_end};
use kx_varint::{put_i16, put_i32};

/// A request to add partitions to a transaction, version 0.
#[derive(Drop)]
pub struct AddPartitionsToTxnRequest<'a> {
    /// The id of the transaction.
    pub transactional_id: &'a [u8],
    /// The id of the producer.
    pub producer_id: i64,
    /// The epoch of the producer.
    pub producer_epoch: i16,
    /// The topics.
    pub topics: Array<TopicPartition<'a>>,
}

impl<'a> Struct for AddPartitionsToTxnRequest<'a> {
    type Reader = FieldReader<'a>;

    ghost use Rattle.kx_kafka_types.specs.Rows.{elements};
    ghost use Rattle.kx_kafka.specs.Layouts.{add_partitions_to_txn_request, topic_partition};

    ghost fields = { add_partitions_to_txn_request };

    ghost values = { λ it. (
      it.transactional_id.now,
      (
        it.producer_id,
        (
          it.producer_epoch,
          (elements topic_partition it.topics, tt),
        ),
      ),
    ) };

    fn read(reader: &mut FieldReader<'a>, version: Version) -> Result<Self, KafkaFault> {
        let transactional_id = reader.text(version)?;
        let producer_id = reader.int64()?;
        let producer_epoch = reader.int16()?;
        let topics = Array::read(reader, version)?;
        reader.end(version)?;
        Ok(AddPartitionsToTxnRequest {
            transactional_id,
            producer_id,
            producer_epoch,
            topics,
        })
    }
}

/// A request to add a group's offsets to a transaction, version 0.
#[derive(Drop)]
pub struct AddOffsetsToTxnRequest<'a> {
    /// The id of the transaction.
    pub transactional_id: &'a [u8],
    /// The id of the producer.
    pub producer_id: i64,
    /// The epoch of the producer.
    pub producer_epoch: i16,
    /// The group.
    pub group_id: &'a [u8],
}

impl<'a> Struct for AddOffsetsToTxnRequest<'a> {
    type Reader = FieldReader<'a>;

    ghost use Rattle.kx_kafka.specs.Layouts.{add_offsets_to_txn_request};

    ghost fields = { add_offsets_to_txn_request };

    ghost values = { λ it.
        (it.transactional_id.now, (it.producer_id, (it.producer_epoch, (it.group_id.now, tt)))) };

    fn read(reader: &mut FieldReader<'a>, version: Version) -> Result<Self, KafkaFault> {
        let transactional_id = reader.text(version)?;
        let producer_id = reader.int64()?;
        let producer_epoch = reader.int16()?;
        let group_id = reader.text(version)?;
        reader.end(version)?;
        Ok(AddOffsetsToTxnRequest {
            transactional_id,
            producer_id,
            producer_epoch,
            group_id,
        })
    }
}

/// A request to end a transaction, versions 0 and 1.
#[derive(Drop)]
pub struct EndTxnRequest<'a> {
    /// The id of the transaction.
    pub transactional_id: &'a [u8],
    /// The id of the producer.
    pub producer_id: i64,
    /// The epoch of the producer.
    pub producer_epoch: i16,
    /// Whether it is committed, and not aborted.
    pub committed: bool,
}

impl<'a> Struct for EndTxnRequest<'a> {
    type Reader = FieldReader<'a>;

    ghost use Rattle.kx_kafka.specs.Layouts.{end_txn_request};

    ghost fields = { end_txn_request };

    ghost values = { λ it.
        (it.transactional_id.now, (it.producer_id, (it.producer_epoch, (it.committed, tt)))) };

    fn read(reader: &mut FieldReader<'a>, version: Version) -> Result<Self, KafkaFault> {
        let transactional_id = reader.text(version)?;
        let producer_id = reader.int64()?;
        let producer_epoch = reader.int16()?;
        let committed = reader.boolean()?;
        reader.end(version)?;
        Ok(EndTxnRequest {
            transactional_id,
            producer_id,
            producer_epoch,
            committed,
        })
    }
}

/// The response to an [`AddPartitionsToTxnRequest`].
#[derive(Clone, Copy)]
pub struct AddPartitionsToTxnResponse<'a> {
    /// For how long the client is to wait before it asks again, in milliseconds.
    pub throttle_time_ms: i32,
    /// The topics.
    pub results: &'a [TopicErrors<'a>],
}

impl<'a> Writes for AddPartitionsToTxnResponse<'a> {
    ghost use Rattle.std.specs.Prelude.{map};
    ghost use Rattle.kx_kafka.specs.Layouts.{add_partitions_to_txn_response};

    ghost fields = { add_partitions_to_txn_response };

    ghost values = { λ it.
        (it.throttle_time_ms, (map ⟦<TopicErrors<'a> as Writes>⟧.values it.results.now, tt)) };

    fn put(&self, out: &mut Vec<u8>, version: Version) -> Result<(), KafkaFault> {
        put_i32(out, self.throttle_time_ms)?;
        put_array(out, version, self.results)?;
        put_end(out, version)
    }
}

/// The response to an [`AddOffsetsToTxnRequest`].
#[derive(Clone, Copy)]
pub struct AddOffsetsToTxnResponse {
    /// For how long the client is to wait before it asks again, in milliseconds.
    pub throttle_time_ms: i32,
    /// The number of the error, or 0.
    pub error_code: i16,
}

impl Writes for AddOffsetsToTxnResponse {
    ghost use Rattle.kx_kafka.specs.Layouts.{add_offsets_to_txn_response};

    ghost fields = { add_offsets_to_txn_response };

    ghost values = { λ it. (it.throttle_time_ms, (it.error_code, tt)) };

    fn put(&self, out: &mut Vec<u8>, version: Version) -> Result<(), KafkaFault> {
        put_i32(out, self.throttle_time_ms)?;
        put_i16(out, self.error_code)?;
        put_end(out, version)
    }
}

/// The response to an [`EndTxnRequest`].
#[derive(Clone, Copy)]
pub struct EndTxnResponse {
    /// For how long the client is to wait before it asks again, in milliseconds.
    pub throttle_time_ms: i32,
    /// The number of the error, or 0.
    pub error_code: i16,
}

impl Writes for EndTxnResponse {
    ghost use Rattle.kx_kafka.specs.Layouts.{end_txn_response};

    ghost fields = { end_txn_response };

    ghost values = { λ it. (it.throttle_time_ms, (it.error_code, tt)) };

    fn put(&self, out: &mut Vec<u8>, version: Version) -> Result<(), KafkaFault> {
        put_i32(out, self.throttle_time_ms)?;
        put_i16(out, self.error_code)?;
        put_end(out, version)
    }
}
