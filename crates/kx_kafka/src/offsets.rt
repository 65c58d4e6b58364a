//! A group's offsets: committed, in a transaction or outside, and fetched.
use crate::topics::{TopicErrors, TopicPartition};
use kx_kafka_types::{
    Array, FieldReader, KafkaFault, Struct, Version, Writes, put_array, put_end, put_i16_since,
    put_i32_since, put_nullable_text, put_text,
};
use kx_varint::{put_i16, put_i32, put_i64};

/// A partition and the offset that is committed.
#[derive(Drop)]
pub struct TxnOffsetCommitPartition<'a> {
    /// The number of the partition.
    pub partition_index: i32,
    /// The offset.
    pub committed_offset: i64,
    /// The leader's epoch of the last record, or -1; from version 2 on.
    pub committed_leader_epoch: i32,
    /// What the client keeps with it.
    pub committed_metadata: Option<&'a [u8]>,
}

impl<'a> Struct for TxnOffsetCommitPartition<'a> {
    type Reader = FieldReader<'a>;

    ghost use Rattle.std.specs.Prelude.{option_map};
    ghost use Rattle.kx_kafka.specs.Layouts.{txn_offset_commit_partition};

    ghost fields = { txn_offset_commit_partition };

    ghost values = { λ it. (
      it.partition_index,
      (
        it.committed_offset,
        (
          it.committed_leader_epoch,
          (option_map (λ s. s.now) it.committed_metadata, tt),
        ),
      ),
    ) };

    fn read(reader: &mut FieldReader<'a>, version: Version) -> Result<Self, KafkaFault> {
        let partition_index = reader.int32()?;
        let committed_offset = reader.int64()?;
        let committed_leader_epoch = reader.int32_since(version, 2, -1)?;
        let committed_metadata = reader.nullable_text(version)?;
        reader.end(version)?;
        Ok(TxnOffsetCommitPartition {
            partition_index,
            committed_offset,
            committed_leader_epoch,
            committed_metadata,
        })
    }
}

/// A topic and the offsets that are committed.
#[derive(Drop)]
pub struct TxnOffsetCommitTopic<'a> {
    /// The name of the topic.
    pub name: &'a [u8],
    /// Its partitions.
    pub partitions: Array<TxnOffsetCommitPartition<'a>>,
}

impl<'a> Struct for TxnOffsetCommitTopic<'a> {
    type Reader = FieldReader<'a>;

    ghost use Rattle.kx_kafka_types.specs.Rows.{elements};
    ghost use Rattle.kx_kafka.specs.Layouts.{txn_offset_commit_partition, txn_offset_commit_topic};

    ghost fields = { txn_offset_commit_topic };

    ghost values = { λ it.
        (it.name.now, (elements txn_offset_commit_partition it.partitions, tt)) };

    fn read(reader: &mut FieldReader<'a>, version: Version) -> Result<Self, KafkaFault> {
        let name = reader.text(version)?;
        let partitions = Array::read(reader, version)?;
        reader.end(version)?;
        Ok(TxnOffsetCommitTopic { name, partitions })
    }
}

/// A request to commit a group's offsets in a transaction, versions 0 to 3; flexible from 3 on.
#[derive(Drop)]
pub struct TxnOffsetCommitRequest<'a> {
    /// The id of the transaction.
    pub transactional_id: &'a [u8],
    /// The group.
    pub group_id: &'a [u8],
    /// The id of the producer.
    pub producer_id: i64,
    /// The epoch of the producer.
    pub producer_epoch: i16,
    /// The generation of the group, or -1; from version 3 on.
    pub generation_id: i32,
    /// The member's id; from version 3 on, empty before.
    pub member_id: &'a [u8],
    /// The id of a static member, or null; from version 3 on.
    pub group_instance_id: Option<&'a [u8]>,
    /// The topics.
    pub topics: Array<TxnOffsetCommitTopic<'a>>,
}

impl<'a> Struct for TxnOffsetCommitRequest<'a> {
    type Reader = FieldReader<'a>;

    ghost use Rattle.std.specs.Prelude.{option_map};
    ghost use Rattle.kx_kafka_types.specs.Rows.{elements};
    ghost use Rattle.kx_kafka.specs.Layouts.{txn_offset_commit_request, txn_offset_commit_topic};

    ghost fields = { txn_offset_commit_request };

    ghost values = { λ it. (
      it.transactional_id.now,
      (
        it.group_id.now,
        (
          it.producer_id,
          (
            it.producer_epoch,
            (
              it.generation_id,
              (
                it.member_id.now,
                (
                  option_map (λ s. s.now) it.group_instance_id,
                  (elements txn_offset_commit_topic it.topics, tt),
                ),
              ),
            ),
          ),
        ),
      ),
    ) };

    fn read(reader: &mut FieldReader<'a>, version: Version) -> Result<Self, KafkaFault> {
        let transactional_id = reader.text(version)?;
        let group_id = reader.text(version)?;
        let producer_id = reader.int64()?;
        let producer_epoch = reader.int16()?;
        let generation_id = reader.int32_since(version, 3, -1)?;
        let member_id = reader.text_since(version, 3, &[])?;
        let group_instance_id = reader.nullable_text_since(version, 3)?;
        let topics = Array::read(reader, version)?;
        reader.end(version)?;
        Ok(TxnOffsetCommitRequest {
            transactional_id,
            group_id,
            producer_id,
            producer_epoch,
            generation_id,
            member_id,
            group_instance_id,
            topics,
        })
    }
}

/// A partition and the offset that is committed.
#[derive(Drop)]
pub struct OffsetCommitPartition<'a> {
    /// The number of the partition.
    pub partition_index: i32,
    /// The offset.
    pub committed_offset: i64,
    /// The time of the commit, in milliseconds, or -1; in version 1 alone.
    pub commit_timestamp: i64,
    /// What the client keeps with it.
    pub committed_metadata: Option<&'a [u8]>,
}

impl<'a> Struct for OffsetCommitPartition<'a> {
    type Reader = FieldReader<'a>;

    ghost use Rattle.std.specs.Prelude.{option_map};
    ghost use Rattle.kx_kafka.specs.Layouts.{offset_commit_partition};

    ghost fields = { offset_commit_partition };

    ghost values = { λ it. (
      it.partition_index,
      (
        it.committed_offset,
        (
          it.commit_timestamp,
          (option_map (λ s. s.now) it.committed_metadata, tt),
        ),
      ),
    ) };

    fn read(reader: &mut FieldReader<'a>, version: Version) -> Result<Self, KafkaFault> {
        let partition_index = reader.int32()?;
        let committed_offset = reader.int64()?;
        let commit_timestamp = reader.int64_only(version, 1, -1)?;
        let committed_metadata = reader.nullable_text(version)?;
        reader.end(version)?;
        Ok(OffsetCommitPartition {
            partition_index,
            committed_offset,
            commit_timestamp,
            committed_metadata,
        })
    }
}

/// A topic and the offsets that are committed.
#[derive(Drop)]
pub struct OffsetCommitTopic<'a> {
    /// The name of the topic.
    pub name: &'a [u8],
    /// Its partitions.
    pub partitions: Array<OffsetCommitPartition<'a>>,
}

impl<'a> Struct for OffsetCommitTopic<'a> {
    type Reader = FieldReader<'a>;

    ghost use Rattle.kx_kafka_types.specs.Rows.{elements};
    ghost use Rattle.kx_kafka.specs.Layouts.{offset_commit_partition, offset_commit_topic};

    ghost fields = { offset_commit_topic };

    ghost values = { λ it. (it.name.now, (elements offset_commit_partition it.partitions, tt)) };

    fn read(reader: &mut FieldReader<'a>, version: Version) -> Result<Self, KafkaFault> {
        let name = reader.text(version)?;
        let partitions = Array::read(reader, version)?;
        reader.end(version)?;
        Ok(OffsetCommitTopic { name, partitions })
    }
}

/// A request to commit a group's offsets, versions 1 and 2.
#[derive(Drop)]
pub struct OffsetCommitRequest<'a> {
    /// The group.
    pub group_id: &'a [u8],
    /// The generation of the group, or -1.
    pub generation_id: i32,
    /// The member's id.
    pub member_id: &'a [u8],
    /// How long to keep them, in milliseconds, or -1; from version 2 on.
    pub retention_time_ms: i64,
    /// The topics.
    pub topics: Array<OffsetCommitTopic<'a>>,
}

impl<'a> Struct for OffsetCommitRequest<'a> {
    type Reader = FieldReader<'a>;

    ghost use Rattle.kx_kafka_types.specs.Rows.{elements};
    ghost use Rattle.kx_kafka.specs.Layouts.{offset_commit_request, offset_commit_topic};

    ghost fields = { offset_commit_request };

    ghost values = { λ it. (
      it.group_id.now,
      (
        it.generation_id,
        (
          it.member_id.now,
          (
            it.retention_time_ms,
            (elements offset_commit_topic it.topics, tt),
          ),
        ),
      ),
    ) };

    fn read(reader: &mut FieldReader<'a>, version: Version) -> Result<Self, KafkaFault> {
        let group_id = reader.text(version)?;
        let generation_id = reader.int32()?;
        let member_id = reader.text(version)?;
        let retention_time_ms = reader.int64_since(version, 2, -1)?;
        let topics = Array::read(reader, version)?;
        reader.end(version)?;
        Ok(OffsetCommitRequest {
            group_id,
            generation_id,
            member_id,
            retention_time_ms,
            topics,
        })
    }
}

/// A request for a group's offsets, versions 1 to 7; flexible from 6 on.
#[derive(Drop)]
pub struct OffsetFetchRequest<'a> {
    /// The group.
    pub group_id: &'a [u8],
    /// The topics; `None`, from version 2 on, for all.
    pub topics: Option<Array<TopicPartition<'a>>>,
    /// Whether no offset is to be answered while one is pending; from version 7 on.
    pub require_stable: bool,
}

impl<'a> Struct for OffsetFetchRequest<'a> {
    type Reader = FieldReader<'a>;

    ghost use Rattle.std.specs.Prelude.{option_map};
    ghost use Rattle.kx_kafka_types.specs.Rows.{elements};
    ghost use Rattle.kx_kafka.specs.Layouts.{offset_fetch_request, topic_partition};

    ghost fields = { offset_fetch_request };

    ghost values = { λ it. (
      it.group_id.now,
      (
        option_map (elements topic_partition) it.topics,
        (
          it.require_stable,
          tt,
        ),
      ),
    ) };

    fn read(reader: &mut FieldReader<'a>, version: Version) -> Result<Self, KafkaFault> {
        let group_id = reader.text(version)?;
        let topics = Array::read_nullable(reader, version, 2)?;
        let require_stable = reader.boolean_since(version, 7, false)?;
        reader.end(version)?;
        Ok(OffsetFetchRequest {
            group_id,
            topics,
            require_stable,
        })
    }
}

/// The response to a [`TxnOffsetCommitRequest`].
#[derive(Clone, Copy)]
pub struct TxnOffsetCommitResponse<'a> {
    /// For how long the client is to wait before it asks again, in milliseconds.
    pub throttle_time_ms: i32,
    /// The topics.
    pub topics: &'a [TopicErrors<'a>],
}

impl<'a> Writes for TxnOffsetCommitResponse<'a> {
    ghost use Rattle.std.specs.Prelude.{map};
    ghost use Rattle.kx_kafka.specs.Layouts.{txn_offset_commit_response};

    ghost fields = { txn_offset_commit_response };

    ghost values = { λ it.
        (it.throttle_time_ms, (map ⟦<TopicErrors<'a> as Writes>⟧.values it.topics.now, tt)) };

    fn put(&self, out: &mut Vec<u8>, version: Version) -> Result<(), KafkaFault> {
        put_i32(out, self.throttle_time_ms)?;
        put_array(out, version, self.topics)?;
        put_end(out, version)
    }
}

/// The response to an [`OffsetCommitRequest`].
#[derive(Clone, Copy)]
pub struct OffsetCommitResponse<'a> {
    /// The topics.
    pub topics: &'a [TopicErrors<'a>],
}

impl<'a> Writes for OffsetCommitResponse<'a> {
    ghost use Rattle.std.specs.Prelude.{map};
    ghost use Rattle.kx_kafka.specs.Layouts.{offset_commit_response};

    ghost fields = { offset_commit_response };

    ghost values = { λ it. (map ⟦<TopicErrors<'a> as Writes>⟧.values it.topics.now, tt) };

    fn put(&self, out: &mut Vec<u8>, version: Version) -> Result<(), KafkaFault> {
        put_array(out, version, self.topics)?;
        put_end(out, version)
    }
}

/// A partition and its committed offset.
#[derive(Clone, Copy)]
pub struct OffsetFetchPartition<'a> {
    /// The number of the partition.
    pub partition_index: i32,
    /// The offset, or -1 if none is committed.
    pub committed_offset: i64,
    /// The leader's epoch of the last record, or -1; from version 5 on.
    pub committed_leader_epoch: i32,
    /// What the client keeps with it.
    pub metadata: Option<&'a [u8]>,
    /// The number of the error, or 0.
    pub error_code: i16,
}

impl<'a> Writes for OffsetFetchPartition<'a> {
    ghost use Rattle.std.specs.Prelude.{option_map};
    ghost use Rattle.kx_kafka.specs.Layouts.{offset_fetch_partition};

    ghost fields = { offset_fetch_partition };

    ghost values = { λ it. (
      it.partition_index,
      (
        it.committed_offset,
        (
          it.committed_leader_epoch,
          (option_map (λ s. s.now) it.metadata, (it.error_code, tt)),
        ),
      ),
    ) };

    fn put(&self, out: &mut Vec<u8>, version: Version) -> Result<(), KafkaFault> {
        put_i32(out, self.partition_index)?;
        put_i64(out, self.committed_offset)?;
        put_i32_since(out, version, 5, self.committed_leader_epoch)?;
        put_nullable_text(out, version, self.metadata)?;
        put_i16(out, self.error_code)?;
        put_end(out, version)
    }
}

/// A topic and the offsets of its partitions.
#[derive(Clone, Copy)]
pub struct OffsetFetchTopic<'a> {
    /// The name of the topic.
    pub name: &'a [u8],
    /// Its partitions.
    pub partitions: &'a [OffsetFetchPartition<'a>],
}

impl<'a> Writes for OffsetFetchTopic<'a> {
    ghost use Rattle.std.specs.Prelude.{map};
    ghost use Rattle.kx_kafka.specs.Layouts.{offset_fetch_topic};

    ghost fields = { offset_fetch_topic };

    ghost values = { λ it.
        (it.name.now, (map ⟦<OffsetFetchPartition<'a> as Writes>⟧.values it.partitions.now, tt)) };

    fn put(&self, out: &mut Vec<u8>, version: Version) -> Result<(), KafkaFault> {
        put_text(out, version, self.name)?;
        put_array(out, version, self.partitions)?;
        put_end(out, version)
    }
}

/// The response to an [`OffsetFetchRequest`].
#[derive(Clone, Copy)]
pub struct OffsetFetchResponse<'a> {
    /// For how long the client is to wait before it asks again, in milliseconds; from version 3 on.
    pub throttle_time_ms: i32,
    /// The topics.
    pub topics: &'a [OffsetFetchTopic<'a>],
    /// The number of the error, or 0; from version 2 on.
    pub error_code: i16,
}

impl<'a> Writes for OffsetFetchResponse<'a> {
    ghost use Rattle.std.specs.Prelude.{map};
    ghost use Rattle.kx_kafka.specs.Layouts.{offset_fetch_response};

    ghost fields = { offset_fetch_response };

    ghost values = { λ it. (
      it.throttle_time_ms,
      (
        map ⟦<OffsetFetchTopic<'a> as Writes>⟧.values it.topics.now,
        (it.error_code, tt),
      ),
    ) };

    fn put(&self, out: &mut Vec<u8>, version: Version) -> Result<(), KafkaFault> {
        put_i32_since(out, version, 3, self.throttle_time_ms)?;
        put_array(out, version, self.topics)?;
        put_i16_since(out, version, 2, self.error_code)?;
        put_end(out, version)
    }
}
