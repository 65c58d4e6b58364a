//! A topic with partitions, as several APIs have it.
use kx_kafka_types::{
    Array, FieldReader, Int32, KafkaFault, Struct, Version, Writes, put_array, put_end, put_text,
};
use kx_varint::{put_i16, put_i32};

/// A topic and numbers of its partitions, as Kafka's consumer protocol has its `TopicPartition`.
#[derive(Drop)]
pub struct TopicPartition<'a> {
    /// The name of the topic.
    pub name: &'a [u8],
    /// The numbers of its partitions.
    pub partitions: Array<Int32<'a>>,
}

impl<'a> Struct for TopicPartition<'a> {
    type Reader = FieldReader<'a>;

    ghost use Rattle.kx_kafka_types.specs.Schema.{Int32, One};
    ghost use Rattle.kx_kafka_types.specs.Rows.{elements};
    ghost use Rattle.kx_kafka.specs.Layouts.{topic_partition};

    ghost fields = { topic_partition };

    ghost values = { λ it. (it.name.now, (elements (One Int32) it.partitions, tt)) };

    fn read(reader: &mut FieldReader<'a>, version: Version) -> Result<Self, KafkaFault> {
        let name = reader.text(version)?;
        let partitions = Array::read(reader, version)?;
        reader.end(version)?;
        Ok(TopicPartition { name, partitions })
    }
}

/// A partition and its error.
#[derive(Clone, Copy)]
pub struct PartitionError {
    /// The number of the partition.
    pub partition_index: i32,
    /// The number of the error, or 0.
    pub error_code: i16,
}

impl Writes for PartitionError {
    ghost use Rattle.kx_kafka.specs.Layouts.{partition_error};

    ghost fields = { partition_error };

    ghost values = { λ it. (it.partition_index, (it.error_code, tt)) };

    fn put(&self, out: &mut Vec<u8>, version: Version) -> Result<(), KafkaFault> {
        put_i32(out, self.partition_index)?;
        put_i16(out, self.error_code)?;
        put_end(out, version)
    }
}

/// A topic and the errors of its partitions.
#[derive(Clone, Copy)]
pub struct TopicErrors<'a> {
    /// The name of the topic.
    pub name: &'a [u8],
    /// Its partitions.
    pub partitions: &'a [PartitionError],
}

impl<'a> Writes for TopicErrors<'a> {
    ghost use Rattle.std.specs.Prelude.{map};
    ghost use Rattle.kx_kafka.specs.Layouts.{topic_errors};

    ghost fields = { topic_errors };

    ghost values = { λ it.
        (it.name.now, (map ⟦<PartitionError as Writes>⟧.values it.partitions.now, tt)) };

    fn put(&self, out: &mut Vec<u8>, version: Version) -> Result<(), KafkaFault> {
        put_text(out, version, self.name)?;
        put_array(out, version, self.partitions)?;
        put_end(out, version)
    }
}
