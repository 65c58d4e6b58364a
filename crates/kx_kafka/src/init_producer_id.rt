//! InitProducerId: a producer asks for its id and its epoch.
use kx_kafka_types::{FieldReader, KafkaFault, Struct, Version, Writes, put_end};
use kx_varint::{put_i16, put_i32, put_i64};

/// A request for a producer's id and epoch, versions 0 to 4; flexible from 2 on.
#[derive(Drop)]
pub struct InitProducerIdRequest<'a> {
    /// The id of its transactions, or null.
    pub transactional_id: Option<&'a [u8]>,
    /// After how long its transactions are aborted, in milliseconds.
    pub transaction_timeout_ms: i32,
    /// The id that it has, or -1; from version 3 on.
    pub producer_id: i64,
    /// The epoch that it has, or -1; from version 3 on.
    pub producer_epoch: i16,
}

impl<'a> Struct for InitProducerIdRequest<'a> {
    type Reader = FieldReader<'a>;

    ghost use Rattle.std.specs.Prelude.{option_map};
    ghost use Rattle.kx_kafka.specs.Layouts.{init_producer_id_request};

    ghost fields = { init_producer_id_request };

    ghost values = { λ it. (
      option_map (λ s. s.now) it.transactional_id,
      (
        it.transaction_timeout_ms,
        (
          it.producer_id,
          (it.producer_epoch, tt),
        ),
      ),
    ) };

    fn read(reader: &mut FieldReader<'a>, version: Version) -> Result<Self, KafkaFault> {
        let transactional_id = reader.nullable_text(version)?;
        let transaction_timeout_ms = reader.int32()?;
        let producer_id = reader.int64_since(version, 3, -1)?;
        let producer_epoch = reader.int16_since(version, 3, -1)?;
        reader.end(version)?;
        Ok(InitProducerIdRequest {
            transactional_id,
            transaction_timeout_ms,
            producer_id,
            producer_epoch,
        })
    }
}

/// The response to an [`InitProducerIdRequest`].
#[derive(Clone, Copy)]
pub struct InitProducerIdResponse {
    /// For how long the client is to wait before it asks again, in milliseconds.
    pub throttle_time_ms: i32,
    /// The number of the error, or 0.
    pub error_code: i16,
    /// The id of the producer.
    pub producer_id: i64,
    /// The epoch of the producer.
    pub producer_epoch: i16,
}

impl Writes for InitProducerIdResponse {
    ghost use Rattle.kx_kafka.specs.Layouts.{init_producer_id_response};

    ghost fields = { init_producer_id_response };

    ghost values = { λ it.
        (it.throttle_time_ms, (it.error_code, (it.producer_id, (it.producer_epoch, tt)))) };

    fn put(&self, out: &mut Vec<u8>, version: Version) -> Result<(), KafkaFault> {
        put_i32(out, self.throttle_time_ms)?;
        put_i16(out, self.error_code)?;
        put_i64(out, self.producer_id)?;
        put_i16(out, self.producer_epoch)?;
        put_end(out, version)
    }
}
