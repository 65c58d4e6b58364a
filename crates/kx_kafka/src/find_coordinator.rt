//! FindCoordinator: which broker has a group or a transactional id.
use kx_kafka_types::{
    FieldReader, KafkaFault, Struct, Version, Writes, put_end, put_i32_since,
    put_nullable_text_since, put_text,
};
use kx_varint::{put_i16, put_i32};

/// A request for a coordinator, versions 0 and 1.
#[derive(Drop)]
pub struct FindCoordinatorRequest<'a> {
    /// The group, or the transactional id.
    pub key: &'a [u8],
    /// 0 for a group, 1 for a transactional id; from version 1 on.
    pub key_type: i8,
}

impl<'a> Struct for FindCoordinatorRequest<'a> {
    type Reader = FieldReader<'a>;

    ghost use Rattle.kx_kafka.specs.Layouts.{find_coordinator_request};

    ghost fields = { find_coordinator_request };

    ghost values = { λ it. (it.key.now, (it.key_type, tt)) };

    fn read(reader: &mut FieldReader<'a>, version: Version) -> Result<Self, KafkaFault> {
        let key = reader.text(version)?;
        let key_type = reader.int8_since(version, 1, 0)?;
        reader.end(version)?;
        Ok(FindCoordinatorRequest { key, key_type })
    }
}

/// The response to a [`FindCoordinatorRequest`].
#[derive(Clone, Copy)]
pub struct FindCoordinatorResponse<'a> {
    /// For how long the client is to wait before it asks again, in milliseconds; from version 1 on.
    pub throttle_time_ms: i32,
    /// The number of the error, or 0.
    pub error_code: i16,
    /// The error in words, or null; from version 1 on.
    pub error_message: Option<&'a [u8]>,
    /// The number of the broker, or -1.
    pub node_id: i32,
    /// Its host name or address.
    pub host: &'a [u8],
    /// Its port, or -1.
    pub port: i32,
}

impl<'a> Writes for FindCoordinatorResponse<'a> {
    ghost use Rattle.std.specs.Prelude.{option_map};
    ghost use Rattle.kx_kafka.specs.Layouts.{find_coordinator_response};

    ghost fields = { find_coordinator_response };

    ghost values = { λ it. (
      it.throttle_time_ms,
      (
        it.error_code,
        (
          option_map (λ s. s.now) it.error_message,
          (it.node_id, (it.host.now, (it.port, tt))),
        ),
      ),
    ) };

    fn put(&self, out: &mut Vec<u8>, version: Version) -> Result<(), KafkaFault> {
        put_i32_since(out, version, 1, self.throttle_time_ms)?;
        put_i16(out, self.error_code)?;
        put_nullable_text_since(out, version, 1, self.error_message)?;
        put_i32(out, self.node_id)?;
        put_text(out, version, self.host)?;
        put_i32(out, self.port)?;
        put_end(out, version)
    }
}
