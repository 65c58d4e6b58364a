//! What each request begins with, whatever its API and version.
use kx_kafka_types::{FieldReader, KafkaFault, Struct, Version};
use std::marker::PhantomData;

/// What is in front of a request, in each version of each API.
#[derive(Clone, Copy)]
pub struct RequestFront<'a> {
    /// The number of the API.
    pub api_key: i16,
    /// The number of the version.
    pub api_version: i16,
    /// The number that the response repeats.
    pub correlation_id: i32,
    from: PhantomData<&'a [u8]>,
}

impl<'a> Struct for RequestFront<'a> {
    type Reader = FieldReader<'a>;

    ghost use Rattle.kx_kafka.specs.Layouts.{request_front};

    ghost fields = { request_front };

    ghost values = { λ it. (it.api_key, (it.api_version, (it.correlation_id, tt))) };

    fn read(reader: &mut FieldReader<'a>, version: Version) -> Result<Self, KafkaFault> {
        let api_key = reader.int16()?;
        let api_version = reader.int16()?;
        let correlation_id = reader.int32()?;
        reader.end(version)?;
        Ok(RequestFront {
            api_key,
            api_version,
            correlation_id,
            from: PhantomData,
        })
    }
}
