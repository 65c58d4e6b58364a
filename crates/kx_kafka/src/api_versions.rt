//! ApiVersions: which versions of which APIs are spoken. The request of version 0 has no fields.
use kx_kafka_types::{FieldReader, KafkaFault, Struct, Version, Writes, put_array, put_end};
use kx_varint::put_i16;
use std::marker::PhantomData;

/// A request for the versions that are spoken, version 0. It has no fields.
#[derive(Drop)]
pub struct ApiVersionsRequest<'a> {
    from: PhantomData<&'a [u8]>,
}

impl<'a> Struct for ApiVersionsRequest<'a> {
    type Reader = FieldReader<'a>;

    ghost use Rattle.kx_kafka.specs.Layouts.{api_versions_request};

    ghost fields = { api_versions_request };

    ghost values = { λ it. tt };

    fn read(reader: &mut FieldReader<'a>, version: Version) -> Result<Self, KafkaFault> {
        reader.end(version)?;
        Ok(ApiVersionsRequest { from: PhantomData })
    }
}

/// The versions of an API that are spoken.
#[derive(Clone, Copy)]
pub struct ApiVersion {
    /// The number of the API.
    pub api_key: i16,
    /// The first version.
    pub min_version: i16,
    /// The last version.
    pub max_version: i16,
}

impl Writes for ApiVersion {
    ghost use Rattle.kx_kafka.specs.Layouts.{api_version};

    ghost fields = { api_version };

    ghost values = { λ it. (it.api_key, (it.min_version, (it.max_version, tt))) };

    fn put(&self, out: &mut Vec<u8>, version: Version) -> Result<(), KafkaFault> {
        put_i16(out, self.api_key)?;
        put_i16(out, self.min_version)?;
        put_i16(out, self.max_version)?;
        put_end(out, version)
    }
}

/// The response to a request for the versions that are spoken, in version 0: that is how one in
/// any other version is answered too, with code 35.
#[derive(Clone, Copy)]
pub struct ApiVersionsResponse<'a> {
    /// The number of the error, or 0.
    pub error_code: i16,
    /// The APIs.
    pub api_keys: &'a [ApiVersion],
}

impl<'a> Writes for ApiVersionsResponse<'a> {
    ghost use Rattle.std.specs.Prelude.{map};
    ghost use Rattle.kx_kafka.specs.Layouts.{api_versions_response};

    ghost fields = { api_versions_response };

    ghost values = { λ it.
        (it.error_code, (map ⟦<ApiVersion as Writes>⟧.values it.api_keys.now, tt)) };

    fn put(&self, out: &mut Vec<u8>, version: Version) -> Result<(), KafkaFault> {
        put_i16(out, self.error_code)?;
        put_array(out, version, self.api_keys)?;
        put_end(out, version)
    }
}
