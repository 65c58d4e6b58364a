//! Requests: the header, and the whole of one.
ghost use Rattle.std.specs.Prelude.{◌≡◌, Ok, Err, MatchResult, option_map};
ghost use Rattle.kx_kafka.specs.Requests.{header_at};

use crate::api_key::ApiKey;
use crate::front::RequestFront;
use kx_kafka_types::{FieldReader, KafkaFault, Struct, Version};

// Headers have no compact lengths in any version.
const PLAIN: Version = Version {
    number: 0,
    flexible: false,
};

/// What a request begins with.
#[derive(Clone, Copy)]
pub struct RequestHeader<'a> {
    /// The API that is asked.
    pub api: ApiKey,
    /// The version of the request and of its response.
    pub version: Version,
    /// The number that the response repeats.
    pub correlation_id: i32,
    /// The name that the client gives itself, or null.
    pub client_id: Option<&'a [u8]>,
}

/// The header at the front.
#[tactic(auto, unfolding(crate::specs::Requests::header_at))]
pub(crate) fn read_header<'a>(reader: &mut FieldReader<'a>) -> Result<RequestHeader<'a>, KafkaFault>
    ensures { MatchResult result
        (λ h. header_at reader.old.rest.now ≡ Ok (
          record {
            api = h.api;
            version = h.version;
            correlation_id = h.correlation_id;
            client_id = option_map (λ s. s.now) h.client_id;
          },
          reader.new.rest.now,
        ))
        (λ fault. header_at reader.old.rest.now ≡ Err fault) }
{
    let RequestFront {
        api_key,
        api_version,
        correlation_id,
        ..
    } = RequestFront::read(reader, PLAIN)?;
    let api = ApiKey::from_number(api_key).ok_or(KafkaFault::Key)?;
    let version = api.version(api_version).ok_or(KafkaFault::Version)?;
    let client_id = reader.nullable_text(PLAIN)?;
    reader.end(version)?;
    Ok(RequestHeader {
        api,
        version,
        correlation_id,
        client_id,
    })
}
