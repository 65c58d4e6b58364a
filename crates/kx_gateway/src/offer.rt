//! The APIs that are served, in which versions.
ghost use Rattle.std.specs.Prelude.{◌≡◌, IfOk, map};
ghost use Rattle.kx_kafka.specs.Frames.{frame_text, response_text};
ghost use Rattle.kx_kafka.specs.Layouts.{api_versions_response};
ghost use Rattle.kx_kafka.specs.Requests.{plain};
ghost use Rattle.kx_gateway.specs.Offer.{offered, range_of};

use kx_kafka::{
    ApiKey, ApiVersion, ApiVersionsResponse, KafkaFault, Version, Writes, response_frame,
};
use std::alloc::Global;

// The versions of an API that are spoken.
fn range_of(api: ApiKey) -> ApiVersion
    ensures { ⟦<ApiVersion as Writes>⟧.values result ≡ range_of api }
{
    ApiVersion {
        api_key: api.number(),
        min_version: api.first_version() as i16,
        max_version: api.last_version() as i16,
    }
}

fn offered_ranges() -> [ApiVersion; 17]
    ensures { map ⟦<ApiVersion as Writes>⟧.values result ≡ map range_of offered }
{
    [
        range_of(ApiKey::Produce),
        range_of(ApiKey::Fetch),
        range_of(ApiKey::ListOffsets),
        range_of(ApiKey::Metadata),
        range_of(ApiKey::OffsetCommit),
        range_of(ApiKey::OffsetFetch),
        range_of(ApiKey::FindCoordinator),
        range_of(ApiKey::JoinGroup),
        range_of(ApiKey::Heartbeat),
        range_of(ApiKey::LeaveGroup),
        range_of(ApiKey::SyncGroup),
        range_of(ApiKey::ApiVersions),
        range_of(ApiKey::InitProducerId),
        range_of(ApiKey::AddPartitionsToTxn),
        range_of(ApiKey::AddOffsetsToTxn),
        range_of(ApiKey::EndTxn),
        range_of(ApiKey::TxnOffsetCommit),
    ]
}

// The responses to ApiVersions have this layout in each version of the request.
const PLAIN: Version = Version {
    number: 0,
    flexible: false,
};

/// The frame of a response to ApiVersions, in the layout of version 0: the APIs that are served,
/// each from its first version that is spoken to the last. The code is 0, or 35 for a request in
/// another version, of which [`RequestFront`](kx_kafka::RequestFront) alone can be read.
///
/// # Errors
///
/// Only [`KafkaFault::Memory`].
pub fn api_versions_frame(
    alloc: Global,
    correlation_id: i32,
    error_code: i16,
) -> Result<Vec<u8>, KafkaFault>
    ensures { IfOk result (λ frame. frame.items ≡ frame_text (response_text plain correlation_id
        api_versions_response (error_code, (map range_of offered, tt)))) }
{
    let api_keys = offered_ranges();
    let response = ApiVersionsResponse {
        error_code,
        api_keys: &api_keys,
    };
    response_frame(alloc, PLAIN, correlation_id, &response)
}
