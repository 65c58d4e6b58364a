//! A request of any API, read from its text.
ghost use Rattle.std.specs.Prelude.{◌≡◌, Ok, Err, MatchResult, option_map};
ghost use Rattle.kx_kafka.specs.Requests.{body_at, request_at};

use crate::api_key::ApiKey;
use crate::api_versions::ApiVersionsRequest;
use crate::fetch::FetchRequest;
use crate::find_coordinator::FindCoordinatorRequest;
use crate::groups::{HeartbeatRequest, JoinGroupRequest, LeaveGroupRequest, SyncGroupRequest};
use crate::header::{RequestHeader, read_header};
use crate::init_producer_id::InitProducerIdRequest;
use crate::list_offsets::ListOffsetsRequest;
use crate::metadata::MetadataRequest;
use crate::offsets::{OffsetCommitRequest, OffsetFetchRequest, TxnOffsetCommitRequest};
use crate::produce::ProduceRequest;
use crate::transactions::{AddOffsetsToTxnRequest, AddPartitionsToTxnRequest, EndTxnRequest};
use kx_kafka_types::{FieldReader, KafkaFault, Struct, Version};

/// What requests stand for in the definitions.
pub trait Asks {
    ghost use Rattle.kx_kafka.specs.Requests.{Body};

    // the API, and the values of its fields
    ghost body: { Self → Body };
}

/// A request, by its API.
#[derive(Drop)]
pub enum Request<'a> {
    /// A request to Produce.
    Produce(ProduceRequest<'a>),
    /// A request to Fetch.
    Fetch(FetchRequest<'a>),
    /// A request to ListOffsets.
    ListOffsets(ListOffsetsRequest<'a>),
    /// A request to Metadata.
    Metadata(MetadataRequest<'a>),
    /// A request to OffsetCommit.
    OffsetCommit(OffsetCommitRequest<'a>),
    /// A request to OffsetFetch.
    OffsetFetch(OffsetFetchRequest<'a>),
    /// A request to FindCoordinator.
    FindCoordinator(FindCoordinatorRequest<'a>),
    /// A request to JoinGroup.
    JoinGroup(JoinGroupRequest<'a>),
    /// A request to Heartbeat.
    Heartbeat(HeartbeatRequest<'a>),
    /// A request to LeaveGroup.
    LeaveGroup(LeaveGroupRequest<'a>),
    /// A request to SyncGroup.
    SyncGroup(SyncGroupRequest<'a>),
    /// A request to ApiVersions.
    ApiVersions(ApiVersionsRequest<'a>),
    /// A request to InitProducerId.
    InitProducerId(InitProducerIdRequest<'a>),
    /// A request to AddPartitionsToTxn.
    AddPartitionsToTxn(AddPartitionsToTxnRequest<'a>),
    /// A request to AddOffsetsToTxn.
    AddOffsetsToTxn(AddOffsetsToTxnRequest<'a>),
    /// A request to EndTxn.
    EndTxn(EndTxnRequest<'a>),
    /// A request to TxnOffsetCommit.
    TxnOffsetCommit(TxnOffsetCommitRequest<'a>),
}

impl<'a> Asks for Request<'a> {
    ghost use Rattle.kx_kafka.specs.declared.api_key.ApiKey.TheVariants as api;
    ghost use Rattle.kx_kafka.specs.declared.request.Request.TheVariants as request;

    ghost body = { elim [
      | request.Produce it ↦ (api.Produce, ⟦<ProduceRequest<'a> as Struct>⟧.values it)
      | request.Fetch it ↦ (api.Fetch, ⟦<FetchRequest<'a> as Struct>⟧.values it)
      | request.ListOffsets it ↦ (api.ListOffsets, ⟦<ListOffsetsRequest<'a> as Struct>⟧.values it)
      | request.Metadata it ↦ (api.Metadata, ⟦<MetadataRequest<'a> as Struct>⟧.values it)
      | request.OffsetCommit it ↦ (
        api.OffsetCommit,
        ⟦<OffsetCommitRequest<'a> as Struct>⟧.values it,
      )
      | request.OffsetFetch it ↦ (api.OffsetFetch, ⟦<OffsetFetchRequest<'a> as Struct>⟧.values it)
      | request.FindCoordinator it ↦ (
        api.FindCoordinator,
        ⟦<FindCoordinatorRequest<'a> as Struct>⟧.values it,
      )
      | request.JoinGroup it ↦ (api.JoinGroup, ⟦<JoinGroupRequest<'a> as Struct>⟧.values it)
      | request.Heartbeat it ↦ (api.Heartbeat, ⟦<HeartbeatRequest<'a> as Struct>⟧.values it)
      | request.LeaveGroup it ↦ (api.LeaveGroup, ⟦<LeaveGroupRequest<'a> as Struct>⟧.values it)
      | request.SyncGroup it ↦ (api.SyncGroup, ⟦<SyncGroupRequest<'a> as Struct>⟧.values it)
      | request.ApiVersions it ↦ (api.ApiVersions, ⟦<ApiVersionsRequest<'a> as Struct>⟧.values it)
      | request.InitProducerId it ↦ (
        api.InitProducerId,
        ⟦<InitProducerIdRequest<'a> as Struct>⟧.values it,
      )
      | request.AddPartitionsToTxn it ↦ (
        api.AddPartitionsToTxn,
        ⟦<AddPartitionsToTxnRequest<'a> as Struct>⟧.values it,
      )
      | request.AddOffsetsToTxn it ↦ (
        api.AddOffsetsToTxn,
        ⟦<AddOffsetsToTxnRequest<'a> as Struct>⟧.values it,
      )
      | request.EndTxn it ↦ (api.EndTxn, ⟦<EndTxnRequest<'a> as Struct>⟧.values it)
      | request.TxnOffsetCommit it ↦ (
        api.TxnOffsetCommit,
        ⟦<TxnOffsetCommitRequest<'a> as Struct>⟧.values it,
      )
    ] };
}

// The fields of a request to an API.
#[tactic(auto, unfolding(crate::specs::Requests::body_at))]
fn read_body<'a>(
    reader: &mut FieldReader<'a>,
    api: ApiKey,
    version: Version,
) -> Result<Request<'a>, KafkaFault>
    ensures { MatchResult result
        (λ x. body_at api version reader.old.rest.now
        ≡ Ok (⟦<Request<'a> as Asks>⟧.body x, reader.new.rest.now))
        (λ fault. body_at api version reader.old.rest.now ≡ Err fault) }
{
    match api {
        ApiKey::Produce => Ok(Request::Produce(ProduceRequest::read(reader, version)?)),
        ApiKey::Fetch => Ok(Request::Fetch(FetchRequest::read(reader, version)?)),
        ApiKey::ListOffsets => Ok(Request::ListOffsets(ListOffsetsRequest::read(reader, version)?)),
        ApiKey::Metadata => Ok(Request::Metadata(MetadataRequest::read(reader, version)?)),
        ApiKey::OffsetCommit => Ok(Request::OffsetCommit(OffsetCommitRequest::read(
            reader, version,
        )?)),
        ApiKey::OffsetFetch => Ok(Request::OffsetFetch(OffsetFetchRequest::read(reader, version)?)),
        ApiKey::FindCoordinator => Ok(Request::FindCoordinator(FindCoordinatorRequest::read(
            reader, version,
        )?)),
        ApiKey::JoinGroup => Ok(Request::JoinGroup(JoinGroupRequest::read(reader, version)?)),
        ApiKey::Heartbeat => Ok(Request::Heartbeat(HeartbeatRequest::read(reader, version)?)),
        ApiKey::LeaveGroup => Ok(Request::LeaveGroup(LeaveGroupRequest::read(reader, version)?)),
        ApiKey::SyncGroup => Ok(Request::SyncGroup(SyncGroupRequest::read(reader, version)?)),
        ApiKey::ApiVersions => Ok(Request::ApiVersions(ApiVersionsRequest::read(reader, version)?)),
        ApiKey::InitProducerId => Ok(Request::InitProducerId(InitProducerIdRequest::read(
            reader, version,
        )?)),
        ApiKey::AddPartitionsToTxn => Ok(Request::AddPartitionsToTxn(
            AddPartitionsToTxnRequest::read(reader, version)?,
        )),
        ApiKey::AddOffsetsToTxn => Ok(Request::AddOffsetsToTxn(AddOffsetsToTxnRequest::read(
            reader, version,
        )?)),
        ApiKey::EndTxn => Ok(Request::EndTxn(EndTxnRequest::read(reader, version)?)),
        ApiKey::TxnOffsetCommit => Ok(Request::TxnOffsetCommit(TxnOffsetCommitRequest::read(
            reader, version,
        )?)),
    }
}

/// Reads a request: its header and its fields, which the whole text is. Both borrow from the text,
/// and nothing takes memory.
///
/// # Errors
///
/// The first that comes: [`KafkaFault::Short`] where the text ends within the request,
/// [`KafkaFault::Key`], [`KafkaFault::Version`], [`KafkaFault::Field`] if the bytes of a field
/// spell no value of its type; [`KafkaFault::TooLong`] if bytes are left behind the last field.
/// Of a request in another version [`RequestFront`](crate::RequestFront) can still be read.
#[tactic(auto, unfolding(crate::specs::Requests::request_at))]
pub fn read_request<'a>(text: &'a [u8]) -> Result<(RequestHeader<'a>, Request<'a>), KafkaFault>
    ensures { MatchResult result
        (λ x. request_at text.now ≡ Ok (
          record {
            api = x.0.api;
            version = x.0.version;
            correlation_id = x.0.correlation_id;
            client_id = option_map (λ s. s.now) x.0.client_id;
          },
          ⟦<Request<'a> as Asks>⟧.body x.1,
        ))
        (λ fault. request_at text.now ≡ Err fault) }
{
    let mut reader = FieldReader { rest: text };
    let header = read_header(&mut reader)?;
    let request = read_body(&mut reader, header.api, header.version)?;
    if !reader.rest.is_empty() {
        return Err(KafkaFault::TooLong);
    }
    Ok((header, request))
}
