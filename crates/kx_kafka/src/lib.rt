//! Kafka's own requests and responses: read from the bytes of a client, and written for it. A field
//! that a version doesn't have is given by its default, and isn't written.
#![tactic(auto)]

mod api_key;
mod api_versions;
mod fetch;
mod find_coordinator;
mod frames;
mod front;
mod groups;
mod header;
mod init_producer_id;
mod isolation;
mod laws;
mod list_offsets;
mod metadata;
mod offsets;
mod produce;
mod request;
mod topics;
mod transactions;

pub use api_key::ApiKey;
pub use api_versions::{ApiVersion, ApiVersionsRequest, ApiVersionsResponse};
pub use fetch::{
    AbortedTransaction, FetchPartition, FetchPartitionResponse, FetchRequest, FetchResponse,
    FetchTopic, FetchableTopicResponse,
};
pub use find_coordinator::{FindCoordinatorRequest, FindCoordinatorResponse};
pub use frames::{Frames, response_frame};
pub use front::RequestFront;
pub use groups::{
    HeartbeatRequest, HeartbeatResponse, JoinGroupMember, JoinGroupProtocol, JoinGroupRequest,
    JoinGroupResponse, LeaveGroupRequest, LeaveGroupResponse, SyncGroupAssignment,
    SyncGroupRequest, SyncGroupResponse,
};
pub use header::RequestHeader;
pub use init_producer_id::{InitProducerIdRequest, InitProducerIdResponse};
pub use isolation::IsolationLevel;
pub use kx_kafka_types::{Array, FieldReader, Int32, KafkaFault, Struct, Version, Writes};
pub use laws::{frames_are_read_as_written, requests_are_read_as_spelled};
pub use list_offsets::{
    ListOffsetsPartition, ListOffsetsPartitionResponse, ListOffsetsRequest, ListOffsetsResponse,
    ListOffsetsTopic, ListOffsetsTopicResponse,
};
pub use metadata::{
    MetadataRequest, MetadataRequestTopic, MetadataResponse, MetadataResponseBroker,
    MetadataResponsePartition, MetadataResponseTopic,
};
pub use offsets::{
    OffsetCommitPartition, OffsetCommitRequest, OffsetCommitResponse, OffsetCommitTopic,
    OffsetFetchPartition, OffsetFetchRequest, OffsetFetchResponse, OffsetFetchTopic,
    TxnOffsetCommitPartition, TxnOffsetCommitRequest, TxnOffsetCommitResponse,
    TxnOffsetCommitTopic,
};
pub use produce::{
    PartitionProduceData, PartitionProduceResponse, ProduceRequest, ProduceResponse,
    TopicProduceData, TopicProduceResponse,
};
pub use request::{Asks, Request, read_request};
pub use topics::{PartitionError, TopicErrors, TopicPartition};
pub use transactions::{
    AddOffsetsToTxnRequest, AddOffsetsToTxnResponse, AddPartitionsToTxnRequest,
    AddPartitionsToTxnResponse, EndTxnRequest, EndTxnResponse,
};
