//! Kafka's own requests: Produce is read, and its response written.
ghost use Rattle.std.specs.Prelude.{◌≡◌, ◌≢◌, IfSome, Ok};
ghost use Rattle.kx_kafka.specs.Requests.{Header, Body, request_at};

use kx_kafka::{
    PartitionProduceResponse, ProduceResponse, Request, TopicProduceResponse, read_request,
    response_frame,
};
use std::alloc::Global;

// How many bytes the response has to a request to Produce of one topic, whose partitions get as
// their offsets how many bytes of records came for them.
fn replied(alloc: Global, text: &[u8]) -> Option<usize>
    ensures { IfSome result (λ _. (x : Header × Body) × (request_at text.now ≡ Ok x)) }
{
    let Ok((header, Request::Produce(request))) = read_request(text) else {
        return None;
    };
    let mut topics = request.topic_data;
    let topic = topics.next()?;
    let mut partitions = Vec::new(alloc);
    for partition in topic.partition_data {
        let size = partition.records.map_or(0, |records| records.len());
        partitions
            .push(PartitionProduceResponse {
                index: partition.index,
                error_code: 0,
                base_offset: i64::try_from(size).ok()?,
                log_append_time_ms: -1,
            })
            .ok()?;
    }
    let response = ProduceResponse {
        responses: &[TopicProduceResponse {
            name: topic.name,
            partition_responses: &partitions,
        }],
        throttle_time_ms: 0,
    };
    let frame = response_frame(alloc, header.version, header.correlation_id, &response).ok()?;
    Some(frame.len())
}

/// Reads a request to Produce so often, and writes the response to it each time: how many bytes the
/// frames of the responses have, or 0 if the text is no such request.
#[unsafe(no_mangle)]
pub extern "C" fn kx_bench_kafka_produce(alloc: Global, text: &[u8], count: u64) -> usize
    ensures { result ≢ 0 → (x : Header × Body) × (request_at text.now ≡ Ok x) }
{
    let mut total = 0usize;
    for _ in 0..count {
        match replied(alloc, text) {
            Some(size) => total = total.saturating_add(size),
            None => return 0,
        }
    }
    total
}
