//! FindCoordinator: the one broker is each coordinator.
ghost use Rattle.std.specs.Prelude.{◌≡◌, IfOk};
ghost use Rattle.kx_kafka.specs.Frames.{frame_text, response_text};
ghost use Rattle.kx_kafka.specs.Layouts.{find_coordinator_response};
ghost use Rattle.kx_gateway.specs.Metadata.{coordinator_values};

use crate::metadata::{Broker, NODE_ID};
use kx_kafka::{FindCoordinatorResponse, KafkaFault, RequestHeader, response_frame};
use std::alloc::Global;

/// The frame of a response: the broker is the coordinator, of whatever it was asked for.
///
/// # Errors
///
/// As [`response_frame`].
pub fn find_coordinator_frame(
    alloc: Global,
    header: &RequestHeader<'_>,
    broker: Broker<'_>,
) -> Result<Vec<u8>, KafkaFault>
    ensures { IfOk result (λ frame. frame.items ≡ frame_text (response_text header.now.version
        header.now.correlation_id find_coordinator_response
        (coordinator_values broker.entry.host.now broker.entry.port))) }
{
    let response = FindCoordinatorResponse {
        throttle_time_ms: 0,
        error_code: 0,
        error_message: None,
        node_id: NODE_ID,
        host: broker.host,
        port: i32::from(broker.port),
    };
    response_frame(alloc, header.version, header.correlation_id, &response)
}
