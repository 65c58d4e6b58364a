//! The frames of responses to JoinGroup, SyncGroup, Heartbeat and LeaveGroup.
ghost use Rattle.std.specs.Prelude.{◌≡◌, [], IfOk, map, pos, negsuc};
ghost use Rattle.kx_kafka.specs.Frames.{frame_text, response_text};
ghost use Rattle.kx_kafka.specs.Layouts.{heartbeat_response, join_group_response};
ghost use Rattle.kx_kafka.specs.Layouts.{leave_group_response, sync_group_response};

use kx_kafka::{
    HeartbeatResponse, JoinGroupMember, JoinGroupResponse, KafkaFault, LeaveGroupResponse,
    RequestHeader, SyncGroupResponse, Writes, response_frame,
};
use std::alloc::Global;

/// The frame of the response to a JoinGroup of a member of this generation. The members are told to
/// the leader alone.
///
/// # Errors
///
/// As [`response_frame`].
pub fn join_frame<'a>(
    alloc: Global,
    header: &RequestHeader<'_>,
    generation: i32,
    protocol: &'a [u8],
    leader: &'a [u8],
    member: &'a [u8],
    members: &'a [JoinGroupMember<'a>],
) -> Result<Vec<u8>, KafkaFault>
    ensures { IfOk result (λ frame. frame.items ≡ frame_text (response_text header.now.version
        header.now.correlation_id join_group_response (
          pos 0,
          (
            pos 0,
            (
              generation,
              (
                protocol.now,
                (
                  leader.now,
                  (
                    member.now,
                    (map ⟦<JoinGroupMember<'a> as Writes>⟧.values members.now, tt),
                  ),
                ),
              ),
            ),
          ),
        ))) }
{
    let response = JoinGroupResponse {
        throttle_time_ms: 0,
        error_code: 0,
        generation_id: generation,
        protocol_name: protocol,
        leader,
        member_id: member,
        members,
    };
    response_frame(alloc, header.version, header.correlation_id, &response)
}

/// The frame of the response to a JoinGroup that is refused with this code.
///
/// # Errors
///
/// As [`response_frame`].
pub fn refused_join_frame(
    alloc: Global,
    header: &RequestHeader<'_>,
    code: i16,
    member: &[u8],
) -> Result<Vec<u8>, KafkaFault>
    ensures { IfOk result (λ frame. frame.items ≡ frame_text (response_text header.now.version
        header.now.correlation_id join_group_response (
          pos 0,
          (
            code,
            (
              negsuc 0,
              (
                [],
                ([], (member.now, ([], tt))),
              ),
            ),
          ),
        ))) }
{
    let response = JoinGroupResponse {
        throttle_time_ms: 0,
        error_code: code,
        generation_id: -1,
        protocol_name: &[],
        leader: &[],
        member_id: member,
        members: &[],
    };
    response_frame(alloc, header.version, header.correlation_id, &response)
}

/// The frame of the response to a SyncGroup, with this code and assignment.
///
/// # Errors
///
/// As [`response_frame`].
pub fn sync_frame(
    alloc: Global,
    header: &RequestHeader<'_>,
    code: i16,
    assignment: &[u8],
) -> Result<Vec<u8>, KafkaFault>
    ensures { IfOk result (λ frame. frame.items ≡ frame_text (response_text header.now.version
        header.now.correlation_id sync_group_response (pos 0, (code, (assignment.now, tt))))) }
{
    let response = SyncGroupResponse {
        throttle_time_ms: 0,
        error_code: code,
        assignment,
    };
    response_frame(alloc, header.version, header.correlation_id, &response)
}

/// The frame of the response to a Heartbeat, with this code.
///
/// # Errors
///
/// Only [`KafkaFault::Memory`].
pub fn heartbeat_frame(
    alloc: Global,
    header: &RequestHeader<'_>,
    code: i16,
) -> Result<Vec<u8>, KafkaFault>
    ensures { IfOk result (λ frame. frame.items ≡ frame_text (response_text header.now.version
        header.now.correlation_id heartbeat_response (pos 0, (code, tt)))) }
{
    let response = HeartbeatResponse {
        throttle_time_ms: 0,
        error_code: code,
    };
    response_frame(alloc, header.version, header.correlation_id, &response)
}

/// The frame of the response to a LeaveGroup, with this code.
///
/// # Errors
///
/// Only [`KafkaFault::Memory`].
pub fn leave_frame(
    alloc: Global,
    header: &RequestHeader<'_>,
    code: i16,
) -> Result<Vec<u8>, KafkaFault>
    ensures { IfOk result (λ frame. frame.items ≡ frame_text (response_text header.now.version
        header.now.correlation_id leave_group_response (pos 0, (code, tt)))) }
{
    let response = LeaveGroupResponse {
        throttle_time_ms: 0,
        error_code: code,
    };
    response_frame(alloc, header.version, header.correlation_id, &response)
}
