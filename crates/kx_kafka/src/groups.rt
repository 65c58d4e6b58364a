//! The members of a group: they join, are assigned partitions, beat and leave.
use kx_kafka_types::{
    Array, FieldReader, KafkaFault, Struct, Version, Writes, put_array, put_bytes, put_end,
    put_i32_since, put_text,
};
use kx_varint::{put_i16, put_i32};

/// A protocol that a member offers.
#[derive(Drop)]
pub struct JoinGroupProtocol<'a> {
    /// Its name.
    pub name: &'a [u8],
    /// What it says of the member.
    pub metadata: &'a [u8],
}

impl<'a> Struct for JoinGroupProtocol<'a> {
    type Reader = FieldReader<'a>;

    ghost use Rattle.kx_kafka.specs.Layouts.{join_group_protocol};

    ghost fields = { join_group_protocol };

    ghost values = { λ it. (it.name.now, (it.metadata.now, tt)) };

    fn read(reader: &mut FieldReader<'a>, version: Version) -> Result<Self, KafkaFault> {
        let name = reader.text(version)?;
        let metadata = reader.bytes(version)?;
        reader.end(version)?;
        Ok(JoinGroupProtocol { name, metadata })
    }
}

/// A request to join a group, versions 0 to 2.
#[derive(Drop)]
pub struct JoinGroupRequest<'a> {
    /// The group.
    pub group_id: &'a [u8],
    /// After how long without a heartbeat the member is dropped, in milliseconds.
    pub session_timeout_ms: i32,
    /// How long to wait for the others to join again, in milliseconds; from version 1 on, before it
    /// is -1, the session timeout.
    pub rebalance_timeout_ms: i32,
    /// The member's id, empty at first.
    pub member_id: &'a [u8],
    /// The kind of the protocols, as `consumer`.
    pub protocol_type: &'a [u8],
    /// The protocols, best first.
    pub protocols: Array<JoinGroupProtocol<'a>>,
}

impl<'a> Struct for JoinGroupRequest<'a> {
    type Reader = FieldReader<'a>;

    ghost use Rattle.kx_kafka_types.specs.Rows.{elements};
    ghost use Rattle.kx_kafka.specs.Layouts.{join_group_protocol, join_group_request};

    ghost fields = { join_group_request };

    ghost values = { λ it. (
      it.group_id.now,
      (
        it.session_timeout_ms,
        (
          it.rebalance_timeout_ms,
          (
            it.member_id.now,
            (it.protocol_type.now, (elements join_group_protocol it.protocols, tt)),
          ),
        ),
      ),
    ) };

    fn read(reader: &mut FieldReader<'a>, version: Version) -> Result<Self, KafkaFault> {
        let group_id = reader.text(version)?;
        let session_timeout_ms = reader.int32()?;
        let rebalance_timeout_ms = reader.int32_since(version, 1, -1)?;
        let member_id = reader.text(version)?;
        let protocol_type = reader.text(version)?;
        let protocols = Array::read(reader, version)?;
        reader.end(version)?;
        Ok(JoinGroupRequest {
            group_id,
            session_timeout_ms,
            rebalance_timeout_ms,
            member_id,
            protocol_type,
            protocols,
        })
    }
}

/// What a member is assigned.
#[derive(Drop)]
pub struct SyncGroupAssignment<'a> {
    /// The member's id.
    pub member_id: &'a [u8],
    /// What it is assigned, in the protocol's own form.
    pub assignment: &'a [u8],
}

impl<'a> Struct for SyncGroupAssignment<'a> {
    type Reader = FieldReader<'a>;

    ghost use Rattle.kx_kafka.specs.Layouts.{sync_group_assignment};

    ghost fields = { sync_group_assignment };

    ghost values = { λ it. (it.member_id.now, (it.assignment.now, tt)) };

    fn read(reader: &mut FieldReader<'a>, version: Version) -> Result<Self, KafkaFault> {
        let member_id = reader.text(version)?;
        let assignment = reader.bytes(version)?;
        reader.end(version)?;
        Ok(SyncGroupAssignment {
            member_id,
            assignment,
        })
    }
}

/// A request for the assignment, versions 0 and 1; the leader's has those of all members.
#[derive(Drop)]
pub struct SyncGroupRequest<'a> {
    /// The group.
    pub group_id: &'a [u8],
    /// The generation of the group.
    pub generation_id: i32,
    /// The member's id.
    pub member_id: &'a [u8],
    /// The assignments.
    pub assignments: Array<SyncGroupAssignment<'a>>,
}

impl<'a> Struct for SyncGroupRequest<'a> {
    type Reader = FieldReader<'a>;

    ghost use Rattle.kx_kafka_types.specs.Rows.{elements};
    ghost use Rattle.kx_kafka.specs.Layouts.{sync_group_assignment, sync_group_request};

    ghost fields = { sync_group_request };

    ghost values = { λ it. (
      it.group_id.now,
      (
        it.generation_id,
        (
          it.member_id.now,
          (elements sync_group_assignment it.assignments, tt),
        ),
      ),
    ) };

    fn read(reader: &mut FieldReader<'a>, version: Version) -> Result<Self, KafkaFault> {
        let group_id = reader.text(version)?;
        let generation_id = reader.int32()?;
        let member_id = reader.text(version)?;
        let assignments = Array::read(reader, version)?;
        reader.end(version)?;
        Ok(SyncGroupRequest {
            group_id,
            generation_id,
            member_id,
            assignments,
        })
    }
}

/// A member's heartbeat, versions 0 and 1.
#[derive(Drop)]
pub struct HeartbeatRequest<'a> {
    /// The group.
    pub group_id: &'a [u8],
    /// The generation of the group.
    pub generation_id: i32,
    /// The member's id.
    pub member_id: &'a [u8],
}

impl<'a> Struct for HeartbeatRequest<'a> {
    type Reader = FieldReader<'a>;

    ghost use Rattle.kx_kafka.specs.Layouts.{heartbeat_request};

    ghost fields = { heartbeat_request };

    ghost values = { λ it. (it.group_id.now, (it.generation_id, (it.member_id.now, tt))) };

    fn read(reader: &mut FieldReader<'a>, version: Version) -> Result<Self, KafkaFault> {
        let group_id = reader.text(version)?;
        let generation_id = reader.int32()?;
        let member_id = reader.text(version)?;
        reader.end(version)?;
        Ok(HeartbeatRequest {
            group_id,
            generation_id,
            member_id,
        })
    }
}

/// A request to leave a group, versions 0 and 1.
#[derive(Drop)]
pub struct LeaveGroupRequest<'a> {
    /// The group.
    pub group_id: &'a [u8],
    /// The member's id.
    pub member_id: &'a [u8],
}

impl<'a> Struct for LeaveGroupRequest<'a> {
    type Reader = FieldReader<'a>;

    ghost use Rattle.kx_kafka.specs.Layouts.{leave_group_request};

    ghost fields = { leave_group_request };

    ghost values = { λ it. (it.group_id.now, (it.member_id.now, tt)) };

    fn read(reader: &mut FieldReader<'a>, version: Version) -> Result<Self, KafkaFault> {
        let group_id = reader.text(version)?;
        let member_id = reader.text(version)?;
        reader.end(version)?;
        Ok(LeaveGroupRequest {
            group_id,
            member_id,
        })
    }
}

/// A member of the group, for its leader.
#[derive(Clone, Copy)]
pub struct JoinGroupMember<'a> {
    /// The member's id.
    pub member_id: &'a [u8],
    /// What its protocol says of it.
    pub metadata: &'a [u8],
}

impl<'a> Writes for JoinGroupMember<'a> {
    ghost use Rattle.kx_kafka.specs.Layouts.{join_group_member};

    ghost fields = { join_group_member };

    ghost values = { λ it. (it.member_id.now, (it.metadata.now, tt)) };

    fn put(&self, out: &mut Vec<u8>, version: Version) -> Result<(), KafkaFault> {
        put_text(out, version, self.member_id)?;
        put_bytes(out, version, self.metadata)?;
        put_end(out, version)
    }
}

/// The response to a [`JoinGroupRequest`].
#[derive(Clone, Copy)]
pub struct JoinGroupResponse<'a> {
    /// For how long the client is to wait before it asks again, in milliseconds; from version 2 on.
    pub throttle_time_ms: i32,
    /// The number of the error, or 0.
    pub error_code: i16,
    /// The generation of the group, or -1.
    pub generation_id: i32,
    /// The protocol that was chosen, or empty.
    pub protocol_name: &'a [u8],
    /// The leader's id, or empty.
    pub leader: &'a [u8],
    /// The member's id.
    pub member_id: &'a [u8],
    /// All members, for the leader alone.
    pub members: &'a [JoinGroupMember<'a>],
}

impl<'a> Writes for JoinGroupResponse<'a> {
    ghost use Rattle.std.specs.Prelude.{map};
    ghost use Rattle.kx_kafka.specs.Layouts.{join_group_response};

    ghost fields = { join_group_response };

    ghost values = { λ it. (
      it.throttle_time_ms,
      (
        it.error_code,
        (
          it.generation_id,
          (
            it.protocol_name.now,
            (
              it.leader.now,
              (
                it.member_id.now,
                (map ⟦<JoinGroupMember<'a> as Writes>⟧.values it.members.now, tt),
              ),
            ),
          ),
        ),
      ),
    ) };

    fn put(&self, out: &mut Vec<u8>, version: Version) -> Result<(), KafkaFault> {
        put_i32_since(out, version, 2, self.throttle_time_ms)?;
        put_i16(out, self.error_code)?;
        put_i32(out, self.generation_id)?;
        put_text(out, version, self.protocol_name)?;
        put_text(out, version, self.leader)?;
        put_text(out, version, self.member_id)?;
        put_array(out, version, self.members)?;
        put_end(out, version)
    }
}

/// The response to a [`SyncGroupRequest`].
#[derive(Clone, Copy)]
pub struct SyncGroupResponse<'a> {
    /// For how long the client is to wait before it asks again, in milliseconds; from version 1 on.
    pub throttle_time_ms: i32,
    /// The number of the error, or 0.
    pub error_code: i16,
    /// What the member is assigned.
    pub assignment: &'a [u8],
}

impl<'a> Writes for SyncGroupResponse<'a> {
    ghost use Rattle.kx_kafka.specs.Layouts.{sync_group_response};

    ghost fields = { sync_group_response };

    ghost values = { λ it. (it.throttle_time_ms, (it.error_code, (it.assignment.now, tt))) };

    fn put(&self, out: &mut Vec<u8>, version: Version) -> Result<(), KafkaFault> {
        put_i32_since(out, version, 1, self.throttle_time_ms)?;
        put_i16(out, self.error_code)?;
        put_bytes(out, version, self.assignment)?;
        put_end(out, version)
    }
}

/// The response to a [`HeartbeatRequest`].
#[derive(Clone, Copy)]
pub struct HeartbeatResponse {
    /// For how long the client is to wait before it asks again, in milliseconds; from version 1 on.
    pub throttle_time_ms: i32,
    /// The number of the error, or 0.
    pub error_code: i16,
}

impl Writes for HeartbeatResponse {
    ghost use Rattle.kx_kafka.specs.Layouts.{heartbeat_response};

    ghost fields = { heartbeat_response };

    ghost values = { λ it. (it.throttle_time_ms, (it.error_code, tt)) };

    fn put(&self, out: &mut Vec<u8>, version: Version) -> Result<(), KafkaFault> {
        put_i32_since(out, version, 1, self.throttle_time_ms)?;
        put_i16(out, self.error_code)?;
        put_end(out, version)
    }
}

/// The response to a [`LeaveGroupRequest`].
#[derive(Clone, Copy)]
pub struct LeaveGroupResponse {
    /// For how long the client is to wait before it asks again, in milliseconds; from version 1 on.
    pub throttle_time_ms: i32,
    /// The number of the error, or 0.
    pub error_code: i16,
}

impl Writes for LeaveGroupResponse {
    ghost use Rattle.kx_kafka.specs.Layouts.{leave_group_response};

    ghost fields = { leave_group_response };

    ghost values = { λ it. (it.throttle_time_ms, (it.error_code, tt)) };

    fn put(&self, out: &mut Vec<u8>, version: Version) -> Result<(), KafkaFault> {
        put_i32_since(out, version, 1, self.throttle_time_ms)?;
        put_i16(out, self.error_code)?;
        put_end(out, version)
    }
}
