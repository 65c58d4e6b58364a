//! What a server is asked for.
use kx_bounded::Bounded;
use kx_message::{PartitionId, Timeout};

/// How many data partitions a server has, 1 to 16: those from 0 on.
pub type Partitions = Bounded<1, { PartitionId::DATA_COUNT }>;

/// How many connections a server serves before it ends, 1 to 1,024.
pub type Connections = Bounded<1, 1024>;

/// What the threads of a server are asked for.
#[derive(Clone, Copy)]
pub struct ServerOptions {
    /// How many data partitions it has.
    pub partitions: Partitions,
    /// How many connections it serves before it ends.
    pub connections: Connections,
    /// Whether its clock ends transactions that have lasted longer than they asked for. Else none
    /// ends by itself.
    pub expires: bool,
    /// How long nothing may be heard of a member of a group until it is dropped; None drops none.
    pub session_timeout: Option<Timeout>,
    /// The latest time that its nodes know, in milliseconds since 1970: its clock goes on from there
    /// if the one on the wall is behind.
    pub since: u64,
    /// Whether notices of what happens are written to standard error.
    pub tells_notices: bool,
}
