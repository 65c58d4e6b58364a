//! What a server is asked for.
use kx_gateway::Topics;
use kx_kafka_server::Advertised;
use kx_message::Timeout;
use kx_server::{Connections, Partitions, ServerOptions, Until};

/// What a server is asked for.
#[derive(Clone, Copy)]
pub struct ServeOptions<'a> {
    /// How many data partitions it has.
    pub partitions: Partitions,
    /// How many connections it serves before it ends.
    pub connections: Connections,
    /// The port on 127.0.0.1 on which it listens; 0 takes any that is free.
    pub port: u16,
    /// The folder in which it keeps its logs, as files, which is made if there is none; None
    /// keeps them in memory. No folder has the empty name.
    pub dir: Option<&'a str>,
    /// The folder into which its nodes write what they do, which is made if there is none; None
    /// writes nothing. No folder has the empty name.
    pub traces: Option<&'a str>,
    /// Whether traces that are there are removed, so that they begin anew.
    pub new_traces: bool,
    /// Whether its clock ends transactions that have lasted longer than they asked for. Else none
    /// ends by itself.
    pub expires: bool,
    /// How long nothing may be heard of a member of a group until it is dropped; None drops none.
    pub session_timeout: Option<Timeout>,
    /// Whether it tells on standard error which log it opens, and how long that is.
    pub tells_progress: bool,
    /// Whether notices of what happens are written to standard error.
    pub tells_notices: bool,
}

impl<'a> ServeOptions<'a> {
    /// What its threads are asked for, if its clock goes on from this time.
    pub(crate) fn server(&self, since: u64) -> ServerOptions {
        ServerOptions {
            partitions: self.partitions,
            connections: self.connections,
            expires: self.expires,
            session_timeout: self.session_timeout,
            since,
            tells_notices: self.tells_notices,
        }
    }
}

/// What a server of stock clients is asked for.
#[derive(Clone, Copy)]
pub struct KafkaOptions<'a> {
    /// The topics that are there from the start.
    pub topics: &'a Topics,
    /// How many topics are made at most, with one partition each, when clients first ask for them.
    pub auto_topics: u16,
    /// Where clients are told to find the broker; None is 127.0.0.1 and the port on which it listens.
    pub advertise: Option<Advertised<'a>>,
    /// The port on 127.0.0.1 on which it listens; 0 takes any that is free.
    pub port: u16,
    /// The folder in which it keeps its logs and tables, as files, which is made if there is
    /// none; None keeps them in memory. No folder has the empty name.
    pub dir: Option<&'a str>,
    /// The folder into which its nodes write what they do, which is made if there is none; None
    /// writes nothing. No folder has the empty name.
    pub traces: Option<&'a str>,
    /// Whether traces that are there are removed, so that they begin anew.
    pub new_traces: bool,
    /// For how long a connection may ask for nothing until it is closed; None closes none.
    pub idle: Option<Timeout>,
    /// How many connections it serves: at a time, or in all.
    pub connections: Connections,
    /// When it ends.
    pub until: Until,
    /// Whether it tells on standard error which log it opens, and how long that is.
    pub tells_progress: bool,
    /// Whether notices of what happens are written to standard error.
    pub tells_notices: bool,
}
