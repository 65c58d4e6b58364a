//! A connection is closed by the server.
use kx_kafka::KafkaFault;
use std::alloc::{AllocError, AllocFailed};

/// The connection is closed: its request can't be read, or memory ran out.
#[derive(Drop)]
pub(crate) struct Closed;

/// Memory ran out.
impl From<AllocError> for Closed {
    fn from(_: AllocError) -> Self {
        Closed
    }
}

/// A request can't be read, or a response can't be written.
impl From<KafkaFault> for Closed {
    fn from(_: KafkaFault) -> Self {
        Closed
    }
}

/// Memory ran out for one more element.
impl<T: Drop> From<AllocFailed<T>> for Closed {
    fn from(_: AllocFailed<T>) -> Self {
        Closed
    }
}
