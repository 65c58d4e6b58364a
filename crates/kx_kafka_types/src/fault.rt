//! Why a request isn't read, and why a response isn't written.
ghost use Rattle.std.specs.Prelude.{◌≡◌};
ghost use Rattle.kx_kafka_types.specs.Faults.{number_of};
ghost use Rattle.kx_kafka_types.specs.declared.fault.KafkaFault.{KafkaFault};

use std::alloc::AllocError;
use thiserror::Error;

/// Why a request isn't read, and why a response isn't written.
#[derive(Clone, Copy, Debug, PartialEq, Eq, Error)]
pub enum KafkaFault {
    /// The bytes end within the request: more of them could complete it.
    #[error("the bytes end within the request")]
    Short = 1,
    /// Bytes are left behind the last field, a frame is longer than the limit, or a field to be
    /// written is longer than its length can say.
    #[error("the request or the field is too long")]
    TooLong = 2,
    /// No API that is spoken here has this key.
    #[error("no API has this key")]
    Key = 3,
    /// The API isn't spoken in this version.
    #[error("the API isn't spoken in this version")]
    Version = 4,
    /// The bytes of a field spell no value of its type.
    #[error("a field is damaged")]
    Field = 5,
    /// Memory ran out.
    #[error("out of memory")]
    Memory = 6,
}

impl KafkaFault {
    /// The number of the fault, 1 to 6.
    pub fn number(self) -> u8
        ensures { result ≡ number_of self }
    {
        self as u8
    }
}

/// Out of memory is [`KafkaFault::Memory`].
impl From<AllocError> for KafkaFault {
    ghost from_gives = { λ refused fault. fault ≡ KafkaFault.Memory };

    fn from(_: AllocError) -> Self {
        KafkaFault::Memory
    }
}
