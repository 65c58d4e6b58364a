//! Error codes of Kafka's that the core has none of.
ghost use Rattle.std.specs.Prelude.{◌≡◌, ◌↔◌, pos};
ghost use Rattle.kx_gateway.specs.Codes.{coordinator_number, number_of};
ghost use Rattle.kx_message.specs.declared.code.ErrorCode.{ErrorCode};

use kx_message::ErrorCode;

/// An error code that the core never answers, with the number of the Kafka protocol guide's table
/// "Error Codes".
#[derive(Clone, Copy, Debug, PartialEq, Eq)]
pub enum GatewayCode {
    /// The coordinator takes no request now: clients ask again.
    CoordinatorNotAvailable = 15,
    /// Kafka doesn't allow the name for a topic.
    InvalidTopic = 17,
    /// No broker waits for as many replicas as that.
    InvalidRequiredAcks = 21,
    /// The API isn't spoken in this version.
    UnsupportedVersion = 35,
    /// A field has a value that Kafka has no meaning for.
    InvalidRequest = 42,
    /// A transaction may not stay open for so long.
    InvalidTransactionTimeout = 50,
    /// The client may not use the transactional id.
    TransactionalIdAuthorizationFailed = 53,
}

impl GatewayCode {
    /// The number of the code as it goes over the wire, an int16.
    pub fn number(self) -> i16
        ensures { result ≡ pos (number_of self) }
    {
        self as i16
    }
}

/// The number in a response of a coordinator for the core's code: 15, after which clients ask again, for
/// 56, as Kafka's coordinators answer if their own log fails; else the code's own number.
pub fn coordinator_code(code: ErrorCode) -> i16
    ensures number { result ≡ pos (coordinator_number code) }
    ensures zero { (result ≡ pos 0) ↔ (code ≡ ErrorCode.NoError) }
{
    match code {
        ErrorCode::KafkaStorageError => GatewayCode::CoordinatorNotAvailable.number(),
        _ => code.number(),
    }
}
