//! The error codes of an answer.
ghost use Rattle.std.specs.Prelude.{◌≡◌, Some, pos, decimal};
ghost use Rattle.kx_message.specs.Codes.{number_of, name_of, IsCodeOfNumber};

use crate::fault::ValueFault;
use std::fmt;

/// An error code of an answer, with the number and the name of the Kafka protocol guide's table
/// "Error Codes". It has those of the table that this core answers.
#[derive(Clone, Copy, Debug, PartialEq, Eq, PartialOrd, Ord, Hash)]
pub enum ErrorCode {
    /// The request was served.
    NoError = 0,
    /// The offset is outside those that the partition keeps.
    OffsetOutOfRange = 1,
    /// The batch fails its checksum, or is otherwise damaged.
    CorruptMessage = 2,
    /// The partition is not there.
    UnknownTopicOrPartition = 3,
    /// The batch is larger than the server takes.
    MessageTooLarge = 10,
    /// The generation is not the group's present one.
    IllegalGeneration = 22,
    /// The group has no such member.
    UnknownMemberId = 25,
    /// The sequence number does not follow the producer's last one.
    OutOfOrderSequenceNumber = 45,
    /// The producer's epoch is an old one.
    InvalidProducerEpoch = 47,
    /// The transaction's state does not allow the request.
    InvalidTxnState = 48,
    /// The producer id is not the one that the transaction's id now has.
    InvalidProducerIdMapping = 49,
    /// The transaction's previous request is still at work.
    ConcurrentTransactions = 51,
    /// The coordinator that sent the request is no longer the present one.
    TransactionCoordinatorFenced = 52,
    /// The server's disk failed.
    KafkaStorageError = 56,
    /// The batch is compressed in a way that the server does not take.
    UnsupportedCompressionType = 76,
    /// A record of the batch breaks a rule of the server.
    InvalidRecord = 87,
    /// A transaction that is still open has offsets to commit.
    UnstableOffsetCommit = 88,
    /// A newer producer has the transaction's id.
    ProducerFenced = 90,
}

impl ErrorCode {
    /// The number of the code as it goes over the wire, an int16.
    pub fn number(self) -> i16
        ensures { result ≡ pos (number_of self) }
    {
        self as i16
    }

    /// The name of the code as the protocol guide spells it.
    pub fn name(self) -> &'static str
        ensures { result.now ≡ name_of self }
    {
        match self {
            ErrorCode::NoError => "NONE",
            ErrorCode::OffsetOutOfRange => "OFFSET_OUT_OF_RANGE",
            ErrorCode::CorruptMessage => "CORRUPT_MESSAGE",
            ErrorCode::UnknownTopicOrPartition => "UNKNOWN_TOPIC_OR_PARTITION",
            ErrorCode::MessageTooLarge => "MESSAGE_TOO_LARGE",
            ErrorCode::IllegalGeneration => "ILLEGAL_GENERATION",
            ErrorCode::UnknownMemberId => "UNKNOWN_MEMBER_ID",
            ErrorCode::OutOfOrderSequenceNumber => "OUT_OF_ORDER_SEQUENCE_NUMBER",
            ErrorCode::InvalidProducerEpoch => "INVALID_PRODUCER_EPOCH",
            ErrorCode::InvalidTxnState => "INVALID_TXN_STATE",
            ErrorCode::InvalidProducerIdMapping => "INVALID_PRODUCER_ID_MAPPING",
            ErrorCode::ConcurrentTransactions => "CONCURRENT_TRANSACTIONS",
            ErrorCode::TransactionCoordinatorFenced => "TRANSACTION_COORDINATOR_FENCED",
            ErrorCode::KafkaStorageError => "KAFKA_STORAGE_ERROR",
            ErrorCode::UnsupportedCompressionType => "UNSUPPORTED_COMPRESSION_TYPE",
            ErrorCode::InvalidRecord => "INVALID_RECORD",
            ErrorCode::UnstableOffsetCommit => "UNSTABLE_OFFSET_COMMIT",
            ErrorCode::ProducerFenced => "PRODUCER_FENCED",
        }
    }
}

/// Takes the numbers of the listed codes, and refuses any other with `ValueFault::ErrorCode`.
impl TryFrom<i16> for ErrorCode {
    type Error = ValueFault;

    ghost try_from_gives = { IsCodeOfNumber };

    fn try_from(number: i16) -> Result<Self, ValueFault> {
        Ok(match number {
            0 => ErrorCode::NoError,
            1 => ErrorCode::OffsetOutOfRange,
            2 => ErrorCode::CorruptMessage,
            3 => ErrorCode::UnknownTopicOrPartition,
            10 => ErrorCode::MessageTooLarge,
            22 => ErrorCode::IllegalGeneration,
            25 => ErrorCode::UnknownMemberId,
            45 => ErrorCode::OutOfOrderSequenceNumber,
            47 => ErrorCode::InvalidProducerEpoch,
            48 => ErrorCode::InvalidTxnState,
            49 => ErrorCode::InvalidProducerIdMapping,
            51 => ErrorCode::ConcurrentTransactions,
            52 => ErrorCode::TransactionCoordinatorFenced,
            56 => ErrorCode::KafkaStorageError,
            76 => ErrorCode::UnsupportedCompressionType,
            87 => ErrorCode::InvalidRecord,
            88 => ErrorCode::UnstableOffsetCommit,
            90 => ErrorCode::ProducerFenced,
            _ => return Err(ValueFault::ErrorCode),
        })
    }
}

/// The number in decimal.
impl fmt::Display for ErrorCode {
    ghost output = { λ code. Some (decimal (number_of code)) };

    fn fmt<W: fmt::Write>(&self, f: &mut fmt::Formatter<W>) -> fmt::Result {
        write!(f, "{}", self.number())
    }
}
