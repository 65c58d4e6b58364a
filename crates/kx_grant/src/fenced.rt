//! How a fenced producer is told, and which codes responses have for the core's.
ghost use Rattle.std.specs.Prelude.{◌≡◌};
ghost use Rattle.kx_grant.specs.Codes.{end_code, init_code, is_final, or_fenced, produce_code};
ghost use Rattle.kx_grant.specs.Grant.{end_fenced, init_fenced};

use kx_message::ErrorCode;

/// The code for a fenced producer in a response to InitProducerId of this version: 90 from version
/// 4 on, else 47 (KIP-588).
pub fn init_fenced_code(version: i16) -> ErrorCode
    ensures { result ≡ init_fenced version }
{
    if version < 4 {
        ErrorCode::InvalidProducerEpoch
    } else {
        ErrorCode::ProducerFenced
    }
}

/// The code for a fenced producer in a response to EndTxn of this version: 90 from version 2 on,
/// else 47 (KIP-588).
pub fn end_fenced_code(version: i16) -> ErrorCode
    ensures { result ≡ end_fenced version }
{
    if version < 2 {
        ErrorCode::InvalidProducerEpoch
    } else {
        ErrorCode::ProducerFenced
    }
}

// The core's code, with another in place of 90.
fn or_fenced(fenced: ErrorCode, code: ErrorCode) -> ErrorCode
    ensures { result ≡ or_fenced fenced code }
{
    match code {
        ErrorCode::ProducerFenced => fenced,
        _ => code,
    }
}

/// The code in a response to InitProducerId of this version, if the core answered this one: the
/// core's, and [`init_fenced_code`] for 90.
pub fn init_code(version: i16, code: ErrorCode) -> ErrorCode
    ensures { result ≡ init_code version code }
{
    or_fenced(init_fenced_code(version), code)
}

/// The code in a response to EndTxn of this version, if the core answered this one: the core's,
/// and [`end_fenced_code`] for 90.
pub fn end_code(version: i16, code: ErrorCode) -> ErrorCode
    ensures { result ≡ end_code version code }
{
    or_fenced(end_fenced_code(version), code)
}

/// The code of a batch in a response to Produce, if the core answered this one: the core's, and
/// 47 for 90, which clients take there as the end of the transaction alone.
pub fn produce_code(code: ErrorCode) -> ErrorCode
    ensures { result ≡ produce_code code }
{
    or_fenced(ErrorCode::InvalidProducerEpoch, code)
}

/// Whether a batch was refused for good: with a code after which clients don't send it again. That
/// is each but 0; but 2, 3, 56 and 88, after which they do, as the protocol guide's table calls
/// them retriable; and but 51, after which the server asks the core again.
pub fn is_final(code: ErrorCode) -> bool
    ensures { result ≡ is_final code }
{
    match code {
        ErrorCode::NoError
        | ErrorCode::CorruptMessage
        | ErrorCode::UnknownTopicOrPartition
        | ErrorCode::ConcurrentTransactions
        | ErrorCode::KafkaStorageError
        | ErrorCode::UnstableOffsetCommit => false,
        _ => true,
    }
}
