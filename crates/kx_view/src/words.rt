//! Kafka's words for codes, commands and outcomes.
use kx_message::{ErrorCode, Message, Outcome};

/// What a code says, in a few words.
pub(crate) fn word_of(code: ErrorCode) -> &'static str {
    match code {
        ErrorCode::NoError => "done",
        ErrorCode::OffsetOutOfRange => "offset out of range",
        ErrorCode::CorruptMessage => "corrupt batch",
        ErrorCode::UnknownTopicOrPartition => "unknown partition",
        ErrorCode::MessageTooLarge => "batch too large",
        ErrorCode::IllegalGeneration => "illegal generation",
        ErrorCode::UnknownMemberId => "unknown member",
        ErrorCode::OutOfOrderSequenceNumber => "out of order",
        ErrorCode::InvalidProducerEpoch => "fenced: old epoch",
        ErrorCode::InvalidTxnState => "invalid state",
        ErrorCode::InvalidProducerIdMapping => "unknown producer id",
        ErrorCode::ConcurrentTransactions => "not yet: concurrent",
        ErrorCode::TransactionCoordinatorFenced => "coordinator fenced",
        ErrorCode::KafkaStorageError => "storage error",
        ErrorCode::UnsupportedCompressionType => "compressed",
        ErrorCode::InvalidRecord => "invalid record",
        ErrorCode::UnstableOffsetCommit => "offset is pending",
        ErrorCode::ProducerFenced => "producer fenced",
    }
}

/// The words for a commit, or those for an abort.
pub(crate) fn by_outcome(
    outcome: Outcome,
    commit: &'static str,
    abort: &'static str,
) -> &'static str {
    match outcome {
        Outcome::Commit => commit,
        Outcome::Abort => abort,
    }
}

/// The kind of a message.
pub(crate) fn name_of(message: &Message) -> &'static str {
    match message {
        Message::InitProducerId(_) => "InitProducerId",
        Message::InitReply(_) => "InitReply",
        Message::EndTxn(_) => "EndTxn",
        Message::EndReply(_) => "EndReply",
        Message::Produce(_) => "Produce",
        Message::ProduceReply(_) => "ProduceReply",
        Message::AddPartition(_) => "AddPartition",
        Message::AddReply(_) => "AddReply",
        Message::WriteMarker(_) => "Marker",
        Message::MarkerReply(_) => "MarkerReply",
        Message::Fetch(_) => "Fetch",
        Message::FetchReply(_) => "FetchReply",
        Message::Join(_) => "Join",
        Message::JoinReply(_) => "JoinReply",
        Message::Leave(_) => "Leave",
        Message::LeaveReply(_) => "LeaveReply",
        Message::TxnOffsetCommit(_) => "TxnOffsetCommit",
        Message::OffsetsReply(_) => "OffsetsReply",
        Message::OffsetFetch(_) => "OffsetFetch",
        Message::OffsetFetchReply(_) => "OffsetFetchReply",
    }
}
