//! What a partition says of the sequences of a batch.

/// The verdict on a batch of a producer with an id, by its epoch and its sequences (KIP-98,
/// "Idempotent Producer Guarantees"; Kafka's protocol guide, "Error Codes").
#[derive(Clone, Copy, Debug, PartialEq, Eq)]
pub enum Verdict {
    /// The batch is the next of its epoch.
    Next,
    /// The batch is in the log already, at this offset.
    Duplicate(i64),
    /// The producer has a newer epoch (INVALID_PRODUCER_EPOCH).
    OldEpoch,
    /// The batch is neither remembered nor the next of its epoch, or its sequences pass 2^31 - 1
    /// (OUT_OF_ORDER_SEQUENCE_NUMBER).
    OutOfOrder,
}
