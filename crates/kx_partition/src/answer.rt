//! What a partition answers.
ghost use Rattle.std.specs.Prelude.{◌≡◌};
ghost use Rattle.kx_partition.specs.Answer.{code_of};

use kx_message::ErrorCode;

/// What a partition answered to a batch.
#[derive(Clone, Copy, Debug, PartialEq, Eq)]
pub enum Produced {
    /// The batch is appended; the offset of its first record, 0 to 2^63 - 1.
    Appended(i64),
    /// The batch is one of the last five batches of its producer's epoch, and is in the log
    /// already; the offset of its first record there. Nothing is changed.
    Duplicate(i64),
    /// The batch would open a transaction of which the coordinator doesn't know yet that it has
    /// come to this partition (KIP-890). Nothing is changed.
    Unverified,
    /// The batch is refused, and nothing is appended.
    Refused(ErrorCode),
}

impl Produced {
    /// The code that the client is answered. What isn't verified is outside its transaction if
    /// the coordinator can't be asked.
    pub fn code(self) -> ErrorCode
        ensures { result ≡ code_of self }
    {
        match self {
            Produced::Appended(_) | Produced::Duplicate(_) => ErrorCode::NoError,
            Produced::Unverified => ErrorCode::InvalidTxnState,
            Produced::Refused(code) => code,
        }
    }
}
