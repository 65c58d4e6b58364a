//! What becomes of a producer's requests.

use kx_message::{EndTxn, ErrorCode, Held, Outcome};

/// What becomes of a request for an id.
#[derive(Clone, Copy, Debug, PartialEq, Eq)]
pub enum InitVerdict {
    /// The core is asked for a new grant.
    Ask,
    /// Another producer was granted the transactional id since.
    Fenced,
}

/// What an answer of the core to a request for an id grants.
#[derive(Clone, Copy, Debug, PartialEq, Eq)]
pub enum Granting {
    /// This id and epoch, from now on.
    Granted(Held),
    /// The core answered the id and epoch that the client named itself, as it may after a restart
    /// without files, so nothing is granted. Asked once more, it answers another pair.
    AskAgain,
    /// The client is granted no id, and its response has this code.
    Refused(ErrorCode),
}

/// What becomes of a batch, or of offsets that are to be committed.
#[derive(Clone, Copy, Debug, PartialEq, Eq)]
pub enum BatchVerdict {
    /// The core is asked to append it, or them, with this id and epoch and this base sequence.
    Send {
        /// The core's id and epoch for the transaction.
        held: Held,
        /// The sequence of its first record at the core, 0 to 2^31 - 1.
        first: i32,
    },
    /// It is refused with this code, and the core isn't asked.
    Refused(ErrorCode),
}

/// What becomes of a request to end the transaction.
#[derive(Clone, Copy, Debug, PartialEq, Eq)]
pub enum EndVerdict {
    /// The core is asked to end it, with this id and epoch and this outcome.
    Ask {
        /// The core's id and epoch for the transaction.
        held: Held,
        /// How it ends.
        outcome: Outcome,
    },
    /// It is answered with this code, and the core isn't asked.
    Answer(ErrorCode),
    /// Another producer was granted the transactional id since.
    Fenced,
}

/// What is done first with a request to end a transaction.
#[derive(Clone, Copy, PartialEq, Eq)]
pub enum EndStep {
    /// The core is asked this.
    Ask(EndTxn),
    /// It is answered with this code, and the core isn't asked.
    Answer(ErrorCode),
}
