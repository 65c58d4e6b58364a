//! What an entry of a log says of a producer.
ghost use Rattle.std.specs.Prelude.{◌≡◌};
ghost use Rattle.kx_producer.specs.Known.{epoch_in, id_in};

use kx_message::{Epoch, ProducerId};

/// A batch that a partition remembers of a producer, to know it when it comes again (KIP-98,
/// "Idempotent Producer Guarantees").
#[derive(Clone, Copy, Debug, PartialEq, Eq)]
pub struct RememberedBatch {
    /// The sequence of its first record, 0 to 2^31 - 1.
    pub first: i32,
    /// The sequence of its last record, 0 to 2^31 - 1.
    pub last: i32,
    /// The offset of its first record.
    pub offset: i64,
}

/// An entry of a partition's log, as far as it says something of a producer with an id.
#[derive(Clone, Copy, Debug, PartialEq, Eq)]
pub enum Noted {
    /// A batch of records.
    Data {
        /// The producer.
        id: ProducerId,
        /// The producer's epoch.
        epoch: Epoch,
        /// Its sequences and its place.
        batch: RememberedBatch,
    },
    /// The end of a transaction.
    Marker {
        /// The producer of the transaction.
        id: ProducerId,
        /// The transaction's epoch, raised by one.
        epoch: Epoch,
        /// The epoch of the coordinator that sent it.
        coordinator_epoch: i32,
    },
}

impl Noted {
    /// The producer.
    pub(crate) fn id(&self) -> ProducerId
        ensures { result ≡ id_in self.now }
    {
        match *self {
            Noted::Data { id, .. } | Noted::Marker { id, .. } => id,
        }
    }

    /// The epoch that the producer has by it.
    pub(crate) fn epoch(&self) -> Epoch
        ensures { result ≡ epoch_in self.now }
    {
        match *self {
            Noted::Data { epoch, .. } | Noted::Marker { epoch, .. } => epoch,
        }
    }
}
