//! The words of steps that are values of the wire.
use kx_cases::{StepFault, known, value};
use kx_message::{Epoch, PartitionId, ProducerId};

/// The producer id of this number.
pub fn id_of(word: &str) -> Result<ProducerId, StepFault> {
    known(ProducerId::try_from(value::<i64>(word)?))
}

/// The epoch of this number.
pub fn epoch_of(word: &str) -> Result<Epoch, StepFault> {
    known(Epoch::try_from(value::<i16>(word)?))
}

/// The partition of this number.
pub fn partition_of(word: &str) -> Result<PartitionId, StepFault> {
    known(PartitionId::try_from(value::<u16>(word)?))
}
