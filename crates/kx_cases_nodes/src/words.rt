//! The values that the words of a step write.
use kx_cases::{StepFault, known, value};
use kx_message::{Caller, ClientId, Epoch, ErrorCode, Held, PartitionId, ProducerId, Raised};

/// A client's number.
pub fn client(word: &str) -> Result<ClientId, StepFault> {
    Ok(ClientId::from(value::<u32>(word)?))
}

/// A client, by its number; its requests have the correlation 0.
pub fn caller(word: &str) -> Result<Caller, StepFault> {
    Ok(Caller {
        client: client(word)?,
        correlation: 0,
    })
}

/// A producer's id.
pub fn producer(word: &str) -> Result<ProducerId, StepFault> {
    known(ProducerId::try_from(value::<i64>(word)?))
}

/// A producer's id and epoch.
pub fn held(id: &str, epoch: &str) -> Result<Held, StepFault> {
    Ok(Held {
        id: producer(id)?,
        epoch: known(Epoch::try_from(value::<i16>(epoch)?))?,
    })
}

/// The id and the raised epoch that a marker carries.
pub fn raised(id: &str, epoch: &str) -> Result<Raised, StepFault> {
    known(Raised::try_from(held(id, epoch)?))
}

/// A partition's number.
pub fn partition(word: &str) -> Result<PartitionId, StepFault> {
    known(PartitionId::try_from(value::<u16>(word)?))
}

/// An error code, by its number.
pub fn code(word: &str) -> Result<ErrorCode, StepFault> {
    known(ErrorCode::try_from(value::<i16>(word)?))
}
