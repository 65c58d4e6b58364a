//! Input partitions, and the output partition of each.
ghost use Rattle.std.specs.Prelude.{◌≡◌, ◌≤◌, ◌<◌, ◌+◌, ℕ, OkIff, IsOkUnless};
ghost use Rattle.kx_message.specs.Ranges.{IsPartition, data_partitions};
ghost use Rattle.kx_processor.specs.declared.fault.InputsFault.{InputsFault};
ghost use Rattle.kx_system.specs.System.{most_inputs};

use crate::fault::InputsFault;
use kx_message::PartitionId;
use std::marker::Model;

/// The most input partitions, so that each has an output partition.
const MOST: u8 = 8;

/// How many input partitions a processor has, 1 to 8: those from 0 on. The images of the records of
/// input partition `q` go to partition `q` and this many more.
#[derive(Clone, Copy, Debug, PartialEq, Eq)]
pub struct Inputs(u8);

impl Model for Inputs {
    ghost Value = { ℕ };

    ghost view = { λ inputs. inputs.0 };

    ghost invariant = { λ inputs. (1 ≤ inputs.0) × (inputs.0 ≤ most_inputs) };

    ghost inverse = { λ n. record { 0 = n } };
}

// An input partition, 0 to 7.
#[derive(Clone, Copy, Debug, PartialEq, Eq)]
pub(crate) struct Input(u8);

impl Model for Input {
    ghost Value = { ℕ };

    ghost view = { λ input. input.0 };

    ghost invariant = { λ input. input.0 < most_inputs };

    ghost inverse = { λ n. record { 0 = n } };
}

// The data partition of a number.
fn data_partition(number: u8) -> PartitionId
    requires { number < data_partitions }
    ensures { result ≡ number }
{
    match PartitionId::try_from(u16::from(number)) {
        Ok(partition) => partition,
        Err(_) => unreachable!(),
    }
}

impl Inputs {
    /// How many there are, 1 to 8.
    pub fn get(self) -> u8
        ensures value { result ≡ self }
        ensures within { (1 ≤ self) × (self ≤ most_inputs) }
    {
        self.0
    }
}

/// Takes 1 to 8, and refuses any other number with [`InputsFault::Count`].
impl TryFrom<u8> for Inputs {
    type Error = InputsFault;

    ghost try_from_gives = { λ n r. OkIff r ((1 ≤ n) × (n ≤ most_inputs)) n
        × IsOkUnless r InputsFault.Count };

    fn try_from(number: u8) -> Result<Self, InputsFault> {
        match number {
            1..=MOST => Ok(Inputs(number)),
            _ => Err(InputsFault::Count),
        }
    }
}

impl Input {
    // The input partition of a number.
    pub(crate) fn of(number: u8) -> Input
        requires { number < most_inputs }
        ensures { result ≡ number }
    {
        Input(number)
    }

    // The partition that it is.
    pub(crate) fn partition(self) -> PartitionId
        ensures { result ≡ self }
    {
        data_partition(self.0)
    }

    // The partition to which the images of its records go.
    pub(crate) fn output(self, inputs: Inputs) -> PartitionId
        ensures { result ≡ self + inputs }
    {
        data_partition(self.0 + inputs.0)
    }
}
