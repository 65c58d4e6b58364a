//! The partitions that records lie in.
ghost use Rattle.std.specs.Prelude.{◌≡◌, ◌↔◌, ℕ, IsTrue, IsFalse, Some, OkIff, IsOkUnless};
ghost use Rattle.kx_message.specs.Ranges.{IsPartition, IsDataPartition, offsets_partition};
ghost use Rattle.kx_message.specs.Ranges.{partition_text};
ghost use Rattle.kx_message.specs.declared.fault.ValueFault.{ValueFault};

use crate::fault::ValueFault;
use std::fmt;
use std::marker::Model;

/// A partition: 0 to 15, which keep the records of producers, or 65535, which keeps the offsets of
/// consumer groups.
#[derive(Clone, Copy, Debug, PartialEq, Eq, PartialOrd, Ord, Hash)]
pub struct PartitionId(u16);

impl Model for PartitionId {
    ghost Value = { ℕ };

    ghost view = { λ partition. partition.0 };

    ghost invariant = { λ partition. IsPartition partition.0 };

    ghost inverse = { λ n. record { 0 = n } };
}

impl PartitionId {
    /// How many data partitions there can be, which keep the records of producers: 0 to 15.
    pub const DATA_COUNT: u16 = 16;

    /// The partition that keeps the offsets of consumer groups.
    pub const OFFSETS: PartitionId = PartitionId(65_535);

    /// The number of the partition.
    pub fn get(self) -> u16
        ensures value { result ≡ self }
        ensures within { IsPartition self }
    {
        self.0
    }

    /// Whether it keeps the records of producers: all but `PartitionId::OFFSETS` do.
    pub fn is_data(self) -> bool
        ensures data { IsTrue result ↔ IsDataPartition self }
        ensures offsets { IsFalse result ↔ (self ≡ offsets_partition) }
    {
        self != PartitionId::OFFSETS
    }
}

/// Takes 0 to 15 and 65535, and refuses any other number with `ValueFault::Partition`.
impl TryFrom<u16> for PartitionId {
    type Error = ValueFault;

    ghost try_from_gives = { λ n r. OkIff r (IsPartition n) n
        × IsOkUnless r ValueFault.Partition };

    fn try_from(number: u16) -> Result<Self, ValueFault> {
        if number < PartitionId::DATA_COUNT || number == PartitionId::OFFSETS.0 {
            Ok(PartitionId(number))
        } else {
            Err(ValueFault::Partition)
        }
    }
}

/// In decimal, and `o` for the offsets partition.
impl fmt::Display for PartitionId {
    ghost output = { λ partition. Some (partition_text partition) };

    fn fmt<W: fmt::Write>(&self, f: &mut fmt::Formatter<W>) -> fmt::Result {
        match *self {
            PartitionId::OFFSETS => f.write_str("o"),
            PartitionId(number) => write!(f, "{number}"),
        }
    }
}
