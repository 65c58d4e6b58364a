//! How many data partitions a world has.
use kx_bounded::Bounded;
use kx_message::PartitionId;

/// How many data partitions a world has, 1 to 16.
pub type PartitionCount = Bounded<1, { PartitionId::DATA_COUNT }>;
