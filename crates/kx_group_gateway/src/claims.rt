//! What requests commit: offsets of partitions, topic by topic.
ghost use Rattle.std.specs.Prelude.{◌≡◌, IfOk, map};
ghost use Rattle.kx_kafka_types.specs.Rows.{elements};
ghost use Rattle.kx_kafka.specs.Layouts.{offset_commit_partition, offset_commit_topic};
ghost use Rattle.kx_kafka.specs.Layouts.{txn_offset_commit_partition, txn_offset_commit_topic};
ghost use Rattle.kx_group_gateway.specs.Claims.{claim, claimed, txn_claim, txn_claimed};

use kx_kafka::{
    Array, OffsetCommitPartition, OffsetCommitTopic, TxnOffsetCommitPartition, TxnOffsetCommitTopic,
};
use std::alloc::{AllocError, Global};
use std::marker::Model;

/// A partition of a topic, by its number there, and the offset that is committed for it.
#[derive(Clone, Copy)]
pub struct Claim {
    /// The number of the partition.
    pub index: i32,
    /// The offset.
    pub offset: i64,
}

/// A topic, and the offsets that are committed for its partitions, in the request's order.
#[derive(Drop)]
pub struct ClaimedTopic<'a> {
    name: &'a [u8],
    claims: Vec<Claim>,
}

impl<'a> Model for ClaimedTopic<'a> {
    ghost use Rattle.kx_group_gateway.specs.Claims.{Claimed};

    ghost Value = { Claimed };

    ghost view = { λ t. record { name = t.name.now; claims = t.claims.items } };
}

// The offsets of a topic's partitions.
fn claims_in(
    alloc: Global,
    partitions: Array<OffsetCommitPartition<'_>>,
) -> Result<Vec<Claim>, AllocError>
    ensures { IfOk result (λ claims. claims.items
        ≡ map claim (elements offset_commit_partition partitions.entry)) }
{
    let mut claims = Vec::with_capacity(alloc, partitions.len())?;
    for partition in partitions {
        claims.push(Claim {
            index: partition.partition_index,
            offset: partition.committed_offset,
        })?;
    }
    Ok(claims)
}

// The offsets of a topic's partitions, in a transaction.
fn txn_claims_in(
    alloc: Global,
    partitions: Array<TxnOffsetCommitPartition<'_>>,
) -> Result<Vec<Claim>, AllocError>
    ensures { IfOk result (λ claims. claims.items
        ≡ map txn_claim (elements txn_offset_commit_partition partitions.entry)) }
{
    let mut claims = Vec::with_capacity(alloc, partitions.len())?;
    for partition in partitions {
        claims.push(Claim {
            index: partition.partition_index,
            offset: partition.committed_offset,
        })?;
    }
    Ok(claims)
}

/// What the topics of an OffsetCommit commit. A client's metadata of an offset isn't kept.
///
/// # Errors
///
/// Only if memory runs out.
pub fn claims_of<'a>(
    alloc: Global,
    topics: Array<OffsetCommitTopic<'a>>,
) -> Result<Vec<ClaimedTopic<'a>>, AllocError>
    ensures { IfOk result (λ list. list.items
        ≡ map claimed (elements offset_commit_topic topics.entry)) }
{
    let mut list = Vec::with_capacity(alloc, topics.len())?;
    for topic in topics {
        list.push(ClaimedTopic {
            name: topic.name,
            claims: claims_in(alloc, topic.partitions)?,
        })?;
    }
    Ok(list)
}

/// What the topics of a TxnOffsetCommit commit. A client's metadata of an offset isn't kept.
///
/// # Errors
///
/// Only if memory runs out.
pub fn txn_claims_of<'a>(
    alloc: Global,
    topics: Array<TxnOffsetCommitTopic<'a>>,
) -> Result<Vec<ClaimedTopic<'a>>, AllocError>
    ensures { IfOk result (λ list. list.items
        ≡ map txn_claimed (elements txn_offset_commit_topic topics.entry)) }
{
    let mut list = Vec::with_capacity(alloc, topics.len())?;
    for topic in topics {
        list.push(ClaimedTopic {
            name: topic.name,
            claims: txn_claims_in(alloc, topic.partitions)?,
        })?;
    }
    Ok(list)
}

impl<'a> ClaimedTopic<'a> {
    /// The name of the topic.
    pub fn name(&self) -> &'a [u8]
        ensures { result.now ≡ self.now.name }
    {
        self.name
    }

    /// The offsets of its partitions.
    pub fn claims(&self) -> &[Claim]
        ensures { result.now ≡ self.now.claims }
    {
        &self.claims
    }
}
