//! The table of topics: names for the data partitions of the core.
ghost use Rattle.std.specs.Prelude.{List, ◌≡◌, ◌≤◌, ◌⊎◌, ◌+◌, ◌-◌, [], ◌∷◌, ◌++◌, length};
ghost use Rattle.std.specs.Prelude.{None, Some, OnErr, OnOk, MatchResult};
ghost use Rattle.kx_message.specs.Ranges.{data_partitions};
ghost use Rattle.kx_gateway.specs.Topics.{Entry, IsTable, add_fault, count_of, partition_at};
ghost use Rattle.kx_gateway.specs.Topics.{partitions_of, place_at};
ghost use Rattle.kx_gateway.specs.declared.topics.TopicFault.{TopicFault};

use crate::names::is_topic_name;
use kx_message::PartitionId;
use std::alloc::{AllocError, Global};
use std::marker::Model;
use thiserror::Error;

/// Why a topic isn't made.
#[derive(Clone, Copy, Debug, PartialEq, Eq, Error)]
pub enum TopicFault {
    /// Kafka doesn't allow the name.
    #[error("Kafka doesn't allow this name for a topic")]
    Name,
    /// The table has the name.
    #[error("the topic is there already")]
    Twice,
    /// It would have no partitions, or more than are free.
    #[error("no partitions, or more than are free")]
    Count,
    /// Memory ran out.
    #[error("out of memory")]
    Memory,
}

/// Out of memory is [`TopicFault::Memory`].
impl From<AllocError> for TopicFault {
    ghost from_gives = { λ refused fault. fault ≡ TopicFault.Memory };

    fn from(_: AllocError) -> Self {
        TopicFault::Memory
    }
}

/// A topic: its name, and how many partitions it has, 1 to 16.
#[derive(Drop)]
pub struct Topic {
    name: Vec<u8>,
    count: u16,
}

impl Model for Topic {
    ghost use Rattle.kx_gateway.specs.Topics.{Entry};

    ghost Value = { Entry };

    ghost view = { λ t. record { name = t.name.items; count = t.count } };
}

impl Topic {
    /// Its name.
    pub fn name(&self) -> &[u8]
        ensures { result.now ≡ self.now.name }
    {
        &self.name
    }

    /// How many partitions it has.
    pub fn count(&self) -> u16
        ensures { result ≡ self.now.count }
    {
        self.count
    }
}

/// The topics, in the order in which they were made. The partitions of each follow, in the core,
/// those of the topics before it, from partition 0 on; 16 in all are the most. No two topics have
/// the same name.
#[derive(Drop)]
pub struct Topics {
    topics: Vec<Topic>,
}

impl Model for Topics {
    ghost use Rattle.std.specs.Prelude.{List};
    ghost use Rattle.kx_gateway.specs.Topics.{Entry, IsTable};

    ghost Value = { List Entry };

    ghost view = { λ t. t.topics.items };

    ghost invariant = { λ t. IsTable t.topics.items };
}

impl Topics {
    /// A table without topics. Takes no memory.
    pub fn new(alloc: Global) -> Self
        ensures { result ≡ [] }
    {
        Topics {
            topics: Vec::new(alloc),
        }
    }

    // How many partitions the topics have.
    fn taken(&self) -> u16
        ensures counted { result ≡ partitions_of self.now }
        ensures within { result ≤ data_partitions }
    {
        let mut taken = 0;
        for topic in &self.topics {
            taken += topic.count;
        }
        taken
    }

    /// How many partitions are free: 16 less those that topics have.
    pub fn free(&self) -> u16
        ensures { result ≡ data_partitions - partitions_of self.now }
    {
        PartitionId::DATA_COUNT - self.taken()
    }

    /// How many partitions the topic of this name has, or `None` if there is none.
    pub fn count_of(&self, name: &[u8]) -> Option<u16>
        ensures { result ≡ count_of self.now name.now }
    {
        for topic in &self.topics {
            if topic.name() == name {
                return Some(topic.count);
            }
        }
        None
    }

    /// The core's partition of a topic's partition, by the topic's name and its number there, from
    /// 0; `None` if the topic or the partition isn't there.
    pub fn partition(&self, name: &[u8], index: i32) -> Option<PartitionId>
        ensures { result ≡ partition_at self.now name.now index }
    {
        if index < 0 {
            return None;
        }
        let mut before = 0;
        for topic in &self.topics {
            if topic.name() == name {
                return place(before, topic.count, index as u32);
            }
            before += topic.count;
        }
        None
    }

    /// The topics, in the table's order.
    pub fn topics(&self) -> &[Topic]
        ensures { result.now ≡ self.now }
    {
        &self.topics
    }

    // How many topics there are, no more than partitions.
    pub(crate) fn count(&self) -> usize
        ensures counted { result ≡ length self.now }
        ensures within { result ≤ data_partitions }
        ensures table { IsTable self.now }
    {
        self.topics.len()
    }

    // Why a topic can't be made, but for memory.
    fn fault_of(&self, name: &[u8], count: u16) -> Option<TopicFault>
        ensures { result ≡ add_fault self.now name.now count }
    {
        if !is_topic_name(name) {
            Some(TopicFault::Name)
        } else if self.count_of(name).is_some() {
            Some(TopicFault::Twice)
        } else if count == 0 || self.free() < count {
            Some(TopicFault::Count)
        } else {
            None
        }
    }

    /// Makes a topic, the last of the table.
    ///
    /// # Errors
    ///
    /// The first that fits: [`TopicFault::Name`], [`TopicFault::Twice`], [`TopicFault::Count`] for
    /// no partitions or more than are free, [`TopicFault::Memory`]. The table is then as before.
    pub fn add(&mut self, name: &[u8], count: u16) -> Result<(), TopicFault>
        ensures added { OnOk result
            (self.new ≡ self.old ++ record { name = name.now; count = count } ∷ []) }
        ensures kept { OnErr result (self.new ≡ self.old) }
        ensures fault { MatchResult result
            (λ done. add_fault self.old name.now count ≡ None)
            (λ fault. (add_fault self.old name.now count ≡ Some fault)
            ⊎ ((add_fault self.old name.now count ≡ None) × (fault ≡ TopicFault.Memory))) }
    {
        if let Some(fault) = self.fault_of(name, count) {
            return Err(fault);
        }
        push_topic(&mut self.topics, name, count)?;
        Ok(())
    }

    /// Takes the last topic out again, as if it can't be kept. Does nothing if there is none.
    pub fn remove_last(&mut self)
        ensures none { self.old ≡ [] → self.new ≡ [] }
        ensures last { (before : List Entry) (last : Entry) → self.old ≡ before ++ last ∷ []
            → self.new ≡ before }
    {
        let _ = self.topics.pop();
    }
}

// Appends a topic. Where memory runs out the list is as before.
fn push_topic(topics: &mut Vec<Topic>, name: &[u8], count: u16) -> Result<(), AllocError>
    ensures pushed { OnOk result
        (topics.new.items ≡ topics.old.items ++ record { name = name.now; count = count } ∷ []) }
    ensures kept { OnErr result (topics.new.items ≡ topics.old.items) }
{
    let name = Vec::from_slice(*topics.allocator(), name)?;
    topics.push(Topic { name, count })?;
    Ok(())
}

// The core's partition of a topic whose partitions follow this many others.
fn place(before: u16, count: u16, index: u32) -> Option<PartitionId>
    requires { before + count ≤ data_partitions }
    ensures { result ≡ place_at before count index }
{
    if index >= u32::from(count) {
        return None;
    }
    PartitionId::try_from(before + index as u16).ok()
}
