//! The table of topics, which threads share and which outlives the server.
ghost use Rattle.std.specs.Prelude.{◌≡◌, ◌<◌, ◌-◌, ◌++◌, ◌∷◌, ◌↔◌, [], OnErr, OnOk, true};

use crate::fault::{GatewayFault, GatewayFile};
use crate::kept::Lines;
use kx_gateway::{Topic, TopicFault, Topics, TopicsFault, read_topics, topic_line};
use std::alloc::{AllocError, Global};
use std::sync::{Mutex, MutexGuard, Wait};

/// The topics, and the lines that keep them.
#[derive(Drop)]
pub(crate) struct Kept {
    pub(crate) topics: Topics,
    lines: Lines,
    // how many topics may still be made when a client first asks for them
    left: u16,
}

/// Why a topic isn't made.
#[derive(Clone, Copy, Debug, PartialEq, Eq)]
pub(crate) enum MakeFault {
    /// The table refuses it.
    Refused(TopicFault),
    /// It can't be kept.
    Device,
}

impl Kept {
    /// Makes a topic. It is on the device when this returns.
    ///
    /// # Errors
    ///
    /// Why the table refuses it, or that it can't be kept; the table is then as before.
    pub(crate) fn make(&mut self, alloc: Global, name: &[u8], count: u16) -> Result<(), MakeFault>
        ensures made { OnOk result (self.new.topics
            ≡ self.old.topics ++ record { name = name.now; count = count } ∷ []) }
        ensures kept { OnErr result (self.new.topics ≡ self.old.topics) }
        ensures left { self.new.left ≡ self.old.left }
    {
        let Ok(line) = topic_line(alloc, name, count) else {
            return Err(MakeFault::Refused(TopicFault::Memory));
        };
        match self.topics.add(name, count) {
            Ok(()) => {}
            Err(fault) => return Err(MakeFault::Refused(fault)),
        }
        if self.lines.add(line.as_slice()).is_err() {
            self.topics.remove_last();
            return Err(MakeFault::Device);
        }
        Ok(())
    }

    /// Whether a topic may be made because a client asks for it.
    pub(crate) fn may_make(&self) -> bool
        ensures { result ≡ true ↔ (0 < self.now.left) }
    {
        self.left > 0
    }

    /// Makes a topic with one partition, because a client asks for it. It is on the device when this
    /// returns.
    ///
    /// # Errors
    ///
    /// As [`make`](Kept::make), and then as many may be made as before.
    pub(crate) fn make_asked(&mut self, alloc: Global, name: &[u8]) -> Result<(), MakeFault>
        ensures made { OnOk result (self.new.topics
            ≡ self.old.topics ++ record { name = name.now; count = 1 } ∷ []) }
        ensures left { OnOk result (self.new.left ≡ self.old.left - 1) }
        ensures kept { OnErr result
            ((self.new.topics ≡ self.old.topics) × (self.new.left ≡ self.old.left)) }
    {
        self.make(alloc, name, 1)?;
        self.left = self.left.saturating_sub(1);
        Ok(())
    }

    // The topic of this number that is asked for at the start: it is there, or is made.
    fn begin_with(
        &mut self,
        alloc: Global,
        number: usize,
        topic: &Topic,
    ) -> Result<(), GatewayFault> {
        match self.topics.count_of(topic.name()) {
            Some(count) if count == topic.count() => return Ok(()),
            Some(count) => {
                return Err(GatewayFault::Differs {
                    topic: number,
                    count,
                });
            }
            None => {}
        }
        match self.make(alloc, topic.name(), topic.count()) {
            Ok(()) => Ok(()),
            Err(MakeFault::Refused(TopicFault::Memory)) => Err(AllocError.into()),
            Err(MakeFault::Refused(_)) => Err(GatewayFault::Full {
                topic: number,
                free: self.topics.free(),
            }),
            Err(MakeFault::Device) => Err(GatewayFault::Device {
                file: GatewayFile::Topics,
            }),
        }
    }
}

/// The table of topics.
#[derive(Drop)]
pub(crate) struct Table {
    kept: Mutex<Kept>,
}

impl Table {
    /// The table that these lines keep, with the topics that are asked for. Clients may have this
    /// many more made.
    pub(crate) fn open(
        alloc: Global,
        mut lines: Lines,
        asked: &Topics,
        left: u16,
    ) -> Result<Table, GatewayFault> {
        let text = lines.load(alloc)?;
        let (topics, len) = match read_topics(alloc, text.as_slice()) {
            Ok(read) => read,
            Err(TopicsFault::Memory) => return Err(AllocError.into()),
            Err(TopicsFault::Damaged { line }) => {
                let file = GatewayFile::Topics;
                return Err(GatewayFault::Damaged { file, line });
            }
        };
        lines.cut(len)?;
        let mut kept = Kept {
            topics,
            lines,
            left,
        };
        for (place, topic) in asked.topics().iter().enumerate() {
            kept.begin_with(alloc, place.saturating_add(1), topic)?;
        }
        Ok(Table {
            kept: Mutex::new(kept),
        })
    }

    /// The table, for this thread alone.
    pub(crate) fn lock<R: Wait>(&self, rt: &R) -> MutexGuard<'_, Kept> {
        self.kept.lock(rt)
    }
}
