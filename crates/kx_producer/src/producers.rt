//! What a partition keeps of all producers with an id.
ghost use Rattle.std.specs.Prelude.{◌≡◌, ◌<◌, IfOk, OnOk, OnErr, IsErr, None, true, false, length};
ghost use Rattle.std.specs.Option.{option_copied, option_map};
ghost use Rattle.std.specs.FinMap as map;
ghost use Rattle.kx_producer.specs.Known.{id_in, known_of, marked_in, noted, noted_all};
ghost use Rattle.kx_producer.specs.Verdicts.{verdict};
ghost use Rattle.kx_producer.specs.declared.noted.Noted.TheVariants.{Data, Marker};

use crate::noted::{Noted, RememberedBatch};
use crate::producer::{Producer, Remembered, check_first, room};
use crate::verdict::Verdict;
use kx_message::{Epoch, ProducerId};
use std::alloc::{AllocError, Global};
use std::collections::HashMap;
use std::marker::Model;

/// What a partition keeps of the producers with an id, each found by its id in constant time
/// (KIP-98, "Idempotent Producer Guarantees"): its epoch, the last five batches of that epoch, and
/// the epoch of the coordinator that sent its last marker.
#[derive(Drop)]
pub struct Producers {
    alloc: Global,
    known: HashMap<ProducerId, Producer>,
    // for the next id that comes
    room: Option<Remembered>,
}

impl Model for Producers {
    ghost use Rattle.std.specs.Prelude.{◌≡◌, ◌&&◌, [], nat_lt, is_some, IfSome};
    ghost use Rattle.std.specs.HashMap.{spare};
    ghost use Rattle.std.specs.FinMap as map;
    ghost use Rattle.circular_buffer.specs.Buffer.{buffer};
    ghost use Rattle.kx_producer.specs.Known.{Kept, kept_code};

    ghost Value = { Kept };

    ghost coded = { kept_code };

    ghost view = { λ p. record {
      table = map.from_entries p.known.entries;
      has_room = nat_lt 0 (spare p.known) && is_some p.room;
    } };

    ghost invariant = { λ p. IfSome p.room (λ r. r ≡ buffer [] 5) };
}

impl Producers {
    /// A table that knows no producer. It takes memory from `alloc` as ids come.
    pub fn new(alloc: Global) -> Producers
        ensures { result.table ≡ map.empty }
    {
        Producers {
            alloc,
            known: HashMap::new(alloc),
            room: None,
        }
    }

    /// What a log's entries say, noted in turn. It takes memory from `alloc`, now and as more ids
    /// come.
    ///
    /// # Errors
    ///
    /// Only if memory runs out, which no log without entries meets.
    // A whole list of entries in one call, for who has a log's entries at hand; a partition judges
    // each batch before it notes it, and so doesn't use it.
    pub fn rebuild(alloc: Global, entries: &[Noted]) -> Result<Producers, AllocError>
        ensures table { IfOk result (λ producers. producers.table ≡ noted_all entries.now) }
        ensures wanted { IsErr result → 0 < length entries.now }
    {
        let mut producers = Producers::new(alloc);
        for entry in entries {
            producers.note(*entry)?;
        }
        Ok(producers)
    }

    // Notes an entry of a log.
    fn note(&mut self, entry: Noted) -> Result<(), AllocError>
        ensures ok { OnOk result (self.new.table ≡ noted entry self.old.table) }
        ensures err { OnErr result (self.new.table ≡ self.old.table) }
        ensures wanted { IsErr result →
            (known_of self.old.table (id_in entry) ≡ None) × (self.old.has_room ≡ false) }
    {
        let id = entry.id();
        if let Some(producer) = self.known.get_mut(&id) {
            producer.note(entry);
            return Ok(());
        }
        let mut producer = Producer::fresh(self.alloc, self.room.take(), entry.epoch())?;
        producer.note(entry);
        self.known.insert(id, producer)?;
        Ok(())
    }

    /// Makes room for this id, if it isn't known, so that its next note asks for no memory. What is
    /// known stays.
    ///
    /// # Errors
    ///
    /// Only if memory runs out, if the id isn't known and there was no room.
    pub fn reserve(&mut self, id: ProducerId) -> Result<(), AllocError>
        ensures table { self.new.table ≡ self.old.table }
        ensures room { IfOk result (λ done.
            known_of self.new.table id ≡ None → self.new.has_room ≡ true) }
        ensures err { IsErr result →
            (known_of self.old.table id ≡ None) × (self.old.has_room ≡ false) }
    {
        if self.known.contains_key(&id) {
            return Ok(());
        }
        self.known.reserve(1)?;
        if self.room.is_none() {
            self.room = Some(room(self.alloc)?);
        }
        Ok(())
    }

    /// Notes a batch that was appended: its producer, the producer's epoch, its sequences and its
    /// offset.
    ///
    /// # Errors
    ///
    /// Only if memory runs out, if the id isn't known and there was no room. What is known
    /// stays.
    pub fn note_data(
        &mut self,
        id: ProducerId,
        epoch: Epoch,
        batch: RememberedBatch,
    ) -> Result<(), AllocError>
        ensures ok { OnOk result (self.new.table ≡ noted (Data id epoch batch) self.old.table) }
        ensures err { OnErr result (self.new.table ≡ self.old.table) }
        ensures wanted { IsErr result →
            (known_of self.old.table id ≡ None) × (self.old.has_room ≡ false) }
    {
        self.note(Noted::Data { id, epoch, batch })
    }

    /// Notes a marker that was appended: the producer of its transaction, its epoch (the
    /// transaction's, raised by one), and the epoch of the coordinator that sent it.
    ///
    /// # Errors
    ///
    /// Only if memory runs out, if the id isn't known and there was no room. What is known
    /// stays.
    pub fn note_marker(
        &mut self,
        id: ProducerId,
        epoch: Epoch,
        coordinator_epoch: i32,
    ) -> Result<(), AllocError>
        ensures ok { OnOk result
            (self.new.table ≡ noted (Marker id epoch coordinator_epoch) self.old.table) }
        ensures err { OnErr result (self.new.table ≡ self.old.table) }
        ensures wanted { IsErr result →
            (known_of self.old.table id ≡ None) × (self.old.has_room ≡ false) }
    {
        self.note(Noted::Marker {
            id,
            epoch,
            coordinator_epoch,
        })
    }

    // What is kept of a producer.
    fn producer(&self, id: ProducerId) -> Option<&Producer>
        ensures { option_copied result ≡ known_of self.now.table id }
    {
        self.known.get(&id)
    }

    /// The verdict on a batch that comes, by its producer and the producer's epoch, the sequence of
    /// its first record, and that of its last, which may pass 2^31 - 1 and is then refused. No
    /// memory is asked for.
    pub fn check(&self, id: ProducerId, epoch: Epoch, first: i32, last: i64) -> Verdict
        ensures { result ≡ verdict (known_of self.now.table id) epoch first last }
    {
        match self.producer(id) {
            Some(producer) => producer.check(epoch, first, last),
            None => check_first(first, last),
        }
    }

    /// The epoch of a producer: the greatest of its batches and markers, or `None` if none came.
    /// Takes no memory.
    pub fn epoch(&self, id: ProducerId) -> Option<Epoch>
        ensures { result ≡ option_map (λ known. known.epoch) (known_of self.now.table id) }
    {
        let producer = self.producer(id)?;
        Some(producer.epoch())
    }

    /// The epoch of the coordinator that sent the last marker of a producer, or `None` if none
    /// came. No memory is asked for.
    pub fn marked_by(&self, id: ProducerId) -> Option<i32>
        ensures { result ≡ marked_in (known_of self.now.table id) }
    {
        let producer = self.producer(id)?;
        producer.marked_by()
    }
}
