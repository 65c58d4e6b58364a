//! What is kept of one producer.
ghost use Rattle.std.specs.Prelude.{◌≡◌, [], IfSome, IfOk, IsOk, is_some, true, find};
ghost use Rattle.circular_buffer.specs.Buffer.{buffer};
ghost use Rattle.kx_producer.specs.Known.{fresh, raised, with_batch, with_entry};
ghost use Rattle.kx_producer.specs.Known.{with_marker};
ghost use Rattle.kx_producer.specs.Verdicts.{has_sequences, in_turn, sequence_behind};
ghost use Rattle.kx_producer.specs.Verdicts.{verdict_behind, verdict_of};

use crate::noted::{Noted, RememberedBatch};
use crate::verdict::Verdict;
use circular_buffer::HeapCircularBuffer;
use kx_message::Epoch;
use std::alloc::{AllocError, Global};
use std::marker::Model;

// How many batches are remembered.
const REMEMBERED: usize = 5;

/// The batches that are remembered of one producer, the newest last.
pub(crate) type Remembered = HeapCircularBuffer<RememberedBatch>;

/// Room for the batches of one producer.
///
/// # Errors
///
/// Only if memory runs out.
pub(crate) fn room(alloc: Global) -> Result<Remembered, AllocError>
    ensures { IfOk result (λ room. room ≡ buffer [] 5) }
{
    HeapCircularBuffer::with_capacity(alloc, REMEMBERED)
}

// The verdict where the next batch has to begin with a sequence.
fn in_turn(expected: i64, first: i32, last: i64) -> Verdict
    ensures { result ≡ in_turn expected first last }
{
    if i64::from(first) == expected && last <= i64::from(i32::MAX) {
        Verdict::Next
    } else {
        Verdict::OutOfOrder
    }
}

/// The verdict on the first batch of an epoch.
pub(crate) fn check_first(first: i32, last: i64) -> Verdict
    ensures { result ≡ verdict_behind [] first last }
{
    in_turn(0, first, last)
}

/// A producer with an id.
#[derive(Drop)]
pub(crate) struct Producer {
    epoch: Epoch,
    remembered: Remembered,
    marked_by: Option<i32>,
}

impl Model for Producer {
    ghost use Rattle.std.specs.Prelude.{◌≡◌};
    ghost use Rattle.kx_producer.specs.Known.{Known};

    ghost Value = { Known };

    ghost view = { λ p. record {
      epoch = p.epoch;
      remembered = p.remembered.items;
      marked_by = p.marked_by;
    } };

    ghost invariant = { λ p. p.remembered.capacity ≡ 5 };
}

impl Producer {
    /// A producer that arrives with this epoch, in the room that was made for it, if any was.
    ///
    /// # Errors
    ///
    /// Only if memory runs out, if there was no room.
    pub(crate) fn fresh(
        alloc: Global,
        made: Option<Remembered>,
        epoch: Epoch,
    ) -> Result<Producer, AllocError>
        requires { IfSome made (λ room. room ≡ buffer [] 5) }
        ensures fresh { IfOk result (λ producer. producer ≡ fresh epoch) }
        ensures made { is_some made ≡ true → IsOk result }
    {
        let remembered = match made {
            Some(remembered) => remembered,
            None => room(alloc)?,
        };
        Ok(Producer {
            epoch,
            remembered,
            marked_by: None,
        })
    }

    /// Its epoch: the greatest of its batches and markers.
    pub(crate) fn epoch(&self) -> Epoch
        ensures { result ≡ self.now.epoch }
    {
        self.epoch
    }

    /// The epoch of the coordinator that sent its last marker.
    pub(crate) fn marked_by(&self) -> Option<i32>
        ensures { result ≡ self.now.marked_by }
    {
        self.marked_by
    }

    // A newer epoch has no batches yet.
    fn raise(&mut self, epoch: Epoch)
        ensures { self.new ≡ raised epoch self.old }
    {
        if self.epoch < epoch {
            self.epoch = epoch;
            self.remembered.clear();
        }
    }

    // A batch of this epoch was appended.
    fn note_batch(&mut self, epoch: Epoch, batch: RememberedBatch)
        ensures { self.new ≡ with_batch epoch batch self.old }
    {
        self.raise(epoch);
        if self.epoch == epoch {
            self.remembered.push_back(batch);
        }
    }

    // A marker of this epoch was appended.
    fn note_marker(&mut self, epoch: Epoch, coordinator_epoch: i32)
        ensures { self.new ≡ with_marker epoch coordinator_epoch self.old }
    {
        self.raise(epoch);
        self.marked_by = Some(coordinator_epoch);
    }

    /// An entry of its own was appended.
    pub(crate) fn note(&mut self, entry: Noted)
        ensures { self.new ≡ with_entry entry self.old }
    {
        match entry {
            Noted::Data { epoch, batch, .. } => self.note_batch(epoch, batch),
            Noted::Marker {
                epoch,
                coordinator_epoch,
                ..
            } => self.note_marker(epoch, coordinator_epoch),
        }
    }

    // The sequence with which the next batch of its epoch begins.
    fn next_sequence(&self) -> i64
        ensures { result ≡ sequence_behind self.now.remembered }
    {
        match self.remembered.back() {
            Some(batch) => i64::from(batch.last) + 1,
            None => 0,
        }
    }

    // The remembered batch with these sequences.
    fn batch_with(&self, first: i32, last: i64) -> Option<RememberedBatch>
        ensures { result ≡ find (has_sequences first last) self.now.remembered }
    {
        self.remembered
            .iter()
            .find(|batch| batch.first == first && i64::from(batch.last) == last)
            .copied()
    }

    /// The verdict on a batch of this epoch and these sequences.
    pub(crate) fn check(&self, epoch: Epoch, first: i32, last: i64) -> Verdict
        ensures { result ≡ verdict_of self.now epoch first last }
    {
        if epoch < self.epoch {
            return Verdict::OldEpoch;
        }
        if self.epoch < epoch {
            return check_first(first, last);
        }
        match self.batch_with(first, last) {
            Some(batch) => Verdict::Duplicate(batch.offset),
            None => in_turn(self.next_sequence(), first, last),
        }
    }
}
