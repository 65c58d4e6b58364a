//! A batch of a transaction, as its client sent it.
ghost use Rattle.std.specs.Prelude.{◌≡◌, IfOk};
ghost use Rattle.kx_batch.specs.Batch.{IsBatch, batch_at};
ghost use Rattle.kx_batch.specs.Producer.{with_producer};
ghost use Rattle.kx_gateway.specs.TxnBatch.{produce_of, sent_as, sent_batch, whole};

use crate::ids::held_of;
use kx_batch::{BatchView, set_producer};
use kx_message::{Bytes, Caller, Held, PartitionId, Produce, TxnId};
use std::alloc::{AllocError, Global};
use std::marker::Model;

/// A whole valid batch of a transaction, with the id, the epoch and the base sequence that its
/// client gave it. The grant of the transactional id says with which the core gets it.
#[derive(Drop)]
pub struct TxnBatch<'a> {
    txn: TxnId,
    partition: PartitionId,
    held: Held,
    first: i32,
    count: u32,
    text: &'a [u8],
}

impl<'a> Model for TxnBatch<'a> {
    ghost use Rattle.kx_batch.specs.Batch.{IsBatch};
    ghost use Rattle.kx_gateway.specs.TxnBatch.{SentBatch};

    ghost Value = { SentBatch };

    ghost view = { λ b. record {
      txn = b.txn;
      partition = b.partition;
      held = b.held;
      first = b.first;
      count = b.count;
      text = b.text.now;
    } };

    ghost invariant = { λ b. IsBatch b.text.now };
}

// The batch that these bytes are, if they are one whole valid batch.
fn whole(bytes: &[u8]) -> Option<BatchView<'_>>
    ensures { result ≡ whole (batch_at bytes.now) }
{
    let Ok((batch, rest)) = BatchView::read(bytes) else {
        return None;
    };
    if rest.is_empty() { Some(batch) } else { None }
}

// The text of a batch, with another id, epoch and base sequence.
fn moved(alloc: Global, text: &[u8], id: i64, epoch: i16, first: i32) -> Result<Vec<u8>, AllocError>
    requires { IsBatch text.now }
    ensures { IfOk result (λ moved. moved.items ≡ with_producer id epoch first text.now) }
{
    let mut moved = Vec::from_slice(alloc, text)?;
    set_producer(&mut moved, id, epoch, first);
    Ok(moved)
}

impl<'a> TxnBatch<'a> {
    // The batch, if it is one of a transaction.
    fn of_batch(txn: TxnId, partition: PartitionId, batch: &BatchView<'a>) -> Option<TxnBatch<'a>>
        ensures { result ≡ sent_as txn partition batch.now }
    {
        if !batch.is_transactional() {
            return None;
        }
        match held_of(batch.producer_id(), batch.producer_epoch()) {
            None => None,
            Some(held) => Some(TxnBatch {
                txn,
                partition,
                held,
                first: batch.base_sequence(),
                count: batch.records().len() as u32,
                text: batch.known_text(),
            }),
        }
    }

    /// The batch that these records are, if they are one whole valid batch of a transaction.
    pub(crate) fn of_records(
        txn: TxnId,
        partition: PartitionId,
        records: &'a [u8],
    ) -> Option<TxnBatch<'a>>
        ensures { result ≡ sent_batch txn partition (whole (batch_at records.now)) }
    {
        match whole(records) {
            None => None,
            Some(batch) => TxnBatch::of_batch(txn, partition, &batch),
        }
    }

    /// The transactional id of its producer.
    pub fn txn(&self) -> TxnId
        ensures { result ≡ self.now.txn }
    {
        self.txn
    }

    /// The partition that it was sent to.
    pub fn partition(&self) -> PartitionId
        ensures { result ≡ self.now.partition }
    {
        self.partition
    }

    /// The id and the epoch that its client gave it.
    pub fn held(&self) -> Held
        ensures { result ≡ self.now.held }
    {
        self.held
    }

    /// The base sequence that its client gave it.
    pub fn first(&self) -> i32
        ensures { result ≡ self.now.first }
    {
        self.first
    }

    /// How many records it has.
    pub fn count(&self) -> u32
        ensures { result ≡ self.now.count }
    {
        self.count
    }

    /// Its text, as it lies in the request.
    pub fn text(&self) -> &'a [u8]
        ensures { result.now ≡ self.now.text }
    {
        self.text
    }

    /// What the core is asked: to append it with this id and epoch, and the sequences from `first`
    /// on. Its checksum is that of the new text.
    ///
    /// # Errors
    ///
    /// Only if memory runs out.
    pub fn produce(
        &self,
        alloc: Global,
        caller: Caller,
        held: Held,
        first: i32,
    ) -> Result<Produce, AllocError>
        ensures { IfOk result (λ produce. produce ≡ produce_of self.now caller held first) }
    {
        let text = moved(alloc, self.text, held.id.get(), held.epoch.get(), first)?;
        Ok(Produce {
            caller,
            txn: Some(self.txn),
            partition: self.partition,
            batch: Bytes::from_vec(text),
        })
    }
}
