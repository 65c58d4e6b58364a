//! Batches of no producer that are put.
ghost use Rattle.std.specs.Prelude.{◌≡◌, ◌∷◌, ℕ, All, IfOk, IsErr, OnErr, is_some, true};
ghost use Rattle.kx_batch.specs.Batch.{SpellsBatch};
ghost use Rattle.kx_batch.specs.Build.{within_limit};
ghost use Rattle.kx_broker.specs.Serving.{IsServed, Puts, plain_batch};
ghost use Rattle.kx_model.specs.Client.{value_records};
ghost use Rattle.kx_model.specs.PartitionNode.{Partition, puts};
ghost use Rattle.kx_model.specs.Produce.{Next};
ghost use Rattle.kx_model.specs.Step.{plain_text};
ghost use Rattle.kx_partition.specs.Answer.{verdict_at};
ghost use Rattle.kx_varint.specs.Text.{IsBytes};

use crate::machine::PartitionMachine;
use crate::produce::bytes_fit;
use kx_batch::{BatchBuilder, BuildFault};
use kx_client::Values;
use kx_log::Store;
use kx_message::ErrorCode;
use kx_partition::Produced;
use std::alloc::{AllocError, Global};

// Values are bytes, as their types see to.
fn values_fit(values: &Values)
    ensures { All IsBytes (values.now.first ∷ values.now.more) }
{
    bytes_fit(values.first.as_slice());
    for value in values.more.as_slice() {
        bytes_fit(value.as_slice());
    }
}

// The text of the plain batch of some values, which is within the limit.
fn plain_batch(alloc: Global, values: &Values) -> Result<Vec<u8>, AllocError>
    requires { is_some (within_limit (value_records (values.now.first ∷ values.now.more))) ≡ true }
    ensures { IfOk result (λ text.
        (text.items ≡ plain_text (values.now.first ∷ values.now.more))
        × SpellsBatch (plain_batch (values.now.first ∷ values.now.more)) text.items) }
{
    let mut builder = BatchBuilder::new(alloc, 0, -1, -1, -1);
    builder.push(None, Some(values.first.as_slice()), &[])?;
    for value in values.more.as_slice() {
        builder.push(None, Some(value.as_slice()), &[])?;
    }
    match builder.into_text() {
        Ok(text) => Ok(text),
        Err(BuildFault::Memory) => Err(AllocError),
        Err(BuildFault::Empty) => unreachable!(),
        Err(BuildFault::TooLarge) => unreachable!(),
    }
}

impl<S: Store> PartitionMachine<S> {
    /// A batch of some values, of no producer, is put.
    ///
    /// # Errors
    ///
    /// Out of memory, only if the batch is to be appended; then all is as before.
    pub(crate) fn put(&mut self, values: &Values) -> Result<Produced, AllocError>
        ensures ok { (number : ℕ) (p : Partition) → IsServed number p self.old
            → IfOk result (Puts (IsServed number) p self.old self.new
            (λ store. puts p store (plain_text (values.now.first ∷ values.now.more)))) }
        ensures err { OnErr result (self.new ≡ self.old) }
        ensures memory { IsErr result → verdict_at self.old.log true
            (plain_text (values.now.first ∷ values.now.more)) ≡ Next }
    {
        // Each batch is in its place, and the values are bytes.
        let _end = self.partition.end();
        values_fit(values);
        if !values.fit() {
            return Ok(Produced::Refused(ErrorCode::MessageTooLarge));
        }
        if !self.partition.can_take(values.count()) {
            return Ok(Produced::Refused(ErrorCode::KafkaStorageError));
        }
        let text = plain_batch(self.alloc, values)?;
        bytes_fit(text.as_slice());
        self.partition.produce(text.as_slice(), true)
    }
}
