//! What is known of a request before it is parked, and whether it waits already.
ghost use Rattle.std.specs.Prelude.{◌≡◌, Some, true};
ghost use Rattle.kx_batch.specs.Batch.{IsBatch, batch_of};
ghost use Rattle.kx_broker.specs.Memory.{is_same, waits_as};
ghost use Rattle.kx_message.specs.declared.message.Message.TheVariants as msg;
ghost use Rattle.kx_model.specs.Log.{entry_in};
ghost use Rattle.kx_model.specs.Produce.{is_sequenced};
ghost use Rattle.kx_model.specs.Verification.{pair_in, request_of};

use kx_batch::BatchView;
use kx_message::{Epoch, Held, Produce, ProducerId, TxnOffsetCommit};
use kx_offsets::commits_fit;
use kx_verify::{Append, Request};

/// The id and epoch of a batch whose producer has them.
pub(crate) fn held_of(text: &[u8]) -> Held
    requires batch { IsBatch text.now }
    requires sequenced { is_sequenced (batch_of text.now) ≡ true }
    ensures { pair_in (entry_in (batch_of text.now)) ≡ Some result }
{
    let batch = BatchView::of_batch(text);
    let Ok(id) = ProducerId::try_from(batch.producer_id()) else {
        unreachable!();
    };
    let Ok(epoch) = Epoch::try_from(batch.producer_epoch()) else {
        unreachable!();
    };
    Held { id, epoch }
}

// Whether a parked request came as this batch.
fn is_batch(request: &Request, it: &Produce) -> bool
    ensures { result ≡ is_same request.now.request (request_of (msg.Produce it.now)) }
{
    match request.message() {
        Append::Produce(batch) => batch == it,
        Append::Offsets(_) => false,
    }
}

// Whether a parked request came as this commit of offsets.
fn is_commit(request: &Request, it: &TxnOffsetCommit) -> bool
    ensures { result ≡ is_same request.now.request (request_of (msg.TxnOffsetCommit it.now)) }
{
    match request.message() {
        Append::Produce(_) => false,
        Append::Offsets(commit) => {
            // What both hold fits its fields, so they differ in their texts if they differ.
            commits_fit(commit);
            commits_fit(it);
            commit == it
        }
    }
}

/// Whether this batch waits among parked requests.
pub(crate) fn has_batch(parked: &[Request], it: &Produce) -> bool
    ensures { result ≡ waits_as parked.now (msg.Produce it.now) }
{
    parked.iter().any(|request| is_batch(request, it))
}

/// Whether this commit of offsets waits among parked requests.
pub(crate) fn has_commit(parked: &[Request], it: &TxnOffsetCommit) -> bool
    ensures { result ≡ waits_as parked.now (msg.TxnOffsetCommit it.now) }
{
    parked.iter().any(|request| is_commit(request, it))
}
