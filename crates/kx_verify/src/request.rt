//! Requests to append that can be parked.
ghost use Rattle.std.specs.Prelude.{◌≡◌, ◌<ℤ◌, ◌≤ℤ◌, pos, true, false, MatchResult, MatchOption};
ghost use Rattle.std.specs.Prelude.{Some};
ghost use Rattle.kx_batch.specs.Batch.{batch_at, batch_of};
ghost use Rattle.kx_message.specs.declared.message.Message.TheVariants as msg;
ghost use Rattle.kx_model.specs.Log.{entry_in};
ghost use Rattle.kx_model.specs.Produce.{is_sequenced};
ghost use Rattle.kx_model.specs.Verification.{pair_in, pair_of, same_request};
ghost use Rattle.kx_verify.specs.Request.{IsParked, is_one_sequenced, message_of};

use kx_batch::BatchView;
use kx_message::{Epoch, Held, Produce, ProducerId, TxnOffsetCommit};
use kx_offsets::commits_fit;
use std::marker::Model;

/// A request to append, as the message that it came as.
#[derive(PartialEq, Eq, Drop)]
pub enum Append {
    /// A batch for a partition.
    Produce(Produce),
    /// Offsets of a consumer group, which become a batch of the offsets partition.
    Offsets(TxnOffsetCommit),
}

/// A request to append that can be parked: its batch, or the batch that its offsets become, is of a
/// producer with an id, an epoch and a sequence. Two are equal if their messages are.
#[derive(Drop)]
pub struct Request {
    held: Held,
    message: Append,
}

impl Model for Request {
    ghost use Rattle.kx_model.specs.Verification.{Parked};
    ghost use Rattle.kx_verify.specs.Internal.Messages.{IsRequest, request_in};

    ghost Value = { Parked };

    ghost view = { λ r. record { held = r.held; request = request_in r.message } };

    ghost invariant = { λ r. IsRequest r.held r.message };
}

/// Whether both came as the same message.
impl PartialEq for Request {
    ghost use Rattle.kx_verify.specs.Internal.Equal.{requests_equal};

    ghost eq = { λ a b. same_request a.request b.request };

    ghost laws = { requests_equal };

    fn eq(&self, other: &Self) -> bool {
        self.message == other.message
    }
}

impl Eq for Request {
    ghost use Rattle.kx_verify.specs.Internal.Equal.{requests_are_equal};

    ghost laws = { requests_are_equal };
}

// The id and epoch of a batch, if its producer has them and a sequence, and it is no control batch.
fn held_of(batch: &BatchView<'_>) -> Option<Held>
    ensures { MatchOption result (is_sequenced batch.now.batch ≡ false)
        (λ held. (is_sequenced batch.now.batch ≡ true)
        × (pair_in (entry_in batch.now.batch) ≡ Some held)) }
{
    if batch.is_control() || batch.base_sequence() < 0 {
        return None;
    }
    let Ok(id) = ProducerId::try_from(batch.producer_id()) else {
        return None;
    };
    let Ok(epoch) = Epoch::try_from(batch.producer_epoch()) else {
        return None;
    };
    Some(Held { id, epoch })
}

// The same of the batch that is all of the bytes.
fn held_in(text: &[u8]) -> Option<Held>
    ensures { MatchOption result (is_one_sequenced (batch_at text.now) ≡ false)
        (λ held. (is_one_sequenced (batch_at text.now) ≡ true)
        × (pair_in (entry_in (batch_of text.now)) ≡ Some held)) }
{
    let Ok((batch, rest)) = BatchView::read(text) else {
        return None;
    };
    if !rest.is_empty() {
        return None;
    }
    held_of(&batch)
}

impl Request {
    /// A batch for a partition, whose id and epoch are read here, once.
    ///
    /// # Errors
    ///
    /// The message itself, exactly if its bytes aren't one batch, or it is a control batch, or
    /// its producer has no id, epoch or sequence: no partition takes it into a transaction.
    pub fn of_produce(produce: Produce) -> Result<Request, Produce>
        ensures { MatchResult result
            (λ request. IsParked (msg.Produce produce) request
            × (is_one_sequenced (batch_at produce.batch) ≡ true))
            (λ back. (back ≡ produce) × (is_one_sequenced (batch_at produce.batch) ≡ false)) }
    {
        match held_in(produce.batch.as_slice()) {
            None => Err(produce),
            Some(held) => Ok(Request {
                held,
                message: Append::Produce(produce),
            }),
        }
    }

    /// The offsets of a consumer group, whose id and epoch the message has.
    ///
    /// # Errors
    ///
    /// The message itself, exactly if its first sequence is below 0: no partition takes it.
    pub fn of_offsets(commit: TxnOffsetCommit) -> Result<Request, TxnOffsetCommit>
        ensures { MatchResult result
            (λ request. IsParked (msg.TxnOffsetCommit commit) request
            × (request.held ≡ commit.held) × (pos 0 ≤ℤ commit.first_sequence))
            (λ back. (back ≡ commit) × (commit.first_sequence <ℤ pos 0)) }
    {
        if commit.first_sequence < 0 {
            return Err(commit);
        }
        // Commits that fit their fields differ in their texts if they differ.
        commits_fit(&commit);
        Ok(Request {
            held: commit.held,
            message: Append::Offsets(commit),
        })
    }

    /// The id and epoch of its batch.
    pub fn held(&self) -> Held
        ensures value { result ≡ self.now.held }
        ensures own { pair_of self.now.request ≡ Some result }
    {
        self.held
    }

    /// The message that it came as, borrowed.
    pub fn message(&self) -> &Append
        ensures { IsParked (message_of result.now) self.now }
    {
        &self.message
    }

    /// The message that it came as.
    pub fn into_message(self) -> Append
        ensures { IsParked (message_of result) self }
    {
        self.message
    }
}
