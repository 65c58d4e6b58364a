//! Batches that come.
//!
//! Room for replies is made before the store is touched, so out of memory leaves the node as it
//! was.
ghost use Rattle.std.specs.Prelude.{◌≡◌, ◌∷◌, [], false, IfOk, IsErr, MatchResult, OnErr, negsuc};
ghost use Rattle.std.specs.Prelude.{ℕ, Some, None, true};
ghost use Rattle.kx_batch.specs.Batch.{batch_at};
ghost use Rattle.kx_broker.specs.Memory.{IsAdded, MayLack, RequestMayLack};
ghost use Rattle.kx_broker.specs.Serving.{IsServed, Serves};
ghost use Rattle.kx_message.specs.Messages as the;
ghost use Rattle.kx_message.specs.declared.message.Message.TheVariants as msg;
ghost use Rattle.kx_model.specs.Log.{entries};
ghost use Rattle.kx_model.specs.PartitionNode.{Partition, data_takes, on_request};
ghost use Rattle.kx_model.specs.PartitionNode.{refused_produce};
ghost use Rattle.kx_model.specs.Produce.{Unverified, judge_text};
ghost use Rattle.kx_model.specs.Verification.{Parked, request_of};
ghost use Rattle.kx_varint.specs.Text.{IsBytes};
ghost use Rattle.kx_verify.specs.Guard.{SameParked, after, answer_to};
ghost use Rattle.kx_verify.specs.Request.{IsParked, is_one_sequenced};

use crate::machine::PartitionMachine;
use crate::parking::{has_batch, held_of};
use crate::reply::offset_of;
use kx_log::Store;
use kx_machine::Messages;
use kx_message::{AddPartition, ErrorCode, Held, Message, Produce, ProduceReply};
use kx_partition::Produced;
use kx_verify::{Asked, Guard, PARKED_LIMIT, Request};
use std::alloc::AllocError;

/// Bytes fit their type.
pub(crate) fn bytes_fit(text: &[u8])
    ensures { IsBytes text.now }
{
    let _text = text;
}

// The reply to a batch.
fn reply(it: &Produce, code: ErrorCode, offset: i64) -> Message
    ensures { result ≡ the.ProduceReply it.now.caller it.now.partition code offset }
{
    Message::ProduceReply(ProduceReply {
        caller: it.caller,
        partition: it.partition,
        code,
        offset,
    })
}

// Parks a batch of this id and epoch, as [`Guard::ask`] does; it is copied only if it is parked
// as one more.
fn ask(guard: &mut Guard, held: &Held, it: &Produce) -> Result<Asked, AllocError>
    requires { is_one_sequenced (batch_at it.now.batch) ≡ true }
    ensures { (p : Parked) → IsParked (msg.Produce it.now) p → p.held ≡ held.now → MatchResult result
        (λ asked. (asked ≡ answer_to guard.old p) × SameParked guard.new (after guard.old p))
        (λ refused. (guard.new ≡ guard.old) × IsAdded guard.old p) }
{
    let parked = guard.parked(*held);
    if has_batch(parked, it) {
        return Ok(Asked::Parked);
    }
    if parked.len() == PARKED_LIMIT {
        return Ok(Asked::Full);
    }
    match Request::of_produce(it.clone()?) {
        Ok(request) => guard.ask(request),
        Err(_) => unreachable!(),
    }
}

impl<S: Store> PartitionMachine<S> {
    // A batch for another partition is refused.
    fn refuse(&self, it: &Produce) -> Messages
        ensures { result ≡ refused_produce it.now.caller it.now.partition ∷ [] }
    {
        Messages::one(reply(it, ErrorCode::UnknownTopicOrPartition, -1))
    }

    // Parks a batch whose transaction isn't verified, and asks the coordinator to list the
    // partition in it.
    fn park(&mut self, it: &Produce) -> Result<Messages, AllocError>
        requires number { it.now.partition ≡ self.old.number }
        requires bytes { IsBytes it.now.batch }
        requires asks { judge_text (entries self.old.log.batches) false it.now.batch ≡ Unverified }
        ensures ok { (number : ℕ) (p : Partition) → IsServed number p self.old
            → IfOk result (Serves (IsServed number) p self.old self.new
            (λ store. on_request number p store (request_of (msg.Produce it.now)))) }
        ensures err { OnErr result (self.new ≡ self.old) }
        ensures memory { IsErr result
            → RequestMayLack self.old (request_of (msg.Produce it.now)) }
    {
        let Some(txn) = it.txn else {
            return Ok(Messages::one(reply(it, ErrorCode::InvalidTxnState, -1)));
        };
        let held = held_of(it.batch.as_slice());
        match ask(&mut self.guard, &held, it)? {
            Asked::Parked => Ok(Messages::one(Message::AddPartition(AddPartition {
                txn,
                held,
                partition: self.number,
            }))),
            Asked::Full => {
                let refusal = reply(it, ErrorCode::ConcurrentTransactions, -1);
                Ok(Messages::one(refusal))
            }
        }
    }

    // A batch for this partition comes.
    fn judge(&mut self, it: &Produce) -> Result<Messages, AllocError>
        requires { it.now.partition ≡ self.old.number }
        ensures ok { (number : ℕ) (p : Partition) → IsServed number p self.old
            → IfOk result (Serves (IsServed number) p self.old self.new
            (λ store. on_request number p store (request_of (msg.Produce it.now)))) }
        ensures err { OnErr result (self.new ≡ self.old) }
        ensures memory { IsErr result
            → RequestMayLack self.old (request_of (msg.Produce it.now)) }
    {
        // Each batch is in its place.
        let _end = self.partition.end();
        let text = it.batch.as_slice();
        bytes_fit(text);
        let answer = self.partition.produce(text, false)?;
        if let Produced::Unverified = answer {
            return self.park(it);
        }
        let reply = reply(it, answer.code(), offset_of(answer));
        Ok(Messages::one(reply))
    }

    /// A batch comes. One for another partition is refused.
    ///
    /// # Errors
    ///
    /// Out of memory, only if the batch is to be appended, or to be parked as one more; then
    /// all is as before.
    pub(crate) fn produce(&mut self, it: &Produce) -> Result<Messages, AllocError>
        ensures ok { (number : ℕ) (p : Partition) → IsServed number p self.old
            → IfOk result (Serves (IsServed number) p self.old self.new
            (λ store. data_takes number p store (msg.Produce it.now))) }
        ensures err { OnErr result (self.new ≡ self.old) }
        ensures memory { IsErr result → MayLack self.old (msg.Produce it.now) }
    {
        if it.partition == self.number() {
            self.judge(it)
        } else {
            Ok(self.refuse(it))
        }
    }
}
