//! Commands that begin a transaction and do one thing in it: both are done, or neither.
ghost use Rattle.std.specs.Prelude.{◌≡◌, [], ◌∷◌, MatchResult};
ghost use Rattle.kx_client.specs.Calls.{IsRefused};
ghost use Rattle.kx_client.specs.Internal.{IsDeclined, put_back};
ghost use Rattle.kx_message.specs.declared.outcome.Outcome.TheVariants as Outcome;
ghost use Rattle.kx_model.specs.Client.{Begin, Does, End, Send, SendOffsets, all_of, command};

use crate::client::ProducerClient;
use crate::fault::ClientFault;
use crate::values::Values;
use kx_message::{Message, PartitionId, PartitionOffset};

// What the beginning of a transaction changes, as it was before.
#[derive(Clone, Copy)]
pub(crate) struct Before {
    in_transaction: bool,
    sent_some: bool,
    must_abort: bool,
}

impl ProducerClient {
    // Begins a transaction, and says what was before it.
    #[tactic(auto, unfolding(kx_model::specs::Client::command))]
    pub(crate) fn start(&mut self) -> Result<Before, ClientFault>
        ensures { MatchResult result
            (λ before. (command self.old Begin ≡ Does self.new [])
            × (self.old ≡ put_back before self.new))
            (λ fault. IsDeclined fault (command self.old Begin) × (self.new ≡ self.old)) }
    {
        if self.failed {
            return Err(ClientFault::Failed);
        }
        if self.txn.is_none() {
            return Err(ClientFault::NotTransactional);
        }
        if self.held.is_none() || self.in_transaction || self.waiting.is_ending() {
            return Err(ClientFault::NotReady);
        }
        let before = Before {
            in_transaction: self.in_transaction,
            sent_some: self.sent_some,
            must_abort: self.must_abort,
        };
        self.in_transaction = true;
        self.sent_some = false;
        self.must_abort = false;
        Ok(before)
    }

    // If what came after the beginning was refused, all is as before it.
    fn both_or_neither(
        &mut self,
        before: Before,
        sent: Result<Message, ClientFault>,
    ) -> Result<Message, ClientFault>
        ensures result { result ≡ sent }
        ensures state { MatchResult sent (λ _. self.new ≡ self.old)
            (λ _. self.new ≡ put_back before self.old) }
    {
        if sent.is_err() {
            self.in_transaction = before.in_transaction;
            self.sent_some = before.sent_some;
            self.must_abort = before.must_abort;
        }
        sent
    }

    /// Begins a transaction and sends values to a partition in it, as
    /// [`begin`](ProducerClient::begin) and then [`send`](ProducerClient::send) do (KIP-98), or
    /// does neither.
    ///
    /// # Errors
    ///
    /// The first that fits: [`Failed`](ClientFault::Failed) if the client has failed;
    /// [`NotTransactional`](ClientFault::NotTransactional) if it has no transactional id;
    /// [`NotReady`](ClientFault::NotReady) if it holds no id, is in a transaction, or the end of
    /// one is unanswered; [`WindowFull`](ClientFault::WindowFull) if five batches to the
    /// partition are unanswered; [`UsedUp`](ClientFault::UsedUp) if no number is left for the
    /// request, or no sequence for each value; [`TooLarge`](ClientFault::TooLarge) if the batch
    /// would pass its limit; [`Memory`](ClientFault::Memory). Nothing is changed then.
    pub fn begin_and_send(
        &mut self,
        partition: PartitionId,
        values: &Values,
    ) -> Result<Message, ClientFault>
        ensures { MatchResult result
            (λ sent. all_of self.old Begin (Send partition values.now.first values.now.more ∷ [])
            ≡ Does self.new (sent ∷ []))
            (λ fault. IsRefused fault (all_of self.old Begin
            (Send partition values.now.first values.now.more ∷ [])) × (self.new ≡ self.old)) }
    {
        let before = self.start()?;
        let sent = self.send(partition, values);
        self.both_or_neither(before, sent)
    }

    /// Begins a transaction and sends one offset of the group with it, as
    /// [`begin`](ProducerClient::begin) and then [`offset`](ProducerClient::offset) do (KIP-98,
    /// KIP-447), or does neither.
    ///
    /// # Errors
    ///
    /// The first that fits: [`Failed`](ClientFault::Failed) if the client has failed;
    /// [`NotTransactional`](ClientFault::NotTransactional) if it has no transactional id;
    /// [`NotReady`](ClientFault::NotReady) if it holds no id, is in a transaction, the end of
    /// one is unanswered, or no join was answered 0; [`WindowFull`](ClientFault::WindowFull) if
    /// five commits of offsets are unanswered; [`UsedUp`](ClientFault::UsedUp) if no number is
    /// left for the request, or no sequence for the offset; [`Memory`](ClientFault::Memory).
    /// Nothing is changed then.
    pub fn begin_and_offset(&mut self, offset: PartitionOffset) -> Result<Message, ClientFault>
        ensures { MatchResult result
            (λ sent. all_of self.old Begin (SendOffsets offset [] ∷ [])
            ≡ Does self.new (sent ∷ []))
            (λ fault. IsRefused fault (all_of self.old Begin (SendOffsets offset [] ∷ []))
            × (self.new ≡ self.old)) }
    {
        let before = self.start()?;
        let sent = self.offset(offset);
        self.both_or_neither(before, sent)
    }

    /// Begins a transaction and ends it as an abort, as [`begin`](ProducerClient::begin) and then
    /// [`abort`](ProducerClient::abort) do (KIP-98), or does neither. All that is unanswered is
    /// forgotten.
    ///
    /// # Errors
    ///
    /// The first that fits: [`Failed`](ClientFault::Failed) if the client has failed;
    /// [`NotTransactional`](ClientFault::NotTransactional) if it has no transactional id;
    /// [`NotReady`](ClientFault::NotReady) if it holds no id, is in a transaction, or the end of
    /// one is unanswered; [`UsedUp`](ClientFault::UsedUp) if no number is left for the request;
    /// [`Memory`](ClientFault::Memory). Nothing is changed then.
    pub fn begin_and_abort(&mut self) -> Result<Message, ClientFault>
        ensures { MatchResult result
            (λ sent. all_of self.old Begin (End Outcome.Abort ∷ [])
            ≡ Does self.new (sent ∷ []))
            (λ fault. IsRefused fault (all_of self.old Begin (End Outcome.Abort ∷ []))
            × (self.new ≡ self.old)) }
    {
        let before = self.start()?;
        let sent = self.abort();
        self.both_or_neither(before, sent)
    }
}
