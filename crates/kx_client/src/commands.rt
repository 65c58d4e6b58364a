//! A client's commands.
ghost use Rattle.std.specs.Prelude.{◌≡◌, ◌<◌, [], ◌∷◌, MatchResult, length};
ghost use Rattle.std.specs.List.{cons_option};
ghost use Rattle.kx_client.specs.Calls.{IsRefused, commanded_offsets};
ghost use Rattle.kx_client.specs.Internal.{IsCommitOf, IsDeclined};
ghost use Rattle.kx_client.specs.declared.fault.ClientFault.TheVariants.{Memory};
ghost use Rattle.kx_model.specs.Client.{Begin, Does, End, Init, JoinGroup, LeaveGroup};
ghost use Rattle.kx_model.specs.Client.{Resend, Send, SendOffsets, command};

use crate::client::{Numbers, Place, ProducerClient};
use crate::fault::ClientFault;
use crate::values::Values;
use kx_message::{
    EndTxn, GroupId, Held, InitProducerId, Join, Leave, Message, Offsets, Outcome, PartitionId,
    PartitionOffset, Produce, TxnId, TxnOffsetCommit,
};

// What a commit of offsets is sent with.
#[derive(Clone, Copy)]
pub(crate) struct CommitParts {
    txn: TxnId,
    held: Held,
    place: Place,
    numbers: Numbers,
}

impl ProducerClient {
    /// Asks the coordinator for an id and an epoch (KIP-98's InitProducerId). While the reply is
    /// awaited, the same request is sent again.
    ///
    /// # Errors
    ///
    /// The first that fits: [`Failed`](ClientFault::Failed) if the client has failed;
    /// [`NotReady`](ClientFault::NotReady) if it holds an id, or the end of a transaction is
    /// unanswered; [`UsedUp`](ClientFault::UsedUp) if no number is left for a new request;
    /// [`Memory`](ClientFault::Memory). Nothing is changed then.
    #[tactic(auto, unfolding(kx_model::specs::Client::command))]
    pub fn init(&mut self) -> Result<Message, ClientFault>
        ensures { MatchResult result (λ sent. command self.old Init ≡ Does self.new (sent ∷ []))
            (λ fault. IsRefused fault (command self.old Init) × (self.new ≡ self.old)) }
    {
        if self.failed {
            return Err(ClientFault::Failed);
        }
        if self.held.is_some() || self.waiting.is_ending() {
            return Err(ClientFault::NotReady);
        }
        if let Some(init) = self.waiting.init() {
            return Ok(Message::InitProducerId(init));
        }
        let Some(caller) = self.caller() else {
            return Err(ClientFault::UsedUp);
        };
        let request = Message::InitProducerId(InitProducerId {
            caller,
            txn: self.txn,
            timeout: self.timeout,
        });
        Ok(self.ask(request)?)
    }

    /// Begins a transaction (KIP-98's beginTransaction). Nothing is sent.
    ///
    /// # Errors
    ///
    /// The first that fits: [`Failed`](ClientFault::Failed) if the client has failed;
    /// [`NotTransactional`](ClientFault::NotTransactional) if it has no transactional id;
    /// [`NotReady`](ClientFault::NotReady) if it holds no id, is in a transaction, or the end of
    /// one is unanswered. Nothing is changed then.
    pub fn begin(&mut self) -> Result<(), ClientFault>
        ensures { MatchResult result (λ _. command self.old Begin ≡ Does self.new [])
            (λ fault. IsRefused fault (command self.old Begin) × (self.new ≡ self.old)) }
    {
        self.start()?;
        Ok(())
    }

    /// Sends values to a partition, as one batch that has the id and epoch that the client holds
    /// and the next sequence of the partition in that epoch, in the present transaction if the
    /// client has a transactional id (KIP-98).
    ///
    /// # Errors
    ///
    /// The first that fits: [`Failed`](ClientFault::Failed) if the client has failed;
    /// [`NotReady`](ClientFault::NotReady) if it holds no id, the end of a transaction is
    /// unanswered, or it has a transactional id and is in no transaction;
    /// [`MustAbort`](ClientFault::MustAbort) if offsets were refused by the group;
    /// [`WindowFull`](ClientFault::WindowFull) if five batches to the partition are unanswered;
    /// [`UsedUp`](ClientFault::UsedUp) if no number is left for the request, or no sequence for
    /// each value; [`TooLarge`](ClientFault::TooLarge) if the batch would pass its limit;
    /// [`Memory`](ClientFault::Memory). Nothing is changed then.
    #[tactic(auto, unfolding(kx_model::specs::Client::command))]
    pub fn send(&mut self, partition: PartitionId, values: &Values) -> Result<Message, ClientFault>
        ensures { MatchResult result
            (λ sent. command self.old (Send partition values.now.first values.now.more)
            ≡ Does self.new (sent ∷ []))
            (λ fault. IsRefused fault (command self.old
            (Send partition values.now.first values.now.more)) × (self.new ≡ self.old)) }
    {
        if self.failed {
            return Err(ClientFault::Failed);
        }
        let Some(held) = self.sending_held() else {
            return Err(ClientFault::NotReady);
        };
        if self.must_abort {
            return Err(ClientFault::MustAbort);
        }
        if self.waiting.is_window_full(partition) {
            return Err(ClientFault::WindowFull);
        }
        let Some(numbers) = self.numbers(partition, values.count()) else {
            return Err(ClientFault::UsedUp);
        };
        let batch = values.batch(self.alloc, self.txn.is_some(), held, numbers.first)?;
        let request = Message::Produce(Produce {
            caller: numbers.caller,
            txn: self.txn,
            partition,
            batch,
        });
        Ok(self.ask_with(request, partition, numbers.next)?)
    }

    /// Asks to join a consumer group, whose member the client then is (Kafka's JoinGroup). A client
    /// joins one group alone: the one that it first asked to join.
    ///
    /// # Errors
    ///
    /// The first that fits: [`Failed`](ClientFault::Failed) if the client has failed;
    /// [`NotReady`](ClientFault::NotReady) if it has asked to join another group;
    /// [`InFlight`](ClientFault::InFlight) if a join or a leave is unanswered;
    /// [`UsedUp`](ClientFault::UsedUp) if no number is left for the request;
    /// [`Memory`](ClientFault::Memory). Nothing is changed then.
    #[tactic(auto, unfolding(kx_model::specs::Client::command))]
    pub fn join(&mut self, group: GroupId) -> Result<Message, ClientFault>
        ensures { MatchResult result
            (λ sent. command self.old (JoinGroup group) ≡ Does self.new (sent ∷ []))
            (λ fault. IsRefused fault (command self.old (JoinGroup group))
            × (self.new ≡ self.old)) }
    {
        if self.failed {
            return Err(ClientFault::Failed);
        }
        if self.group.is_some_and(|known| known != group) {
            return Err(ClientFault::NotReady);
        }
        if self.waiting.has_of_group() {
            return Err(ClientFault::InFlight);
        }
        let Some(caller) = self.caller() else {
            return Err(ClientFault::UsedUp);
        };
        let sent = self.ask(Message::Join(Join { caller, group }))?;
        self.group = Some(group);
        Ok(sent)
    }

    /// Asks to leave the consumer group (Kafka's LeaveGroup).
    ///
    /// # Errors
    ///
    /// The first that fits: [`Failed`](ClientFault::Failed) if the client has failed;
    /// [`NotReady`](ClientFault::NotReady) if no join was answered 0;
    /// [`InFlight`](ClientFault::InFlight) if a join or a leave is unanswered;
    /// [`UsedUp`](ClientFault::UsedUp) if no number is left for the request;
    /// [`Memory`](ClientFault::Memory). Nothing is changed then.
    // Allowed once a join was answered 0, also while it asks to join again: it may not know that it
    // was dropped, and the group refuses it by its generation.
    #[tactic(auto, unfolding(kx_model::specs::Client::command))]
    pub fn leave(&mut self) -> Result<Message, ClientFault>
        ensures { MatchResult result
            (λ sent. command self.old LeaveGroup ≡ Does self.new (sent ∷ []))
            (λ fault. IsRefused fault (command self.old LeaveGroup) × (self.new ≡ self.old)) }
    {
        if self.failed {
            return Err(ClientFault::Failed);
        }
        let Some(place) = self.place else {
            return Err(ClientFault::NotReady);
        };
        if self.waiting.has_of_group() {
            return Err(ClientFault::InFlight);
        }
        let Some(caller) = self.caller() else {
            return Err(ClientFault::UsedUp);
        };
        let group = place.group;
        Ok(self.ask(Message::Leave(Leave { caller, group }))?)
    }

    // What a commit of these offsets is sent with, if nothing is against it.
    #[tactic(auto, unfolding(kx_model::specs::Client::command))]
    fn commit_parts(&self, offsets: &[PartitionOffset]) -> Result<CommitParts, ClientFault>
        requires { 0 < length offsets.now }
        ensures { MatchResult result (λ parts. IsCommitOf self.now offsets.now parts)
            (λ fault. IsDeclined fault (commanded_offsets self.now offsets.now)) }
    {
        if self.failed {
            return Err(ClientFault::Failed);
        }
        let Some(txn) = self.txn else {
            return Err(ClientFault::NotTransactional);
        };
        let (Some(held), Some(place)) = (self.held_inside(), self.place) else {
            return Err(ClientFault::NotReady);
        };
        if self.must_abort {
            return Err(ClientFault::MustAbort);
        }
        if self.waiting.is_window_full(PartitionId::OFFSETS) {
            return Err(ClientFault::WindowFull);
        }
        let Some(numbers) = self.numbers(PartitionId::OFFSETS, offsets.len()) else {
            return Err(ClientFault::UsedUp);
        };
        Ok(CommitParts {
            txn,
            held,
            place,
            numbers,
        })
    }

    // Sends these offsets with these parts.
    fn commit_offsets(
        &mut self,
        parts: CommitParts,
        offsets: Offsets,
    ) -> Result<Message, ClientFault>
        requires { IsCommitOf self.old offsets parts }
        ensures { MatchResult result
            (λ sent. commanded_offsets self.old offsets ≡ Does self.new (sent ∷ []))
            (λ fault. (fault ≡ Memory) × (self.new ≡ self.old)) }
    {
        let CommitParts {
            txn,
            held,
            place,
            numbers,
        } = parts;
        let request = Message::TxnOffsetCommit(TxnOffsetCommit {
            caller: numbers.caller,
            txn,
            group: place.group,
            member: self.number.get(),
            generation: place.generation,
            held,
            first_sequence: numbers.first as i32,
            offsets,
        });
        Ok(self.ask_with(request, PartitionId::OFFSETS, numbers.next)?)
    }

    /// Sends offsets of the partitions that the group reads with the transaction, so that they are
    /// committed exactly when it is (KIP-447's sendOffsetsToTransaction).
    ///
    /// # Errors
    ///
    /// The first that fits: [`Failed`](ClientFault::Failed) if the client has failed;
    /// [`NotTransactional`](ClientFault::NotTransactional) if it has no transactional id;
    /// [`NotReady`](ClientFault::NotReady) outside a transaction, while its end is unanswered, or
    /// if no join was answered 0; [`MustAbort`](ClientFault::MustAbort) if offsets were
    /// refused by the group; [`WindowFull`](ClientFault::WindowFull) if five commits of offsets
    /// are unanswered; [`UsedUp`](ClientFault::UsedUp) if no number is left for the request, or
    /// no sequence for each offset; [`Memory`](ClientFault::Memory). Nothing is changed then.
    pub fn offsets(&mut self, offsets: Offsets) -> Result<Message, ClientFault>
        ensures { MatchResult result
            (λ sent. commanded_offsets self.old offsets ≡ Does self.new (sent ∷ []))
            (λ fault. IsRefused fault (commanded_offsets self.old offsets)
            × (self.new ≡ self.old)) }
    {
        let parts = self.commit_parts(offsets.as_slice())?;
        self.commit_offsets(parts, offsets)
    }

    /// Sends offsets as [`offsets`](ProducerClient::offsets) does, of which the caller keeps its
    /// own. They are copied once nothing is against the request.
    ///
    /// # Errors
    ///
    /// Those of [`offsets`](ProducerClient::offsets), in the same order.
    pub fn copied_offsets(&mut self, offsets: &Offsets) -> Result<Message, ClientFault>
        ensures { MatchResult result
            (λ sent. commanded_offsets self.old offsets.now ≡ Does self.new (sent ∷ []))
            (λ fault. IsRefused fault (commanded_offsets self.old offsets.now)
            × (self.new ≡ self.old)) }
    {
        let parts = self.commit_parts(offsets.as_slice())?;
        let offsets = offsets.clone()?;
        self.commit_offsets(parts, offsets)
    }

    /// Sends the offset of one partition that the group reads with the transaction, so that it is
    /// committed exactly when the transaction is (KIP-447's sendOffsetsToTransaction). Memory is
    /// asked for last.
    ///
    /// # Errors
    ///
    /// The first that fits: [`Failed`](ClientFault::Failed) if the client has failed;
    /// [`NotTransactional`](ClientFault::NotTransactional) if it has no transactional id;
    /// [`NotReady`](ClientFault::NotReady) outside a transaction, while its end is unanswered, or
    /// if no join was answered 0; [`MustAbort`](ClientFault::MustAbort) if offsets were
    /// refused by the group; [`WindowFull`](ClientFault::WindowFull) if five commits of offsets
    /// are unanswered; [`UsedUp`](ClientFault::UsedUp) if no number is left for the request, or
    /// no sequence for the offset; [`Memory`](ClientFault::Memory). Nothing is changed then.
    pub fn offset(&mut self, offset: PartitionOffset) -> Result<Message, ClientFault>
        ensures { MatchResult result
            (λ sent. command self.old (SendOffsets offset []) ≡ Does self.new (sent ∷ []))
            (λ fault. IsRefused fault (command self.old (SendOffsets offset []))
            × (self.new ≡ self.old)) }
    {
        let parts = self.commit_parts(&[offset])?;
        let offsets = Offsets::from_vec(Vec::from_slice(self.alloc, &[offset])?);
        self.commit_offsets(parts, offsets)
    }

    /// Ends the transaction as a commit: asks the coordinator (KIP-98's EndTxn). If nothing was
    /// sent in the transaction, it ends here, and nothing is sent.
    ///
    /// # Errors
    ///
    /// The first that fits: [`Failed`](ClientFault::Failed) if the client has failed;
    /// [`NotTransactional`](ClientFault::NotTransactional) if it has no transactional id;
    /// [`NotReady`](ClientFault::NotReady) outside a transaction, or while its end is unanswered;
    /// [`MustAbort`](ClientFault::MustAbort) if offsets were refused by the group;
    /// [`InFlight`](ClientFault::InFlight) if anything is unanswered;
    /// [`UsedUp`](ClientFault::UsedUp) if no number is left for the request;
    /// [`Memory`](ClientFault::Memory), never where the transaction ends here. Nothing is changed
    /// then.
    #[tactic(auto, unfolding(kx_model::specs::Client::command))]
    pub fn commit(&mut self) -> Result<Option<Message>, ClientFault>
        ensures { MatchResult result
            (λ sent. command self.old (End Outcome.Commit) ≡ Does self.new (cons_option sent []))
            (λ fault. IsRefused fault (command self.old (End Outcome.Commit))
            × (self.new ≡ self.old)) }
    {
        if self.failed {
            return Err(ClientFault::Failed);
        }
        let Some(txn) = self.txn else {
            return Err(ClientFault::NotTransactional);
        };
        let Some(held) = self.held_inside() else {
            return Err(ClientFault::NotReady);
        };
        if self.must_abort {
            return Err(ClientFault::MustAbort);
        }
        if !self.waiting.is_empty() {
            return Err(ClientFault::InFlight);
        }
        if !self.sent_some {
            self.in_transaction = false;
            return Ok(None);
        }
        let Some(caller) = self.caller() else {
            return Err(ClientFault::UsedUp);
        };
        let request = Message::EndTxn(EndTxn {
            caller,
            txn,
            held,
            outcome: Outcome::Commit,
        });
        Ok(Some(self.ask(request)?))
    }

    /// Ends the transaction as an abort: asks the coordinator (KIP-98's EndTxn), and forgets all
    /// that is unanswered.
    ///
    /// # Errors
    ///
    /// The first that fits: [`Failed`](ClientFault::Failed) if the client has failed;
    /// [`NotTransactional`](ClientFault::NotTransactional) if it has no transactional id;
    /// [`NotReady`](ClientFault::NotReady) outside a transaction, or while its end is unanswered;
    /// [`UsedUp`](ClientFault::UsedUp) if no number is left for the request;
    /// [`Memory`](ClientFault::Memory). Nothing is changed then.
    #[tactic(auto, unfolding(kx_model::specs::Client::command))]
    pub fn abort(&mut self) -> Result<Message, ClientFault>
        ensures { MatchResult result
            (λ sent. command self.old (End Outcome.Abort) ≡ Does self.new (sent ∷ []))
            (λ fault. IsRefused fault (command self.old (End Outcome.Abort))
            × (self.new ≡ self.old)) }
    {
        if self.failed {
            return Err(ClientFault::Failed);
        }
        let Some(txn) = self.txn else {
            return Err(ClientFault::NotTransactional);
        };
        let Some(held) = self.held_inside() else {
            return Err(ClientFault::NotReady);
        };
        let Some(caller) = self.caller() else {
            return Err(ClientFault::UsedUp);
        };
        let request = Message::EndTxn(EndTxn {
            caller,
            txn,
            held,
            outcome: Outcome::Abort,
        });
        Ok(self.ask_alone(request)?)
    }

    /// Sends every unanswered request again, equal to the first time, in the order of first
    /// sending. Nothing is built anew and nothing is changed.
    ///
    /// # Errors
    ///
    /// [`Failed`](ClientFault::Failed) if the client has failed, and then
    /// [`Memory`](ClientFault::Memory), never if nothing is unanswered.
    #[tactic(auto, unfolding(kx_model::specs::Client::command))]
    pub fn resend(&self) -> Result<Vec<Message>, ClientFault>
        ensures { MatchResult result
            (λ sent. command self.now Resend ≡ Does self.now sent.items)
            (λ fault. IsRefused fault (command self.now Resend)) }
    {
        if self.failed {
            return Err(ClientFault::Failed);
        }
        Ok(self.waiting.copies(self.alloc)?)
    }
}
