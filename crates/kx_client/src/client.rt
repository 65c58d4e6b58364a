//! What a client holds, and how it asks.
ghost use Rattle.std.specs.Prelude.{◌≡◌, ◌+◌, ◌++◌, [], ◌∷◌, ◌≤◌, ◌<◌, ◌^◌, ◌==◌, ◌||◌, ◌&&◌, ℕ};
ghost use Rattle.std.specs.Prelude.{Some, true, false, not, MatchOption, IfOk, OnErr, count_by};
ghost use Rattle.std.specs.Prelude.{is_none, is_some, length, nat_lt};
ghost use Rattle.std.specs.List.{list_any};
ghost use Rattle.kx_model.specs.Client.{caller_of, carries_to, is_ending, is_init, is_outside};
ghost use Rattle.kx_model.specs.Client.{is_spent, is_used_up, is_window_full, new_client};
ghost use Rattle.kx_model.specs.Client.{sequence_of, window, with_sequence};
ghost use Rattle.kx_model.specs.Replies.{correlation_of};

use crate::sequences::Sequences;
use crate::waiting::Waiting;
use kx_message::{Caller, ClientId, GroupId, Held, Message, PartitionId, Timeout, TxnId};
use std::alloc::{AllocError, Global};
use std::marker::Model;

// The sequence after the greatest, 2^31 - 1.
const AFTER_LAST: u64 = 0x8000_0000;

// What the last reply of code 0 to a join said: the client's place among the members of its group.
#[derive(Clone, Copy, Debug, PartialEq, Eq)]
pub(crate) struct Place {
    pub(crate) group: GroupId,
    pub(crate) generation: i32,
    pub(crate) number: u16,
    pub(crate) count: u16,
}

// The numbers of a request that carries records: its own, and the sequences of its first record and
// after its last.
#[derive(Clone, Copy)]
pub(crate) struct Numbers {
    pub(crate) caller: Caller,
    pub(crate) first: u32,
    pub(crate) next: u32,
}

/// The core of a client that produces, alone or in transactions (KIP-98), and commits offsets of
/// its group in them (KIP-447): the id and epoch that it was handed, the next sequence of each
/// partition, and the requests that it keeps until they are answered.
#[derive(Drop)]
pub struct ProducerClient {
    pub(crate) alloc: Global,
    pub(crate) number: ClientId,
    pub(crate) txn: Option<TxnId>,
    pub(crate) timeout: Timeout,
    pub(crate) held: Option<Held>,
    pub(crate) sequences: Sequences,
    pub(crate) waiting: Waiting,
    // the group that it first asked to join
    pub(crate) group: Option<GroupId>,
    pub(crate) place: Option<Place>,
    pub(crate) in_transaction: bool,
    // something was sent in this transaction
    pub(crate) sent_some: bool,
    pub(crate) must_abort: bool,
    pub(crate) failed: bool,
}

impl Model for ProducerClient {
    ghost use Rattle.std.specs.Prelude.{option_map};
    ghost use Rattle.kx_client.specs.Internal.{placed};
    ghost use Rattle.kx_model.specs.Client.{Client};

    ghost Value = { Client };

    ghost view = { λ c. record {
      number = c.number;
      txn = c.txn;
      timeout = c.timeout;
      held = c.held;
      correlation = c.waiting.next;
      sequences = c.sequences;
      waiting = c.waiting.messages;
      group = c.group;
      place = option_map placed c.place;
      in_transaction = c.in_transaction;
      sent_some = c.sent_some;
      must_abort = c.must_abort;
      failed = c.failed;
    } };
}

impl ProducerClient {
    /// A client of this number, with a transactional id if it is to have transactions, each of
    /// which may stay open for so long. It has sent nothing yet, and takes memory from `alloc` as
    /// requests come.
    pub fn new(alloc: Global, number: ClientId, txn: Option<TxnId>, timeout: Timeout) -> Self
        ensures { result ≡ new_client number txn timeout }
    {
        ProducerClient {
            alloc,
            number,
            txn,
            timeout,
            held: None,
            sequences: Sequences::new(alloc),
            waiting: Waiting::new(alloc),
            group: None,
            place: None,
            in_transaction: false,
            sent_some: false,
            must_abort: false,
            failed: false,
        }
    }

    /// Its own number, any u32.
    pub fn number(&self) -> ClientId
        ensures { result ≡ self.now.number }
    {
        self.number
    }

    /// Whether it has a transactional id, so that it sends in transactions alone.
    pub fn is_transactional(&self) -> bool
        ensures { result ≡ is_some self.now.txn }
    {
        self.txn.is_some()
    }

    /// Whether it holds an id and an epoch.
    pub fn has_id(&self) -> bool
        ensures { result ≡ is_some self.now.held }
    {
        self.held.is_some()
    }

    /// Whether a request is unanswered.
    pub fn is_waiting(&self) -> bool
        ensures { result ≡ nat_lt 0 (length self.now.waiting) }
    {
        !self.waiting.is_empty()
    }

    /// Whether it is in a transaction. Until its end is answered, it is.
    pub fn is_in_transaction(&self) -> bool
        ensures { result ≡ self.now.in_transaction }
    {
        self.in_transaction
    }

    /// Whether it has failed for good, and refuses every command.
    pub fn has_failed(&self) -> bool
        ensures { result ≡ self.now.failed }
    {
        self.failed
    }

    // The client and the number of its next request, if one is left.
    pub(crate) fn caller(&self) -> Option<Caller>
        ensures { MatchOption result (is_spent self.now ≡ true)
            (λ caller. (is_spent self.now ≡ false) × (caller ≡ caller_of self.now)
            × (self.now.correlation < 2 ^ 32)) }
    {
        let correlation = u32::try_from(self.waiting.next()).ok()?;
        Some(Caller {
            client: self.number,
            correlation,
        })
    }

    // The numbers of a request that carries this many records to a partition, if they are left.
    pub(crate) fn numbers(&self, partition: PartitionId, count: usize) -> Option<Numbers>
        ensures { MatchOption result (is_used_up self.now partition count ≡ true)
            (λ numbers. (is_used_up self.now partition count ≡ false)
            × (numbers.caller ≡ caller_of self.now) × (self.now.correlation < 2 ^ 32)
            × (numbers.first ≡ sequence_of self.now.sequences partition)
            × (numbers.next ≡ sequence_of self.now.sequences partition + count)
            × (numbers.next ≤ 2 ^ 31)) }
    {
        let caller = self.caller()?;
        let first = self.sequences.next(partition);
        let next = u64::from(first).saturating_add(count as u64);
        if AFTER_LAST < next {
            return None;
        }
        Some(Numbers {
            caller,
            first,
            next: next as u32,
        })
    }

    // The id and epoch of the present transaction, unless there is none or its end is unanswered.
    pub(crate) fn held_inside(&self) -> Option<Held>
        ensures { MatchOption result (is_outside self.now ≡ true)
            (λ held. (is_outside self.now ≡ false) × (self.now.held ≡ Some held)) }
    {
        if !self.in_transaction || self.waiting.is_ending() {
            return None;
        }
        self.held
    }

    // The id and epoch with which batches may be sent, if they may.
    pub(crate) fn sending_held(&self) -> Option<Held>
        ensures { MatchOption result ((is_none self.now.held || is_ending self.now
            || (is_some self.now.txn && not self.now.in_transaction)) ≡ true)
            (λ held. ((is_none self.now.held || is_ending self.now
            || (is_some self.now.txn && not self.now.in_transaction)) ≡ false)
            × (self.now.held ≡ Some held)) }
    {
        if self.waiting.is_ending() || self.txn.is_some() && !self.in_transaction {
            return None;
        }
        self.held
    }

    // Keeps a copy of a new request, and hands it out. If memory is refused, all is as before.
    pub(crate) fn ask(&mut self, request: Message) -> Result<Message, AllocError>
        requires left { self.old.correlation < 2 ^ 32 }
        requires number { correlation_of request ≡ self.old.correlation }
        requires one { is_init request ≡ true → list_any is_init self.old.waiting ≡ false }
        requires carries { (p : ℕ) → carries_to p request ≡ false }
        ensures ok { IfOk result (λ sent. (sent ≡ request) × (self.new ≡ record self.old {
          correlation = self.old.correlation + 1;
          waiting = self.old.waiting ++ request ∷ [];
        })) }
        ensures err { OnErr result (self.new ≡ self.old) }
    {
        let kept = request.clone()?;
        self.waiting.reserve()?;
        self.waiting.push(kept);
        Ok(request)
    }

    // The same of a request that carries records to a partition, whose next sequence is then this.
    pub(crate) fn ask_with(
        &mut self,
        request: Message,
        partition: PartitionId,
        next: u32,
    ) -> Result<Message, AllocError>
        requires left { self.old.correlation < 2 ^ 32 }
        requires number { correlation_of request ≡ self.old.correlation }
        requires one { is_init request ≡ false }
        requires carries { (p : ℕ) → carries_to p request ≡ (partition == p) }
        requires window { is_window_full self.old partition ≡ false }
        ensures ok { IfOk result (λ sent. (sent ≡ request) × (self.new ≡ record self.old {
          sequences = with_sequence self.old.sequences partition next;
          sent_some = true;
          correlation = self.old.correlation + 1;
          waiting = self.old.waiting ++ request ∷ [];
        })) }
        ensures err { OnErr result (self.new ≡ self.old) }
    {
        let kept = request.clone()?;
        self.waiting.reserve()?;
        self.sequences.set(partition, next)?;
        self.waiting.push(kept);
        self.sent_some = true;
        Ok(request)
    }

    // The same of a request that waits alone: all that is unanswered is forgotten.
    pub(crate) fn ask_alone(&mut self, request: Message) -> Result<Message, AllocError>
        requires left { self.old.correlation < 2 ^ 32 }
        requires number { correlation_of request ≡ self.old.correlation }
        requires carries { (p : ℕ) → carries_to p request ≡ false }
        ensures ok { IfOk result (λ sent. (sent ≡ request) × (self.new ≡ record self.old {
          correlation = self.old.correlation + 1;
          waiting = request ∷ [];
        })) }
        ensures err { OnErr result (self.new ≡ self.old) }
    {
        let kept = request.clone()?;
        self.waiting.reserve()?;
        self.waiting.clear();
        self.waiting.push(kept);
        Ok(request)
    }

    /// Whatever was sent and answered, no more than five batches to a partition, or commits of
    /// offsets to theirs, are unanswered. This takes no memory, and changes nothing.
    pub fn windows_hold(&self)
        ensures { (p : ℕ) → count_by (carries_to p) self.now.waiting ≤ window }
    {
        self.waiting.windows_hold();
    }
}
