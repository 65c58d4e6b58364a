//! The replies to markers: each is noted, and with the last one of a row the row is complete.
ghost use Rattle.std.specs.Prelude.{◌≡◌, ◌==◌, ◌&&◌, ◌||◌, [], false, IfOk, OnErr, MatchResult};
ghost use Rattle.std.specs.List.{list_all, list_any};
ghost use Rattle.kx_model.specs.Markers.{answered_at, same_answered, settle};
ghost use Rattle.kx_txnlog.specs.Entry.{row_of};
ghost use Rattle.kx_coord.specs.Calls.{CompletesRow, Settles, WantsMemory};
ghost use Rattle.kx_coord.specs.Internal.Deciding.{IsSettled};
ghost use Rattle.kx_message.specs.declared.code.ErrorCode.TheVariants as error;
ghost use Rattle.kx_coord.specs.Noted.{answered};

use crate::answer::own_pair;
use crate::coordinator::Coordinator;
use kx_log::Store;
use kx_message::{ErrorCode, Held, MarkerReply, Message, PartitionId, TxnId};
use kx_txnlog::{Entry, Row, State};
use std::alloc::AllocError;

// What the answer to a marker brings about.
#[derive(Drop)]
enum Settled {
    // Nothing.
    Ignored,
    // It is noted.
    Noted,
    // The row would be complete, but needs an id, and none is left.
    UsedUp,
    // The row is complete.
    Completes(Row),
}

// Whether the row has this id and epoch.
fn has_pair(row: &Row, held: &Held) -> bool
    ensures { result ≡ ((row_of row.now).id == held.now.id
        && (row_of row.now).epoch == held.now.epoch) }
{
    own_pair(row) == *held
}

impl<S: Store> Coordinator<S> {
    // Whether the marker of the row to each of its partitions was answered, or is this one.
    fn is_last(&self, row: &Row, partition: PartitionId) -> bool
        ensures { result ≡ list_all (λ p. (partition == p) || list_any (same_answered
            (answered_at (row_of row.now) p)) self.now.answered) (row_of row.now).partitions }
    {
        let answered = &self.answered;
        row.partitions.as_slice().iter().all(|other| {
            partition == *other || answered.contains(row.txn, &own_pair(row), *other)
        })
    }

    // What the answer to a marker brings about.
    fn settle(&self, txn: TxnId, held: &Held, partition: PartitionId) -> Settled
        ensures { IsSettled result (settle self.now.log.notes self.now.answered
            (answered txn held.now partition)) }
    {
        let fresh = self.fresh();
        let Some(row) = self.row(txn) else {
            return Settled::Ignored;
        };
        let State::Prepare(outcome) = row.state else {
            return Settled::Ignored;
        };
        if !has_pair(row, held) || !row.partitions.contains(partition) {
            return Settled::Ignored;
        }
        if !self.is_last(row, partition) {
            return Settled::Noted;
        }
        match fresh.completed(row, outcome) {
            Some(completed) => Settled::Completes(completed),
            None => Settled::UsedUp,
        }
    }

    // Appends the row that is complete, and forgets the answers to its markers.
    fn complete(&mut self, row: Row) -> Result<(), AllocError>
        ensures { MatchResult result (λ done. CompletesRow self.old self.new (row_of row))
            (λ refused. (self.new ≡ self.old) × (self.old.log.closed ≡ false)) }
    {
        let txn = row.txn;
        if !self.append(Entry::Row(row))? {
            return Ok(());
        }
        self.answered.forget(txn);
        Ok(())
    }

    /// A partition answers a marker of the transaction that ends with this id and epoch. If it
    /// is the last one of its row, the row is complete. Sends nothing.
    ///
    /// # Errors
    ///
    /// Only if memory runs out, and if the reply is noted for the first time, or completes
    /// its row and the coordinator isn't closed; then the coordinator is as before.
    pub fn marker_reply(&mut self, reply: MarkerReply) -> Result<Vec<Message>, AllocError>
        ensures settles { MatchResult result
            (λ handed. Settles self.old self.new
            (answered reply.txn reply.held reply.partition) reply.code)
            (λ refused. self.new ≡ self.old) }
        ensures handed { IfOk result (λ handed. handed.items ≡ []) }
        ensures refused { OnErr result ((reply.code ≡ error.NoError)
            × WantsMemory self.old (answered reply.txn reply.held reply.partition)
            (settle self.old.log.notes self.old.answered
            (answered reply.txn reply.held reply.partition))) }
    {
        let MarkerReply {
            partition,
            txn,
            held,
            code,
        } = reply;
        let held = held.get();
        let handed = Vec::new(self.alloc);
        if code != ErrorCode::NoError {
            return Ok(handed);
        }
        match self.settle(txn, &held, partition) {
            Settled::Ignored | Settled::UsedUp => Ok(handed),
            Settled::Noted => {
                self.answered.note(txn, &held, partition)?;
                Ok(handed)
            }
            Settled::Completes(row) => {
                self.complete(row)?;
                Ok(handed)
            }
        }
    }
}
