//! A coordinator is opened on what a store holds, and restarted on its own store.
ghost use Rattle.std.specs.Prelude.{◌≡◌, map, Some, None, MatchOption, MatchResult};
ghost use Rattle.kx_model.specs.Coordinator as model;
ghost use Rattle.kx_model.specs.Markers.{reopen};
ghost use Rattle.kx_txnlog.specs.Entry.{note_of};
ghost use Rattle.kx_coord.specs.Calls.{IsOpen, OpenRefuses, RestartRefuses};
ghost use Rattle.kx_coord.specs.Internal.Deciding.{IsTaken, TakeFaults, open_fault_of};

use crate::coordinator::Coordinator;
use crate::fault::RestartFault;
use crate::markers::all_markers;
use crate::noted::NotedMarkers;
use crate::table::Table;
use kx_log::{AppendFault, OpenFault, Store, StoreFault};
use kx_message::Message;
use kx_txnlog::{Entry, TxnLog};
use std::alloc::Global;

// What opening makes of the entries of a log, before its own entry is appended.
#[derive(Drop)]
struct Reopened {
    table: Table,
    epoch: i32,
    handed: Vec<Message>,
}

// The coordinator's epoch after an entry, if it was this one before.
fn epoch_after(before: i32, entry: &Entry) -> i32
    ensures { result ≡ model.epoch_after before (note_of entry.now) }
{
    match entry {
        Entry::CoordinatorEpoch(epoch) => *epoch,
        Entry::Allot(_) | Entry::Row(_) => before,
    }
}

// The epoch of an opening of the log with these entries, if one is left.
fn next_epoch(entries: &[Entry]) -> Option<i32>
    ensures { MatchOption result (reopen (map note_of entries.now) ≡ None)
        (λ epoch. reopen (map note_of entries.now) ≡ Some (model.CoordinatorEpoch epoch)) }
{
    let mut last = 0;
    for entry in entries {
        last = epoch_after(last, entry);
    }
    last.checked_add(1)
}

// What is kept of these entries, the epoch of this opening, and the markers that are sent.
fn take_up(alloc: Global, entries: &[Entry]) -> Result<Reopened, OpenFault>
    ensures { MatchResult result (IsTaken (map note_of entries.now))
        (TakeFaults (map note_of entries.now)) }
{
    let Some(epoch) = next_epoch(entries) else {
        return Err(OpenFault::UsedUp);
    };
    let table = Table::of_entries(alloc, entries)?;
    let handed = all_markers(alloc, epoch, table.rows())?;
    Ok(Reopened {
        table,
        epoch,
        handed,
    })
}

// The fault of an opening whose entry wasn't appended to a log that isn't closed.
fn open_fault(fault: AppendFault) -> OpenFault
    ensures { result ≡ open_fault_of fault }
{
    match fault {
        AppendFault::Memory => OpenFault::Memory,
        AppendFault::Closed | AppendFault::UsedUp | AppendFault::Device => OpenFault::Device,
    }
}

impl<S: Store> Coordinator<S> {
    /// Opens the coordinator of a log that a store holds, at this time in milliseconds, any u64:
    /// its log is read, with what is torn at the end cut off, and the next coordinator epoch, 1 for
    /// an empty log, is appended. Sends the markers of every row that waits for them, in order of
    /// first use. Memory is taken from `alloc`, now and later.
    ///
    /// # Errors
    ///
    /// The store comes back beside the fault: [`OpenFault::Device`] if its device failed,
    /// [`OpenFault::Damaged`] with the place where something else than the next entry begins,
    /// [`OpenFault::UsedUp`] if the log's last coordinator epoch is 2^31 - 1, and
    /// [`OpenFault::Memory`] if memory runs out, which may come in place of damage that is
    /// further on, but not once a log was read whose epochs are used up.
    // Out of memory, or epochs used up, may come after the torn tail was cut off; all else is as
    // before.
    pub fn open(
        alloc: Global,
        store: S,
        now: u64,
    ) -> Result<(Coordinator<S>, Vec<Message>), (OpenFault, S)>
        ensures { MatchResult result (λ opened. IsOpen (S.state store) now opened.0 opened.1.items)
            (λ refused. OpenRefuses (S.state store) (S.state refused.1) refused.0) }
    {
        let log = TxnLog::open(alloc, store)?;
        let opening = match take_up(alloc, log.entries()) {
            Ok(opening) => opening,
            Err(fault) => return Err((fault, log.into_store())),
        };
        let mut log = log;
        let mut table = opening.table;
        match log.append(Entry::CoordinatorEpoch(opening.epoch)) {
            Ok(()) => {
                table.epoch = opening.epoch;
                let coordinator = Coordinator {
                    alloc,
                    log,
                    table,
                    clock: now,
                    answered: NotedMarkers::new(alloc),
                };
                Ok((coordinator, opening.handed))
            }
            Err(fault) => Err((open_fault(fault), log.into_store())),
        }
    }

    /// Reads the own store again and goes on as [`open`](Coordinator::open) does, at this time.
    ///
    /// # Errors
    ///
    /// [`RestartFault::Unopened`] with a fault of [`open`](Coordinator::open): after
    /// [`OpenFault::Device`], if the log couldn't be read, and [`OpenFault::Damaged`] the
    /// coordinator is closed, and else as before; after the others it is as before.
    /// [`RestartFault::Unwritten`] if the device failed in the append of the coordinator epoch:
    /// the coordinator is then as its log was read again, and closed.
    pub fn restart(&mut self, now: u64) -> Result<Vec<Message>, RestartFault>
        ensures { MatchResult result
            (λ handed. IsOpen self.old.log.store now self.new handed.items)
            (RestartRefuses self.old self.new now) }
    {
        let content = self.log.reload()?;
        let opening = take_up(self.alloc, content.entries())?;
        let entry = Entry::CoordinatorEpoch(opening.epoch);
        let appended = match self.log.install_with(content, entry) {
            Ok(()) => true,
            Err(StoreFault::Device) => false,
            Err(StoreFault::Memory) => return Err(OpenFault::Memory.into()),
        };
        self.table.replace(opening.table);
        self.clock = now;
        self.answered.forget_all();
        if !appended {
            return Err(RestartFault::Unwritten);
        }
        self.table.epoch = opening.epoch;
        Ok(opening.handed)
    }
}
