//! What the server knows of producers with a transactional id, which threads share.
use crate::absent::Absent;
use crate::committing::is_own;
use crate::users::Users;
use indexmap::IndexMap;
use kx_grant::{Grant, Producer};
use kx_message::TxnId;
use kx_regrant::Regrant;
use kx_txnlog::Entry;
use std::alloc::{AllocError, Global};
use std::mem;
use std::sync::{Arc, Mutex, Wait};

// While there are as many transactional ids, none is added. All that the coordinator's log has when the
// server begins are there.
const MOST_IDS: usize = 100_000;

// The producer of a transactional id.
#[derive(Drop)]
struct Known {
    producer: Arc<Mutex<Producer>>,
    // those who ask for an id now
    users: Users,
    // whether one was granted
    is_granted: bool,
}

// The producers, by their transactional ids.
#[derive(Drop)]
struct All {
    by_id: IndexMap<TxnId, Known>,
    // whether whoever runs the server is told that there are as many as may be
    is_told: bool,
}

/// The producers, by their transactional ids.
#[derive(Drop)]
pub(crate) struct Producers {
    alloc: Global,
    all: Mutex<All>,
}

// A producer that wasn't heard yet.
fn unheard(alloc: Global, grant: Option<Grant>) -> Result<Arc<Mutex<Producer>>, AllocError> {
    match Arc::new(alloc, Mutex::new(Producer::new(grant))) {
        Ok(producer) => Ok(producer),
        Err(_) => Err(AllocError),
    }
}

// What the rows of each transactional id say of its grant. The server's own aren't asked for.
fn regrants(alloc: Global, entries: &[Entry]) -> Result<IndexMap<TxnId, Regrant>, AllocError> {
    let mut found = IndexMap::new(alloc);
    for entry in entries {
        if let Entry::Row(row) = entry
            && !is_own(&row.txn)
        {
            let mut regrant = match found.get(&row.txn) {
                Some(regrant) => *regrant,
                None => Regrant::new(),
            };
            regrant.note_row(row);
            if found.insert(row.txn, regrant).is_err() {
                return Err(AllocError);
            }
        }
    }
    Ok(found)
}

impl All {
    // The producer of a transactional id that is there, for one who asks for an id.
    fn enter_known(&mut self, txn: &TxnId) -> Option<Result<Arc<Mutex<Producer>>, AllocError>> {
        let known = self.by_id.get_mut(txn)?;
        let producer = Arc::try_clone(&known.producer);
        if producer.is_ok() {
            known.users.enter();
        }
        Some(producer)
    }

    // Adds a transactional id, for one who asks for an id.
    fn add(&mut self, alloc: Global, txn: TxnId) -> Result<Arc<Mutex<Producer>>, Absent> {
        if self.by_id.len() >= MOST_IDS {
            return Err(Absent::Full);
        }
        let producer = unheard(alloc, None)?;
        let shared = Arc::try_clone(&producer)?;
        let mut users = Users::none();
        users.enter();
        let known = Known {
            producer,
            users,
            is_granted: false,
        };
        match self.by_id.insert(txn, known) {
            Ok(_) => Ok(shared),
            Err(_) => Err(Absent::Memory),
        }
    }

    // One who asked for an id was answered.
    fn leave(&mut self, txn: &TxnId, is_granted: bool) {
        let Some(known) = self.by_id.get_mut(txn) else {
            return;
        };
        known.is_granted = known.is_granted || is_granted;
        if known.users.leave() && !known.is_granted {
            self.by_id.swap_remove(txn);
            self.is_told = false;
        }
    }
}

impl Producers {
    /// The producers whose grants the coordinator's log has.
    pub(crate) fn open(alloc: Global, entries: &[Entry]) -> Result<Producers, AllocError> {
        let mut by_id = IndexMap::new(alloc);
        for (txn, regrant) in regrants(alloc, entries)?.iter() {
            let known = Known {
                producer: unheard(alloc, regrant.grant())?,
                users: Users::none(),
                is_granted: true,
            };
            if by_id.insert(*txn, known).is_err() {
                return Err(AllocError);
            }
        }
        Ok(Producers {
            alloc,
            all: Mutex::new(All {
                by_id,
                is_told: false,
            }),
        })
    }

    /// The producer of a transactional id, if it was granted.
    pub(crate) fn find<R: Wait>(&self, rt: &R, txn: &TxnId) -> Option<Arc<Mutex<Producer>>> {
        let all = self.all.lock(rt);
        let known = all.by_id.get(txn)?;
        if !known.is_granted {
            return None;
        }
        Arc::try_clone(&known.producer).ok()
    }

    /// The producer of a transactional id, for one who asks for an id, until it calls
    /// [`leave`](Producers::leave).
    ///
    /// # Errors
    ///
    /// If it isn't there and memory runs out, or as many are kept as may be.
    pub(crate) fn enter<R: Wait>(
        &self,
        rt: &R,
        txn: TxnId,
    ) -> Result<Arc<Mutex<Producer>>, Absent> {
        let mut all = self.all.lock(rt);
        match all.enter_known(&txn) {
            Some(known) => Ok(known?),
            None => all.add(self.alloc, txn),
        }
    }

    /// One who asked for an id is answered, and whether it was granted one. A transactional id for
    /// which none was ever granted and nobody asks is forgotten.
    pub(crate) fn leave<R: Wait>(&self, rt: &R, txn: &TxnId, is_granted: bool) {
        self.all.lock(rt).leave(txn, is_granted);
    }

    /// As many are kept as may be. Says whether that is new, so that whoever runs the server is told.
    pub(crate) fn is_full_anew<R: Wait>(&self, rt: &R) -> bool {
        !mem::replace(&mut self.all.lock(rt).is_told, true)
    }
}
