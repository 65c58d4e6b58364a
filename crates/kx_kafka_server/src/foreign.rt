//! Transactional ids that stock clients can't have: the number of their owner leaves none above it to
//! the clients in whose name the server asks, and the core refuses those of smaller numbers.
use crate::committing::place_of;
use crate::span::Span;
use indexmap::IndexMap;
use kx_message::{ClientId, TxnId};
use kx_txnlog::Entry;
use std::alloc::{AllocError, Global};

// How many of them have a line when a server begins.
const MOST_NAMED: usize = 20;

/// The transactional ids whose owner leaves no numbers, with their owners.
#[derive(Drop)]
pub(crate) struct Foreign {
    owners: IndexMap<TxnId, ClientId>,
}

impl Foreign {
    /// Those of these entries. The owner of an id is that of its last row.
    pub(crate) fn of(alloc: Global, span: &Span, entries: &[Entry]) -> Result<Foreign, AllocError> {
        let mut owners = IndexMap::new(alloc);
        for entry in entries {
            if let Entry::Row(row) = entry {
                if span.leaves(row.owner) {
                    owners.swap_remove(&row.txn);
                } else if owners.insert(row.txn, row.owner).is_err() {
                    return Err(AllocError);
                }
            }
        }
        Ok(Foreign { owners })
    }

    /// Whether the id is one of them.
    pub(crate) fn has(&self, txn: &TxnId) -> bool {
        self.owners.get(txn).is_some()
    }

    /// The places of groups for which the server has no transactional id of its own: they are owned so.
    pub(crate) fn places(&self, alloc: Global) -> Result<Vec<usize>, AllocError> {
        let mut places = Vec::new(alloc);
        for (txn, _) in self.owners.iter() {
            if let Some(place) = place_of(txn) {
                places.push(place)?;
            }
        }
        Ok(places)
    }

    /// Says on standard error which ids are refused.
    pub(crate) fn tell<R: Eprint>(&self, rt: &R) {
        // Nobody may watch.
        for (txn, owner) in self.owners.iter().take(MOST_NAMED) {
            let number = owner.get();
            let _ = eprintln!(rt;
                "transactional id {txn} is refused: no stock client has a number above its owner's, {number}"
            );
        }
        let more = self.owners.len().saturating_sub(MOST_NAMED);
        if more > 0 {
            let _ = eprintln!(rt; "{more} more transactional ids are refused for the same reason");
        }
    }
}
