//! What the core is asked for in nobody's name: ends of transactions of the server's own that a server
//! before it left open, and producer ids that no producer is to get.
use crate::committing::is_own;
use indexmap::IndexMap;
use kx_message::{
    Caller, ClientId, EndTxn, Epoch, Held, InitProducerId, Message, Outcome, ProducerId, Timeout,
    TxnId,
};
use kx_txnlog::{Entry, Row, State};
use std::alloc::{AllocError, Global};

// The request that aborts the transaction of a row.
fn abort_of(row: &Row) -> EndTxn {
    EndTxn {
        caller: Caller {
            client: row.owner,
            correlation: 0,
        },
        txn: row.txn,
        held: Held {
            id: row.id,
            epoch: row.epoch,
        },
        outcome: Outcome::Abort,
    }
}

/// The requests that abort the transactions of the server's own that are under way by these entries.
/// Nobody else ends them before their time is up, and until then the offsets of their groups aren't
/// stable.
pub(crate) fn aborts_of(alloc: Global, entries: &[Entry]) -> Result<Vec<EndTxn>, AllocError> {
    let mut last = IndexMap::new(alloc);
    for entry in entries {
        if let Entry::Row(row) = entry
            && is_own(&row.txn)
        {
            let left = if row.state == State::Ongoing {
                Some(abort_of(row))
            } else {
                None
            };
            if last.insert(row.txn, left).is_err() {
                return Err(AllocError);
            }
        }
    }
    let mut aborts = Vec::new(alloc);
    for (_, left) in last.iter() {
        if let Some(abort) = left {
            aborts.push(*abort)?;
        }
    }
    Ok(aborts)
}

// A client for which no connection speaks, since their numbers are below 2^31; so replies to it are
// dropped.
fn nobody() -> Caller {
    Caller {
        client: ClientId::from(u32::MAX),
        correlation: 0,
    }
}

/// The request for a producer id that no producer gets.
pub(crate) fn id_to_pass(caller: Caller) -> Message {
    let Ok(timeout) = Timeout::try_from(1) else {
        unreachable!();
    };
    Message::InitProducerId(InitProducerId {
        caller,
        txn: None,
        timeout,
    })
}

/// The end of a transaction that nobody has: the coordinator refuses it, and changes nothing.
pub(crate) fn end_of_nobody() -> Message {
    let Ok(txn) = TxnId::try_from(b"~nobody".as_slice()) else {
        unreachable!();
    };
    let Ok(id) = ProducerId::try_from(i64::MAX) else {
        unreachable!();
    };
    Message::EndTxn(EndTxn {
        caller: nobody(),
        txn,
        held: Held {
            id,
            epoch: Epoch::LAST,
        },
        outcome: Outcome::Abort,
    })
}

/// The request for a producer id that no producer gets, and whose reply is dropped.
pub(crate) fn id_for_nobody() -> Message {
    id_to_pass(nobody())
}
