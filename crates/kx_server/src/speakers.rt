//! The clients for which a connection speaks.
ghost use Rattle.std.specs.Prelude.{◌≡◌, ◌≤◌, IfOk, MatchBool, OnErr, false, nat_eq};
ghost use Rattle.indexmap.specs.IndexSet.{contains, index_set_len, insert_key};

use indexmap::IndexSet;
use kx_message::ClientId;
use std::alloc::{AllocError, Global};

// For how many clients a connection may speak.
const MOST_CLIENTS: usize = 1024;

/// The numbers of the clients for which a connection speaks, at most 1,024.
#[derive(Drop)]
pub(crate) struct Speakers {
    numbers: IndexSet<u32>,
}

impl Speakers {
    /// A list of no client.
    pub(crate) fn new(alloc: Global) -> Speakers {
        Speakers {
            numbers: IndexSet::new(alloc),
        }
    }

    /// Notes that the connection speaks for a client, and says whether it may: not for a client
    /// that would be one too many.
    pub(crate) fn hear(&mut self, client: ClientId) -> Result<bool, AllocError>
        ensures heard { IfOk result (λ may. MatchBool may
            (self.new.numbers.keys ≡ insert_key nat_eq self.old.numbers.keys client)
            ((self.new.numbers ≡ self.old.numbers) × (MOST_CLIENTS ≤ index_set_len self.old.numbers)
            × (contains nat_eq self.old.numbers client ≡ false))) }
        ensures refused { OnErr result (self.new.numbers.keys ≡ self.old.numbers.keys) }
    {
        if self.numbers.contains(&client.get()) {
            return Ok(true);
        }
        if self.numbers.len() >= MOST_CLIENTS {
            return Ok(false);
        }
        match self.numbers.insert(client.get()) {
            Ok(_) => Ok(true),
            Err(_) => Err(AllocError),
        }
    }
}
