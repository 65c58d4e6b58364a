//! The requests that a partition has parked.
ghost use Rattle.std.specs.Prelude.{◌≡◌, ◌≤◌, ◌<◌, ◌++◌, [], ◌∷◌, All, length, MatchResult, OnOk};
ghost use Rattle.std.specs.Prelude.{OnErr, Some};
ghost use Rattle.kx_model.specs.Verification.{pair_of, parked_for, parked_limit, without};
ghost use Rattle.kx_verify.specs.Guard.{SameParked, after, answer_to, waits};

use crate::request::Request;
use indexmap::IndexMap;
use kx_message::{Epoch, Held, ProducerId};
use std::alloc::{AllocError, Global};
use std::marker::Model;

/// How many requests of one id and epoch may be parked.
pub const PARKED_LIMIT: usize = 5;

/// What becomes of a request that is to be parked.
#[derive(Clone, Copy, Debug, PartialEq, Eq)]
pub enum Asked {
    /// The request waits for the coordinator.
    Parked,
    /// Five others of its id and epoch wait, and it doesn't.
    Full,
}

/// The requests that a partition has parked, at most five of each id and epoch.
#[derive(Drop)]
pub struct Guard {
    alloc: Global,
    // A map by id and epoch, so a look-up doesn't grow with the requests of others; the order
    // between different ids isn't kept.
    by_held: IndexMap<(ProducerId, Epoch), Vec<Request>>,
}

impl Model for Guard {
    ghost use Rattle.std.specs.Prelude.{List};
    ghost use Rattle.std.specs.List.{flat_map};
    ghost use Rattle.kx_model.specs.Verification.{Parked};
    ghost use Rattle.kx_verify.specs.Internal.Table.{IsTable};

    ghost Value = { List Parked };

    ghost view = { λ g. flat_map (λ e. e.1.items) g.by_held.entries };

    ghost invariant = { λ g. IsTable (λ v. v.items) g.by_held.entries };
}

impl Guard {
    /// A guard with no parked request. It takes memory from `alloc` as they come.
    pub fn new(alloc: Global) -> Guard
        ensures { result ≡ [] }
    {
        Guard {
            alloc,
            by_held: IndexMap::new(alloc),
        }
    }

    /// Parks a request, unless five others of its id and epoch are. One that is equal to a parked
    /// one isn't parked twice: it is dropped and answered [`Asked::Parked`], and takes no memory.
    ///
    /// # Errors
    ///
    /// Only if memory runs out, if it is to be parked. Then all is as before, and the request
    /// is dropped, as it is at [`Asked::Full`].
    pub fn ask(&mut self, request: Request) -> Result<Asked, AllocError>
        ensures answer { MatchResult result (λ asked. (asked ≡ answer_to self.old request)
            × SameParked self.new (after self.old request))
            (λ refused. (self.new ≡ self.old)
            × (after self.old request ≡ self.old ++ request ∷ [])) }
        // If nothing is to be added, nothing changes.
        ensures unchanged { after self.old request ≡ self.old → self.new ≡ self.old }
    {
        if self.has(&request) {
            return Ok(Asked::Parked);
        }
        if self.parked(request.held()).len() == PARKED_LIMIT {
            return Ok(Asked::Full);
        }
        self.add(request)?;
        Ok(Asked::Parked)
    }

    // Whether one that is equal to this request is parked.
    fn has(&self, request: &Request) -> bool
        ensures of_held { result ≡ waits (parked_for self.now request.now.held) request.now }
        ensures value { result ≡ waits self.now request.now }
        ensures few { length (parked_for self.now request.now.held) ≤ parked_limit }
    {
        self.parked(request.held()).contains(request)
    }

    // Parks one more of an id and epoch.
    fn add(&mut self, request: Request) -> Result<(), AllocError>
        requires { length (parked_for self.old request.held) < parked_limit }
        ensures ok { OnOk result (SameParked self.new (self.old ++ request ∷ [])) }
        ensures err { OnErr result (self.new ≡ self.old) }
    {
        let held = request.held();
        if let Some(waiting) = self.by_held.get_mut(&(held.id, held.epoch)) {
            waiting.push(request)?;
            return Ok(());
        }
        let waiting = vec![in self.alloc; request]?;
        self.by_held.insert((held.id, held.epoch), waiting)?;
        Ok(())
    }

    /// The parked requests of an id and epoch, in order of arrival, at most five.
    pub fn parked(&self, held: Held) -> &[Request]
        ensures value { result.now ≡ parked_for self.now held }
        ensures few { length (parked_for self.now held) ≤ parked_limit }
        // Each waits under the id and epoch of its batch.
        ensures own { All (λ p. pair_of p.request ≡ Some p.held) self.now }
    {
        match self.by_held.get(&(held.id, held.epoch)) {
            None => &[],
            Some(waiting) => waiting.as_slice(),
        }
    }

    /// Takes out those of an id and epoch, in order of arrival: the coordinator has answered. No
    /// memory is asked for.
    pub fn reply(&mut self, held: Held) -> Vec<Request>
        ensures replied { result.items ≡ parked_for self.old held }
        ensures others { SameParked self.new (without self.old held) }
    {
        match self.by_held.swap_remove(&(held.id, held.epoch)) {
            None => Vec::new(self.alloc),
            Some(waiting) => waiting,
        }
    }
}
