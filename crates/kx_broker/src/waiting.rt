//! The commits of offsets that the offsets partition has parked.
ghost use Rattle.std.specs.Prelude.{◌≡◌, ◌≤ℤ◌, [], All, MatchResult, pos};
ghost use Rattle.kx_broker.specs.Memory.{IsAdded};
ghost use Rattle.kx_broker.specs.Offsets.{CommitsAt0, ParksCommit};
ghost use Rattle.kx_group.specs.Calls.{AreAlike};
ghost use Rattle.kx_message.specs.declared.message.Message.TheVariants as msg;
ghost use Rattle.kx_model.specs.Verification.{Parked, parked_for, without};
ghost use Rattle.kx_verify.specs.Guard.{SameParked, after, answer_to};
ghost use Rattle.kx_verify.specs.Request.{IsParked};

use crate::parking::has_commit;
use kx_message::{Held, TxnOffsetCommit};
use kx_offsets::commits_fit;
use kx_verify::{Asked, Guard, PARKED_LIMIT, Request};
use std::alloc::{AllocError, Global};
use std::marker::Model;

/// The commits of offsets that wait for the coordinator. All of them begin at sequence 0, since
/// their transaction has nothing in the log yet; so those of one id and epoch are alike, and at
/// most one of them is appended when they run again.
#[derive(Drop)]
pub(crate) struct ParkedCommits {
    guard: Guard,
}

impl Model for ParkedCommits {
    ghost use Rattle.std.specs.Prelude.{List};
    ghost use Rattle.std.specs.List.{All};
    ghost use Rattle.kx_model.specs.Verification.{Parked};
    ghost use Rattle.kx_broker.specs.Offsets.{ParksCommit};

    ghost Value = { List Parked };

    ghost view = { λ c. c.guard };

    ghost invariant = { λ c. All ParksCommit c.guard };
}

impl ParkedCommits {
    /// A list with no parked request. It takes memory from `alloc` as they come.
    pub(crate) fn new(alloc: Global) -> ParkedCommits
        ensures { result ≡ [] }
    {
        ParkedCommits {
            guard: Guard::new(alloc),
        }
    }

    /// Parks a commit, as [`Guard::ask`] does; it is copied only if it is parked as one more.
    ///
    /// # Errors
    ///
    /// Out of memory, only if it is parked as one more; then all is as before.
    pub(crate) fn ask(&mut self, it: &TxnOffsetCommit) -> Result<Asked, AllocError>
        requires above { pos 0 ≤ℤ it.now.first_sequence }
        requires at_0 { (p : Parked) → IsParked (msg.TxnOffsetCommit it.now) p
            → CommitsAt0 p.request }
        ensures { (p : Parked) → IsParked (msg.TxnOffsetCommit it.now) p → MatchResult result
            (λ asked. (asked ≡ answer_to self.old p) × SameParked self.new (after self.old p))
            (λ refused. (self.new ≡ self.old) × IsAdded self.old p) }
    {
        // What it holds fits its fields, so its batch has the id and epoch that it names.
        commits_fit(it);
        let parked = self.guard.parked(it.held);
        if has_commit(parked, it) {
            return Ok(Asked::Parked);
        }
        if parked.len() == PARKED_LIMIT {
            return Ok(Asked::Full);
        }
        match Request::of_offsets(it.clone()?) {
            Ok(request) => self.guard.ask(request),
            Err(_) => unreachable!(),
        }
    }

    /// The parked requests of an id and epoch, in order of arrival.
    pub(crate) fn of_held(&self, held: Held) -> &[Request]
        ensures value { result.now ≡ parked_for self.now held }
        ensures alike { AreAlike result.now }
    {
        self.guard.parked(held)
    }

    /// Takes out those of an id and epoch: the coordinator has answered.
    pub(crate) fn forget(&mut self, held: Held)
        ensures { SameParked self.new (without self.old held) }
    {
        let _answered = self.guard.reply(held);
    }
}
