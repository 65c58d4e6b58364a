//! Which client numbers a server takes, and which are left to it.
ghost use Rattle.std.specs.Prelude.{◌≡◌, ◌<◌, ◌+◌, MatchOption, true};
ghost use Rattle.kx_kafka_server.specs.Numbers.{BeginAbove, NoneIsTakenTwice, begun};
ghost use Rattle.kx_kafka_server.specs.Numbers.{given_back, is_within, keeps_nothing, leaves, limit};
ghost use Rattle.kx_kafka_server.specs.Numbers.{missing, noted, reserved, taken};

use kx_message::{ClientId, ErrorCode};

/// The numbers of a server are below this one.
pub(crate) const LIMIT: u32 = 2_147_483_648;

// How many numbers are left to a server, whatever numbers others had.
const SPARE: u32 = 1_048_576;

// How many numbers are reserved at once.
const BLOCK: u32 = 1024;

// How many blocks have all numbers below the limit.
const MOST_BLOCKS: u32 = LIMIT / BLOCK;

/// The numbers of a server: those from `next` on are free, and those of the first `blocks` blocks,
/// of 1024 numbers each, are reserved.
#[derive(Clone, Copy, Debug, Drop)]
pub(crate) struct Span {
    pub(crate) next: u32,
    pub(crate) blocks: u32,
}

// Whether a number is in one of the first blocks.
fn is_within(blocks: u32, number: u32) -> bool
    ensures { result ≡ is_within blocks number }
{
    number / BLOCK < blocks
}

impl Span {
    /// The numbers that are left after this many blocks, which are reserved. None if these have all
    /// numbers below the limit.
    pub(crate) fn begin(blocks: u32) -> Option<Span>
        ensures { result ≡ begun blocks }
    {
        if blocks < MOST_BLOCKS {
            Some(Span {
                next: blocks * BLOCK,
                blocks,
            })
        } else {
            None
        }
    }

    /// Whether the owner of a transactional id, or the member of a group, leaves numbers above its
    /// own: it is below the limit, and was reserved, or is far enough below the limit.
    pub(crate) fn leaves(&self, owner: ClientId) -> bool
        ensures { result ≡ leaves self.now.blocks owner }
    {
        let owner = owner.get();
        owner < LIMIT && (is_within(self.blocks, owner) || owner < LIMIT - SPARE)
    }

    /// An owner of a transactional id, or a member of a group, is known: numbers go on above its own,
    /// if it leaves some.
    pub(crate) fn note(&mut self, owner: ClientId)
        ensures { self.new ≡ noted self.old owner }
    {
        if self.leaves(owner) {
            self.next = self.next.max(owner.get() + 1);
        }
    }

    /// How many blocks are to be reserved before the next number is taken; 0 if none is left.
    pub(crate) fn missing(&self) -> u32
        ensures { result ≡ missing self.now }
    {
        if self.next < LIMIT {
            (self.next / BLOCK + 1).saturating_sub(self.blocks)
        } else {
            0
        }
    }

    /// The blocks that were missing are reserved.
    pub(crate) fn reserve(&mut self)
        ensures { self.new ≡ reserved self.old }
    {
        let missing = self.missing();
        if missing > 0 {
            self.blocks += missing;
        }
    }

    /// Takes the next number. None if it isn't reserved, or is at the limit.
    pub(crate) fn take(&mut self) -> Option<ClientId>
        ensures given { MatchOption result (self.new ≡ self.old)
            (λ client. (client ≡ self.old.next) × (client < limit)
            × (self.new.next ≡ self.old.next + 1)
            × (is_within self.new.blocks client ≡ true)) }
        ensures after { self.new ≡ taken self.old }
    {
        if self.next >= LIMIT || !is_within(self.blocks, self.next) {
            return None;
        }
        let number = self.next;
        self.next = number + 1;
        Some(ClientId::from(number))
    }

    /// A number that was taken is used no more: it is the next again, if it was the last.
    pub(crate) fn give_back(&mut self, client: ClientId)
        ensures { self.new ≡ given_back self.old client }
    {
        let number = client.get();
        if self.next > 0 && number == self.next - 1 {
            self.next = number;
        }
    }
}

/// Whether the coordinator keeps nothing of a client whose request for an id of a transactional id it
/// answers with this code.
pub(crate) fn keeps_nothing(code: ErrorCode) -> bool
    ensures { result ≡ keeps_nothing code }
{
    match code {
        ErrorCode::ConcurrentTransactions | ErrorCode::ProducerFenced => true,
        _ => false,
    }
}

/// A law: a number that is in use isn't taken once more, whatever is reserved, taken and given back.
pub(crate) fn none_is_taken_twice()
    ensures { NoneIsTakenTwice }
{}

/// A law: numbers begin above each owner that leaves some, and above each that is reserved.
pub(crate) fn numbers_begin_above_owners()
    ensures { BeginAbove }
{}
