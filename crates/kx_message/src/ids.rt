//! The numbers of producers, of their epochs and of clients.
ghost use Rattle.std.specs.Prelude.{◌≡◌, ◌+◌, ℕ, ℤ, pos, ◌<ℤ◌, Some, MatchOption, MatchResult};
ghost use Rattle.std.specs.Prelude.{decimal};
ghost use Rattle.kx_message.specs.Ranges.{IsProducerId, IsEpoch, spent_epoch};
ghost use Rattle.kx_message.specs.declared.fault.ValueFault.{ValueFault};

use crate::fault::ValueFault;
use std::fmt;
use std::marker::Model;

/// The id of a producer, 0 to 2^63 - 1, which its coordinator assigns (KIP-98).
#[derive(Clone, Copy, Debug, PartialEq, Eq, PartialOrd, Ord, Hash)]
pub struct ProducerId(u64);

impl Model for ProducerId {
    ghost Value = { ℕ };

    ghost view = { λ id. id.0 };

    ghost invariant = { λ id. IsProducerId id.0 };

    ghost inverse = { λ n. record { 0 = n } };
}

impl ProducerId {
    /// The id as it goes over the wire, an int64.
    pub fn get(self) -> i64
        ensures value { result ≡ pos self }
        ensures within { IsProducerId self }
    {
        self.0 as i64
    }
}

/// Takes what an int64 field holds, and refuses a number below 0 with `ValueFault::ProducerId`.
impl TryFrom<i64> for ProducerId {
    type Error = ValueFault;

    ghost try_from_gives = { λ z r. MatchResult r (λ id. z ≡ pos id)
        (λ fault. (z <ℤ pos 0) × (fault ≡ ValueFault.ProducerId)) };

    fn try_from(id: i64) -> Result<Self, ValueFault> {
        if id < 0 {
            return Err(ValueFault::ProducerId);
        }
        Ok(ProducerId(id as u64))
    }
}

/// In decimal.
impl fmt::Display for ProducerId {
    ghost output = { λ id. Some (decimal id) };

    fn fmt<W: fmt::Write>(&self, f: &mut fmt::Formatter<W>) -> fmt::Result {
        let ProducerId(id) = *self;
        write!(f, "{id}")
    }
}

/// The epoch of a producer, 0 to 32766, or of a transaction marker, 1 to 32767 (KIP-98).
#[derive(Clone, Copy, Debug, PartialEq, Eq, PartialOrd, Ord, Hash)]
pub struct Epoch(u16);

impl Model for Epoch {
    ghost Value = { ℕ };

    ghost view = { λ epoch. epoch.0 };

    ghost invariant = { λ epoch. IsEpoch epoch.0 };

    ghost inverse = { λ n. record { 0 = n } };
}

impl Epoch {
    /// The epoch that a new id begins at.
    pub const FIRST: Epoch = Epoch(0);

    /// The last epoch that a producer holds: above it an id gives way to a new one (KIP-890).
    pub const LAST: Epoch = Epoch(32_766);

    /// The epoch of the marker that ends an id's last transaction, and of no producer.
    pub const SPENT: Epoch = Epoch(32_767);

    /// The epoch above this one, as the marker of a transaction has it and the transaction after
    /// (KIP-890). Above [`Epoch::SPENT`] there is none.
    pub fn raised(self) -> Option<Epoch>
        ensures { MatchOption result (self ≡ spent_epoch) (λ epoch. epoch ≡ self + 1) }
    {
        if self == Epoch::SPENT {
            return None;
        }
        Some(Epoch(self.0 + 1))
    }

    /// The epoch as it goes over the wire, an int16.
    pub fn get(self) -> i16
        ensures value { result ≡ pos self }
        ensures within { IsEpoch self }
    {
        self.0 as i16
    }
}

/// Takes what an int16 field holds, and refuses a number below 0 with `ValueFault::Epoch`.
impl TryFrom<i16> for Epoch {
    type Error = ValueFault;

    ghost try_from_gives = { λ z r. MatchResult r (λ epoch. z ≡ pos epoch)
        (λ fault. (z <ℤ pos 0) × (fault ≡ ValueFault.Epoch)) };

    fn try_from(epoch: i16) -> Result<Self, ValueFault> {
        if epoch < 0 {
            return Err(ValueFault::Epoch);
        }
        Ok(Epoch(epoch as u16))
    }
}

/// In decimal.
impl fmt::Display for Epoch {
    ghost output = { λ epoch. Some (decimal epoch) };

    fn fmt<W: fmt::Write>(&self, f: &mut fmt::Formatter<W>) -> fmt::Result {
        let Epoch(epoch) = *self;
        write!(f, "{epoch}")
    }
}

/// The number that a script gives to a client, any u32.
#[derive(Clone, Copy, Debug, PartialEq, Eq, PartialOrd, Ord, Hash)]
pub struct ClientId(u32);

impl Model for ClientId {
    ghost Value = { ℕ };

    ghost view = { λ client. client.0 };

    ghost inverse = { λ n. record { 0 = n } };
}

impl ClientId {
    /// The client's number.
    pub fn get(self) -> u32
        ensures { result ≡ self }
    {
        self.0
    }
}

impl From<u32> for ClientId {
    ghost from_gives = { λ n client. client ≡ n };

    fn from(number: u32) -> Self {
        ClientId(number)
    }
}

/// In decimal.
impl fmt::Display for ClientId {
    ghost output = { λ client. Some (decimal client) };

    fn fmt<W: fmt::Write>(&self, f: &mut fmt::Formatter<W>) -> fmt::Result {
        let ClientId(client) = *self;
        write!(f, "{client}")
    }
}
