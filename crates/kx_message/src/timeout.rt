//! How long a transaction may stay open.
ghost use Rattle.std.specs.Prelude.{◌≡◌, ℕ, Some, OkIff, IsOkUnless, decimal};
ghost use Rattle.kx_message.specs.Ranges.{IsTimeout};
ghost use Rattle.kx_message.specs.declared.fault.ValueFault.{ValueFault};

use crate::fault::ValueFault;
use std::fmt;
use std::marker::Model;

/// The longest timeout, in milliseconds: Kafka's default for `transaction.max.timeout.ms`.
const LONGEST: u32 = 900_000;

/// The timeout of a transaction, 1 to 900000 milliseconds (KIP-98's `transaction.timeout.ms`).
#[derive(Clone, Copy, Debug, PartialEq, Eq, PartialOrd, Ord, Hash)]
pub struct Timeout(u32);

impl Model for Timeout {
    ghost Value = { ℕ };

    ghost view = { λ timeout. timeout.0 };

    ghost invariant = { λ timeout. IsTimeout timeout.0 };

    ghost inverse = { λ n. record { 0 = n } };
}

impl Timeout {
    /// The timeout in milliseconds.
    pub fn get(self) -> u32
        ensures value { result ≡ self }
        ensures within { IsTimeout self }
    {
        self.0
    }
}

/// Takes 1 to 900000 milliseconds, and refuses any other number with `ValueFault::Timeout`.
impl TryFrom<u32> for Timeout {
    type Error = ValueFault;

    ghost try_from_gives = { λ n r. OkIff r (IsTimeout n) n × IsOkUnless r ValueFault.Timeout };

    fn try_from(millis: u32) -> Result<Self, ValueFault> {
        match millis {
            1..=LONGEST => Ok(Timeout(millis)),
            _ => Err(ValueFault::Timeout),
        }
    }
}

/// In decimal.
impl fmt::Display for Timeout {
    ghost output = { λ timeout. Some (decimal timeout) };

    fn fmt<W: fmt::Write>(&self, f: &mut fmt::Formatter<W>) -> fmt::Result {
        let Timeout(millis) = *self;
        write!(f, "{millis}")
    }
}
