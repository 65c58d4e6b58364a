//! The id of a transaction.
//!
//! Two types over one name, in two files alike but for their words: a macro can't write functions
//! with contracts.
ghost use Rattle.std.specs.Prelude.{◌≡◌, Some};
ghost use Rattle.kx_message.specs.Ranges.{IsName};
ghost use Rattle.kx_message.specs.Names.{TakesName};

use crate::fault::ValueFault;
use crate::name::Name;
use std::fmt;
use std::marker::Model;
use std::str::FromStr;

/// The id of a transaction, which its client chose (KIP-98's `transactional.id`): 1 to 64 bytes,
/// each from 0x21 to 0x7E.
#[derive(Clone, Copy, Debug, PartialEq, Eq, PartialOrd, Ord, Hash)]
pub struct TxnId(Name);

impl Model for TxnId {
    ghost use Rattle.std.specs.Prelude.{ℕ, List};
    ghost use Rattle.kx_message.specs.Ranges.{IsName};

    ghost Value = { List ℕ };

    ghost view = { λ id. id.0 };

    ghost invariant = { λ id. IsName id.0 };

    ghost inverse = { λ text. record { 0 = text } };
}

impl TxnId {
    /// The bytes of the id.
    pub fn as_bytes(&self) -> &[u8]
        ensures value { result.now ≡ self.now }
        ensures within { IsName self.now }
    {
        self.0.as_bytes()
    }
}

/// Takes the bytes of a name, and refuses any others with `ValueFault::Name`.
impl TryFrom<&[u8]> for TxnId {
    type Error = ValueFault;

    ghost try_from_gives = { λ text r. TakesName text.now r };

    fn try_from(text: &[u8]) -> Result<Self, ValueFault> {
        Ok(TxnId(Name::try_from(text)?))
    }
}

/// Reads a name as it stands, and refuses any other text with `ValueFault::Name`.
impl FromStr for TxnId {
    type Err = ValueFault;

    ghost from_str_gives = { TakesName };

    fn from_str(text: &str) -> Result<Self, ValueFault> {
        TxnId::try_from(text.as_bytes())
    }
}

/// As the bytes stand.
impl fmt::Display for TxnId {
    ghost output = { λ id. Some id };

    fn fmt<W: fmt::Write>(&self, f: &mut fmt::Formatter<W>) -> fmt::Result {
        f.write_str(self.0.as_str())
    }
}
