//! How a transaction ends.
ghost use Rattle.std.specs.Prelude.{◌≡◌, Some};
ghost use Rattle.kx_message.specs.Codes.{outcome_byte, outcome_text, IsOutcomeOfByte};
ghost use Rattle.kx_message.specs.Codes.{IsOutcomeOfText};

use crate::fault::ValueFault;
use std::fmt;
use std::str::FromStr;

/// How a transaction ends: the `committed` flag of a request to end it, and the type of the control
/// record that marks its end (KIP-98).
#[derive(Clone, Copy, Debug, PartialEq, Eq, PartialOrd, Ord, Hash)]
pub enum Outcome {
    /// Byte 0: the records of the transaction never become visible.
    Abort = 0,
    /// Byte 1: the records of the transaction become visible.
    Commit = 1,
}

impl Outcome {
    /// The byte that stands for the outcome.
    pub fn get(self) -> u8
        ensures { result ≡ outcome_byte self }
    {
        self as u8
    }
}

/// Takes the bytes 0 and 1, and refuses any other with `ValueFault::Outcome`.
impl TryFrom<u8> for Outcome {
    type Error = ValueFault;

    ghost try_from_gives = { IsOutcomeOfByte };

    fn try_from(byte: u8) -> Result<Self, ValueFault> {
        match byte {
            0 => Ok(Outcome::Abort),
            1 => Ok(Outcome::Commit),
            _ => Err(ValueFault::Outcome),
        }
    }
}

/// Reads `abort` and `commit`, and refuses any other text with `ValueFault::Outcome`.
impl FromStr for Outcome {
    type Err = ValueFault;

    ghost from_str_gives = { IsOutcomeOfText };

    fn from_str(text: &str) -> Result<Self, ValueFault> {
        match text {
            "abort" => Ok(Outcome::Abort),
            "commit" => Ok(Outcome::Commit),
            _ => Err(ValueFault::Outcome),
        }
    }
}

/// As `abort` or `commit`.
impl fmt::Display for Outcome {
    ghost output = { λ outcome. Some (outcome_text outcome) };

    fn fmt<W: fmt::Write>(&self, f: &mut fmt::Formatter<W>) -> fmt::Result {
        f.write_str(match self {
            Outcome::Abort => "abort",
            Outcome::Commit => "commit",
        })
    }
}
