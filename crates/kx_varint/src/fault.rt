//! Why no number is at the front of some bytes.
ghost use Rattle.std.specs.Prelude.{◌≡◌};
ghost use Rattle.kx_varint.specs.Faults.{number_of};

use thiserror::Error;

/// Why no number is at the front of the bytes. Reading changes nothing, whatever it answers.
#[derive(Clone, Copy, Debug, PartialEq, Eq, Drop, Error)]
pub enum VarFault {
    /// The bytes end within the number: more of them could complete it.
    #[error("the bytes end within the number")]
    Short = 1,
    /// No bytes that begin so spell a number: there is one group too many, or its value is out of
    /// range.
    #[error("the number is too long")]
    TooLong = 2,
}

impl VarFault {
    /// The number of the fault, 1 to 2.
    pub fn number(self) -> u8
        ensures { result ≡ number_of self }
    {
        self as u8
    }
}
