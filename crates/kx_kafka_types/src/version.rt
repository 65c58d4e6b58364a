//! The version of a request and of its response.

/// The version of an API in which a request is made and answered.
#[derive(Clone, Copy, Debug, PartialEq, Eq)]
pub struct Version {
    /// Its number.
    pub number: u16,
    /// Whether it is flexible: compact lengths, and tagged fields at the end of each struct
    /// (KIP-482).
    pub flexible: bool,
}
