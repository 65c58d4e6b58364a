//! Error codes of groups that the core has none of.
ghost use Rattle.std.specs.Prelude.{◌≡◌, pos};
ghost use Rattle.kx_group_gateway.specs.Codes.{number_of};

/// An error code of a group's requests that the core never answers, with the number of the Kafka
/// protocol guide's table "Error Codes".
#[derive(Clone, Copy, Debug, PartialEq, Eq)]
pub enum GroupCode {
    /// The group's coordinator can't answer now, and clients ask again.
    CoordinatorNotAvailable = 15,
    /// The core can't hold the group's name.
    InvalidGroupId = 24,
    /// The request commits more than 1000 offsets.
    InvalidCommitOffsetSize = 28,
}

impl GroupCode {
    /// The number of the code as it goes over the wire, an int16.
    pub fn number(self) -> i16
        ensures { result ≡ pos (number_of self) }
    {
        self as i16
    }
}
