//! Which records a client reads.
ghost use Rattle.std.specs.Prelude.{◌≡◌, pos};
ghost use Rattle.kx_kafka.specs.Apis.{level_number, level_with};

/// Which records a client reads (KIP-98): the isolation level of a request to Fetch or ListOffsets.
#[derive(Clone, Copy, Debug, PartialEq, Eq)]
pub enum IsolationLevel {
    /// All.
    ReadUncommitted = 0,
    /// Those of no transaction and of committed ones, up to the last stable offset.
    ReadCommitted = 1,
}

impl IsolationLevel {
    /// Its number, as requests have it.
    pub fn number(self) -> i8
        ensures { result ≡ pos (level_number self) }
    {
        match self {
            IsolationLevel::ReadUncommitted => 0,
            IsolationLevel::ReadCommitted => 1,
        }
    }

    /// The level of this number, or `None` if Kafka has none.
    #[tactic(auto, unfolding(crate::specs::Apis::level_with))]
    pub fn from_number(number: i8) -> Option<IsolationLevel>
        ensures { result ≡ level_with number }
    {
        match number {
            0 => Some(IsolationLevel::ReadUncommitted),
            1 => Some(IsolationLevel::ReadCommitted),
            _ => None,
        }
    }
}
