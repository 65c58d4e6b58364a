//! The APIs that are spoken, and in which versions.
ghost use Rattle.std.specs.Prelude.{◌≡◌, pos};
ghost use Rattle.kx_kafka.specs.Apis.{number_of, key_with, first_version, last_version};
ghost use Rattle.kx_kafka.specs.Apis.{flexible_from, is_from, version_with};

use kx_kafka_types::Version;

/// An API of Kafka's protocol.
#[derive(Clone, Copy, Debug, PartialEq, Eq)]
pub enum ApiKey {
    /// Appends record batches.
    Produce = 0,
    /// Reads record batches.
    Fetch = 1,
    /// Finds offsets by time.
    ListOffsets = 2,
    /// Lists brokers and topics.
    Metadata = 3,
    /// Commits a group's offsets.
    OffsetCommit = 8,
    /// Reads a group's offsets.
    OffsetFetch = 9,
    /// Finds the broker of a group or of a transactional id.
    FindCoordinator = 10,
    /// Joins a group.
    JoinGroup = 11,
    /// Keeps a member in its group.
    Heartbeat = 12,
    /// Leaves a group.
    LeaveGroup = 13,
    /// Shares out the assignment of a group.
    SyncGroup = 14,
    /// Lists the APIs and their versions.
    ApiVersions = 18,
    /// Gives a producer its id and epoch.
    InitProducerId = 22,
    /// Adds partitions to a transaction.
    AddPartitionsToTxn = 24,
    /// Adds a group's offsets to a transaction.
    AddOffsetsToTxn = 25,
    /// Commits or aborts a transaction.
    EndTxn = 26,
    /// Commits a group's offsets in a transaction.
    TxnOffsetCommit = 28,
}

impl ApiKey {
    /// Its number, the API key.
    pub fn number(self) -> i16
        ensures { result ≡ pos (number_of self) }
    {
        match self {
            ApiKey::Produce => 0,
            ApiKey::Fetch => 1,
            ApiKey::ListOffsets => 2,
            ApiKey::Metadata => 3,
            ApiKey::OffsetCommit => 8,
            ApiKey::OffsetFetch => 9,
            ApiKey::FindCoordinator => 10,
            ApiKey::JoinGroup => 11,
            ApiKey::Heartbeat => 12,
            ApiKey::LeaveGroup => 13,
            ApiKey::SyncGroup => 14,
            ApiKey::ApiVersions => 18,
            ApiKey::InitProducerId => 22,
            ApiKey::AddPartitionsToTxn => 24,
            ApiKey::AddOffsetsToTxn => 25,
            ApiKey::EndTxn => 26,
            ApiKey::TxnOffsetCommit => 28,
        }
    }

    /// The API with this key, or `None` if none that is spoken has it.
    #[tactic(auto, unfolding(crate::specs::Apis::key_with))]
    pub fn from_number(number: i16) -> Option<ApiKey>
        ensures { result ≡ key_with number }
    {
        Some(match number {
            0 => ApiKey::Produce,
            1 => ApiKey::Fetch,
            2 => ApiKey::ListOffsets,
            3 => ApiKey::Metadata,
            8 => ApiKey::OffsetCommit,
            9 => ApiKey::OffsetFetch,
            10 => ApiKey::FindCoordinator,
            11 => ApiKey::JoinGroup,
            12 => ApiKey::Heartbeat,
            13 => ApiKey::LeaveGroup,
            14 => ApiKey::SyncGroup,
            18 => ApiKey::ApiVersions,
            22 => ApiKey::InitProducerId,
            24 => ApiKey::AddPartitionsToTxn,
            25 => ApiKey::AddOffsetsToTxn,
            26 => ApiKey::EndTxn,
            28 => ApiKey::TxnOffsetCommit,
            _ => return None,
        })
    }

    /// The first version that is spoken.
    pub fn first_version(self) -> u16
        ensures { result ≡ first_version self }
    {
        match self {
            ApiKey::Produce => 3,
            ApiKey::Fetch => 4,
            ApiKey::ListOffsets | ApiKey::OffsetCommit | ApiKey::OffsetFetch => 1,
            _ => 0,
        }
    }

    /// The last version that is spoken.
    pub fn last_version(self) -> u16
        ensures { result ≡ last_version self }
    {
        match self {
            ApiKey::OffsetFetch => 7,
            ApiKey::Metadata => 5,
            ApiKey::Produce | ApiKey::Fetch | ApiKey::InitProducerId => 4,
            ApiKey::TxnOffsetCommit => 3,
            ApiKey::ListOffsets | ApiKey::OffsetCommit | ApiKey::JoinGroup => 2,
            ApiKey::FindCoordinator
            | ApiKey::Heartbeat
            | ApiKey::LeaveGroup
            | ApiKey::SyncGroup
            | ApiKey::EndTxn => 1,
            ApiKey::ApiVersions | ApiKey::AddPartitionsToTxn | ApiKey::AddOffsetsToTxn => 0,
        }
    }

    /// The first version that is flexible, or `None` if none of those that are spoken is.
    pub fn flexible_from(self) -> Option<u16>
        ensures { result ≡ flexible_from self }
    {
        match self {
            ApiKey::OffsetFetch => Some(6),
            ApiKey::InitProducerId => Some(2),
            ApiKey::TxnOffsetCommit => Some(3),
            _ => None,
        }
    }

    // Whether a version is flexible.
    fn is_flexible(self, number: u16) -> bool
        ensures { result ≡ is_from (flexible_from self) number }
    {
        match self.flexible_from() {
            None => false,
            Some(first) => number >= first,
        }
    }

    /// Its version of this number, or `None` if it isn't spoken in that one.
    #[tactic(auto, unfolding(crate::specs::Apis::version_with))]
    pub fn version(self, number: i16) -> Option<Version>
        ensures { result ≡ version_with self number }
    {
        if number < 0 {
            return None;
        }
        let number = number as u16;
        if number < self.first_version() || self.last_version() < number {
            return None;
        }
        Some(Version {
            number,
            flexible: self.is_flexible(number),
        })
    }
}
