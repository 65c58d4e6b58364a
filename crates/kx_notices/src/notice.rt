//! What a notice is of.
ghost use Rattle.std.specs.Prelude.{◌≡◌};
ghost use Rattle.kx_notices.specs.Texts.{refusal_words, shortage_words};

use crate::closing::Closing;
use crate::said::Said;

/// What a client asks for that isn't served.
#[derive(Drop)]
pub enum Unserved {
    /// An API.
    Api {
        /// Its number, the API key.
        key: i16,
    },
    /// A version of an API of which others are served.
    Version {
        /// The name of the API.
        api: Said,
        /// The version.
        version: i16,
        /// The least that is served.
        least: i16,
        /// The greatest that is served.
        greatest: i16,
    },
}

/// Why a topic isn't made for which a client asks.
#[derive(Clone, Copy, Debug, PartialEq, Eq)]
pub enum TopicRefusal {
    /// Kafka doesn't allow its name.
    Name,
    /// The server makes no topics when clients ask for them, or none of such a name.
    Forbidden,
    /// Too few partitions are free.
    Full,
    /// It can't be kept in the folder.
    Device,
    /// Memory ran out.
    Memory,
}

impl TopicRefusal {
    /// Why, in words.
    pub(crate) fn words(self) -> &'static str
        ensures { result.now ≡ refusal_words self }
    {
        match self {
            TopicRefusal::Name => "Kafka doesn't allow its name",
            TopicRefusal::Forbidden => "no such topic is made when a client asks for it",
            TopicRefusal::Full => "no partitions are free",
            TopicRefusal::Device => "its line can't be written to the folder",
            TopicRefusal::Memory => "out of memory",
        }
    }
}

/// What a server has no more of.
#[derive(Clone, Copy, Debug, PartialEq, Eq)]
pub enum Shortage {
    /// Files: the process has as many as it may have, so no connection can be taken.
    Files,
    /// Threads, by which connections are served.
    Threads,
    /// Transactional ids: as many are kept as may be.
    TransactionalIds,
    /// Groups: as many are kept as may be.
    Groups,
}

impl Shortage {
    /// What comes of it, in words.
    pub(crate) fn words(self) -> &'static str
        ensures { result.now ≡ shortage_words self }
    {
        match self {
            Shortage::Files => "no connection can be taken now; the server waits",
            Shortage::Threads => "no thread can be started now; the server waits",
            Shortage::TransactionalIds => "no more transactional ids are taken",
            Shortage::Groups => "no more groups are taken",
        }
    }
}

/// What whoever runs a server is told.
#[derive(Drop)]
pub enum Notice {
    /// A connection is served from now on.
    Opened {
        /// Its number.
        connection: u64,
        /// The address of its other end.
        from: Said,
    },
    /// A connection closes.
    Closed {
        /// Its number.
        connection: u64,
        /// Why.
        why: Closing,
    },
    /// A client asks for what isn't served.
    NotServed {
        /// The number of its connection.
        connection: u64,
        /// The name that the client gives itself.
        client: Said,
        /// What it asks for.
        asked: Unserved,
    },
    /// A topic is made.
    TopicMade {
        /// Its name.
        topic: Said,
        /// How many partitions it has.
        partitions: u16,
    },
    /// A topic isn't made for which a client asks.
    TopicNotMade {
        /// Its name.
        topic: Said,
        /// Why.
        why: TopicRefusal,
    },
    /// The server has no more of something.
    RanOut {
        /// Of what.
        what: Shortage,
    },
    /// Lines that aren't there, since there would be too many.
    LeftOut {
        /// How many.
        lines: u64,
    },
}
