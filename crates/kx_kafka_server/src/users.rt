//! How many threads use an entry that they share.
ghost use Rattle.std.specs.Prelude.{◌≡◌};
ghost use Rattle.kx_kafka_server.specs.Users.{entered, is_unused, left};

/// How many threads use an entry. It may be forgotten only once none does.
#[derive(Clone, Copy, Debug, Drop)]
pub(crate) struct Users {
    pub(crate) count: u32,
}

impl Users {
    /// Nobody.
    pub(crate) fn none() -> Users
        ensures { result ≡ record { count = 0 } }
    {
        Users { count: 0 }
    }

    /// One thread more uses the entry.
    pub(crate) fn enter(&mut self)
        ensures { self.new ≡ entered self.old }
    {
        self.count = self.count.saturating_add(1);
    }

    /// A thread uses it no more. Says whether nobody does now.
    pub(crate) fn leave(&mut self) -> bool
        ensures after { self.new ≡ left self.old }
        ensures unused { result ≡ is_unused (left self.old) }
    {
        self.count = self.count.saturating_sub(1);
        self.count == 0
    }

    /// Whether nobody uses it.
    pub(crate) fn is_none(&self) -> bool
        ensures { result ≡ is_unused self.now }
    {
        self.count == 0
    }
}
