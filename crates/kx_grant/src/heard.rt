//! Which connections of a transactional id are heard.
ghost use Rattle.std.specs.Prelude.{◌≡◌};
ghost use Rattle.kx_grant.specs.Heard.{after_hear, granted_to, is_heard, is_newest, newest};
ghost use Rattle.kx_grant.specs.Heard.{none_heard, with_newest};

/// For what a client of a transactional id has a connection.
#[derive(Clone, Copy, Debug, PartialEq, Eq)]
pub enum Role {
    /// What its coordinator is asked: an id, what is listed, an end.
    Coordinator,
    /// Offsets that its transactions commit.
    Offsets,
    /// Batches.
    Batches,
}

/// Of one transactional id, the newest connection that spoke for it in each role, by its number, if
/// any did. Connections are numbered in the order in which they were taken.
///
/// A client that opens a connection anew has given the one before up. What still waits in that one
/// is not taken any more: it may be the end of a transaction that has ended, and would end the next
/// one.
#[derive(Clone, Copy)]
pub struct Heard {
    coordinator: Option<u64>,
    offsets: Option<u64>,
    batches: Option<u64>,
}

// Whether no newer connection spoke.
fn is_newest(newest: Option<u64>, connection: u64) -> bool
    ensures { result ≡ is_newest newest connection }
{
    match newest {
        None => true,
        Some(newest) => connection >= newest,
    }
}

impl Heard {
    /// No connection spoke yet.
    pub fn new() -> Heard
        ensures { result ≡ none_heard }
    {
        Heard {
            coordinator: None,
            offsets: None,
            batches: None,
        }
    }

    // The newest connection that spoke in a role.
    fn newest(&self, role: Role) -> Option<u64>
        ensures { result ≡ newest self.now role }
    {
        match role {
            Role::Coordinator => self.coordinator,
            Role::Offsets => self.offsets,
            Role::Batches => self.batches,
        }
    }

    fn set_newest(&mut self, role: Role, connection: u64)
        ensures { self.new ≡ with_newest self.old role connection }
    {
        match role {
            Role::Coordinator => {
                self.coordinator = Some(connection);
            }
            Role::Offsets => {
                self.offsets = Some(connection);
            }
            Role::Batches => {
                self.batches = Some(connection);
            }
        }
    }

    /// A request comes in a role over this connection, and reports whether it is taken: only if no
    /// newer connection spoke in the role. This one is then the newest; else nothing changes.
    pub fn hear(&mut self, role: Role, connection: u64) -> bool
        ensures answered { result ≡ is_heard self.old role connection }
        ensures noted { self.new ≡ after_hear self.old role connection }
    {
        let is_heard = is_newest(self.newest(role), connection);
        if is_heard {
            self.set_newest(role, connection);
        }
        is_heard
    }

    /// The transactional id was granted anew, and the answer goes over this connection. It is the
    /// coordinator role's newest; in the other roles none has spoken, since requests from before
    /// carry another pair.
    pub fn granted_to(&mut self, connection: u64)
        ensures { self.new ≡ granted_to connection }
    {
        *self = Heard::new();
        self.set_newest(Role::Coordinator, connection);
    }
}
