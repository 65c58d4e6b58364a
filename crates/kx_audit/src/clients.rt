//! Whose the clients are.

/// Whose the clients are in an audit.
#[derive(Clone, Copy)]
pub(crate) enum Clients {
    /// Each client has a trace among those that are audited.
    Inside,
    /// Clients are outside: their requests need no origin.
    Outside,
}
