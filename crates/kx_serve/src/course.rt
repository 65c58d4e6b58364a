//! Whether the trace of a node that is opened begins, goes on, or is refused.
ghost use Rattle.std.specs.Prelude.{◌≡◌};
ghost use Rattle.kx_serve.specs.Courses.{begins_of, coordinator_course, partition_course};

/// Whether the coordinator's trace begins at this start.
#[derive(Clone, Copy, Debug, PartialEq, Eq)]
pub(crate) enum Begins {
    /// It has steps, or had none since the coordinator was made.
    No,
    /// It was begun before, and has no step yet.
    Again,
    /// There was none.
    Anew,
}

/// What becomes of a node's trace.
#[derive(Clone, Copy, Debug, PartialEq, Eq)]
pub(crate) enum Course {
    /// It begins with an empty log.
    First,
    /// It begins on the log.
    OnLog,
    /// It goes on: the log is opened again.
    GoesOn,
    /// It is refused: it has no step of a log that has bytes.
    Untold,
    /// It is refused: no trace has the steps that the coordinator took before.
    CoordinatorUntold,
}

/// Whether the coordinator's trace begins, by whether it is new, and whether its file was there.
pub(crate) fn begins_of(is_new: bool, was_there: bool) -> Begins
    ensures { result ≡ begins_of is_new was_there }
{
    match (is_new, was_there) {
        (false, _) => Begins::No,
        (true, true) => Begins::Again,
        (true, false) => Begins::Anew,
    }
}

/// What becomes of the coordinator's trace, by whether it is new, whether it has records, and how many
/// entries the log has. A log of one entry whose trace has no record was made by a process that ended
/// before the first step.
pub(crate) fn coordinator_course(is_new: bool, has_records: bool, entries: usize) -> Course
    ensures { result ≡ coordinator_course is_new has_records entries }
{
    match (has_records, entries) {
        (false, 0) => Course::First,
        _ if is_new => Course::OnLog,
        (false, 1) | (true, _) => Course::GoesOn,
        (false, _) => Course::Untold,
    }
}

/// What becomes of a partition's trace, by whether it has records, whether the coordinator's begins,
/// and whether the log is empty.
pub(crate) fn partition_course(has_records: bool, begins: Begins, is_empty: bool) -> Course
    ensures { result ≡ partition_course has_records begins is_empty }
{
    match (has_records, begins, is_empty) {
        (true, Begins::Anew, _) => Course::CoordinatorUntold,
        (true, _, _) => Course::GoesOn,
        (false, Begins::No, true) => Course::First,
        (false, Begins::No, false) => Course::Untold,
        (false, _, _) => Course::OnLog,
    }
}
