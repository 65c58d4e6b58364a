//! Calls of consumer groups, any growth of which may be refused: all is then as before, and the
//! same call is answered when it is made again.
use crate::groups::Kept;
use kx_log::OpenFault;
use kx_message::{Caller, ClientId, ErrorCode, Join, TxnOffsetCommit, WriteMarker};
use std::alloc::AllocError;

// A call that appends a batch, or reads the store again.
#[derive(Clone, Copy)]
enum Call<'a> {
    Join,
    Commit,
    Marker(&'a WriteMarker),
    Reload,
}

// What groups tell of the group and the first offset of a commit.
#[derive(Drop, PartialEq)]
struct Told {
    end: i64,
    generation: i32,
    members: usize,
    offset: Option<(ErrorCode, i64)>,
}

fn told_of(groups: &Kept, commit: &TxnOffsetCommit) -> Told {
    let group = commit.group;
    let first = commit.offsets.as_slice().first();
    Told {
        end: groups.partition().end(),
        generation: groups.generation(group),
        members: groups.members(group).len(),
        offset: first.map(|it| groups.offset_fetch(group, it.partition, true)),
    }
}

// Makes a call: whether it was answered as it is where nothing is in its way.
fn made(groups: &mut Kept, commit: &TxnOffsetCommit, call: &Call<'_>) -> Result<bool, AllocError> {
    match call {
        Call::Join => {
            let caller = Caller {
                client: ClientId::from(commit.member),
                correlation: 0,
            };
            let group = commit.group;
            let reply = groups.join(&Join { caller, group })?;
            Ok(reply.code == ErrorCode::NoError)
        }
        Call::Commit => {
            let answer = groups.txn_offset_commit(commit, true)?;
            Ok(answer.code() == ErrorCode::NoError)
        }
        Call::Marker(it) => {
            let code = groups.marker(it.held, it.coordinator_epoch, it.outcome)?;
            Ok(code == ErrorCode::NoError)
        }
        Call::Reload => match groups.reload() {
            Ok(content) => {
                drop(groups.install(content));
                Ok(true)
            }
            Err(fault) if fault == OpenFault::Memory => Err(AllocError),
            Err(_) => Ok(false),
        },
    }
}

// Whether a call is answered, if need be when it is made again, and leaves all as it was if it
// is refused since memory ran out.
fn goes(groups: &mut Kept, commit: &TxnOffsetCommit, call: &Call<'_>) -> bool {
    let before = told_of(groups, commit);
    for _ in 0..2 {
        if let Ok(is_made) = made(groups, commit, call) {
            return is_made;
        }
        if told_of(groups, commit) != before {
            return false;
        }
    }
    false
}

/// Whether a member joins, commits these offsets, ends its transaction by this marker, and the
/// store is read again, if any growth may be refused once.
pub fn grows(groups: &mut Kept, commit: &TxnOffsetCommit, marker: &WriteMarker) -> bool {
    let calls = [Call::Join, Call::Commit, Call::Marker(marker), Call::Reload];
    for call in &calls {
        if !goes(groups, commit, call) {
            return false;
        }
    }
    true
}
