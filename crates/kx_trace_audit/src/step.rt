//! One more step of a trace.
ghost use Rattle.std.specs.Prelude.{◌≡◌, ◌≤◌, ◌↔◌, IfOk, IsTrue, List, MatchOption, MatchResult};
ghost use Rattle.std.specs.Prelude.{ℕ, drop, length, slice_get, Some};
ghost use Rattle.std.specs.Bool.{MatchBool};
ghost use Rattle.std.specs.List.{flat_map};
ghost use Rattle.kx_audit.specs.Joined.{Passed};
ghost use Rattle.kx_follow.specs.Following.{Followed, HasMade};
ghost use Rattle.kx_machine.specs.Meaning.{NodeState};
ghost use Rattle.kx_message.specs.Fields.{frame_text};
ghost use Rattle.kx_nodes.specs.Again.{mode_by};
ghost use Rattle.kx_nodes.specs.Replay.{mark_of};
ghost use Rattle.kx_trace_audit.specs.Items.{IsItem, RestRefused, told_of};
ghost use Rattle.kx_trace_audit.specs.Logs.{HasFound, log_size};
ghost use Rattle.kx_trace_audit.specs.Lookahead as lookahead;
ghost use Rattle.kx_trace_audit.specs.Lookahead.{IsDecided};
ghost use Rattle.kx_trace_audit.specs.Stepping as stepping;
ghost use Rattle.kx_trace_audit.specs.Stepping.{Becomes, Differs, HasRefused, HasStepped};
ghost use Rattle.kx_trace_audit.specs.Stepping.{Refuses};
ghost use Rattle.kx_trace_audit.specs.Told.{Answered, Reopened, Unanswered};

use crate::ending::Ending;
use crate::item::{Item, Telling, item_at};
use crate::lookahead::{entry_stood, epoch_stood};
use crate::progress::Progress;
use crate::refusal::TraceRefusal;
use crate::servers::Server;
use kx_batch::BATCH_LIMIT;
use kx_follow::Follower;
use kx_machine::{Input, StoreMode, Taken};
use kx_nodes::Mark;
use kx_trace::{TraceFault, put_frames};
use std::alloc::{AllocError, Global};

/// What became of the next item of a trace, and how many bytes told it, which are done with.
#[derive(Clone, Copy)]
pub(crate) struct Stepped {
    pub(crate) progress: Progress,
    pub(crate) used: usize,
}

// A store on which an append fails, and leaves its whole entry or nothing.
fn failing(whole: bool) -> StoreMode
    ensures { result ≡ mode_by Mark.Failed whole }
{
    let keep = if whole { BATCH_LIMIT } else { 0 };
    StoreMode::Fails { keep: keep as u64 }
}

// What the store did in a step of this mark, if `stood` says whether the entry of an append that
// failed stood.
fn mode_of(mark: Mark, stood: bool) -> StoreMode
    ensures { result ≡ mode_by mark stood }
{
    match mark {
        Mark::Unread => StoreMode::CannotLoad,
        Mark::Failed | Mark::Unwritten { .. } => failing(stood),
        _ => StoreMode::Works,
    }
}

// What the store did in a step that was never answered, whose entry stood or not.
fn unanswered_mode(stood: bool) -> StoreMode
    ensures { result ≡ lookahead.unanswered_mode stood }
{
    if stood {
        StoreMode::Works
    } else {
        failing(false)
    }
}

/// What the store did in the step that is told, whose entry stood or not.
pub(crate) fn mode_for(told: &Telling<'_>, stood: bool) -> StoreMode
    ensures { result ≡ lookahead.mode_for (told_of told.now) stood }
{
    match told {
        Telling::Answered { mark, .. } => mode_of(*mark, stood),
        Telling::Untaken(_) => StoreMode::Works,
        Telling::Unanswered(_) | Telling::Reopened { .. } => unanswered_mode(stood),
    }
}

// How many bytes the entries of a node's log have.
fn log_len<B: Server>(follower: &Follower<B>, node: usize) -> u64
    ensures { (n : Followed B B.Machine) → slice_get follower.now.nodes node ≡ Some n
        → (state : NodeState) → B.Machine.stands state n.machine → result ≡ log_size state }
{
    match follower.machine(node) {
        Some(machine) => B::log_len(machine),
        None => 0,
    }
}

// Whether a step of this mark leaves open whether an entry stood.
fn is_open(mark: Mark) -> bool
    ensures { result ≡ lookahead.is_open mark }
{
    matches!(mark, Mark::Failed | Mark::Unwritten { .. })
}

/// Whether the entry of what is told stood, by the bytes that follow it, if that was left open; None
/// if more of them are needed.
///
/// # Errors
///
/// `Bytes` if no trace goes on with these bytes; `Memory` if memory runs out.
pub(crate) fn has_stood<B: Server>(
    alloc: Global,
    follower: &Follower<B>,
    node: usize,
    told: &Telling<'_>,
    rest: &[u8],
    ending: Ending,
) -> Result<Option<bool>, TraceRefusal>
    ensures { (n : Followed B B.Machine) → slice_get follower.now.nodes node ≡ Some n
        → (state : NodeState) → B.Machine.stands state n.machine → MatchResult result
        (IsDecided (told_of told.now) (log_size state) ending rest.now) (RestRefused rest.now) }
{
    match told {
        Telling::Answered { mark, .. } if is_open(*mark) => {
            entry_stood(alloc, rest, ending, log_len(follower, node))
        }
        Telling::Answered { .. } | Telling::Untaken(_) => Ok(Some(false)),
        Telling::Unanswered(_) => entry_stood(alloc, rest, ending, log_len(follower, node)),
        Telling::Reopened { log_len: found, .. } => epoch_stood(alloc, rest, ending, *found),
    }
}

// Whether these are the frames of what was sent.
fn sends(alloc: Global, taken: &Taken, frames: &[u8]) -> Result<bool, AllocError>
    ensures { IfOk result (λ same. MatchBool same
        (flat_map frame_text taken.now.messages ≡ frames.now)
        (Differs TraceRefusal.Answer taken.now Mark.Worked frames.now)) }
{
    let mut text = Vec::new(alloc);
    text.reserve(frames.len())?;
    match put_frames(&mut text, taken.messages.as_slice()) {
        Ok(()) => Ok(text.as_slice() == frames),
        Err(TraceFault::Memory) => Err(AllocError),
        Err(_) => Ok(false),
    }
}

// Sees that a step shows this of its store, and sends what has these frames.
fn judge(alloc: Global, taken: &Taken, mark: Mark, frames: &[u8]) -> Result<(), TraceRefusal>
    ensures { MatchResult result
        (λ _. (mark_of taken.now ≡ mark) × (flat_map frame_text taken.now.messages ≡ frames.now))
        (λ refusal. Differs refusal taken.now mark frames.now) }
{
    if Mark::of(taken) != mark {
        return Err(TraceRefusal::Store);
    }
    if !sends(alloc, taken, frames)? {
        return Err(TraceRefusal::Answer);
    }
    Ok(())
}

// A node takes an input again that has this answer.
fn take_again<B: Server>(
    alloc: Global,
    follower: &mut Follower<B>,
    node: usize,
    input: &Input,
    mark: Mark,
    frames: &[u8],
    mode: StoreMode,
) -> Result<Progress, TraceRefusal>
    ensures { (starts : List NodeState) (history : List Passed)
        → HasMade B.making B.Machine.stands starts history follower.old → MatchResult result
        (Becomes B.making B.Machine.stands starts node (Answered input.now mark frames.now)
        history follower.old follower.new)
        (Refuses B.making B.Machine.stands starts node (Answered input.now mark frames.now)
        mode history follower.old follower.new) }
{
    let Some(taken) = follower.take(node, input, mode)? else {
        return Ok(Progress::Waits);
    };
    let judged = judge(alloc, &taken, mark, frames);
    let sent = taken.messages.as_slice().len();
    drop(taken);
    judged?;
    Ok(Progress::Made { sent })
}

// A node takes an input again that was never answered.
fn take_unanswered<B: Server>(
    follower: &mut Follower<B>,
    node: usize,
    input: &Input,
    mode: StoreMode,
) -> Result<Progress, TraceRefusal>
    ensures { (starts : List NodeState) (history : List Passed)
        → HasMade B.making B.Machine.stands starts history follower.old → MatchResult result
        (Becomes B.making B.Machine.stands starts node (Unanswered input.now)
        history follower.old follower.new)
        (Refuses B.making B.Machine.stands starts node (Unanswered input.now)
        mode history follower.old follower.new) }
{
    let Some(taken) = follower.take(node, input, mode)? else {
        return Ok(Progress::Waits);
    };
    let sent = taken.messages.as_slice().len();
    drop(taken);
    Ok(Progress::Made { sent })
}

// Whether the node's last step, a restart, found a log of this many bytes.
fn has_found<B: Server>(follower: &Follower<B>, node: usize, log_len: u64) -> bool
    ensures { (n : Followed B B.Machine) → slice_get follower.now.nodes node ≡ Some n
        → (state : NodeState) → B.Machine.stands state n.machine
        → (IsTrue result ↔ HasFound state log_len) }
{
    match follower.machine(node) {
        Some(machine) => B::has_found(machine, log_len),
        None => false,
    }
}

// A node is opened again at this time, and finds a log of this many bytes.
fn reopen<B: Server>(
    follower: &mut Follower<B>,
    node: usize,
    now: u64,
    log_len: u64,
    mode: StoreMode,
) -> Result<Progress, TraceRefusal>
    ensures { (starts : List NodeState) (history : List Passed)
        → HasMade B.making B.Machine.stands starts history follower.old → MatchResult result
        (Becomes B.making B.Machine.stands starts node (Reopened now log_len)
        history follower.old follower.new)
        (Refuses B.making B.Machine.stands starts node (Reopened now log_len)
        mode history follower.old follower.new) }
{
    let restart = Input::Restart(now);
    let taken = follower.take(node, &restart, mode);
    drop(restart);
    let Some(taken) = taken? else {
        return Ok(Progress::Waits);
    };
    let sent = taken.messages.as_slice().len();
    drop(taken);
    if !has_found(follower, node, log_len) {
        return Err(TraceRefusal::Found);
    }
    Ok(Progress::Made { sent })
}

// A node takes again what a trace tells of, with a store that does as `mode` says.
fn take_told<B: Server>(
    alloc: Global,
    follower: &mut Follower<B>,
    node: usize,
    told: &Telling<'_>,
    mode: StoreMode,
) -> Result<Progress, TraceRefusal>
    ensures { (starts : List NodeState) (history : List Passed)
        → HasMade B.making B.Machine.stands starts history follower.old → MatchResult result
        (Becomes B.making B.Machine.stands starts node (told_of told.now)
        history follower.old follower.new)
        (Refuses B.making B.Machine.stands starts node (told_of told.now)
        mode history follower.old follower.new) }
{
    match told {
        Telling::Answered {
            input,
            mark,
            frames,
        } => take_again(alloc, follower, node, input, *mark, frames, mode),
        Telling::Untaken(_) => Ok(Progress::NotTaken),
        Telling::Unanswered(input) => take_unanswered(follower, node, input, mode),
        Telling::Reopened { now, log_len } => reopen(follower, node, *now, *log_len, mode),
    }
}

// How many bytes are done with after this.
fn used_by(progress: Progress, len: usize) -> usize
    ensures { result ≡ stepping.used_by progress len }
{
    match progress {
        Progress::Made { .. } | Progress::NotTaken => len,
        Progress::Waits | Progress::NeedsMore => 0,
    }
}

// More bytes of the trace are needed.
fn needs_more() -> Stepped
    ensures { result ≡ record { progress = Progress.NeedsMore; used = 0 } }
{
    Stepped {
        progress: Progress::NeedsMore,
        used: 0,
    }
}

// A node takes again what a trace tells of, which these bytes follow in the trace.
fn take_item<B: Server>(
    alloc: Global,
    follower: &mut Follower<B>,
    node: usize,
    item: &Item<'_>,
    rest: &[u8],
    ending: Ending,
) -> Result<Stepped, TraceRefusal>
    ensures within { IfOk result (λ stepped. stepped.used ≤ item.now.used) }
    ensures steps { (bytes : List ℕ) → IsItem bytes item.now → rest.now ≡ drop item.now.used bytes
        → (starts : List NodeState) (history : List Passed)
        → HasMade B.making B.Machine.stands starts history follower.old
        → (n : Followed B B.Machine) → slice_get follower.old.nodes node ≡ Some n
        → MatchResult result
        (λ stepped. HasStepped B.making B.Machine.stands starts node bytes ending history
        follower.old follower.new stepped.progress stepped.used)
        (HasRefused B.making B.Machine.stands starts node bytes ending history follower.old
        follower.new) }
{
    let Some(stood) = has_stood(alloc, follower, node, &item.told, rest, ending)? else {
        return Ok(needs_more());
    };
    let mode = mode_for(&item.told, stood);
    let progress = take_told(alloc, follower, node, &item.told, mode)?;
    let used = used_by(progress, item.used);
    Ok(Stepped { progress, used })
}

/// One more step of the node of this number, by what is left of its trace: made again on a store
/// that does what the trace tells. What the store left of an entry, if the step leaves that open,
/// is looked up in the bytes that follow the step.
///
/// # Errors
///
/// `Store` and `Answer` if the step comes to something else than the trace tells, `Found` if a
/// restart finds another log, `Bytes` if no trace goes on with these bytes, `Memory` if memory
/// runs out.
pub(crate) fn go_on<B: Server>(
    alloc: Global,
    follower: &mut Follower<B>,
    node: usize,
    unread: &[u8],
    ending: Ending,
) -> Result<Stepped, TraceRefusal>
    ensures within { IfOk result (λ stepped. stepped.used ≤ length unread.now) }
    ensures steps { (starts : List NodeState) (history : List Passed)
        → HasMade B.making B.Machine.stands starts history follower.old
        → (n : Followed B B.Machine) → slice_get follower.old.nodes node ≡ Some n
        → MatchResult result
        (λ stepped. HasStepped B.making B.Machine.stands starts node unread.now ending history
        follower.old follower.new stepped.progress stepped.used)
        (HasRefused B.making B.Machine.stands starts node unread.now ending history follower.old
        follower.new) }
{
    let Some(item) = item_at(alloc, unread, ending)? else {
        return Ok(needs_more());
    };
    let stepped = take_item(alloc, follower, node, &item, &unread[item.used..], ending);
    drop(item);
    stepped
}
