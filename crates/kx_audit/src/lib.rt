//! What the traces of nodes tell of the whole system. Traces are merged into one order, in which
//! each message that a step takes in was sent by an earlier one: then what the nodes did, on
//! however many threads, is what happens in a schedule of the definitions. `audit` finds out
//! whether it is so: it runs each trace again, puts all steps into such an order, and compares them
//! with the receipts. `audit_servers` does so with traces of servers alone, whose clients are
//! outside: there a client's request needs no step that sent it.
//!
//! In `proofs/`:
//!
//! - A step: `Names` (of nodes), `Lookups` (what is found in a list by its number), `Handing` (a
//!   step is an event), `Going` (a node goes on by an event, and no other changes).
//! - All steps: `Merging` (they are events, one after the other), `Ordering` (clients in the order
//!   of their numbers), `Beginning` (the system in which they are made), `Ways` (the steps of one
//!   trace), `Whole`, `Answering` (the event of a receipt).
//! - What an auditor finds: `Telling` (steps in one order are joined if runs of the traces
//!   answer so), `Auditing` (a run goes on by one step, and so does the order of all), `Audited`.
//! - How it finds it: `Indexing` (messages by their frames), `Rerunning` (a trace that is run again
//!   takes one more step), `Storing` (with the store that its trace tells), `Begun` (one trace after the other is run again), `Lines` (what a trace
//!   tells), `Places` (in lists), `Sources` (of traces), `Along` (turns, and the steps that they
//!   are of), `Turning` (one more step of all), `Done` (all of them are merged), `Stuck` (not all
//!   of them can be).
//! - What it says of the traces alone: `OneWay` (whoever takes the steps of a trace finds the
//!   answers of its run again), `Strangers` (messages that no step sends), `Wrongs` (receipts that
//!   are of no step).
//! - Receipts: `Keys` (a trace is found by its node's name), `Naming` (the step of a receipt),
//!   `Counting` (how many steps there are), `Seeing` (no two receipts are of one).
//! - `Running`: each step is an event whose store its trace tells.
//! - `Requests` (those that arrive from outside, as an open schedule has them), `Yes`: all that an
//!   audit's yes says.
#![tactic(auto)]

mod arrivals;
mod auditor;
mod clients;
mod fault;
mod fits;
mod key;
mod making;
mod mode;
mod origins;
mod receipts;
mod remade;
mod replayer;
mod run;
mod sent;
mod turn;
mod verdict;

ghost use Rattle.std.specs.Prelude.{All, List};
ghost use Rattle.kx_audit.specs.Audited.{IsAudited};
ghost use Rattle.kx_audit.specs.Joined.{AreJoined, Passed};
ghost use Rattle.kx_audit.specs.Making.{Trail};
ghost use Rattle.kx_audit.specs.Receipts.{IsAnswered, IsOfStep};
ghost use Rattle.kx_audit.specs.Run.{IsOpenSchedule};
ghost use Rattle.kx_audit.specs.Schedule.{AllFit, IsScheduleOf, IsWhole, made_system};
ghost use Rattle.kx_audit.specs.Told.{AllAnswer, AreFound, AreMerged, AtPlace, Told, told_in};
ghost use Rattle.kx_machine.specs.Meaning.{NodeState};
ghost use Rattle.kx_message.specs.declared.message.Message.{Message};
ghost use Rattle.kx_nodes.specs.declared.receipt.Receipt.{Receipt};
ghost use Rattle.kx_outside.specs.Requests.{IsRequest};
ghost use Rattle.kx_system.specs.System.{System, SystemEvent};

pub use fault::AuditFault;
pub use fits::trace_fits;
use kx_pipeline::open_systems_keep_promises;
pub use making::Tells;
pub use remade::Remade;
pub use run::Run;
pub use turn::Turn;
pub use verdict::{audit, audit_servers};

/// Traces whose steps are merged so are what happens in a schedule of the whole system, if some
/// messages had arrived from outside: after the making of the clients, in the order of their
/// numbers, each step is an event at its node, in the merged order. In the system to which this
/// leads each node is where its trace led, any other is as it was in the beginning, and all
/// that was sent is what had arrived and the messages of the steps. This does nothing when it runs.
pub fn joined_traces_are_a_schedule()
    ensures { (arrived : List Message) (trails : List Trail) (merged : List Passed)
        → AllFit trails → AreJoined arrived trails merged → IsWhole arrived trails merged }
{}

/// A receipt that has the input and the answer of the step at its place among those of its node is
/// what the schedule answers: in the event at that place among those at the node, the node is
/// handed that input, and answers so. This does nothing when it runs.
pub fn receipts_are_answers()
    ensures { (arrived : List Message) (trails : List Trail) (merged : List Passed)
        (events : List SystemEvent) (system : System)
        → IsScheduleOf arrived trails merged events system
        → (receipt : Receipt) (x : Told) → IsOfStep (told_in merged) receipt x
        → IsAnswered (made_system arrived trails) events receipt }
{}

/// Steps that were put into one order, with their answers, are joined if each trace that is run
/// again answers so; and the node of each trace is then the one to which its run led. This does
/// nothing when it runs.
pub fn told_steps_are_joined()
    ensures { (arrived : List Message) (trails : List Trail) (told : List Told)
        (nodes : List NodeState) → AreMerged arrived trails told
        → AllAnswer trails told (AtPlace nodes)
        → AreFound arrived trails told (AtPlace nodes) }
{}

/// So whoever puts the steps of traces into one order, and runs each trace again, finds a schedule
/// of the whole system, which led to the nodes that these runs found. This does nothing when it
/// runs.
pub fn audited_traces_are_a_schedule()
    ensures { (arrived : List Message) (trails : List Trail) (told : List Told)
        (nodes : List NodeState) → AllFit trails → AreMerged arrived trails told
        → AllAnswer trails told (AtPlace nodes)
        → (s : System) × IsAudited arrived trails told (AtPlace nodes) s }
{}

/// Traces of servers that are joined, whose clients are outside: the requests that arrived, and
/// after them the steps, are an open schedule, which keeps the promises that need no trust in
/// clients. This does nothing when it runs.
pub fn joined_traces_are_an_open_schedule()
    ensures { (arrived : List Message) (trails : List Trail) (merged : List Passed)
        → AllFit trails → All IsRequest arrived → AreJoined arrived trails merged
        → (s : System) × IsOpenSchedule arrived trails merged s }
{
    open_systems_keep_promises();
}
