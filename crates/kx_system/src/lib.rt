//! Systems some of whose clients are processors, which consume, process and produce: what a
//! processor is, what it sends and what it makes of replies, and the whole system with some of them
//! as one machine. They are in `specs/`; the functions here do nothing when they run, and carry
//! laws about the definitions in their contracts.
#![tactic(auto)]

ghost use Rattle.std.specs.Prelude.{◌≡◌, ℕ, List};
ghost use Rattle.kx_model.specs.Disk.{GrowsTo};
ghost use Rattle.kx_model.specs.World.{log_at, notes, run};
ghost use Rattle.kx_system.specs.Events.{events_of, schedule_of};
ghost use Rattle.kx_system.specs.System.{System, SystemEvent, run_system, system_step};

/// A step of a system is a run of its world, whose clients are told the commands that the
/// processors' polls come to: so whatever holds of every schedule of a world holds of its own.
pub fn systems_run_as_worlds()
    ensures step { (s : System) (event : SystemEvent)
        → run (events_of s event) s.world ≡ (system_step s event).0.world }
    ensures schedule { (events : List SystemEvent) (s : System)
        → run (schedule_of events s) s.world ≡ (run_system events s).world }
{}

/// Logs only grow at their ends, whatever processors do.
pub fn logs_of_systems_only_grow()
    ensures notes { (events : List SystemEvent) (s : System)
        → GrowsTo (notes s.world) (notes (run_system events s).world) }
    ensures partitions { (events : List SystemEvent) (s : System) (q : ℕ)
        → GrowsTo (log_at s.world q) (log_at (run_system events s).world q) }
{}
