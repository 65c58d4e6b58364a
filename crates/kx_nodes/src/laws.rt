//! What a trace tells. It says nothing of the stores but their marks, and that is enough.
ghost use Rattle.std.specs.Prelude.{◌≡◌, List, [], ◌∷◌, ◌++◌};
ghost use Rattle.kx_machine.specs.Logs.{batches_of, notes_of};
ghost use Rattle.kx_machine.specs.Meaning.{NodeState, input_of, node_step, taken_of};
ghost use Rattle.kx_machine.specs.declared.taken.Taken.{Taken};
ghost use Rattle.kx_model.specs.Disk.{Store};
ghost use Rattle.kx_nodes.specs.Again.{MayMeet, RunsOn, again, mode_for};
ghost use Rattle.kx_nodes.specs.Alike.{AreAlike};
ghost use Rattle.kx_nodes.specs.Replay.{Answers, Replays, Takes, mark_of};
ghost use Rattle.kx_nodes.specs.declared.trace.Step.{Step};

/// How a node was made and the steps of its trace tell what each step answered and what the log is,
/// whatever else the stores did: nodes to which the same trace leads are alike, have the same log,
/// and answer the next step the same. So whoever runs a trace again, with any stores that show its
/// marks, finds its answers and its log, and two receipts of one step say the same.
pub fn traces_tell_answers_and_logs()
    ensures answers { (made : NodeState) (steps : List Step) (step : Step) (t u : Taken)
        → Answers made steps step t → Answers made steps step u → t ≡ u }
    ensures batches { (made : NodeState) (steps : List Step) (a b : NodeState)
        → Replays made steps a → Replays made steps b → batches_of a ≡ batches_of b }
    ensures notes { (made : NodeState) (steps : List Step) (a b : NodeState)
        → Replays made steps a → Replays made steps b → notes_of a ≡ notes_of b }
    ensures nodes { (made : NodeState) (steps : List Step) (a b : NodeState)
        → Replays made steps a → Replays made steps b → AreAlike a b }
{}

/// Nodes that are alike have the same log, answer a step with the same mark the same, and are alike
/// after it. One of them may hide an entry after its closed log, if the other hides nothing;
/// only a restart reads what is hidden, and its mark says which of the two it was.
pub fn alike_nodes_answer_alike()
    ensures answers { (a b : NodeState) (step : Step) (t u : Taken) (after other : NodeState)
        → AreAlike a b → Takes a step t after → Takes b step u other → t ≡ u }
    ensures nodes { (a b : NodeState) (step : Step) (t u : Taken) (after other : NodeState)
        → AreAlike a b → Takes a step t after → Takes b step u other → AreAlike after other }
    ensures batches { (a b : NodeState) → AreAlike a b → batches_of a ≡ batches_of b }
    ensures notes { (a b : NodeState) → AreAlike a b → notes_of a ≡ notes_of b }
{}

/// A trace can be run again, step by step, on a node that is made anew: in each step the store does
/// what the mark tells, and where an append fails, leaves what the later steps tell. The
/// steps then have their marks again, so that by `traces_tell_answers_and_logs` their answers and
/// the log are the trace's. This is so whatever the stores did when the trace was made.
///
/// Whoever runs it keeps `RunsOn`, which holds for the node as it was made and all the steps
/// (`at_first`). If it holds before a step, the step has its mark (`marks`), and it holds after
/// the step (`goes_on`). So the run again is a run of the trace (`whole`).
pub fn traces_run_again()
    ensures at_first { (made : NodeState) (steps : List Step) (node : NodeState)
        → Replays made steps node → RunsOn made [] steps made }
    ensures marks { (made : NodeState) (before : List Step) (step : Step) (behind : List Step)
        (node : NodeState) → RunsOn made before (step ∷ behind) node
        → (store : Store) → MayMeet node (mode_for step behind) store
        → mark_of (taken_of node (input_of step.input)
        (node_step node store (input_of step.input))) ≡ step.mark }
    ensures goes_on { (made : NodeState) (before : List Step) (step : Step) (behind : List Step)
        (node : NodeState) → RunsOn made before (step ∷ behind) node
        → (store : Store) → MayMeet node (mode_for step behind) store
        → RunsOn made (before ++ step ∷ []) behind
        (node_step node store (input_of step.input)).state }
    ensures whole { (made : NodeState) (steps : List Step) (node : NodeState)
        → Replays made steps node → Replays made steps (again made steps) }
{}
