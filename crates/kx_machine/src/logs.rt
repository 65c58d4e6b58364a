//! What holds of the logs of all nodes.
ghost use Rattle.kx_machine.specs.Logs.{batches_of, notes_of};
ghost use Rattle.kx_machine.specs.Meaning.{NodeState, node_step};
ghost use Rattle.kx_model.specs.Disk.{GrowsTo, Store};
ghost use Rattle.kx_model.specs.Step.{Input};

/// A law: a step only adds to the log of its node, after what is there, whatever the step and
/// whatever its store does; a restart too.
pub fn steps_only_add()
    ensures batches { (state : NodeState) (store : Store) (input : Input)
        → GrowsTo (batches_of state) (batches_of (node_step state store input).state) }
    ensures notes { (state : NodeState) (store : Store) (input : Input)
        → GrowsTo (notes_of state) (notes_of (node_step state store input).state) }
{}
