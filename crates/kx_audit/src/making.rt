//! How nodes were made, in the words of the definitions.
use crate::fits::{making_fits, processor_fits};
use kx_machine::Making;
use kx_nodes::{Made, ProcessorMaking};
use kx_processor::Process;

/// How a node was made, as traces begin with it, which names the making of the definitions.
pub trait Tells: Made {
    ghost use Rattle.std.specs.Prelude.{◌≡◌};
    ghost use Rattle.kx_audit.specs.Making.{NodeMaking, named, node_of};
    ghost use Rattle.kx_audit.specs.Schedule.{IsNodeMaking};
    ghost use Rattle.kx_nodes.specs.Replay.{name_of};

    // the making of the definitions
    ghost making: { Self → NodeMaking };

    /// The making makes the same node, and its names, numbers and bytes are in their ranges. This
    /// does nothing when it runs.
    fn tells(&self)
        ensures node { node_of (making self.now) ≡ Self.state self.now }
        ensures name { named (making self.now) ≡ name_of (Self.state self.now) }
        ensures fits { IsNodeMaking (making self.now) };
}

/// A node that isn't a processor.
impl Tells for Making {
    ghost use Rattle.kx_audit.specs.Making.{making_of};

    ghost making = { making_of };

    fn tells(&self) {
        making_fits(*self);
    }
}

/// A processor, whose images are those of its process.
impl<P: Process> Tells for ProcessorMaking<P> {
    ghost use Rattle.kx_audit.specs.Making.{processor_making};

    ghost making = { processor_making P.image_of };

    fn tells(&self) {
        processor_fits(self);
    }
}
