//! Traces hold numbers, names and bytes within their ranges, as their types see to. What is
//! here changes nothing when it runs.
ghost use Rattle.std.specs.Prelude.{All};
ghost use Rattle.kx_audit.specs.Making.{making_of, processor_making, trail_of};
ghost use Rattle.kx_audit.specs.Replayed.{trails_of};
ghost use Rattle.kx_audit.specs.Schedule.{AllFit, Fits, IsNodeMaking, IsStep};
ghost use Rattle.kx_message.specs.Ranges.{IsPartition};

use crate::making::Tells;
use kx_machine::{Making, client_making_fits, input_fits};
use kx_message::PartitionId;
use kx_nodes::{ProcessorMaking, Step, Trace};
use kx_processor::Process;

fn partition_fits(partition: PartitionId)
    ensures { IsPartition partition }
{
    // The call ensures that the number is in its range.
    let _partition = partition.get();
}

fn steps_fit(steps: &[Step])
    ensures { All IsStep steps.now }
{
    for step in steps {
        input_fits(&step.input);
    }
}

pub(crate) fn making_fits(making: Making)
    ensures { IsNodeMaking (making_of making) }
{
    match making {
        Making::Coordinator => {}
        Making::Partition(number) => partition_fits(number),
        Making::Client {
            number,
            txn,
            timeout,
        } => client_making_fits(number, txn, timeout),
    }
}

pub(crate) fn processor_fits<P: Process>(making: &ProcessorMaking<P>)
    ensures { IsNodeMaking (processor_making P.image_of making.now) }
{
    client_making_fits(making.number, making.txn, making.timeout);
    // These calls ensure that the name and the number are in their ranges.
    let _group = making.group.as_bytes();
    let _inputs = making.inputs.get();
}

/// Whatever a trace holds is in its range, as `joined_traces_are_a_schedule` asks. This does
/// nothing when it runs.
pub fn trace_fits<B: Tells>(trace: &Trace<B>)
    ensures { Fits (trail_of B.making trace.now) }
{
    trace.made().tells();
    steps_fit(trace.steps());
}

/// Whatever these traces hold is in its range. This does nothing when it runs.
pub(crate) fn traces_fit<B: Tells>(traces: &[Trace<B>])
    ensures { AllFit (trails_of B.making traces.now) }
{
    for trace in traces {
        trace_fits(trace);
    }
}
