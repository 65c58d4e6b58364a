//! What an audited demonstration has, counted.
ghost use Rattle.std.specs.Prelude.{◌≡◌, ◌<◌, [], map, unwrap_or, IfOk, IfNone, IfSome};
ghost use Rattle.kx_broker.specs.Serving.{Serving};
ghost use Rattle.kx_cluster.specs.Any.{any_state};
ghost use Rattle.kx_demo.specs.Counting.{AreCommitted, AreCounts, IsServer, doubles, texts};
ghost use Rattle.kx_demo.specs.Counting.{value_of};
ghost use Rattle.kx_message.specs.Ranges.{data_partitions};
ghost use Rattle.kx_model.specs.Reading.{committed_of};
ghost use Rattle.kx_processor.specs.Prefixed.{images_of};

use kx_audit::Run;
use kx_batch::RecordView;
use kx_broker::PartitionMachine;
use kx_machines::{AnyMachine, BrokerMachine, LocalStore};
use kx_message::NodeId;
use kx_partition::FetchPage;
use kx_play::{PlayMaking, partition};
use kx_reader::Committed;
use std::alloc::{AllocError, Global};
use std::collections::HashSet;

/// What an audit found of a demonstration.
pub type Found = Run<PlayMaking>;

/// What is counted in the run that an audit found.
#[derive(Clone, Copy, Debug, PartialEq, Eq)]
pub struct Counts {
    /// The committed records of the input partitions.
    pub inputs: usize,
    /// The committed records of the output partitions.
    pub outputs: usize,
    /// The outputs whose value stood before.
    pub doubles: usize,
}

// The server of a data partition, as its trace left it.
fn server_of(run: &Found, number: u8) -> Option<&PartitionMachine<LocalStore>>
    requires { number < data_partitions }
    ensures some { IfSome result (λ server.
        IsServer (any_state images_of) run.now number server.now) }
    ensures none { IfNone result ((server : Serving)
        → IsServer (any_state images_of) run.now number server → ⊥) }
{
    let place = 1 + usize::from(number);
    if run.trace(place)?.node() != NodeId::Partition(partition(number)) {
        return None;
    }
    match run.machine(place)? {
        AnyMachine::Broker(BrokerMachine::Partition(server)) => Some(server),
        _ => None,
    }
}

// The value of a record; one without a value counts as empty.
fn value_in<'a>(shown: &RecordView<'a>) -> &'a [u8]
    ensures { result.now ≡ unwrap_or shown.now.value [] }
{
    shown.value().unwrap_or(&[])
}

// The values of the records that a reader of committed records gets of a page.
fn values_of<'a>(alloc: Global, page: FetchPage<'a>) -> Result<Vec<&'a [u8]>, AllocError>
    ensures { IfOk result (λ values. texts values.items ≡ map value_of (committed_of page.entry)) }
{
    let mut values = Vec::new(alloc);
    for (_, shown) in Committed::new(alloc, page)? {
        values.push(value_in(&shown))?;
    }
    Ok(values)
}

// The values of the committed records of a data partition.
fn values_in(alloc: Global, run: &Found, number: u8) -> Result<Vec<&[u8]>, AllocError>
    requires { number < data_partitions }
    ensures { IfOk result (λ values.
        AreCommitted (any_state images_of) run.now number (texts values.items)) }
{
    let Some(server) = server_of(run, number) else {
        return Ok(Vec::new(alloc));
    };
    match server.partition().fetch(0, u32::MAX, true) {
        Ok(page) => values_of(alloc, page),
        Err(_) => Err(AllocError),
    }
}

// How many of the values stood before.
fn count_doubles(alloc: Global, values: Vec<&[u8]>) -> Result<usize, AllocError>
    ensures { IfOk result (λ count. count ≡ doubles (texts values.entry.items)) }
{
    let all = values.len();
    let mut known = HashSet::new(alloc);
    for value in values {
        known.insert(value)?;
    }
    Ok(all - known.len())
}

/// Counts what the run has: what is committed in partitions 0 and 1, the inputs, and in 2 and 3,
/// the outputs.
///
/// # Errors
///
/// Only if memory runs out.
pub fn count(alloc: Global, run: &Found) -> Result<Counts, AllocError>
    ensures { IfOk result (AreCounts (any_state images_of) run.now) }
{
    let mut inputs = values_in(alloc, run, 0)?;
    inputs.append(&mut values_in(alloc, run, 1)?)?;
    let mut outputs = values_in(alloc, run, 2)?;
    outputs.append(&mut values_in(alloc, run, 3)?)?;
    Ok(Counts {
        inputs: inputs.len(),
        outputs: outputs.len(),
        doubles: count_doubles(alloc, outputs)?,
    })
}
