//! A script over one node whose log is published, and what it has to tell. A line that begins with
//! `#` says nothing. The first other line is `node N`, which makes the node, of partition 0, with
//! places for N readers, and `session` has the lines after it; or `locked R N`, which is alone:
//! R threads take pages of 64 KiB under a node's lock while N batches are put under it, and it
//! reports how many.
ghost use Rattle.std.specs.Prelude.{◌≡◌, ◌≤◌, IfOk};
ghost use Rattle.kx_broker.specs.Serving.{StandsFor};
ghost use Rattle.kx_machine.specs.Meaning.{AtPartition};
ghost use Rattle.kx_model.specs.PartitionNode.{empty_partition};

use crate::locked::compare;
use crate::session::Session;
use kx_broker::PartitionMachine;
use kx_cases::{Script, StepFault, Tally, judge_script, value};
use kx_log::MemStore;
use kx_machine::Making;
use kx_message::PartitionId;
use kx_nodes::{Node, Traced};
use kx_published::book::{Naming, Opened};
use kx_publishing::{PublishedMachine, Publishes};
use std::alloc::{AllocError, Global};
use std::io;
use std::marker::Brand;
use std::rt::Files;
use std::sync::Wait;
use std::thread::Threads;

// The server of a partition, as it is made, with an empty log in memory. The offsets partition's is
// another one.
fn empty_server(alloc: Global, number: PartitionId) -> Result<PartitionMachine<MemStore>, StepFault>
    ensures { IfOk result (StandsFor (AtPartition number empty_partition)) }
{
    if number == PartitionId::OFFSETS {
        return Err(StepFault::Unknown);
    }
    match PartitionMachine::new(alloc, number, MemStore::new(Vec::new(alloc))) {
        Ok(server) => Ok(server),
        Err(_) => Err(StepFault::Memory(AllocError)),
    }
}

// What a script tells, of the node of the partition whose book was opened.
fn told_by<J: Naming + Send + 'static, R: Threads + Wait + Copy + Send + 'static>(
    rt: R,
    alloc: Global,
    opened: Opened,
    readers: u32,
    // A book's name can't be picked at a call whose callee has a &str.
    script: String,
) -> Result<String, StepFault>
    requires { opened.seen.book ≡ J.book opened.partition }
{
    let number = opened.partition;
    if readers == 0 {
        return Err(StepFault::Unknown);
    }
    let machine = empty_server(alloc, number)?;
    let traced = Traced::new(alloc, Making::Partition(number), machine);
    let (readers, when) = (readers as usize, Publishes::OnCall);
    let machine = PublishedMachine::<_, J, R>::publishing(
        rt, alloc, traced, opened, readers, when,
    )?;
    Session::new(rt, alloc, Node::new(machine)).run(script.as_str())
}

// What a script tells of partition 0. The name of the partition's book is picked here.
fn told_of<R: Threads + Wait + Copy + Send + 'static>(
    rt: R,
    alloc: Global,
    readers: u32,
    script: String,
) -> Result<String, StepFault> {
    let number = PartitionId::try_from(0).map_err(|_| StepFault::Unknown)?;
    told_by::<Brand, R>(rt, alloc, Opened::new(number), readers, script)
}

// What threads tell that take pages under a node's lock, while batches are put.
fn told_locked<R: Threads + Wait + Copy + Send + 'static>(
    rt: R,
    alloc: Global,
    readers: usize,
    count: u64,
) -> Result<String, StepFault> {
    let number = PartitionId::try_from(0).map_err(|_| StepFault::Unknown)?;
    let machine = empty_server(alloc, number)?;
    let node = Traced::new(alloc, Making::Partition(number), machine);
    compare(rt, alloc, node, readers, count)
}

// What a script is about.
#[derive(Clone, Copy)]
enum Stage {
    // a node with places for readers
    Node(u32),
    // threads that take pages under a lock, while batches are put
    Locked(usize, u64),
}

fn stage_of(script: &str) -> Result<Stage, StepFault> {
    let line = script
        .lines()
        .find(|line| !line.starts_with('#'))
        .unwrap_or("");
    if let Some(readers) = line.strip_prefix("node ") {
        return Ok(Stage::Node(value(readers)?));
    }
    let words = line.strip_prefix("locked ").unwrap_or("");
    let (readers, count) = words.split_once(' ').ok_or(StepFault::Unknown)?;
    Ok(Stage::Locked(value(readers)?, value(count)?))
}

// What a script tells.
fn told<R: Threads + Wait + Copy + Send + 'static>(
    rt: R,
    alloc: Global,
    script: String,
) -> Result<String, StepFault> {
    match stage_of(script.as_str())? {
        Stage::Node(readers) => told_of(rt, alloc, readers, script),
        Stage::Locked(readers, count) => told_locked(rt, alloc, readers, count),
    }
}

/// Carries out the script NAME.shown, which has to tell NAME.out, and prints `ok NAME` or
/// `FAILED NAME`.
pub fn try_shown<R: Files + Print + AllocGlobal + Threads + Wait + Copy + Send + 'static>(
    rt: &R,
    name: &str,
) -> io::Result<Tally>
    ensures { IfOk result (λ tally. (tally.tried ≡ 1) × (tally.failed ≤ 1)) }
{
    let Script { text, wanted } = Script::read(rt, name, "shown")?;
    let told = told(*rt, rt.alloc(), text);
    judge_script(rt, name, wanted.as_str(), told)
}
