//! A script that threads carry out, and what it has to write. The script has runs, parted by the
//! line `again`. In a run stand, in this order:
//!
//! - lines that make nodes: `world P`, `client N TXN`, `processor N TXN G K` as in scripts, and
//!   `twin NODE`, which makes a second node of a name;
//! - `workers N`, or `workers N hold T until U`: this many threads serve them, behind a gate that
//!   may hold the step of ticket T until that of ticket U is answered;
//! - lines of scripts in which something is handed to a node, each handed at once; `bring BYTES`,
//!   which hands the messages of frames to their receivers; `settle`, which waits until no step is
//!   under way and none is to come; then the line `end`;
//! - `receipts`, which tells how many there are; `leave NODE PLACE` and `double NODE PLACE`, by
//!   which one is left out, or stands twice; `exchange NODE`, by which those of the run before
//!   stand in place of the node's; `audit`, which tells what an audit finds, and `audit_servers`,
//!   what one finds of servers alone, whose clients are outside; `turns`, which tells the steps in
//!   the order into which it put them, each as `NODE PLACE INPUT > RECEIVER MESSAGE ..`, a message
//!   by its text, any other input by the first word of its line, and after them what was answered
//!   beside messages; `rerun`, which tells how many events the run is, and of each node the end of
//!   its log and whether a world in which these happen again has it too; and `committed P`, which
//!   tells how many committed records a data partition then has.
ghost use Rattle.std.specs.Prelude.{◌≡◌, ◌≤◌, IfOk};

use crate::audits::{Audited, Found, committed, double, exchange, judge, leave_out, node_named};
use crate::nodes::{Served, add_nodes, add_twin};
use crate::rerun::tell_rerun;
use crate::serving::{Shift, serve};
use crate::turns::tell_turns;
use kx_cases::{Script, StepFault, Tally, judge_script, value};
use kx_message::PartitionId;
use kx_nodes::Receipt;
use kx_script::Running;
use std::alloc::{AllocError, Global};
use std::rt::Files;
use std::sync::{Arc, Wait};
use std::thread::Threads;
use std::{io, mem};

// A run: its nodes, the world in which its lines are read, the receipts of its steps and those of
// the run before, and what is told.
#[derive(Drop)]
struct Session {
    alloc: Global,
    nodes: Vec<Arc<Served>>,
    running: Option<Running>,
    receipts: Vec<Receipt>,
    earlier: Vec<Receipt>,
    found: Option<Found>,
    told: String,
}

// How many threads serve, and what they hold.
fn shift_of(words: &[&str]) -> Result<Shift, StepFault> {
    match words {
        [count] => Ok(Shift {
            count: value(count)?,
            held: 0,
            until: 0,
        }),
        [count, "hold", held, "until", until] => Ok(Shift {
            count: value(count)?,
            held: value(held)?,
            until: value(until)?,
        }),
        _ => Err(StepFault::Unknown),
    }
}

// Drops what is there.
fn clear<T: Drop>(kept: &mut Option<T>) {
    drop(kept.take());
}

impl Session {
    // One in which nothing was done.
    fn new(alloc: Global) -> Session {
        Session {
            alloc,
            nodes: Vec::new(alloc),
            running: None,
            receipts: Vec::new(alloc),
            earlier: Vec::new(alloc),
            found: None,
            told: String::new(alloc),
        }
    }

    // Makes the nodes of a line.
    fn make(&mut self, line: &str) -> Result<(), StepFault> {
        if let Some(name) = line.strip_prefix("twin ") {
            let name = node_named(name).ok_or(StepFault::Unknown)?;
            return add_twin(self.alloc, &mut self.nodes, name);
        }
        add_nodes(self.alloc, &mut self.nodes, &mut self.running, line)
    }

    // Audits what was done.
    fn audit(&mut self, audited: Audited) -> Result<(), StepFault> {
        let receipts = self.receipts.as_slice();
        let (told, found) = (&mut self.told, &mut self.found);
        judge(self.alloc, told, found, audited, &mut self.nodes, receipts)
    }

    // Reports the steps in the order of the audit.
    fn tell_turns(&mut self) -> Result<(), StepFault> {
        let Some(run) = &self.found else {
            return Err(StepFault::Unknown);
        };
        tell_turns(&mut self.told, run)
    }

    // Tells of the world in which the run's events happen again.
    fn tell_rerun(&mut self) -> Result<(), StepFault> {
        let Some(run) = &self.found else {
            return Err(StepFault::Unknown);
        };
        tell_rerun(self.alloc, &mut self.told, run)
    }

    // Reports how many committed records a partition has.
    fn tell_committed(&mut self, partition: &str) -> Result<(), StepFault> {
        let number: u16 = value(partition)?;
        let number = PartitionId::try_from(number).map_err(|_| StepFault::Unknown)?;
        let Some(run) = &self.found else {
            return Err(StepFault::Unknown);
        };
        let count = committed(self.alloc, run, number)?;
        Ok(writeln!(self.told, "committed {count}")?)
    }

    // The receipts of the run before in place of those of one node.
    fn exchange(&mut self, name: &str) -> Result<(), StepFault> {
        let name = node_named(name).ok_or(StepFault::Unknown)?;
        Ok(exchange(&mut self.receipts, &mut self.earlier, name)?)
    }

    // Carries out a line that tells of the receipts, or changes them.
    fn look_at_receipts(&mut self, words: &[&str]) -> Result<(), StepFault> {
        match words {
            ["receipts"] => Ok(writeln!(self.told, "receipts {}", self.receipts.len())?),
            ["leave", name, place] => {
                let name = node_named(name).ok_or(StepFault::Unknown)?;
                leave_out(&mut self.receipts, name, value(place)?)
            }
            ["double", name, place] => {
                let name = node_named(name).ok_or(StepFault::Unknown)?;
                double(&mut self.receipts, name, value(place)?)
            }
            ["exchange", name] => self.exchange(name),
            _ => Err(StepFault::Unknown),
        }
    }

    // Carries out a line that is after the steps.
    fn look(&mut self, line: &str) -> Result<(), StepFault> {
        let words: Vec<&str> = line.split(' ').collect(self.alloc)?;
        match words.as_slice() {
            ["audit"] => self.audit(Audited::All),
            ["audit_servers"] => self.audit(Audited::Servers),
            ["turns"] => self.tell_turns(),
            ["rerun"] => self.tell_rerun(),
            ["committed", partition] => self.tell_committed(partition),
            words => self.look_at_receipts(words),
        }
    }

    // Carries out a run.
    fn run<R: Threads + Wait + Copy + Send + 'static>(
        &mut self,
        rt: R,
        run: &str,
    ) -> Result<(), StepFault> {
        let (front, behind) = run.split_once("\nend\n").ok_or(StepFault::Unknown)?;
        let (makings, served) = front.split_once("\nworkers ").ok_or(StepFault::Unknown)?;
        let (shift, lines) = served.split_once('\n').unwrap_or((served, ""));
        for line in makings.lines() {
            if !line.starts_with('#') {
                self.make(line)?;
            }
        }
        let words: Vec<&str> = shift.split(' ').collect(self.alloc)?;
        let shift = shift_of(words.as_slice())?;
        let (nodes, running) = (self.nodes.as_slice(), &mut self.running);
        let receipts = serve(rt, self.alloc, nodes, running, shift, lines)?;
        drop(mem::replace(&mut self.receipts, receipts));
        for line in behind.lines() {
            self.look(line)?;
        }
        Ok(())
    }

    // Sets the receipts of a run aside, and begins anew.
    fn go_on(&mut self) {
        mem::swap(&mut self.earlier, &mut self.receipts);
        self.receipts.clear();
        self.nodes.clear();
        clear(&mut self.running);
        clear(&mut self.found);
    }

    // Carries out all runs of a script.
    fn run_all<R: Threads + Wait + Copy + Send + 'static>(
        &mut self,
        rt: R,
        script: &str,
    ) -> Result<(), StepFault> {
        for run in script.split("\nagain\n") {
            self.go_on();
            self.run(rt, run)?;
        }
        Ok(())
    }
}

// What a script tells.
fn told<R: Threads + Wait + Copy + Send + 'static>(
    rt: R,
    alloc: Global,
    script: &str,
) -> Result<String, StepFault> {
    let mut session = Session::new(alloc);
    let done = session.run_all(rt, script);
    let told = mem::replace(&mut session.told, String::new(alloc));
    drop(session);
    done?;
    Ok(told)
}

/// Carries out the script NAME.served, which has to tell NAME.out, and prints `ok NAME` or
/// `FAILED NAME`.
pub fn try_served<R: Files + Print + AllocGlobal + Threads + Wait + Copy + Send + 'static>(
    rt: &R,
    name: &str,
) -> io::Result<Tally>
    ensures { IfOk result (λ tally. (tally.tried ≡ 1) × (tally.failed ≤ 1)) }
{
    let script = Script::read(rt, name, "served")?;
    let told = told(*rt, rt.alloc(), script.text.as_str());
    judge_script(rt, name, script.wanted.as_str(), told)
}
