//! The clients, and what they do in turn.
//!
//! Turns, not timers: the rule counts looks, and a pause of a tenth of a millisecond keeps clients
//! from sending again before an answer can arrive.
use crate::client::Client;
use crate::fault::PlayFault;
use crate::members::{Committed, Member};
use crate::nodes::{CoreOperator, INPUTS, partition};
use crate::options::Records;
use crate::producers::Producer;
use kx_message::{ClientId, GroupId};
use kx_nodes::Receipt;
use kx_publishing::Readable;
use std::alloc::{AllocError, Global};
use std::sync::Wait;
use std::thread;
use std::time::{Clock, Duration};

// How often each client looks for its next frame, at most.
const MOST_TURNS: u32 = 1_000_000;

// How long all wait when no frame came for any, in microseconds.
const PAUSE_MICROS: u64 = 100;

/// How a member of a group is dropped.
#[derive(Drop)]
pub(crate) struct Dropping<L: Readable, R: Wait + Drop> {
    /// Who drops it.
    pub(crate) operator: CoreOperator<L, R>,
    /// The group.
    pub(crate) group: GroupId,
    /// The member's client.
    pub(crate) member: ClientId,
}

impl<L: Readable, R: Wait + Drop> Dropping<L, R> {
    // Drops it.
    fn drop_member(&self, rt: &R) -> Result<(), PlayFault> {
        if self.operator.drop_member(rt, self.group, self.member) {
            Ok(())
        } else {
            Err(PlayFault::Memory)
        }
    }
}

/// The clients: a producer for each input partition, and members of a group, the last of which is
/// dropped.
#[derive(Drop)]
pub(crate) struct Clients<L: Readable, R: Wait + Drop> {
    alloc: Global,
    producers: Vec<Producer<L>>,
    members: Vec<Member<L>>,
    dropping: Dropping<L, R>,
    records: Records,
    has_begun: bool,
    is_at_work: bool,
    has_dropped: bool,
    // up to where the group has committed each input partition
    committed: [i64; INPUTS as usize],
}

// Notes an offset that the group has committed.
fn note(known: &mut [i64], committed: Option<Committed>) {
    let Some(Committed { partition, offset }) = committed else {
        return;
    };
    if let Some(known) = known.get_mut(usize::from(partition.get())) {
        *known = offset;
    }
}

impl<L: Readable, R: Wait + Drop> Clients<L, R> {
    /// No clients yet.
    pub(crate) fn new(alloc: Global, dropping: Dropping<L, R>, records: Records) -> Self {
        Clients {
            alloc,
            producers: Vec::new(alloc),
            members: Vec::new(alloc),
            dropping,
            records,
            has_begun: false,
            is_at_work: false,
            has_dropped: false,
            committed: [0; INPUTS as usize],
        }
    }

    /// Adds a client that has done nothing. The first ones are the producers of the input
    /// partitions, in their order, and the others are members of the group.
    pub(crate) fn add(&mut self, client: Client<L>) -> Result<(), AllocError> {
        match u8::try_from(self.producers.len()) {
            Ok(input) if input < INPUTS => {
                let producer = Producer::new(self.alloc, client, partition(input), self.records);
                self.producers.push(producer)?;
            }
            _ => self.members.push(Member::new(client))?,
        }
        Ok(())
    }

    // Lets the producers begin.
    fn begin(&mut self, rt: &R) -> Result<(), PlayFault> {
        for producer in self.producers.iter_mut() {
            producer.begin(rt)?;
        }
        Ok(())
    }

    // Lets each producer look, and says whether a frame came.
    fn produce(&mut self, rt: &R) -> Result<bool, PlayFault> {
        let mut has_moved = false;
        for producer in self.producers.iter_mut() {
            has_moved = producer.turn(rt)? || has_moved;
        }
        Ok(has_moved)
    }

    // Lets the members begin once the input partitions are filled.
    fn begin_members(&mut self, rt: &R) -> Result<(), PlayFault> {
        if self.has_begun || !self.producers.iter().all(|producer| producer.is_done()) {
            return Ok(());
        }
        self.has_begun = true;
        for member in self.members.iter_mut() {
            member.begin(rt)?;
        }
        Ok(())
    }

    // Lets the members work once all have joined.
    fn begin_work(&mut self, rt: &R) -> Result<(), PlayFault> {
        if self.is_at_work || !self.members.iter().all(|member| member.has_joined()) {
            return Ok(());
        }
        self.is_at_work = true;
        for member in self.members.iter_mut() {
            member.poll(rt)?;
        }
        Ok(())
    }

    // Lets the members look, and says whether a frame came.
    fn consume(&mut self, rt: &R) -> Result<bool, PlayFault> {
        let is_at_work = self.is_at_work;
        let mut has_moved = false;
        for member in self.members.iter_mut() {
            let seen = member.turn(rt, is_at_work)?;
            note(&mut self.committed, seen.committed);
            has_moved = seen.has_come || has_moved;
        }
        Ok(has_moved)
    }

    // The member that is dropped.
    fn leaving(&self) -> Option<&Member<L>> {
        self.members.last()
    }

    // Whether a member is to be dropped now: the last, when it has sent the images of half an input
    // partition.
    fn is_to_drop(&self) -> bool {
        let half = usize::from(self.records.get()).div_ceil(2);
        match self.leaving() {
            Some(leaving) => !self.has_dropped && leaving.written() >= half,
            None => false,
        }
    }

    // Drops the one member when it is time for that.
    fn drop_member(&mut self, rt: &R) -> Result<(), PlayFault> {
        if !self.is_to_drop() {
            return Ok(());
        }
        self.has_dropped = true;
        self.dropping.drop_member(rt)
    }

    // Whether the group has read all, and the dropped member has found out that it was dropped.
    fn is_over(&self) -> bool {
        let all = i64::from(self.records.get());
        match self.leaving() {
            Some(leaving) => {
                leaving.has_failed() && self.committed.iter().all(|committed| *committed >= all)
            }
            None => false,
        }
    }

    // One look of each client. All wait briefly if no frame came.
    fn turn(&mut self, rt: &R) -> Result<(), PlayFault>
    where
        R: Clock,
    {
        let has_produced = self.produce(rt)?;
        self.begin_members(rt)?;
        let has_consumed = self.consume(rt)?;
        self.begin_work(rt)?;
        self.drop_member(rt)?;
        if !has_produced && !has_consumed {
            thread::sleep(rt, Duration::from_micros(PAUSE_MICROS));
        }
        Ok(())
    }

    // Plays until all is read and written.
    fn play_on(&mut self, rt: &R) -> Result<(), PlayFault>
    where
        R: Clock,
    {
        self.begin(rt)?;
        for _ in 0..MOST_TURNS {
            if self.is_over() {
                return Ok(());
            }
            self.turn(rt)?;
        }
        Err(PlayFault::GaveUp)
    }

    // Appends the receipts of the steps of all to others.
    fn hand_over(&mut self, receipts: &mut Vec<Receipt>) -> Result<(), AllocError> {
        for producer in self.producers.iter_mut() {
            producer.hand_over(receipts)?;
        }
        for member in self.members.iter_mut() {
            member.hand_over(receipts)?;
        }
        Ok(())
    }

    /// Plays to the end, and returns the receipts of all steps.
    pub(crate) fn play(&mut self, rt: &R) -> Result<Vec<Receipt>, PlayFault>
    where
        R: Clock,
    {
        self.play_on(rt)?;
        let mut receipts = Vec::new(self.alloc);
        match self.hand_over(&mut receipts) {
            Ok(()) => Ok(receipts),
            Err(refused) => {
                drop(receipts);
                Err(refused.into())
            }
        }
    }

    /// Closes the connections of all.
    pub(crate) fn close(&self) {
        for producer in &self.producers {
            producer.close();
        }
        for member in &self.members {
            member.close();
        }
    }
}
