//! Events that happen in a world, and what its readers tell. What each step means is at the
//! head of `events.cases`.
use crate::lines::tell_on_one_line;
use crate::parts::{last_message, nothing, or_dash, tell_message};
use crate::shown::shown;
use crate::words::{client, partition};
use kx_cases::{StepFault, Subject, Texts, known, told_value, value};
use kx_client::{ValueList, Values};
use kx_core::{Config, Event, LocalWorld, PartitionCount, RunFault, Sent};
use kx_machine::{Command, Input, StoreMode};
use kx_message::{
    Bytes, ErrorCode, GroupId, NodeId, Offsets, Outcome, PartitionId, PartitionOffset, Timeout,
    TxnId,
};
use kx_outside::OutsideRequest;
use kx_processor::Prefixed;
use kx_script::write_rows;
use kx_txnlog::Row;
use std::alloc::{AllocError, Global};
use std::mem;

type Local = LocalWorld<Prefixed>;

/// The world of a case, once it is made, and the events that are yet to happen in it.
#[derive(Drop)]
pub(crate) struct WorldEvents {
    alloc: Global,
    world: Option<Local>,
    events: Vec<Event<Prefixed>>,
}

// A node, as scripts name it.
fn node(word: &str) -> Result<NodeId, StepFault> {
    match word {
        "co" => return Ok(NodeId::Coordinator),
        "po" => return Ok(NodeId::Partition(PartitionId::OFFSETS)),
        _ => {}
    }
    if let Some(number) = word.strip_prefix('p') {
        return partition(number).map(NodeId::Partition);
    }
    match word.strip_prefix('c') {
        Some(number) => client(number).map(NodeId::Client),
        None => Err(StepFault::Unknown),
    }
}

fn bytes(alloc: Global, word: &str) -> Result<Bytes, AllocError> {
    Vec::from_slice(alloc, word.as_bytes()).map(Bytes::from_vec)
}

fn push_values(alloc: Global, values: &mut Vec<Bytes>, words: &[&str]) -> Result<(), AllocError> {
    for word in words {
        values.push(bytes(alloc, word)?)?;
    }
    Ok(())
}

// The words after the first one as the other values of a batch.
fn values_behind(alloc: Global, first: Bytes, words: &[&str]) -> Result<Values, AllocError> {
    let mut more = Vec::new(alloc);
    push_values(alloc, &mut more, words)?;
    Ok(Values {
        first,
        more: ValueList::from_vec(more),
    })
}

// The words as the values of a batch.
fn values(alloc: Global, words: &[&str]) -> Result<Values, StepFault> {
    let [first, more @ ..] = words else {
        return Err(StepFault::Unknown);
    };
    values_behind(alloc, bytes(alloc, first)?, more).map_err(StepFault::Memory)
}

// One offset of an input partition.
fn offsets(alloc: Global, of: &str, at: &str) -> Result<Offsets, StepFault> {
    let offset = PartitionOffset {
        partition: partition(of)?,
        offset: value(at)?,
    };
    Ok(Offsets::from_vec(vec![in alloc; offset]?))
}

// What a client is told to do.
fn command(alloc: Global, words: &[&str]) -> Result<Command, StepFault> {
    match words {
        ["init"] => Ok(Command::Init),
        ["begin"] => Ok(Command::Begin),
        ["send", to, given @ ..] => Ok(Command::Send(partition(to)?, values(alloc, given)?)),
        ["join", group] => value(group).map(Command::Join),
        ["offset", of, at] => offsets(alloc, of, at).map(Command::Offsets),
        ["commit"] => Ok(Command::End(Outcome::Commit)),
        _ => Err(StepFault::Unknown),
    }
}

// What a node is handed.
fn input(alloc: Global, words: &[&str]) -> Result<Input, StepFault> {
    match words {
        ["put", given @ ..] => values(alloc, given).map(Input::Put),
        ["expire", now] => value(now).map(Input::Expire),
        ["remind"] => Ok(Input::Remind),
        ["drop", group, member] => Ok(Input::Drop(value(group)?, client(member)?)),
        ["restart"] => Ok(Input::Restart(0)),
        _ => command(alloc, words).map(Input::Command),
    }
}

// A client is made.
fn make(number: &str, txn: &str) -> Result<Event<Prefixed>, StepFault> {
    Ok(Event::Make {
        client: client(number)?,
        txn: Some(value::<TxnId>(txn)?),
        timeout: known(Timeout::try_from(60_000))?,
    })
}

// A message comes to a node.
fn deliver(number: &str, to: &str) -> Result<Event<Prefixed>, StepFault> {
    Ok(Event::Deliver {
        number: value(number)?,
        to: node(to)?,
        store: StoreMode::Works,
    })
}

// A node is handed something else.
fn hand(alloc: Global, to: &str, given: &[&str]) -> Result<Event<Prefixed>, StepFault> {
    Ok(Event::Hand {
        to: node(to)?,
        input: input(alloc, given)?,
        store: StoreMode::Works,
    })
}

// A request arrives from outside, in this frame; none if no client may send the message.
fn arrive(alloc: Global, frame: &[u8]) -> Result<Option<Event<Prefixed>>, StepFault> {
    match OutsideRequest::new(last_message(alloc, frame)?) {
        Some(request) => Ok(Some(Event::Arrive { request })),
        None => Ok(None),
    }
}

// Tells the messages that were sent, from a number on, each as RECEIVER TEXT.
fn tell_sent(told: &mut String, sent: &Sent, first: usize) -> Result<(), AllocError> {
    let mut parted = "";
    for number in first..sent.len() {
        if let Some(message) = sent.get(number) {
            tell_message(told, parted, message)?;
            parted = "; ";
        }
    }
    or_dash(told)
}

fn tell_members(told: &mut String, world: &Local, group: GroupId) -> Result<(), AllocError> {
    write!(told, "generation {}, members", world.generation(group))?;
    for member in world.members(group) {
        write!(told, " {member}")?;
    }
    Ok(())
}

fn tell_rows(alloc: Global, told: &mut String, rows: &[Row]) -> Result<(), AllocError> {
    let mut written = Vec::new(alloc);
    match write_rows(&mut written, rows) {
        Ok(()) => tell_on_one_line(told, written.as_slice()),
        Err(_) => Err(AllocError),
    }
}

fn tell_offset(told: &mut String, offset: Option<i64>) -> Result<(), AllocError> {
    match offset {
        Some(offset) => write!(told, "{offset}"),
        None => told.push_str("none"),
    }
}

fn tell_committed(told: &mut String, committed: (ErrorCode, i64)) -> Result<(), AllocError> {
    let (code, offset) = committed;
    write!(told, "{code} {offset}")
}

// A group's committed offset: `GROUP PARTITION HOW`.
fn committed(world: &Local, words: &[&str]) -> Result<(ErrorCode, i64), StepFault> {
    let [group, number, how] = words else {
        return Err(StepFault::Unknown);
    };
    let (group, number) = (value(group)?, partition(number)?);
    Ok(world.committed_offset(group, number, *how == "stable"))
}

fn tell_number(told: &mut String, number: u64) -> Result<(), AllocError> {
    write!(told, "{number}")
}

fn tell_flag(told: &mut String, flag: bool) -> Result<(), AllocError> {
    told.push_str(if flag { "true" } else { "false" })
}

// Reports what a reader of the world tells of its size.
fn read_size(told: &mut String, world: &Local, words: &[&str]) -> Result<(), StepFault> {
    let done = match words {
        ["clock"] => tell_number(told, world.clock()),
        ["has_arrivals"] => tell_flag(told, world.has_arrivals()),
        ["partitions"] => tell_number(told, world.partitions() as u64),
        ["has_partition", number] => {
            tell_flag(told, world.partition(partition(number)?).is_some())
        }
        ["has_client", number] => tell_flag(told, world.client(client(number)?).is_some()),
        _ => return Err(StepFault::Unknown),
    };
    done.map_err(StepFault::Memory)
}

// Reports what a reader of the world tells.
fn read(alloc: Global, told: &mut String, world: &Local, words: &[&str]) -> Result<(), StepFault> {
    let done = match words {
        ["sent", first] => tell_sent(told, world.sent(), value(first)?),
        ["lso", number] => tell_offset(told, world.last_stable_offset(partition(number)?)),
        ["group", group] => tell_members(told, world, value(group)?),
        ["committed", given @ ..] => tell_committed(told, committed(world, given)?),
        ["rows"] => tell_rows(alloc, told, world.rows()),
        _ => return read_size(told, world, words),
    };
    done.map_err(StepFault::Memory)
}

// What is shown of a data partition: `page` the numbers of a page of all records from an offset on,
// `records` what a reader of committed records gets from there on.
fn show(
    alloc: Global,
    world: &Local,
    what: &str,
    number: &str,
    from: &str,
) -> Result<String, StepFault> {
    let (number, from) = (partition(number)?, value(from)?);
    match world.fetch(number, from, u32::MAX, what == "records") {
        Ok(page) => shown(alloc, what, page),
        Err(_) => Err(StepFault::Unknown),
    }
}

// Reports how events ended that happened all at once.
fn tell_done(told: &mut String, done: Result<(), RunFault>) -> Result<(), AllocError> {
    match done {
        Ok(()) => told.push_str("ok"),
        Err(fault) => write!(told, "{fault:?}"),
    }
}

// The events happen, one by one. Reports what each was answered.
fn tell_each(
    told: &mut String,
    world: &mut Local,
    events: &[Event<Prefixed>],
) -> Result<(), AllocError> {
    let mut parted = "";
    for event in events {
        let note = world.step(event)?;
        write!(told, "{parted}{note:?}")?;
        parted = " ";
    }
    or_dash(told)
}

// A world of this many partitions.
fn world_of(alloc: Global, count: &str) -> Result<Local, StepFault> {
    let Some(partitions) = PartitionCount::new(value(count)?) else {
        return Err(StepFault::Unknown);
    };
    LocalWorld::new(alloc, Config { partitions }).map_err(StepFault::Memory)
}

impl WorldEvents {
    fn start(&mut self, count: &str) -> Result<String, StepFault> {
        let world = world_of(self.alloc, count)?;
        drop(mem::replace(&mut self.world, Some(world)));
        nothing(self.alloc)
    }

    // One more event is to happen, if its words are right.
    fn await_event(
        &mut self,
        event: Result<Event<Prefixed>, StepFault>,
    ) -> Result<String, StepFault> {
        self.events.push(event?)?;
        nothing(self.alloc)
    }

    // Adds the event that the request in this frame arrives from outside, or prints `no request`
    // if the frame brings none that can.
    fn await_request(&mut self, texts: &Texts, frame: &str) -> Result<String, StepFault> {
        let frame = texts.bytes(frame)?;
        let Some(event) = arrive(self.alloc, frame.as_slice())? else {
            return told_value(self.alloc, "no request");
        };
        self.await_event(Ok(event))
    }

    fn show(&self, what: &str, number: &str, from: &str) -> Result<String, StepFault> {
        match &self.world {
            Some(world) => show(self.alloc, world, what, number, from),
            None => Err(StepFault::Unknown),
        }
    }

    // Reports a step of a world that is made.
    fn tell(&mut self, told: &mut String, words: &[&str]) -> Result<(), StepFault> {
        let Some(world) = &mut self.world else {
            return Err(StepFault::Unknown);
        };
        let done = match words {
            ["run"] => tell_done(told, world.run(self.events.as_slice())),
            ["each"] => tell_each(told, world, self.events.as_slice()),
            _ => return read(self.alloc, told, world, words),
        };
        self.events.clear();
        done.map_err(StepFault::Memory)
    }

    fn within(&mut self, words: &[&str]) -> Result<String, StepFault> {
        let mut told = String::new(self.alloc);
        self.tell(&mut told, words)?;
        Ok(told)
    }
}

impl Subject for WorldEvents {
    fn new(alloc: Global) -> Self {
        WorldEvents {
            alloc,
            world: None,
            events: Vec::new(alloc),
        }
    }

    fn answer(&mut self, texts: &Texts, words: &[&str]) -> Result<String, StepFault> {
        match words {
            ["world", count] => self.start(count),
            ["make", number, txn] => self.await_event(make(number, txn)),
            ["deliver", number, to] => self.await_event(deliver(number, to)),
            ["hand", to, given @ ..] => self.await_event(hand(self.alloc, to, given)),
            ["arrive", frame] => self.await_request(texts, frame),
            ["page" | "records", number, from] => self.show(words[0], number, from),
            _ => self.within(words),
        }
    }
}
