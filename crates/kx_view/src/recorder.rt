//! A run as it is watched, step by step.
ghost use Rattle.std.specs.Prelude.{◌≡◌, [], IfOk, OnErr, OnOk};
ghost use Rattle.kx_view.specs.Recording.{AddsStep, TellSame, words_of};

use crate::deeds::{Deed, deed_of, text_of};
use crate::endings::Endings;
use crate::fields::{client_of, number_of, producer_of};
use crate::logs::read_log;
use crate::push::push;
use crate::seen::{LogAt, Seen, Took};
use crate::words::name_of;
use kx_machine::{Input, Note};
use kx_message::{Message, NodeId};
use kx_page::{Arrow, Fate, Lane, Log, Mark, Run, Step, Way};
use std::alloc::{AllocError, Global};
use std::marker::Model;

// How many clients have a lane of their own; all others share one.
const MOST_CLIENTS: usize = 12;

// Whose lane it is.
#[derive(Clone, Copy, PartialEq, Eq)]
enum Owner {
    Node(NodeId),
    // All clients that have no lane of their own.
    Others,
}

/// A run as it is watched.
#[derive(Drop)]
pub struct Recorder {
    alloc: Global,
    owners: Vec<Owner>,
    steps: Vec<Step>,
    // of each message that was sent, by its number, its first arrival
    first: Vec<Arrow>,
    // further arrivals
    again: Vec<Arrow>,
    endings: Endings,
    logs: Vec<Log>,
    // the lanes of clients outside
    outside: Vec<usize>,
}

impl Model for Recorder {
    ghost use Rattle.std.specs.Prelude.{List};
    ghost use Rattle.kx_page.specs.declared.run.Step.{Step};

    ghost Value = { List Step };

    ghost view = { λ r. r.steps.items };
}

// The place of an owner from the left: clients by their numbers, the coordinator, partitions.
fn rank(owner: &Owner) -> u64 {
    match owner {
        Owner::Node(NodeId::Client(client)) => u64::from(client.get()),
        Owner::Others => 1 << 33,
        Owner::Node(NodeId::Coordinator) => 1 << 34,
        Owner::Node(NodeId::Partition(partition)) => (1 << 35) + u64::from(partition.get()),
    }
}

// How many of these are left of an owner.
fn left_of(owners: &[Owner], owner: &Owner) -> usize {
    let own = rank(owner);
    let mut count: usize = 0;
    for other in owners {
        if rank(other) < own {
            count = count.saturating_add(1);
        }
    }
    count
}

// How many of these are clients.
fn clients_in(owners: &[Owner]) -> usize {
    let mut count: usize = 0;
    for owner in owners {
        if matches!(owner, Owner::Node(NodeId::Client(_))) {
            count = count.saturating_add(1);
        }
    }
    count
}

// The lane of an owner, if it has one.
fn lane_in(owners: &[Owner], owner: &Owner) -> Option<usize> {
    for (lane, other) in owners.iter().enumerate() {
        if other == owner {
            return Some(lane);
        }
    }
    None
}

// Whose lane a node is shown in.
fn owner_of(owners: &[Owner], node: NodeId) -> Owner {
    let own = Owner::Node(node);
    if !matches!(node, NodeId::Client(_)) || lane_in(owners, &own).is_some() {
        return own;
    }
    if clients_in(owners) < MOST_CLIENTS {
        own
    } else {
        Owner::Others
    }
}

// The lane of a node, in the order in which nodes appeared.
fn lane_of(owners: &mut Vec<Owner>, node: NodeId) -> Result<usize, AllocError> {
    let owner = owner_of(owners.as_slice(), node);
    if let Some(lane) = lane_in(owners.as_slice(), &owner) {
        return Ok(lane);
    }
    let lane = owners.len();
    push(owners, owner)?;
    Ok(lane)
}

// Adds the messages that a step sent.
fn add_sent(text: &mut String, sent: &[Message]) -> Result<(), AllocError> {
    for message in sent {
        let to = message.receiver();
        write!(text, "; sends to {to}: {message}")?;
    }
    Ok(())
}

// Adds what a step took.
fn add_taken(text: &mut String, took: Took<'_>) -> Result<(), AllocError> {
    match took {
        Took::Message(number, message) => write!(text, " takes #{number} {message}"),
        Took::Input(Input::Deliver(message)) => write!(text, " takes {message}"),
        Took::Input(Input::Expire(time)) => write!(text, " hears that it is {time} ms"),
        Took::Nothing | Took::Input(_) | Took::Outside(_) => Ok(()),
    }
}

// Adds what a step took and what it sent.
fn add_detail(text: &mut String, seen: &Seen<'_>) -> Result<(), AllocError> {
    add_taken(text, seen.took)?;
    add_sent(text, seen.sent)
}

// What a step took and what it sent.
fn detail_of(alloc: Global, seen: &Seen<'_>) -> Result<String, AllocError> {
    let node = seen.node;
    let mut text = format!(in alloc; "{node}")?;
    match add_detail(&mut text, seen) {
        Ok(()) => Ok(text),
        Err(error) => {
            drop(text);
            Err(error)
        }
    }
}

// The message that a step is about, if it is about one: what it took, or what a client outside sent.
fn message_in<'a>(seen: &Seen<'a>) -> Option<&'a Message> {
    match seen.took {
        Took::Message(_, message) | Took::Input(Input::Deliver(message)) => Some(message),
        Took::Outside(message) => Some(message),
        Took::Input(_) | Took::Nothing => None,
    }
}

// The client that a step is for.
fn client_in(seen: &Seen<'_>) -> Option<u32> {
    if let NodeId::Client(client) = seen.node {
        return Some(client.get());
    }
    number_of(message_in(seen)?)
}

// The producer id that a step is about.
fn producer_in(seen: &Seen<'_>) -> Option<i64> {
    producer_of(message_in(seen)?)
}

// Who sends the first of these, if a client does.
fn sender_in(sent: &[Message]) -> NodeId {
    let [request, ..] = sent else {
        return NodeId::Coordinator;
    };
    match client_of(request) {
        Some(client) => NodeId::Client(client),
        None => NodeId::Coordinator,
    }
}

// That a client outside sends the first of these.
fn asked_in(sent: &[Message]) -> Took<'_> {
    match sent {
        [request, ..] => Took::Outside(request),
        [] => Took::Nothing,
    }
}

// Adds a step as it is seen, before anything is known of what becomes of it.
fn add_step(
    alloc: Global,
    steps: &mut Vec<Step>,
    lane: usize,
    seen: &Seen<'_>,
) -> Result<(), AllocError>
    ensures ok { OnOk result (AddsStep steps.old.items steps.new.items) }
    ensures err { OnErr result (steps.new.items ≡ steps.old.items) }
{
    let Deed { title, rule, mark } = deed_of(seen);
    let title = text_of(alloc, &title)?;
    let detail = detail_of(alloc, seen)?;
    let step = Step {
        lane,
        title,
        detail,
        rule,
        mark,
        fate: Fate::Plain,
        client: client_in(seen),
        producer: producer_in(seen),
        ended: None,
        stable: seen.stable(),
    };
    push(steps, step)?;
    Ok(())
}

// Notes a message that a step sends, which hasn't arrived.
fn send(
    first: &mut Vec<Arrow>,
    alloc: Global,
    step: usize,
    from: usize,
    to: usize,
    message: &Message,
) -> Result<(), AllocError> {
    let text = format!(in alloc; "{message}")?;
    let arrow = Arrow {
        sent: step,
        from,
        taken: step,
        to,
        way: Way::Lost,
        fate: Fate::Plain,
        client: number_of(message),
        producer: producer_of(message),
        name: name_of(message),
        text,
    };
    push(first, arrow)
}

// Notes the messages that a step sends.
fn send_all(
    owners: &mut Vec<Owner>,
    first: &mut Vec<Arrow>,
    alloc: Global,
    step: usize,
    from: usize,
    sent: &[Message],
) -> Result<(), AllocError> {
    for message in sent {
        let to = lane_of(owners, message.receiver())?;
        send(first, alloc, step, from, to, message)?;
    }
    Ok(())
}

// Notes that a message arrives again, whose first arrival is this arrow.
fn arrive_again(again: &mut Vec<Arrow>, arrow: &Arrow, taken: usize) -> Result<(), AllocError> {
    let text = arrow.text.clone()?;
    push(
        again,
        Arrow {
            sent: arrow.sent,
            from: arrow.from,
            taken,
            to: arrow.to,
            way: Way::Again,
            fate: Fate::Plain,
            client: arrow.client,
            producer: arrow.producer,
            name: arrow.name,
            text,
        },
    )
}

// Notes that the message that a step takes arrives, if it takes one.
fn arrive(
    first: &mut Vec<Arrow>,
    again: &mut Vec<Arrow>,
    step: usize,
    took: Took<'_>,
) -> Result<(), AllocError> {
    let Took::Message(number, _) = took else {
        return Ok(());
    };
    let Some(arrow) = first.get_mut(number) else {
        return Ok(());
    };
    if !matches!(arrow.way, Way::Lost) {
        return arrive_again(again, arrow, step);
    }
    arrow.way = Way::First;
    arrow.taken = step;
    Ok(())
}

// Notes that a lane is that of a client outside.
fn note_outside(outside: &mut Vec<usize>, lane: usize) -> Result<(), AllocError> {
    if outside.as_slice().contains(&lane) {
        return Ok(());
    }
    push(outside, lane)
}

impl Recorder {
    /// A recorder that has watched nothing.
    pub fn new(alloc: Global) -> Recorder
        ensures { result ≡ [] }
    {
        Recorder {
            alloc,
            owners: Vec::new(alloc),
            steps: Vec::new(alloc),
            first: Vec::new(alloc),
            again: Vec::new(alloc),
            endings: Endings::new(alloc),
            logs: Vec::new(alloc),
            outside: Vec::new(alloc),
        }
    }

    /// Adds a step.
    ///
    /// # Errors
    ///
    /// Only if memory runs out; then the steps are as before.
    pub fn add(&mut self, seen: &Seen<'_>) -> Result<(), AllocError>
        ensures ok { OnOk result (AddsStep self.old self.new) }
        ensures err { OnErr result (self.new ≡ self.old) }
    {
        let step = self.steps.len();
        let lane = lane_of(&mut self.owners, seen.node)?;
        arrive(&mut self.first, &mut self.again, step, seen.took)?;
        self.endings.append(step, lane, seen)?;
        send_all(
            &mut self.owners,
            &mut self.first,
            self.alloc,
            step,
            lane,
            seen.sent,
        )?;
        add_step(self.alloc, &mut self.steps, lane, seen)
    }

    /// Adds the step of a client outside that sends a request, the first of these.
    ///
    /// # Errors
    ///
    /// Only if memory runs out; then the steps are as before.
    pub fn add_request(&mut self, sent: &[Message]) -> Result<(), AllocError>
        ensures ok { OnOk result (AddsStep self.old self.new) }
        ensures err { OnErr result (self.new ≡ self.old) }
    {
        let none = LogAt { end: 0, stable: 0 };
        let lane = lane_of(&mut self.owners, sender_in(sent))?;
        note_outside(&mut self.outside, lane)?;
        self.add(&Seen {
            node: sender_in(sent),
            took: asked_in(sent),
            sent,
            note: Note::Done,
            failed: false,
            before: none,
            after: none,
        })
    }

    /// Adds a partition's log as it ends, whose batches are in these texts.
    ///
    /// # Errors
    ///
    /// Only if memory runs out.
    pub fn add_log(&mut self, node: NodeId, at: LogAt, texts: &[&[u8]]) -> Result<(), AllocError>
        ensures { self.new ≡ self.old }
    {
        let lane = lane_of(&mut self.owners, node)?;
        let name = format!(in self.alloc; "{node}")?;
        let log = read_log(self.alloc, name, at, texts, lane, &mut self.endings)?;
        push(&mut self.logs, log)
    }
}

// The place of a lane from the left.
fn place_of(owners: &[Owner], lane: usize) -> usize {
    match owners.get(lane) {
        Some(owner) => left_of(owners, owner),
        None => lane,
    }
}

// What of a run is known once it has ended.
#[derive(Clone, Copy)]
struct Ended<'a> {
    owners: &'a [Owner],
    outside: &'a [usize],
    endings: &'a Endings,
}

// Says of a step what became of it, and gives it its lane from the left.
fn settle_step(step: &mut Step, number: usize, ended: Ended<'_>)
    ensures { words_of step.new ≡ words_of step.old }
{
    let ending = ended.endings.of(number);
    step.lane = place_of(ended.owners, step.lane);
    step.fate = ending.fate;
    step.ended = ending.ended;
}

// Says of all steps what became of them.
fn settle_steps(steps: &mut Vec<Step>, ended: Ended<'_>)
    ensures { TellSame steps.old.items steps.new.items }
{
    for number in 0..steps.len() {
        settle_step(&mut steps[number], number, ended);
    }
}

// Says of an arrow what became of the transaction that its message is about, or that what a client
// outside got isn't seen; and gives it its lanes from the left.
fn settle_arrow(arrow: &mut Arrow, ended: Ended<'_>) {
    if !matches!(arrow.way, Way::Lost) {
        arrow.fate = ended.endings.of(arrow.taken).fate;
    } else if ended.outside.contains(&arrow.to) {
        arrow.way = Way::Outside;
    }
    arrow.from = place_of(ended.owners, arrow.from);
    arrow.to = place_of(ended.owners, arrow.to);
}

// Says of all arrows what became of them.
fn settle_arrows(arrows: &mut Vec<Arrow>, ended: Ended<'_>) {
    for arrow in arrows.iter_mut() {
        settle_arrow(arrow, ended);
    }
}

// The name of a lane.
fn name_for(alloc: Global, owner: &Owner) -> Result<String, AllocError> {
    match owner {
        Owner::Node(node) => format!(in alloc; "{node}"),
        Owner::Others => String::from_str(alloc, "other clients"),
    }
}

// Adds the lane of an owner.
fn add_lane(lanes: &mut Vec<Lane>, alloc: Global, owner: &Owner) -> Result<(), AllocError> {
    let name = name_for(alloc, owner)?;
    let is_partition = matches!(owner, Owner::Node(NodeId::Partition(_)));
    push(lanes, Lane { name, is_partition })
}

// The lanes from the left.
fn lanes_of(alloc: Global, owners: &[Owner]) -> Result<Vec<Lane>, AllocError> {
    let mut lanes = Vec::new(alloc);
    for place in 0..owners.len() {
        for owner in owners {
            if left_of(owners, owner) == place {
                add_lane(&mut lanes, alloc, owner)?;
            }
        }
    }
    Ok(lanes)
}

impl Recorder {
    // Says of all that was watched what became of it, and returns the lanes from the left.
    fn settle(&mut self) -> Result<Vec<Lane>, AllocError>
        ensures { TellSame self.old self.new }
    {
        self.first.append(&mut self.again)?;
        let ended = Ended {
            owners: self.owners.as_slice(),
            outside: self.outside.as_slice(),
            endings: &self.endings,
        };
        settle_steps(&mut self.steps, ended);
        settle_arrows(&mut self.first, ended);
        lanes_of(self.alloc, ended.owners)
    }

    // The run that was watched, of this title and with these lanes, once all was settled.
    fn with_lanes(self, title: &'static str, lanes: Vec<Lane>) -> Run
        ensures steps { result.steps.items ≡ self }
        ensures title { result.title.now ≡ title.now }
    {
        let Recorder {
            steps,
            first: arrows,
            logs,
            ..
        } = self;
        Run {
            title,
            lanes,
            steps,
            arrows,
            logs,
        }
    }

    /// The run that was watched, of this title, once its logs were added.
    ///
    /// # Errors
    ///
    /// Only if memory runs out.
    pub fn into_run(mut self, title: &'static str) -> Result<Run, AllocError>
        ensures steps { IfOk result (λ run. TellSame self run.steps.items) }
        ensures title { IfOk result (λ run. run.title.now ≡ title.now) }
    {
        match self.settle() {
            Ok(lanes) => Ok(self.with_lanes(title, lanes)),
            Err(error) => {
                self.end();
                Err(error)
            }
        }
    }

    /// Drops all that was watched. A crate that ends it by this call, and not by dropping it, need
    /// not prove the drop of each of its types.
    pub fn end(self) {
        drop(self);
    }
}
