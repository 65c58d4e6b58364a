//! Which event a line lets happen in a world.
ghost use Rattle.std.specs.Prelude.{◌≡◌};
ghost use Rattle.kx_core.specs.Local.{IsLocal};
ghost use Rattle.kx_machine.specs.Meaning.{command_of, input_of};
ghost use Rattle.kx_model.specs.World.{Deliver, Hand, Make};
ghost use Rattle.kx_processor.specs.Prefixed.{image_of, images_of};
ghost use Rattle.kx_script.specs.Command as spells;
ghost use Rattle.kx_script.specs.Running.{Means, Reads, StandsFor};
ghost use Rattle.kx_script.specs.Session.{Session, hands, store_of, tells, timeout};
ghost use Rattle.kx_system.specs.System.{Happens, MakeProcessor, System};

use crate::command::{
    client_of, group_of, inputs_of, node_of, offset_of, only, pair, partition_of, txn_of,
};
use crate::marks::{Marks, mode_of};
use crate::order::Left;
use crate::values::{offsets_of, values_of};
use crate::world::{Running, ScriptWorld, has_client, has_node, has_partition, message};
use kx_core::Event;
use kx_machine::{Command, Input};
use kx_message::{
    ClientId, GroupId, NodeId, Outcome, PartitionId, PartitionOffset, Timeout, TxnId,
};
use kx_processor::{Inputs, Prefixed};
use kx_text::{Words, number, words_of};
use std::alloc::{AllocError, Global};

// How long a client's transactions may stay open, in milliseconds.
const TIMEOUT: u32 = 60_000;

/// An event, and the node at which it is.
#[derive(Drop)]
pub struct EventAt {
    /// The node.
    pub place: NodeId,
    /// The event.
    pub event: Event<Prefixed>,
}

impl EventAt {
    /// Drops the event, as [`end_event`] does.
    pub fn end(self) {
        drop(self);
    }
}

/// Drops an event. A crate that ends it by this call, and not by dropping it, need not prove the drop
/// of each of its types.
pub fn end_event(event: Event<Prefixed>) {
    drop(event);
}

// The first word of a line that is an event.
#[derive(Clone, Copy, Debug, PartialEq, Eq)]
pub(crate) enum Name {
    Init,
    Begin,
    Send,
    Commit,
    Abort,
    Resend,
    Poll,
    Join,
    Leave,
    Offsets,
    Client,
    Processor,
    Put,
    Deliver,
    Expire,
    Remind,
    Drop,
    Restart,
}

// A node is handed an input, while its next append is to fail or not.
fn hand(to: &NodeId, input: Input, mark: Option<Left>) -> EventAt
    ensures { (s : System)
        → Means s result (Happens (Hand to.now (input_of input) (store_of mark))) }
{
    EventAt {
        place: *to,
        event: Event::Hand {
            to: *to,
            input,
            store: mode_of(mark),
        },
    }
}

// A node is handed an input, while its next append fails if a mark says so.
fn hand_marked(marks: &Marks, to: NodeId, input: Input) -> EventAt
    ensures { (s : Session) → marks.now ≡ s.marks
        → Means s.system result (hands s to (input_of input)) }
{
    hand(&to, input, marks.at(&to))
}

// A message comes to a node, while its next append is to fail or not.
fn bring(number: usize, to: &NodeId, mark: Option<Left>) -> EventAt
    ensures { (s : System) → Means s result (Happens (Deliver number to.now (store_of mark))) }
{
    EventAt {
        place: *to,
        event: Event::Deliver {
            number,
            to: *to,
            store: mode_of(mark),
        },
    }
}

// A client is told to do something.
fn tell(client: ClientId, command: Command) -> EventAt
    ensures { (s : System) → Means s result (tells client (command_of command)) }
{
    hand(&NodeId::Client(client), Input::Command(command), None)
}

fn timeout() -> Timeout
    ensures { result ≡ timeout }
{
    Timeout::try_from(TIMEOUT).unwrap()
}

// A client is made.
fn make(client: ClientId, txn: Option<TxnId>) -> EventAt
    ensures { (s : System) → Means s result (Happens (Make client txn timeout)) }
{
    EventAt {
        place: NodeId::Client(client),
        event: Event::Make {
            client,
            txn,
            timeout: timeout(),
        },
    }
}

// A processor is made.
fn make_processor(
    alloc: Global,
    client: ClientId,
    txn: Option<TxnId>,
    group: GroupId,
    inputs: Inputs,
) -> EventAt
    ensures { (s : System)
        → Means s result (MakeProcessor client txn timeout group inputs image_of) }
{
    EventAt {
        place: NodeId::Client(client),
        event: Event::MakeProcessor {
            client,
            txn,
            timeout: timeout(),
            group,
            inputs,
            process: Prefixed::new(alloc),
        },
    }
}

// The number of a client that is there.
fn client_in(world: &ScriptWorld, word: &[u8]) -> Option<ClientId>
    ensures { (s : System) → IsLocal images_of world.now s
        → result ≡ spells.client_in s.world word.now }
{
    let client = client_of(word)?;
    if !has_client(world, client) {
        return None;
    }
    Some(client)
}

// The number of a client that may be made: it is above those of all others.
fn new_in(world: &ScriptWorld, word: &[u8]) -> Option<ClientId>
    ensures { (s : System) → IsLocal images_of world.now s
        → result ≡ spells.new_in s.world word.now }
{
    let client = client_of(word)?;
    if !world.is_new(client) {
        return None;
    }
    Some(client)
}

// The number of a data partition that is there.
fn partition_in(world: &ScriptWorld, word: &[u8]) -> Option<PartitionId>
    ensures { (s : System) → IsLocal images_of world.now s
        → result ≡ spells.partition_in s.world word.now }
{
    let partition = partition_of(word)?;
    if !has_partition(world, partition) {
        return None;
    }
    Some(partition)
}

// A node that is there and has a log.
fn node_in(world: &ScriptWorld, word: &[u8]) -> Option<NodeId>
    ensures { (s : System) → IsLocal images_of world.now s
        → result ≡ spells.node_in s.world word.now }
{
    let node = node_of(word)?;
    if !has_node(world, &node) {
        return None;
    }
    Some(node)
}

// A command that has nothing after the client's number.
fn plain_event(
    world: &ScriptWorld,
    command: Command,
    words: Words<'_>,
) -> Option<Result<EventAt, AllocError>>
    ensures { (s : System) → IsLocal images_of world.now s
        → Reads s (spells.plain_event (command_of command) s.world words.entry) result }
{
    let client = client_in(world, only(words)?)?;
    Some(Ok(tell(client, command)))
}

// `send N P W..`
fn send_event(
    alloc: Global,
    world: &ScriptWorld,
    mut words: Words<'_>,
) -> Option<Result<EventAt, AllocError>>
    ensures { (s : System) → IsLocal images_of world.now s
        → Reads s (spells.send_event s.world words.entry) result }
{
    let client = words.next()?;
    let partition = words.next()?;
    let first = words.next()?;
    let client = client_in(world, client)?;
    let partition = partition_in(world, partition)?;
    match values_of(alloc, first, words) {
        Ok(values) => Some(Ok(tell(client, Command::Send(partition, values)))),
        Err(refused) => Some(Err(refused)),
    }
}

// `join N G`
fn join_event(world: &ScriptWorld, words: Words<'_>) -> Option<Result<EventAt, AllocError>>
    ensures { (s : System) → IsLocal images_of world.now s
        → Reads s (spells.join_event s.world words.entry) result }
{
    let (client, group) = pair(words)?;
    let client = client_in(world, client)?;
    let group = group_of(group)?;
    Some(Ok(tell(client, Command::Join(group))))
}

// `offsets N Q O`
fn offsets_event(
    alloc: Global,
    world: &ScriptWorld,
    mut words: Words<'_>,
) -> Option<Result<EventAt, AllocError>>
    ensures { (s : System) → IsLocal images_of world.now s
        → Reads s (spells.offsets_event s.world words.entry) result }
{
    let client = words.next()?;
    let (partition, offset) = pair(words)?;
    let client = client_in(world, client)?;
    let partition = partition_in(world, partition)?;
    let offset = offset_of(offset)? as i64;
    match offsets_of(alloc, PartitionOffset { partition, offset }) {
        Ok(offsets) => Some(Ok(tell(client, Command::Offsets(offsets)))),
        Err(refused) => Some(Err(refused)),
    }
}

// `client N TXN`
fn client_event(world: &ScriptWorld, words: Words<'_>) -> Option<Result<EventAt, AllocError>>
    ensures { (s : System) → IsLocal images_of world.now s
        → Reads s (spells.client_event s.world words.entry) result }
{
    let (client, txn) = pair(words)?;
    let client = new_in(world, client)?;
    let txn = txn_of(txn)?;
    Some(Ok(make(client, txn)))
}

// `processor N TXN G K`
fn processor_event(
    alloc: Global,
    world: &ScriptWorld,
    mut words: Words<'_>,
) -> Option<Result<EventAt, AllocError>>
    ensures { (s : System) → IsLocal images_of world.now s
        → Reads s (spells.processor_event s.world words.entry) result }
{
    let client = words.next()?;
    let txn = words.next()?;
    let (group, inputs) = pair(words)?;
    let client = new_in(world, client)?;
    let txn = txn_of(txn)?;
    let group = group_of(group)?;
    let inputs = inputs_of(inputs)?;
    Some(Ok(make_processor(alloc, client, txn, group, inputs)))
}

// `put P W..`
fn put_event(
    alloc: Global,
    running: &Running,
    mut words: Words<'_>,
) -> Option<Result<EventAt, AllocError>>
    ensures { (s : Session) → IsLocal images_of running.now.world s.system
        → running.now.marks ≡ s.marks → Reads s.system (spells.put_event s words.entry) result }
{
    let partition = words.next()?;
    let first = words.next()?;
    let partition = partition_in(&running.world, partition)?;
    let to = NodeId::Partition(partition);
    match values_of(alloc, first, words) {
        Ok(values) => Some(Ok(hand_marked(&running.marks, to, Input::Put(values)))),
        Err(refused) => Some(Err(refused)),
    }
}

// `deliver K`
fn deliver_event(running: &Running, words: Words<'_>) -> Option<Result<EventAt, AllocError>>
    ensures { (s : Session) → IsLocal images_of running.now.world s.system
        → running.now.marks ≡ s.marks
        → Reads s.system (spells.deliver_event s words.entry) result }
{
    let number = offset_of(only(words)?)? as usize;
    let to = message(&running.world, number)?.receiver();
    let mark = running.marks.at(&to);
    Some(Ok(bring(number, &to, mark)))
}

// `expire T`
fn expire_event(marks: &Marks, words: Words<'_>) -> Option<Result<EventAt, AllocError>>
    ensures { (s : Session) → marks.now ≡ s.marks
        → Reads s.system (spells.expire_event s words.entry) result }
{
    let moment = number(only(words)?)?;
    Some(Ok(hand_marked(marks, NodeId::Coordinator, Input::Expire(moment))))
}

// `remind`
fn remind_event(marks: &Marks, mut words: Words<'_>) -> Option<Result<EventAt, AllocError>>
    ensures { (s : Session) → marks.now ≡ s.marks
        → Reads s.system (spells.remind_event s words.entry) result }
{
    match words.next() {
        None => Some(Ok(hand_marked(marks, NodeId::Coordinator, Input::Remind))),
        Some(_) => None,
    }
}

// `drop G M`
fn drop_event(marks: &Marks, words: Words<'_>) -> Option<Result<EventAt, AllocError>>
    ensures { (s : Session) → marks.now ≡ s.marks
        → Reads s.system (spells.drop_event s words.entry) result }
{
    let (group, member) = pair(words)?;
    let group = group_of(group)?;
    let member = client_of(member)?;
    let to = NodeId::Partition(PartitionId::OFFSETS);
    Some(Ok(hand_marked(marks, to, Input::Drop(group, member))))
}

// `restart NODE`: what it appends doesn't fail.
fn restart_event(world: &ScriptWorld, words: Words<'_>) -> Option<Result<EventAt, AllocError>>
    ensures { (s : System) → IsLocal images_of world.now s
        → Reads s (spells.restart_event s.world words.entry) result }
{
    let to = node_in(world, only(words)?)?;
    Some(Ok(hand(&to, Input::Restart(world.clock()), None)))
}

// The names of commands of clients.
fn command_name(word: &[u8]) -> Option<Name>
    ensures { result ≡ spells.command_name word.now }
{
    if word == b"init".as_slice() {
        Some(Name::Init)
    } else if word == b"begin".as_slice() {
        Some(Name::Begin)
    } else if word == b"send".as_slice() {
        Some(Name::Send)
    } else if word == b"commit".as_slice() {
        Some(Name::Commit)
    } else if word == b"abort".as_slice() {
        Some(Name::Abort)
    } else if word == b"resend".as_slice() {
        Some(Name::Resend)
    } else if word == b"poll".as_slice() {
        Some(Name::Poll)
    } else if word == b"join".as_slice() {
        Some(Name::Join)
    } else if word == b"leave".as_slice() {
        Some(Name::Leave)
    } else if word == b"offsets".as_slice() {
        Some(Name::Offsets)
    } else {
        None
    }
}

// The names of all other events.
fn event_name(word: &[u8]) -> Option<Name>
    ensures { result ≡ spells.event_name word.now }
{
    if word == b"client".as_slice() {
        Some(Name::Client)
    } else if word == b"processor".as_slice() {
        Some(Name::Processor)
    } else if word == b"put".as_slice() {
        Some(Name::Put)
    } else if word == b"deliver".as_slice() {
        Some(Name::Deliver)
    } else if word == b"expire".as_slice() {
        Some(Name::Expire)
    } else if word == b"remind".as_slice() {
        Some(Name::Remind)
    } else if word == b"drop".as_slice() {
        Some(Name::Drop)
    } else if word == b"restart".as_slice() {
        Some(Name::Restart)
    } else {
        None
    }
}

fn name_in(word: &[u8]) -> Option<Name>
    ensures { result ≡ spells.name_in word.now }
{
    match command_name(word) {
        Some(name) => Some(name),
        None => event_name(word),
    }
}

// The event that a line of this name is.
fn event_as(
    alloc: Global,
    running: &Running,
    name: Name,
    words: Words<'_>,
) -> Option<Result<EventAt, AllocError>>
    ensures { (s : Session) → IsLocal images_of running.now.world s.system
        → running.now.marks ≡ s.marks
        → Reads s.system (spells.event_as s name words.entry) result }
{
    let world = &running.world;
    let marks = &running.marks;
    match name {
        Name::Init => plain_event(world, Command::Init, words),
        Name::Begin => plain_event(world, Command::Begin, words),
        Name::Send => send_event(alloc, world, words),
        Name::Commit => plain_event(world, Command::End(Outcome::Commit), words),
        Name::Abort => plain_event(world, Command::End(Outcome::Abort), words),
        Name::Resend => plain_event(world, Command::Resend, words),
        Name::Poll => plain_event(world, Command::Poll, words),
        Name::Join => join_event(world, words),
        Name::Leave => plain_event(world, Command::Leave, words),
        Name::Offsets => offsets_event(alloc, world, words),
        Name::Client => client_event(world, words),
        Name::Processor => processor_event(alloc, world, words),
        Name::Put => put_event(alloc, running, words),
        Name::Deliver => deliver_event(running, words),
        Name::Expire => expire_event(marks, words),
        Name::Remind => remind_event(marks, words),
        Name::Drop => drop_event(marks, words),
        Name::Restart => restart_event(world, words),
    }
}

/// The event that a line lets happen in a world, and the node at which it is, or None if it lets
/// none happen: a word of it is none, its first word names no event, those after it are not what
/// that one needs, or what they name isn't there.
///
/// # Errors
///
/// The event's own result is an error if there is no memory for its words.
pub fn event_in(
    alloc: Global,
    running: &Running,
    line: &[u8],
) -> Option<Result<EventAt, AllocError>>
    ensures { (s : Session) → StandsFor running.now s
        → Reads s.system (spells.event_in s line.now) result }
{
    let mut words = words_of(line)?;
    let name = name_in(words.next()?)?;
    event_as(alloc, running, name, words)
}
