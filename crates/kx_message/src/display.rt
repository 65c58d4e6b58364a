//! Messages, and the nodes between which they go, as scripts print them.
ghost use Rattle.std.specs.Prelude.{◌≡◌, Some, None, MatchOption, take};
ghost use Rattle.std.specs.Int.{w16, w32, w64};
ghost use Rattle.kx_message.specs.Reader.{signed, taken};
ghost use Rattle.kx_message.specs.Prints.{producer_place};
ghost use Rattle.kx_message.specs.Prints.{node_text, txn_word, held_words, optional_held_words};
ghost use Rattle.kx_message.specs.Prints.{header_of, header_words, message_text};
ghost use Rattle.kx_message.specs.declared.message.Message.TheVariants as msg;

use crate::message::{Held, Message, NodeId, Raised};
use crate::{
    AddPartition, AddReply, EndReply, EndTxn, Fetch, FetchReply, InitProducerId, InitReply, Join,
    JoinReply, Leave, LeaveReply, MarkerReply, OffsetFetch, OffsetFetchReply, OffsetsReply,
    Produce, ProduceReply, TxnId, TxnOffsetCommit, WriteMarker,
};
use std::fmt;

/// As `co` for the coordinator, `p` and the partition, or `c` and the client's number.
impl fmt::Display for NodeId {
    ghost output = { λ node. Some (node_text node) };

    fn fmt<W: fmt::Write>(&self, f: &mut fmt::Formatter<W>) -> fmt::Result {
        match self {
            NodeId::Coordinator => f.write_str("co"),
            NodeId::Partition(partition) => write!(f, "p{partition}"),
            NodeId::Client(client) => write!(f, "c{client}"),
        }
    }
}

/// The id and the epoch, with a space between.
impl fmt::Display for Held {
    ghost output = { λ held. Some (held_words held) };

    fn fmt<W: fmt::Write>(&self, f: &mut fmt::Formatter<W>) -> fmt::Result {
        let Held { id, epoch } = self;
        write!(f, "{id} {epoch}")
    }
}

/// The id and the raised epoch, with a space between.
impl fmt::Display for Raised {
    ghost output = { λ raised. Some (held_words raised) };

    fn fmt<W: fmt::Write>(&self, f: &mut fmt::Formatter<W>) -> fmt::Result {
        let held = self.get();
        write!(f, "{held}")
    }
}

// A transactional id, or `-` if there is none.
#[derive(Drop)]
struct OrDash(Option<TxnId>);

impl fmt::Display for OrDash {
    ghost output = { λ txn. Some (txn_word txn.0) };

    fn fmt<W: fmt::Write>(&self, f: &mut fmt::Formatter<W>) -> fmt::Result {
        match &self.0 {
            None => f.write_str("-"),
            Some(txn) => write!(f, "{txn}"),
        }
    }
}

// An id and its epoch, -1 and -1 if there is none.
#[derive(Drop)]
struct OrMinusOnes(Option<Held>);

impl fmt::Display for OrMinusOnes {
    ghost output = { λ held. Some (optional_held_words held.0) };

    fn fmt<W: fmt::Write>(&self, f: &mut fmt::Formatter<W>) -> fmt::Result {
        match &self.0 {
            None => f.write_str("-1 -1"),
            Some(held) => write!(f, "{held}"),
        }
    }
}

// Who wrote a batch: the producer's id and epoch, the first sequence and the count of records.
#[derive(Drop)]
struct Header {
    id: i64,
    epoch: i16,
    first: i32,
    count: i32,
}

// The place of the producer's id in a batch.
const PRODUCER_PLACE: usize = 43;

// The bytes of a batch from the producer's id on.
#[tactic(auto, unfolding(crate::specs::Reader::taken))]
fn from_producer(batch: &[u8]) -> Option<&[u8]>
    ensures { MatchOption result (taken producer_place batch.now ≡ None)
        (λ rest. taken producer_place batch.now
        ≡ Some (take producer_place batch.now, rest.now)) }
{
    if batch.len() < PRODUCER_PLACE {
        return None;
    }
    let (_, rest) = batch.split_at(PRODUCER_PLACE);
    Some(rest)
}

// The number at the front of some bytes, and the bytes after it; so the two below.
#[tactic(auto, unfolding(crate::specs::Reader::signed))]
fn front_i64(bytes: &[u8]) -> Option<(i64, &[u8])>
    ensures { MatchOption result (signed w64 bytes.now ≡ None)
        (λ x. signed w64 bytes.now ≡ Some (x.0, x.1.now)) }
{
    kx_varint::read_i64(bytes).ok()
}

#[tactic(auto, unfolding(crate::specs::Reader::signed))]
fn front_i32(bytes: &[u8]) -> Option<(i32, &[u8])>
    ensures { MatchOption result (signed w32 bytes.now ≡ None)
        (λ x. signed w32 bytes.now ≡ Some (x.0, x.1.now)) }
{
    kx_varint::read_i32(bytes).ok()
}

#[tactic(auto, unfolding(crate::specs::Reader::signed))]
fn front_i16(bytes: &[u8]) -> Option<(i16, &[u8])>
    ensures { MatchOption result (signed w16 bytes.now ≡ None)
        (λ x. signed w16 bytes.now ≡ Some (x.0, x.1.now)) }
{
    kx_varint::read_i16(bytes).ok()
}

#[tactic(auto, unfolding(crate::specs::Prints::header_at))]
fn header_in(batch: &[u8]) -> Option<Header>
    ensures { result ≡ header_of batch.now }
{
    let rest = from_producer(batch)?;
    let (id, rest) = front_i64(rest)?;
    let (epoch, rest) = front_i16(rest)?;
    let (first, rest) = front_i32(rest)?;
    let (count, _) = front_i32(rest)?;
    Some(Header {
        id,
        epoch,
        first,
        count,
    })
}

impl fmt::Display for Header {
    ghost output = { λ header. Some (header_words (Some header)) };

    fn fmt<W: fmt::Write>(&self, f: &mut fmt::Formatter<W>) -> fmt::Result {
        let Header {
            id,
            epoch,
            first,
            count,
        } = self;
        write!(f, "{id} {epoch} {first} {count}")
    }
}

impl fmt::Display for InitProducerId {
    ghost output = { λ it. Some (message_text (msg.InitProducerId it)) };

    fn fmt<W: fmt::Write>(&self, f: &mut fmt::Formatter<W>) -> fmt::Result {
        let InitProducerId { txn, timeout, .. } = self;
        let txn = OrDash(*txn);
        write!(f, "Init {txn} {timeout}")
    }
}

impl fmt::Display for InitReply {
    ghost output = { λ it. Some (message_text (msg.InitReply it)) };

    fn fmt<W: fmt::Write>(&self, f: &mut fmt::Formatter<W>) -> fmt::Result {
        let InitReply { code, held, .. } = self;
        let held = OrMinusOnes(*held);
        write!(f, "InitReply {code} {held}")
    }
}

impl fmt::Display for EndTxn {
    ghost output = { λ it. Some (message_text (msg.EndTxn it)) };

    fn fmt<W: fmt::Write>(&self, f: &mut fmt::Formatter<W>) -> fmt::Result {
        let EndTxn {
            txn,
            held,
            outcome,
            ..
        } = self;
        write!(f, "EndTxn {txn} {held} {outcome}")
    }
}

impl fmt::Display for EndReply {
    ghost output = { λ it. Some (message_text (msg.EndReply it)) };

    fn fmt<W: fmt::Write>(&self, f: &mut fmt::Formatter<W>) -> fmt::Result {
        let EndReply { code, held, .. } = self;
        let held = OrMinusOnes(*held);
        write!(f, "EndReply {code} {held}")
    }
}

/// What the header of the batch says, or `-` if the bytes are too few for a header.
impl fmt::Display for Produce {
    ghost output = { λ it. Some (message_text (msg.Produce it)) };

    fn fmt<W: fmt::Write>(&self, f: &mut fmt::Formatter<W>) -> fmt::Result {
        match header_in(self.batch.as_slice()) {
            None => f.write_str("Produce -"),
            Some(header) => write!(f, "Produce {header}"),
        }
    }
}

impl fmt::Display for ProduceReply {
    ghost output = { λ it. Some (message_text (msg.ProduceReply it)) };

    fn fmt<W: fmt::Write>(&self, f: &mut fmt::Formatter<W>) -> fmt::Result {
        let ProduceReply { code, offset, .. } = self;
        write!(f, "ProduceReply {code} {offset}")
    }
}

impl fmt::Display for AddPartition {
    ghost output = { λ it. Some (message_text (msg.AddPartition it)) };

    fn fmt<W: fmt::Write>(&self, f: &mut fmt::Formatter<W>) -> fmt::Result {
        let AddPartition {
            txn,
            held,
            partition,
        } = self;
        write!(f, "Add {txn} {held} {partition}")
    }
}

impl fmt::Display for AddReply {
    ghost output = { λ it. Some (message_text (msg.AddReply it)) };

    fn fmt<W: fmt::Write>(&self, f: &mut fmt::Formatter<W>) -> fmt::Result {
        let AddReply { code, held, .. } = self;
        write!(f, "AddReply {code} {held}")
    }
}

impl fmt::Display for WriteMarker {
    ghost output = { λ it. Some (message_text (msg.WriteMarker it)) };

    fn fmt<W: fmt::Write>(&self, f: &mut fmt::Formatter<W>) -> fmt::Result {
        let WriteMarker {
            held,
            outcome,
            coordinator_epoch,
            ..
        } = self;
        write!(f, "Marker {held} {outcome} {coordinator_epoch}")
    }
}

impl fmt::Display for MarkerReply {
    ghost output = { λ it. Some (message_text (msg.MarkerReply it)) };

    fn fmt<W: fmt::Write>(&self, f: &mut fmt::Formatter<W>) -> fmt::Result {
        let MarkerReply { code, held, .. } = self;
        write!(f, "MarkerReply {code} {held}")
    }
}

impl fmt::Display for Fetch {
    ghost output = { λ it. Some (message_text (msg.Fetch it)) };

    fn fmt<W: fmt::Write>(&self, f: &mut fmt::Formatter<W>) -> fmt::Result {
        let Fetch {
            partition,
            from,
            ..
        } = self;
        write!(f, "Fetch {partition} {from}")
    }
}

impl fmt::Display for FetchReply {
    ghost output = { λ it. Some (message_text (msg.FetchReply it)) };

    fn fmt<W: fmt::Write>(&self, f: &mut fmt::Formatter<W>) -> fmt::Result {
        let FetchReply { code, next, .. } = self;
        write!(f, "FetchReply {code} {next}")
    }
}

impl fmt::Display for Join {
    ghost output = { λ it. Some (message_text (msg.Join it)) };

    fn fmt<W: fmt::Write>(&self, f: &mut fmt::Formatter<W>) -> fmt::Result {
        let Join { group, .. } = self;
        write!(f, "Join {group}")
    }
}

impl fmt::Display for JoinReply {
    ghost output = { λ it. Some (message_text (msg.JoinReply it)) };

    fn fmt<W: fmt::Write>(&self, f: &mut fmt::Formatter<W>) -> fmt::Result {
        let JoinReply {
            code,
            generation,
            place,
            count,
            ..
        } = self;
        write!(f, "JoinReply {code} {generation} {place} {count}")
    }
}

impl fmt::Display for Leave {
    ghost output = { λ it. Some (message_text (msg.Leave it)) };

    fn fmt<W: fmt::Write>(&self, f: &mut fmt::Formatter<W>) -> fmt::Result {
        let Leave { group, .. } = self;
        write!(f, "Leave {group}")
    }
}

impl fmt::Display for LeaveReply {
    ghost output = { λ it. Some (message_text (msg.LeaveReply it)) };

    fn fmt<W: fmt::Write>(&self, f: &mut fmt::Formatter<W>) -> fmt::Result {
        let LeaveReply { code, .. } = self;
        write!(f, "LeaveReply {code}")
    }
}

/// What the header of the batch will say that holds the offsets.
impl fmt::Display for TxnOffsetCommit {
    ghost output = { λ it. Some (message_text (msg.TxnOffsetCommit it)) };

    fn fmt<W: fmt::Write>(&self, f: &mut fmt::Formatter<W>) -> fmt::Result {
        let header = Header {
            id: self.held.id.get(),
            epoch: self.held.epoch.get(),
            first: self.first_sequence,
            count: self.offsets.as_slice().len() as i32,
        };
        let TxnOffsetCommit {
            group,
            member,
            generation,
            ..
        } = self;
        write!(f, "Offsets {group} {member} {generation} {header}")
    }
}

impl fmt::Display for OffsetsReply {
    ghost output = { λ it. Some (message_text (msg.OffsetsReply it)) };

    fn fmt<W: fmt::Write>(&self, f: &mut fmt::Formatter<W>) -> fmt::Result {
        let OffsetsReply { code, .. } = self;
        write!(f, "OffsetsReply {code}")
    }
}

impl fmt::Display for OffsetFetch {
    ghost output = { λ it. Some (message_text (msg.OffsetFetch it)) };

    fn fmt<W: fmt::Write>(&self, f: &mut fmt::Formatter<W>) -> fmt::Result {
        let OffsetFetch {
            group,
            partition,
            ..
        } = self;
        write!(f, "OffsetFetch {group} {partition}")
    }
}

impl fmt::Display for OffsetFetchReply {
    ghost output = { λ it. Some (message_text (msg.OffsetFetchReply it)) };

    fn fmt<W: fmt::Write>(&self, f: &mut fmt::Formatter<W>) -> fmt::Result {
        let OffsetFetchReply { code, offset, .. } = self;
        write!(f, "OffsetFetchReply {code} {offset}")
    }
}

/// The message's name and its numbers, as a script's line has them after the nodes.
impl fmt::Display for Message {
    ghost output = { λ message. Some (message_text message) };

    fn fmt<W: fmt::Write>(&self, f: &mut fmt::Formatter<W>) -> fmt::Result {
        match self {
            Message::InitProducerId(init) => fmt::Display::fmt(init, f),
            Message::InitReply(reply) => fmt::Display::fmt(reply, f),
            Message::EndTxn(end) => fmt::Display::fmt(end, f),
            Message::EndReply(reply) => fmt::Display::fmt(reply, f),
            Message::Produce(produce) => fmt::Display::fmt(produce, f),
            Message::ProduceReply(reply) => fmt::Display::fmt(reply, f),
            Message::AddPartition(add) => fmt::Display::fmt(add, f),
            Message::AddReply(reply) => fmt::Display::fmt(reply, f),
            Message::WriteMarker(marker) => fmt::Display::fmt(marker, f),
            Message::MarkerReply(reply) => fmt::Display::fmt(reply, f),
            Message::Fetch(fetch) => fmt::Display::fmt(fetch, f),
            Message::FetchReply(reply) => fmt::Display::fmt(reply, f),
            Message::Join(join) => fmt::Display::fmt(join, f),
            Message::JoinReply(reply) => fmt::Display::fmt(reply, f),
            Message::Leave(leave) => fmt::Display::fmt(leave, f),
            Message::LeaveReply(reply) => fmt::Display::fmt(reply, f),
            Message::TxnOffsetCommit(commit) => fmt::Display::fmt(commit, f),
            Message::OffsetsReply(reply) => fmt::Display::fmt(reply, f),
            Message::OffsetFetch(fetch) => fmt::Display::fmt(fetch, f),
            Message::OffsetFetchReply(reply) => fmt::Display::fmt(reply, f),
        }
    }
}
