//! A stream of frames, in whatever pieces it comes.
ghost use Rattle.std.specs.Prelude.{◌≡◌, ◌<◌, ◌≤◌, ◌+◌, ◌++◌, ℕ, List, [], length, drop, true};
ghost use Rattle.std.specs.Prelude.{◌≢◌, IfOk, IfErr, MatchResult, Ok, Err};
ghost use Rattle.std.specs.Prelude.{MatchOption, OnErr};
ghost use Rattle.kx_wire.specs.Frames.{Whole, More, Faults, of_length, frame_at, Splits};
ghost use Rattle.kx_wire.specs.Frames.{Reads, Ends, Fed, answer_of};
ghost use Rattle.kx_wire.specs.Growing.{MayTake, MayTakeFront, MayWant};
ghost use Rattle.kx_wire.specs.Pieces.{joined, Comes};
ghost use Rattle.std.specs.List.{flat_map, AllByRecursion};
ghost use Rattle.kx_message.specs.Sizes.{longest_frame};
ghost use Rattle.kx_message.specs.Fields.{frame_text};
ghost use Rattle.kx_message.specs.Message.{IsSendable};
ghost use Rattle.kx_varint.specs.Text.{IsBytes};
ghost use Rattle.kx_message.specs.declared.message.Message.{Message};
ghost use Rattle.kx_wire.specs.declared.fault.FrameFault.{FrameFault};

use crate::fault::FrameFault;
use crate::reading::{is_kind, read_message};
use kx_message::{LONGEST_FRAME, Message};
use std::alloc::{AllocError, Global};
use std::marker::Model;

// The message of a frame, by its length and the bytes after the length.
fn of_length(alloc: Global, len: usize, rest: &[u8]) -> Result<Option<Message>, FrameFault>
    requires { 0 < len }
    ensures read { MatchResult result
        (λ o. MatchOption o (of_length len rest.now ≡ More)
        (λ m. (of_length len rest.now ≡ Whole m (drop len rest.now)) × (len ≤ length rest.now)))
        (λ fault. Faults fault (of_length len rest.now)) }
    ensures memory { IfErr result (λ fault. fault ≡ FrameFault.Memory
        → MayTake (of_length len rest.now) rest.now) }
{
    let Some((kind, fields)) = rest.split_first() else {
        return Ok(None);
    };
    if !is_kind(*kind) {
        return Err(FrameFault::Kind);
    }
    if rest.len() < len {
        return Ok(None);
    }
    let message = read_message(alloc, *kind, &fields[..len - 1])?;
    Ok(Some(message))
}

// The message at the front, and how many bytes its frame takes; None if more is needed.
#[tactic(auto, unfolding(crate::specs::Frames::frame_at, kx_message::specs::Reader::unsigned))]
fn front(alloc: Global, bytes: &[u8]) -> Result<Option<(Message, usize)>, FrameFault>
    ensures read { MatchResult result
        (λ o. MatchOption o (frame_at bytes.now ≡ More)
        (λ x. (frame_at bytes.now ≡ Whole x.0 (drop x.1 bytes.now)) × (0 < x.1)
        × (x.1 ≤ length bytes.now)))
        (λ fault. Faults fault (frame_at bytes.now)) }
    ensures memory { IfErr result (λ fault. fault ≡ FrameFault.Memory → MayTakeFront bytes.now) }
{
    let Ok((len, rest)) = kx_varint::read_u32(bytes) else {
        return Ok(None);
    };
    let len = len as usize;
    if len > LONGEST_FRAME {
        return Err(FrameFault::TooLong);
    }
    if len == 0 {
        return Err(FrameFault::Kind);
    }
    match of_length(alloc, len, rest)? {
        Some(message) => Ok(Some((message, 4 + len))),
        None => Ok(None),
    }
}

// The messages at the front of some bytes, how many bytes their frames take, and the fault after
// them.
#[derive(Drop)]
struct Scanned {
    messages: Vec<Message>,
    used: usize,
    fault: Option<FrameFault>,
}

fn scan(alloc: Global, bytes: &[u8]) -> Result<Scanned, AllocError>
    ensures splits { IfOk result (λ s. Splits bytes.now s.messages.items (drop s.used bytes.now)) }
    ensures ends { IfOk result (λ s. Ends s.fault (frame_at (drop s.used bytes.now))) }
    ensures within { IfOk result (λ s. s.used ≤ length bytes.now) }
    ensures some { IfOk result (λ s. s.used ≢ 0 → MayTakeFront bytes.now) }
    ensures err { OnErr result (MayTakeFront bytes.now) }
{
    let mut messages = Vec::new(alloc);
    let mut used = 0;
    loop {
        let fault = match front(alloc, &bytes[used..]) {
            Ok(Some((message, len))) => {
                messages.push(message)?;
                used += len;
                continue;
            }
            Ok(None) => None,
            Err(FrameFault::Memory) => return Err(AllocError),
            Err(fault) => Some(fault),
        };
        return Ok(Scanned {
            messages,
            used,
            fault,
        });
    }
}

// Takes the first bytes out, so that what is after them is left.
fn drop_front(partial: &mut Vec<u8>, used: usize)
    requires { used ≤ length partial.old.items }
    ensures { partial.new.items ≡ drop used partial.old.items }
{
    let left = partial.len() - used;
    partial.copy_within(used.., 0);
    partial.truncate(left);
}

// Takes a piece that isn't empty: what is held is then the rest after the messages, and nothing
// where a fault is there. A piece after nothing is read where it stands, and only its rest is
// copied, if it may go on.
fn take_piece(partial: &mut Vec<u8>, piece: &[u8]) -> Result<Scanned, AllocError>
    requires { piece.now ≢ [] }
    ensures splits { IfOk result (λ s. Splits (partial.old.items ++ piece.now) s.messages.items
        (drop s.used (partial.old.items ++ piece.now))) }
    ensures ends { IfOk result (λ s.
        Ends s.fault (frame_at (drop s.used (partial.old.items ++ piece.now)))) }
    ensures rest { IfOk result (λ s. s.fault ≡ None
        → partial.new.items ≡ drop s.used (partial.old.items ++ piece.now)) }
    ensures err { OnErr result (partial.new.items ≡ partial.old.items) }
    ensures memory { OnErr result (MayWant partial.old.items piece.now) }
{
    let alloc = *partial.allocator();
    if partial.is_empty() {
        let found = scan(alloc, piece)?;
        if found.fault.is_none() {
            partial.extend_from_slice(&piece[found.used..])?;
        }
        return Ok(found);
    }
    let before = partial.len();
    partial.extend_from_slice(piece)?;
    let Ok(found) = scan(alloc, partial) else {
        partial.truncate(before);
        return Err(AllocError);
    };
    if found.fault.is_some() {
        *partial = Vec::new(alloc);
    } else {
        drop_front(partial, found.used);
    }
    Ok(found)
}

#[derive(Clone, Copy)]
enum State {
    Reading,
    Faulty(FrameFault),
    Failed,
}

/// A reader of a stream of frames, which holds back what has come of the next frame.
#[derive(Drop)]
pub struct Frames {
    partial: Vec<u8>,
    state: State,
}

impl Model for Frames {
    ghost use Rattle.kx_wire.specs.Frames.{Stream};

    ghost Value = { Stream };

    ghost use Rattle.kx_wire.specs.Internal.StreamState.{stream_of, HoldsLess};

    ghost view = { λ frames. stream_of frames.state frames.partial.items };

    ghost invariant = { λ frames. HoldsLess frames.state frames.partial.items };
}

impl Frames {
    /// A stream of which nothing has come yet. Takes no memory.
    pub fn new(alloc: Global) -> Self
        ensures { result ≡ Reads [] }
    {
        Frames {
            partial: Vec::new(alloc),
            state: State::Reading,
        }
    }

    /// Takes the next piece of the stream, and gives the messages whose frames are whole now. Less
    /// than one frame is held back.
    ///
    /// # Errors
    ///
    /// [`FrameFault::TooLong`], [`FrameFault::Kind`] and [`FrameFault::Field`] if no frame of a
    /// message comes next, at once if no message comes before it in the piece, and else at the
    /// next call, even of an empty piece. From then on every call answers [`FrameFault::Failed`].
    /// At [`FrameFault::Memory`] nothing of the piece was taken, and it can be fed again. Memory is
    /// wanted to put a piece after bytes that are held; if nothing is held, to give messages, to
    /// read the fields of a message with bytes or a list, and to hold back less than a frame.
    pub fn feed(&mut self, piece: &[u8]) -> Result<Vec<Message>, FrameFault>
        ensures fed { Fed self.old piece.now (answer_of result) self.new }
        ensures nothing { (partial : List ℕ) → self.old ≡ Reads partial → piece.now ≡ []
            → (answer_of result ≡ Ok []) × (self.new ≡ self.old) }
        ensures memory { (partial : List ℕ) → self.old ≡ Reads partial
            → answer_of result ≡ Err FrameFault.Memory → MayWant partial piece.now }
    {
        match self.state {
            State::Failed => Err(FrameFault::Failed),
            State::Faulty(fault) => {
                self.state = State::Failed;
                Err(fault)
            }
            State::Reading if piece.is_empty() => Ok(Vec::new(*self.partial.allocator())),
            State::Reading => {
                let Ok(found) = take_piece(&mut self.partial, piece) else {
                    return Err(FrameFault::Memory);
                };
                let Scanned {
                    messages,
                    fault,
                    ..
                } = found;
                match fault {
                    None => Ok(messages),
                    Some(fault) if messages.is_empty() => {
                        self.state = State::Failed;
                        Err(fault)
                    }
                    Some(fault) => {
                        self.state = State::Faulty(fault);
                        Ok(messages)
                    }
                }
            }
        }
    }
}

/// A law: the frame of a message that can be sent is read as that message, whatever follows it,
/// and what is read as a message is that message's frame.
pub fn frames_are_read()
    ensures again { (m : Message) (rest : List ℕ) → IsSendable m
        → frame_at (frame_text m ++ rest) ≡ Whole m rest }
    ensures only { (bytes : List ℕ) (m : Message) (rest : List ℕ) → IsBytes bytes
        → frame_at bytes ≡ Whole m rest → IsSendable m × (bytes ≡ frame_text m ++ rest) }
{}

/// A law: no two messages that can be sent have the same frame, so a frame is a key of its message.
pub fn frames_tell_messages_apart()
    ensures { (a b : Message) → IsSendable a → IsSendable b → frame_text a ≡ frame_text b → a ≡ b }
{}

/// A law: the frames of messages that can be sent, fed in any pieces, come as these messages, and
/// nothing fails but if memory runs out.
pub fn streams_come_as_their_messages()
    ensures { (pieces : List (List ℕ)) (messages : List Message)
        → AllByRecursion IsSendable messages → IsBytes (joined pieces)
        → joined pieces ≡ flat_map frame_text messages → Comes (Reads []) pieces messages }
{}

/// A law: what is less than a frame is no longer than the longest frame, so no more is held back.
pub fn less_than_a_frame_is_held()
    ensures { (partial : List ℕ) → IsBytes partial → frame_at partial ≡ More
        → length partial ≤ 4 + longest_frame }
{}
