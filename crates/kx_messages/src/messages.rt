//! The messages of a step.
ghost use Rattle.std.specs.Prelude.{◌≡◌, [], ◌∷◌, ◌++◌, option_to_list};
ghost use Rattle.std.specs.Bool.{Decides};

use crate::same::same_message;
use kx_message::Message;
use std::alloc::{AllocError, Global};
use std::marker::Model;
use std::slice;

// One message needs no memory of its own: most steps send one.
#[derive(Drop)]
enum Items {
    One(Message),
    Many(Vec<Message>),
}

/// Messages in the order in which a step sent them.
#[derive(Drop)]
pub struct Messages {
    items: Items,
}

impl Model for Messages {
    ghost use Rattle.std.specs.Prelude.{List};
    ghost use Rattle.kx_message.specs.declared.message.Message.{Message};
    ghost use Rattle.kx_messages.specs.Internal.{items_of};

    ghost Value = { List Message };

    ghost view = { λ m. items_of m.items };
}

/// A copy of the messages, or out of memory.
impl Clone for Messages {
    ghost is_clone = { λ messages copy. copy ≡ messages };

    fn clone(&self) -> Result<Self, AllocError> {
        match &self.items {
            Items::One(message) => Ok(Messages::one(message.clone()?)),
            Items::Many(messages) => Ok(Messages::from_vec(messages.clone()?)),
        }
    }
}

impl Messages {
    /// An empty list. Takes no memory.
    pub fn none(alloc: Global) -> Messages
        ensures { result ≡ [] }
    {
        Messages::from_vec(Vec::new(alloc))
    }

    /// A list of one message. Takes no memory.
    pub fn one(message: Message) -> Messages
        ensures { result ≡ message ∷ [] }
    {
        Messages {
            items: Items::One(message),
        }
    }

    /// These messages. Takes no memory.
    pub fn from_vec(items: Vec<Message>) -> Messages
        ensures { result ≡ items.items }
    {
        Messages {
            items: Items::Many(items),
        }
    }

    /// The messages, borrowed.
    pub fn as_slice(&self) -> &[Message]
        ensures { result.now ≡ self.now }
    {
        match &self.items {
            Items::One(message) => slice::from_ref(message),
            Items::Many(messages) => messages.as_slice(),
        }
    }

    /// Whether both are the same messages in the same order.
    pub fn same(&self, other: &Messages) -> bool
        ensures { Decides result (self.now ≡ other.now) }
    {
        same_messages(self.as_slice(), other.as_slice())
    }

    /// The messages, owned: one, or else all of them in a list. Takes no memory.
    pub fn into_parts(self, alloc: Global) -> (Option<Message>, Vec<Message>)
        ensures { option_to_list result.0 ++ result.1.items ≡ self }
    {
        match self.items {
            Items::One(message) => (Some(message), Vec::new(alloc)),
            Items::Many(messages) => (None, messages),
        }
    }
}

// Whether both are the same messages in the same order.
fn same_messages(left: &[Message], right: &[Message]) -> bool
    ensures { Decides result (left.now ≡ right.now) }
{
    if left.len() != right.len() {
        return false;
    }
    for (at, message) in left.iter().enumerate() {
        if !same_message(message, &right[at]) {
            return false;
        }
    }
    true
}
