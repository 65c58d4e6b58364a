//! The lines of a trace of a demonstration: what each node took, and what it sent.
use kx_cases::StepFault;
use std::alloc::Global;

/// A message that a node sent.
#[derive(Clone, Copy)]
pub(crate) struct Sent<'a> {
    /// To whom.
    pub(crate) to: &'a str,
    /// Its text.
    pub(crate) text: &'a str,
}

/// A message that a node took.
#[derive(Clone, Copy)]
pub(crate) struct Arrived<'a> {
    /// Its text.
    pub(crate) text: &'a str,
    /// Whether it came to the node before.
    pub(crate) is_again: bool,
}

/// An event: a node took something, and sent messages.
#[derive(Drop)]
pub(crate) struct Event<'a> {
    /// The node.
    pub(crate) node: &'a str,
    /// What it was told to do; the whole text if it took a message.
    pub(crate) action: &'a str,
    /// The message that it took, if it took one.
    pub(crate) arrived: Option<Arrived<'a>>,
    /// The messages that it sent.
    pub(crate) sent: Vec<Sent<'a>>,
}

// The message that an action takes.
fn arrived_in<'a>(action: &'a str) -> Option<Arrived<'a>> {
    let text = action.strip_prefix("takes ")?;
    match text.strip_prefix("again ") {
        Some(text) => Some(Arrived {
            text,
            is_again: true,
        }),
        None => Some(Arrived {
            text,
            is_again: false,
        }),
    }
}

// The message that a part tells after `NODE>`, if it tells one.
fn sent_in<'a>(node: &str, part: &'a str) -> Option<Sent<'a>> {
    let (to, text) = part.strip_prefix(node)?.strip_prefix('>')?.split_once(' ')?;
    Some(Sent {
        to,
        text: text.strip_suffix(" (lost)").unwrap_or(text),
    })
}

/// The event that a line tells, which has to be the one of this number.
pub(crate) fn event_in<'a>(
    alloc: Global,
    number: usize,
    line: &'a str,
) -> Result<Event<'a>, StepFault> {
    let (first, rest) = line.split_once(' ').ok_or(StepFault::Unknown)?;
    let (node, rest) = rest.split_once(' ').ok_or(StepFault::Unknown)?;
    if first.parse::<usize>() != Ok(number) {
        return Err(StepFault::Unknown);
    }
    let mut parts = rest.split("; ");
    let action = parts.next().unwrap_or("");
    let mut sent = Vec::new(alloc);
    for part in parts {
        if let Some(message) = sent_in(node, part) {
            sent.push(message)?;
        }
    }
    Ok(Event {
        node,
        action,
        arrived: arrived_in(action),
        sent,
    })
}
