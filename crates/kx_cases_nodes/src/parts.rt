//! Answers that are alike in several steps.
use kx_cases::{StepFault, told_name, told_value};
use kx_message::Message;
use kx_wire::Frames;
use std::alloc::{AllocError, Global};
use std::fmt::Debug;

/// What a step answers that gives nothing.
pub fn nothing(alloc: Global) -> Result<String, StepFault> {
    told_value(alloc, "-")
}

/// Tells `-` if nothing was told.
pub fn or_dash(told: &mut String) -> Result<(), AllocError> {
    if told.is_empty() {
        return told.push_str("-");
    }
    Ok(())
}

/// How something ended that wrote a text, if what was taken of it is a front of the whole.
pub fn ended_in_front<E: Debug + Drop>(
    alloc: Global,
    ended: Result<(), E>,
    taken: &[u8],
    whole: &[u8],
) -> Result<String, StepFault> {
    if whole.starts_with(taken) {
        return told_name(alloc, ended);
    }
    told_value(alloc, "another text")
}

/// Tells a message as `RECEIVER TEXT`, after what parts it from the one before.
pub fn tell_message(told: &mut String, parted: &str, message: &Message) -> Result<(), AllocError> {
    write!(told, "{parted}{} {message}", message.receiver())
}

// Tells messages, or `-` for none.
fn tell_messages(told: &mut String, messages: &[Message]) -> Result<(), AllocError> {
    let mut parted = "";
    for message in messages {
        tell_message(told, parted, message)?;
        parted = "; ";
    }
    or_dash(told)
}

/// Messages, each as `RECEIVER TEXT`, or `-` for none.
pub fn told_each(alloc: Global, messages: &[Message]) -> Result<String, StepFault> {
    let mut told = String::new(alloc);
    tell_messages(&mut told, messages)?;
    Ok(told)
}

/// The messages that were sent, each as `RECEIVER TEXT`, or `-` for none.
pub fn told_messages(alloc: Global, messages: Vec<Message>) -> Result<String, StepFault> {
    let told = told_each(alloc, messages.as_slice());
    drop(messages);
    told
}

/// The last message of those that bytes bring, if they bring one.
pub fn last_message(alloc: Global, bytes: &[u8]) -> Result<Message, StepFault> {
    let Ok(mut messages) = Frames::new(alloc).feed(bytes) else {
        return Err(StepFault::Unknown);
    };
    let last = messages.pop();
    drop(messages);
    last.ok_or(StepFault::Unknown)
}
