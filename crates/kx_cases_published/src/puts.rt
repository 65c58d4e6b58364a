//! What a script puts to the node, and what is told of its answer.
use kx_cases::StepFault;
use kx_client::{ValueList, Values};
use kx_machine::Note;
use kx_message::Bytes;
use kx_nodes::Receipt;
use kx_partition::Produced;
use std::alloc::{AllocError, Global};

/// What is put if it doesn't matter: 64 bytes.
pub(crate) const VALUE: &str = "abcdefghijklmnopqrstuvwxyzabcdefghijklmnopqrstuvwxyzabcdefghijkl";

// A word as a value.
fn bytes_of(alloc: Global, word: &str) -> Result<Bytes, AllocError> {
    Ok(Bytes::from_vec(Vec::from_slice(alloc, word.as_bytes())?))
}

/// The words as the values of one batch.
pub(crate) fn values_of(alloc: Global, words: &str) -> Result<Values, AllocError> {
    let mut words = words.split(' ');
    let first = bytes_of(alloc, words.next().unwrap_or(""))?;
    let mut more = Vec::new(alloc);
    for word in words {
        more.push(bytes_of(alloc, word)?)?;
    }
    Ok(Values {
        first,
        more: ValueList::from_vec(more),
    })
}

// The messages that a step sends, a line each, with where they go.
fn tell_messages(told: &mut String, receipt: &Receipt) -> Result<(), StepFault> {
    let messages = receipt.taken.messages.as_slice();
    if messages.is_empty() {
        writeln!(told, "-")?;
    }
    for message in messages {
        let to = message.receiver();
        writeln!(told, "{to} {message}")?;
    }
    Ok(())
}

/// What a step was answered.
pub(crate) fn tell_receipt(told: &mut String, receipt: &Receipt) -> Result<(), StepFault> {
    match receipt.taken.note {
        Note::Put(Produced::Appended(offset)) => Ok(writeln!(told, "offset {offset}")?),
        Note::Put(answer) => {
            let code = answer.code();
            Ok(writeln!(told, "refused {code}")?)
        }
        _ => tell_messages(told, receipt),
    }
}
