//! The file that keeps the table of topics: a line for each, in the table's order.
ghost use Rattle.std.specs.Prelude.{◌≡◌, ◌≢◌, ◌≤◌, ℕ, ◌∷◌, [], ◌++◌, IfOk, IsTrue, MatchOption};
ghost use Rattle.std.specs.Prelude.{MatchResult, bytes_eq, decimal};
ghost use Rattle.kx_message.specs.Ranges.{data_partitions};
ghost use Rattle.kx_gateway.specs.Topics.{Entry};
ghost use Rattle.kx_gateway.specs.TableFile.{AreLines, IsDamaged, Refuses, lacks, line_text};
ghost use Rattle.kx_gateway.specs.TableFile.{line_fault, words_of};

use crate::topics::{TopicFault, Topics};
use kx_message::PartitionId;
use std::alloc::{AllocError, Global};
use thiserror::Error;

/// Why a file of topics isn't read.
#[derive(Clone, Copy, Debug, PartialEq, Eq, Error)]
pub enum TopicsFault {
    /// A line says no topic that may follow those of the lines before it.
    #[error("line {line} is damaged")]
    Damaged {
        /// The number of the line; that of the first is 1.
        line: u32,
    },
    /// Memory ran out.
    #[error("out of memory")]
    Memory,
}

/// A topic's line: its name, a space, its number of partitions in decimal and a newline.
///
/// # Errors
///
/// Only if memory runs out.
pub fn topic_line(alloc: Global, name: &[u8], count: u16) -> Result<Vec<u8>, AllocError>
    ensures { IfOk result
        (λ line. line.items ≡ line_text (record { name = name.now; count = count })) }
{
    let digits = format!(in alloc; "{count}")?;
    let mut line = Vec::from_slice(alloc, name)?;
    line.push(b' ')?;
    line.extend_from_slice(digits.as_bytes())?;
    line.push(b'\n')?;
    Ok(line)
}

// What is in front of the first byte like this, and what comes after it.
fn split_at_byte(text: &[u8], byte: u8) -> Option<(&[u8], &[u8])>
    ensures { MatchOption result (IsTrue (lacks byte text.now))
        (λ x. (text.now ≡ x.0.now ++ byte ∷ x.1.now) × IsTrue (lacks byte x.0.now)) }
{
    for at in 0..text.len() {
        if text[at] == byte {
            return Some((&text[..at], &text[at + 1..]));
        }
    }
    None
}

// Whether these digits are the number, of at most 16.
#[tactic(auto, using(crate::proofs::Lines::one_digit, crate::proofs::Lines::two_digits))]
fn are_digits(digits: &[u8], number: u16) -> bool
    requires { number ≤ data_partitions }
    ensures { result ≡ bytes_eq digits.now (decimal number) }
{
    if number < 10 {
        digits == [b'0' + number as u8].as_slice()
    } else {
        digits == [b'1', b'0' + (number - 10) as u8].as_slice()
    }
}

// The number that the digits are, where it is one of 1 to 16.
fn number_of(digits: &[u8]) -> Option<u16>
    ensures { MatchOption result
        ((n : ℕ) → 1 ≤ n → n ≤ data_partitions → decimal n ≢ digits.now)
        (λ n. (n ≤ data_partitions) × (decimal n ≡ digits.now)) }
{
    for number in 1..PartitionId::DATA_COUNT + 1 {
        if are_digits(digits, number) {
            return Some(number);
        }
    }
    None
}

// The topic that a line says, without its newline.
fn topic_in(line: &[u8]) -> Option<(&[u8], u16)>
    ensures { MatchOption result
        ((e : Entry) → IsTrue (lacks 32 e.name) → 1 ≤ e.count → e.count ≤ data_partitions
        → words_of e ≢ line.now)
        (λ x. (words_of (record { name = x.0.now; count = x.1 }) ≡ line.now)
        × IsTrue (lacks 32 x.0.now) × (x.1 ≤ data_partitions)) }
{
    let Some((name, digits)) = split_at_byte(line, b' ') else {
        return None;
    };
    match number_of(digits) {
        Some(count) => Some((name, count)),
        None => None,
    }
}

// Why the line of this number isn't taken.
fn line_fault(fault: TopicFault, line: u32) -> TopicsFault
    ensures { result ≡ line_fault fault line }
{
    match fault {
        TopicFault::Memory => TopicsFault::Memory,
        TopicFault::Name | TopicFault::Twice | TopicFault::Count => TopicsFault::Damaged { line },
    }
}

// Adds the topic that a line says.
fn add_line(topics: &mut Topics, line: &[u8]) -> Result<(), TopicsFault>
    ensures { MatchResult result
        (λ done. (e : Entry) × (words_of e ≡ line.now) × (topics.new ≡ topics.old ++ e ∷ []))
        (λ fault. Refuses topics.old line.now fault) }
{
    let number = topics.count() as u32 + 1;
    let Some((name, count)) = topic_in(line) else {
        return Err(TopicsFault::Damaged { line: number });
    };
    match topics.add(name, count) {
        Ok(()) => Ok(()),
        Err(fault) => Err(line_fault(fault, number)),
    }
}

/// The table that a file keeps, and how many bytes its whole lines take. A last line without a
/// newline was torn by a crash, and is left out.
///
/// # Errors
///
/// [`TopicsFault::Damaged`] for the first line that says no topic that may follow those before it,
/// [`TopicsFault::Memory`].
pub fn read_topics(alloc: Global, text: &[u8]) -> Result<(Topics, usize), TopicsFault>
    ensures { MatchResult result (λ x. AreLines text.now x.0 x.1)
        (λ fault. IsDamaged text.now fault) }
{
    let mut topics = Topics::new(alloc);
    let mut rest = text;
    while let Some((line, after)) = split_at_byte(rest, b'\n') {
        match add_line(&mut topics, line) {
            Ok(()) => rest = after,
            Err(fault) => return Err(fault),
        }
    }
    Ok((topics, text.len() - rest.len()))
}
