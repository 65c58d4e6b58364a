//! What words spell, and which order a line spells that is no event.
ghost use Rattle.std.specs.Prelude.{◌≡◌, ◌<◌, ◌^◌, IfSome, MatchOption, None, Some, option_copied};
ghost use Rattle.kx_script.specs.Command as spells;

use crate::order::{Left, Order};
use kx_core::PartitionCount;
use kx_message::{ClientId, GroupId, NodeId, PartitionId, TxnId};
use kx_processor::Inputs;
use kx_text::{DEFAULT_MAX, Words, mode_of, number_below, words_of};

// The only word.
pub(crate) fn only<'a>(mut words: Words<'a>) -> Option<&'a [u8]>
    ensures { option_copied result ≡ spells.only words.entry }
{
    let word = words.next()?;
    match words.next() {
        None => Some(word),
        Some(_) => None,
    }
}

// The only two words.
pub(crate) fn pair<'a>(mut words: Words<'a>) -> Option<(&'a [u8], &'a [u8])>
    ensures { MatchOption result (spells.pair words.entry ≡ None)
        (λ two. spells.pair words.entry ≡ Some (two.0.now, two.1.now)) }
{
    let first = words.next()?;
    let second = only(words)?;
    Some((first, second))
}

// The number of a client.
pub(crate) fn client_of(word: &[u8]) -> Option<ClientId>
    ensures { result ≡ spells.client_of word.now }
{
    let number = number_below(word, 1 << 32)?;
    Some(ClientId::from(number as u32))
}

// The number of a data partition.
pub(crate) fn partition_of(word: &[u8]) -> Option<PartitionId>
    ensures { result ≡ spells.partition_of word.now }
{
    let number = number_below(word, u64::from(PartitionId::DATA_COUNT))?;
    PartitionId::try_from(number as u16).ok()
}

// An offset, or the number of a message.
pub(crate) fn offset_of(word: &[u8]) -> Option<u64>
    ensures value { result ≡ spells.offset_of word.now }
    ensures bound { IfSome result (λ offset. offset < 2 ^ 63) }
{
    number_below(word, 1 << 63)
}

// How many data partitions a world is to have.
fn count_of(word: &[u8]) -> Option<PartitionCount>
    ensures { result ≡ spells.count_of word.now }
{
    let count = number_below(word, 17)?;
    PartitionCount::new(count as u16)
}

// How many input partitions a processor is to have.
pub(crate) fn inputs_of(word: &[u8]) -> Option<Inputs>
    ensures { result ≡ spells.inputs_of word.now }
{
    let count = number_below(word, 9)?;
    Inputs::try_from(count as u8).ok()
}

// The name of a group.
pub(crate) fn group_of(word: &[u8]) -> Option<GroupId>
    ensures { result ≡ spells.name_of word.now }
{
    GroupId::try_from(word).ok()
}

// A transactional id; `-` is none.
pub(crate) fn txn_of(word: &[u8]) -> Option<Option<TxnId>>
    ensures { result ≡ spells.txn_of word.now }
{
    if word == b"-".as_slice() {
        return Some(None);
    }
    let txn = TxnId::try_from(word).ok()?;
    Some(Some(txn))
}

// `p` and the number of a data partition.
fn server_of(word: &[u8]) -> Option<NodeId>
    ensures { result ≡ spells.server_of word.now }
{
    let (first, digits) = word.split_first()?;
    if *first != b'p' {
        return None;
    }
    let partition = partition_of(digits)?;
    Some(NodeId::Partition(partition))
}

// A node that has a log.
pub(crate) fn node_of(word: &[u8]) -> Option<NodeId>
    ensures { result ≡ spells.node_of word.now }
{
    if word == b"co".as_slice() {
        Some(NodeId::Coordinator)
    } else if word == b"po".as_slice() {
        Some(NodeId::Partition(PartitionId::OFFSETS))
    } else {
        server_of(word)
    }
}

fn left_of(word: &[u8]) -> Option<Left>
    ensures { result ≡ spells.left_of word.now }
{
    if word == b"none".as_slice() {
        Some(Left::Nothing)
    } else if word == b"whole".as_slice() {
        Some(Left::Whole)
    } else {
        None
    }
}

fn stable_of(word: &[u8]) -> Option<bool>
    ensures { result ≡ spells.stable_of word.now }
{
    if word == b"stable".as_slice() {
        Some(true)
    } else if word == b"any".as_slice() {
        Some(false)
    } else {
        None
    }
}

// `fail NODE MODE`
fn fail_order(words: Words<'_>) -> Option<Order>
    ensures { result ≡ spells.fail_order words.entry }
{
    let (node, left) = pair(words)?;
    let node = node_of(node)?;
    let left = left_of(left)?;
    Some(Order::Fail(node, left))
}

// `[MAX]`
fn max_of(mut words: Words<'_>) -> Option<u32>
    ensures { result ≡ spells.max_of words.entry }
{
    let Some(word) = words.next() else {
        return Some(DEFAULT_MAX);
    };
    let max = number_below(word, 1 << 32)?;
    match words.next() {
        None => Some(max as u32),
        Some(_) => None,
    }
}

// `fetch P FROM MODE [MAX]`
fn fetch_order(mut words: Words<'_>) -> Option<Order>
    ensures { result ≡ spells.fetch_order words.entry }
{
    let partition = words.next()?;
    let from = words.next()?;
    let mode = words.next()?;
    let partition = partition_of(partition)?;
    let from = offset_of(from)? as i64;
    let mode = mode_of(mode)?;
    let max = max_of(words)?;
    Some(Order::Fetch(partition, from, mode, max))
}

// `offset G Q MODE`
fn offset_order(mut words: Words<'_>) -> Option<Order>
    ensures { result ≡ spells.offset_order words.entry }
{
    let group = words.next()?;
    let (partition, stable) = pair(words)?;
    let group = group_of(group)?;
    let partition = partition_of(partition)?;
    let stable = stable_of(stable)?;
    Some(Order::Offset(group, partition, stable))
}

// `rows`
fn rows_order(mut words: Words<'_>) -> Option<Order>
    ensures { result ≡ spells.rows_order words.entry }
{
    match words.next() {
        None => Some(Order::Rows),
        Some(_) => None,
    }
}

// The order that a line of this first word is.
fn order_of(name: &[u8], words: Words<'_>) -> Option<Order>
    ensures { result ≡ spells.order_of name.now words.entry }
{
    if name == b"fail".as_slice() {
        fail_order(words)
    } else if name == b"fetch".as_slice() {
        fetch_order(words)
    } else if name == b"offset".as_slice() {
        offset_order(words)
    } else if name == b"rows".as_slice() {
        rows_order(words)
    } else {
        None
    }
}

/// The order that a line spells, or None if it spells none: a word of it is none, its first word
/// names no order, or those after it are not what that one needs.
pub fn order_in(line: &[u8]) -> Option<Order>
    ensures { result ≡ spells.order_in line.now }
{
    let mut words = words_of(line)?;
    let name = words.next()?;
    order_of(name, words)
}

/// How many data partitions the line `world P` gives a world, or None if it is another line.
pub fn world_in(line: &[u8]) -> Option<PartitionCount>
    ensures { result ≡ spells.world_in line.now }
{
    let (name, count) = pair(words_of(line)?)?;
    if name != b"world".as_slice() {
        return None;
    }
    count_of(count)
}
