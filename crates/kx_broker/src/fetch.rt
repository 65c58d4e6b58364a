//! Pages that are fetched.
ghost use Rattle.std.specs.Prelude.{◌≡◌, ◌≢◌, [], Err, IfOk, IsErr, MatchResult, Result, flat_map};
ghost use Rattle.std.specs.Prelude.{min};
ghost use Rattle.kx_batch.specs.Batch.{batch_limit};
ghost use Rattle.kx_broker.specs.Fetching.{AnswersFetch, IsFetched, MayWantMemory, page_reply};
ghost use Rattle.kx_broker.specs.Memory.{IsFilled};
ghost use Rattle.kx_message.specs.declared.code.ErrorCode as refusal;
ghost use Rattle.kx_model.specs.Page.{Page, fetched};
ghost use Rattle.kx_model.specs.PartitionNode.{fetch_reply};

use kx_batch::BATCH_LIMIT;
use kx_log::{Batches, Store};
use kx_message::{AbortedTxns, Bytes, ErrorCode, Fetch, FetchReply, Message};
use kx_partition::{FetchFault, FetchPage, Partition};
use std::alloc::{AllocError, Global};

// How many bytes batches take.
fn len_of(batches: Batches<'_>) -> usize {
    let mut len: usize = 0;
    for batch in batches {
        len = len.saturating_add(batch.text().len());
    }
    len
}

// The texts of batches, one after the other, for which room of `len` bytes is asked first. Without
// batches no memory is asked for.
fn texts_of(alloc: Global, batches: Batches<'_>, len: usize) -> Result<Bytes, AllocError>
    ensures ok { IfOk result (λ bytes. bytes ≡ flat_map (λ s. s.text) batches.entry) }
    ensures memory { IsErr result → batches.entry ≢ [] }
{
    if batches.is_empty() {
        return Ok(Bytes::from_vec(Vec::new(alloc)));
    }
    let mut bytes = Vec::with_capacity(alloc, len)?;
    for batch in batches {
        bytes.extend_from_slice(batch.text())?;
    }
    Ok(Bytes::from_vec(bytes))
}

// The reply that carries a page. Without batches no memory is asked for.
fn page_reply(alloc: Global, it: &Fetch, page: FetchPage<'_>) -> Result<Message, AllocError>
    ensures ok { IfOk result (λ message. message ≡ page_reply it.now page.entry) }
    ensures memory { IsErr result → page.entry.batches ≢ [] }
{
    let batches = texts_of(alloc, page.batches(), len_of(page.batches()))?;
    let next = page.next();
    let lso = page.last_stable_offset();
    let end = page.end();
    Ok(Message::FetchReply(FetchReply {
        caller: it.caller,
        partition: it.partition,
        code: ErrorCode::NoError,
        next,
        lso,
        end,
        aborted: AbortedTxns::from_vec(page.into_aborted()),
        batches,
    }))
}

/// The reply to a fetch that is refused with this code. No memory is asked for.
pub fn refused_fetch(alloc: Global, it: &Fetch, code: ErrorCode) -> Message
    ensures { result ≡ fetch_reply it.now.caller it.now.partition (Err code) }
{
    Message::FetchReply(FetchReply {
        caller: it.caller,
        partition: it.partition,
        code,
        next: -1,
        lso: -1,
        end: -1,
        aborted: AbortedTxns::from_vec(Vec::new(alloc)),
        batches: Bytes::from_vec(Vec::new(alloc)),
    })
}

/// The room of a page in bytes: what the fetch asks for, but at most the bytes of the largest
/// batch, 1,048,588, so that the reply fits a frame.
pub fn page_room(it: &Fetch) -> u32
    ensures { result ≡ min it.now.max batch_limit }
{
    it.max.min(BATCH_LIMIT as u32)
}

/// The reply to a fetch of a partition by what came of fetching from it: from its log, or from a
/// copy of that. It carries the page, or the code of the refusal. Memory is taken from `alloc`.
///
/// # Errors
///
/// Only out of memory, as it was already if `page` is [`FetchFault::Memory`]. The reply to a
/// refusal takes none, nor does a page without batches.
pub fn answer_fetch(
    alloc: Global,
    it: &Fetch,
    page: Result<FetchPage<'_>, FetchFault>,
) -> Result<Message, AllocError>
    ensures answer { MatchResult result (AnswersFetch it.now page.entry)
        (λ refused. MayWantMemory page.entry) }
    // If fetching gave what the definitions do, it is their reply.
    ensures defined { (answer : Result Page refusal.ErrorCode) → IsFetched answer page.entry
        → IfOk result (λ message.
        message ≡ fetch_reply it.now.caller it.now.partition answer) }
{
    match page {
        Ok(page) => page_reply(alloc, it, page),
        Err(FetchFault::Refused(code)) => Ok(refused_fetch(alloc, it, code)),
        Err(FetchFault::Memory) => Err(AllocError),
    }
}

/// The reply to a fetch of this partition.
///
/// # Errors
///
/// Out of memory, only for a page that isn't empty.
pub(crate) fn fetch<S: Store>(
    alloc: Global,
    partition: &Partition<S>,
    it: &Fetch,
) -> Result<Message, AllocError>
    ensures ok { IfOk result (λ message. message ≡ fetch_reply it.now.caller it.now.partition
        (fetched partition.now.batches it.now.from (min it.now.max batch_limit) it.now.committed)) }
    ensures memory { IsErr result → IsFilled
        (fetched partition.now.batches it.now.from (min it.now.max batch_limit) it.now.committed) }
{
    let page = partition.fetch(it.from, page_room(it), it.committed);
    answer_fetch(alloc, it, page)
}
