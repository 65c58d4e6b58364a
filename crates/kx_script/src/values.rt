//! The words of a line as what nodes are handed.
ghost use Rattle.std.specs.Prelude.{◌≡◌, ◌∷◌, [], IfOk};

use kx_client::{ValueList, Values};
use kx_message::{Bytes, Offsets, PartitionOffset};
use kx_text::Words;
use std::alloc::{AllocError, Global};

fn bytes_of(alloc: Global, word: &[u8]) -> Result<Bytes, AllocError>
    ensures { IfOk result (λ bytes. bytes ≡ word.now) }
{
    Ok(Bytes::from_vec(Vec::from_slice(alloc, word)?))
}

fn list_of(alloc: Global, words: Words<'_>) -> Result<ValueList, AllocError>
    ensures { IfOk result (λ list. list ≡ words.entry) }
{
    let mut values = Vec::new(alloc);
    for word in words {
        values.push(bytes_of(alloc, word)?)?;
    }
    Ok(ValueList::from_vec(values))
}

// The words of a batch as its values.
pub(crate) fn values_of(alloc: Global, first: &[u8], more: Words<'_>) -> Result<Values, AllocError>
    ensures first { IfOk result (λ values. values.first ≡ first.now) }
    ensures more { IfOk result (λ values. values.more ≡ more.entry) }
{
    let first = bytes_of(alloc, first)?;
    let more = list_of(alloc, more)?;
    Ok(Values { first, more })
}

// One offset as a commit of offsets.
pub(crate) fn offsets_of(alloc: Global, offset: PartitionOffset) -> Result<Offsets, AllocError>
    ensures { IfOk result (λ offsets. offsets ≡ offset ∷ []) }
{
    Ok(Offsets::from_vec(vec![in alloc; offset]?))
}
