//! The sequences of a client's records in a partition: 0 to 2^31 - 1, and then 0 again (KIP-98).
ghost use Rattle.std.specs.Prelude.{◌≡◌, ◌<◌};
ghost use Rattle.kx_grant.specs.Sequences.{after, sequence_in, sequences, since};

/// How many sequences there are.
pub(crate) const SEQUENCES: u64 = 2_147_483_648;

/// What a batch has as its base sequence, an int32; `None` for a number below 0.
pub(crate) fn sequence_in(number: i32) -> Option<u32>
    ensures { result ≡ sequence_in number }
{
    if number < 0 {
        return None;
    }
    Some(number as u32)
}

/// The sequence after `count` records that begin with this one.
pub(crate) fn after(first: u32, count: u32) -> u32
    ensures { result ≡ after first count }
{
    ((u64::from(first) + u64::from(count)) % SEQUENCES) as u32
}

/// How many records there are from `base` on up to this one, itself not counted.
pub(crate) fn since(base: u32, sequence: u32) -> u32
    ensures counted { result ≡ since base sequence }
    ensures within { result < sequences }
{
    let end = u64::from(sequence) + SEQUENCES;
    (end.saturating_sub(u64::from(base)) % SEQUENCES) as u32
}
