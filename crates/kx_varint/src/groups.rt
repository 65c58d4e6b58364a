//! Varints, as Kafka's record format takes them from Protocol Buffers: zig-zag, then groups of
//! seven bits, lowest first, the high bit set on all but the last.
ghost use Rattle.std.specs.Prelude.{◌≡◌, ◌++◌, ◌<◌, ◌≤◌, ◌+◌, ◌-◌, ◌*◌, ◌^◌, ℕ, ℤ, List, length};
ghost use Rattle.std.specs.Prelude.{IfOk, IsOk, OnOk, OnErr, Ok};
ghost use Rattle.kx_varint.specs.Varint.{groups_at, value_at, varint, varlong, groups_of};
ghost use Rattle.kx_varint.specs.Varint.{shortest_text, zigzag, IsShortest, Shape, Spells, Reads};

use crate::fault::VarFault;
use std::alloc::AllocError;

// The groups at the front, of which there may be `most`, the last of them up to `top`; and how
// many there are.
fn read_groups(bytes: &[u8], most: usize, top: u8) -> Result<(u64, usize), VarFault>
    requires some { 0 < most }
    requires last { top < 128 }
    requires fits { (top + 1) * 128 ^ (most - 1) ≤ 2 ^ 64 }
    ensures exact { result ≡ groups_at most top bytes.now }
    ensures bound { IfOk result (λ r. r.0 < (top + 1) * 128 ^ (most - 1)) }
    ensures within { IfOk result (λ r. r.1 ≤ length bytes.now) }
{
    let Some((first, rest)) = bytes.split_first() else {
        return Err(VarFault::Short);
    };
    let first = *first;
    if most == 1 && first > top {
        return Err(VarFault::TooLong);
    }
    if first < 128 {
        return Ok((u64::from(first), 1));
    }
    let (high, count) = read_groups(rest, most - 1, top)?;
    Ok((u64::from(first % 128) + 128 * high, count + 1))
}

// The same, the first and the second without a call: most numbers have no more.
#[inline(always)]
fn front_groups(bytes: &[u8], most: usize, top: u8) -> Result<(u64, usize), VarFault>
    requires some { 2 < most }
    requires last { top < 128 }
    requires fits { (top + 1) * 128 ^ (most - 1) ≤ 2 ^ 64 }
    ensures exact { result ≡ groups_at most top bytes.now }
    ensures bound { IfOk result (λ r. r.0 < (top + 1) * 128 ^ (most - 1)) }
    ensures within { IfOk result (λ r. r.1 ≤ length bytes.now) }
{
    if bytes.is_empty() {
        return Err(VarFault::Short);
    }
    let first = bytes[0];
    if first < 128 {
        return Ok((u64::from(first), 1));
    }
    if bytes.len() < 2 {
        return Err(VarFault::Short);
    }
    let second = bytes[1];
    if second < 128 {
        return Ok((u64::from(first % 128) + 128 * u64::from(second), 2));
    }
    read_groups(bytes, most, top)
}

// The same of bytes that are known to begin with groups: nothing is tested again.
#[inline(always)]
fn known_groups(bytes: &[u8], most: usize, top: u8) -> (u64, usize)
    requires some { 2 < most }
    requires last { top < 128 }
    requires fits { (top + 1) * 128 ^ (most - 1) ≤ 2 ^ 64 }
    requires there { IsOk (groups_at most top bytes.now) }
    ensures exact { groups_at most top bytes.now ≡ Ok (result.0, result.1) }
    ensures bound { result.0 < (top + 1) * 128 ^ (most - 1) }
    ensures within { result.1 ≤ length bytes.now }
{
    let first = bytes[0];
    if first < 128 {
        return (u64::from(first), 1);
    }
    let second = bytes[1];
    if second < 128 {
        return (u64::from(first % 128) + 128 * u64::from(second), 2);
    }
    match read_groups(bytes, most, top) {
        Ok(found) => found,
        Err(_) => unreachable!(),
    }
}

#[inline(always)]
fn varint_of(bytes: &[u8]) -> Result<(i32, usize), VarFault>
    ensures { result ≡ value_at varint bytes.now }
{
    let (bits, count) = front_groups(bytes, 5, 15)?;
    let half = (bits / 2) as i32;
    Ok((if bits % 2 == 0 { half } else { -1 - half }, count))
}

#[inline(always)]
fn varlong_of(bytes: &[u8]) -> Result<(i64, usize), VarFault>
    ensures { result ≡ value_at varlong bytes.now }
{
    let (bits, count) = front_groups(bytes, 10, 1)?;
    let half = (bits / 2) as i64;
    Ok((if bits % 2 == 0 { half } else { -1 - half }, count))
}

/// The 32-bit number at the front, and how many bytes it takes, 1 to 5. Bytes may follow it, and a
/// longer spelling of a small number is read. Takes no memory.
///
/// # Errors
///
/// [`VarFault::Short`] if the bytes are the start of a spelling, [`VarFault::TooLong`] if no
/// spelling begins so: a fifth byte above 15.
#[inline(always)]
pub fn read_varint(bytes: &[u8]) -> Result<(i32, usize), VarFault>
    ensures { Reads varint bytes.now result }
{
    varint_of(bytes)
}

/// The 64-bit number at the front, and how many bytes it takes, 1 to 10. Bytes may follow it, and a
/// longer spelling of a small number is read. Takes no memory.
///
/// # Errors
///
/// [`VarFault::Short`] if the bytes are the start of a spelling, [`VarFault::TooLong`] if no
/// spelling begins so: a tenth byte above 1.
#[inline(always)]
pub fn read_varlong(bytes: &[u8]) -> Result<(i64, usize), VarFault>
    ensures { Reads varlong bytes.now result }
{
    varlong_of(bytes)
}

/// The 32-bit number at the front of bytes that are known to begin with one, as
/// [`read_varint`] reads it, and how many bytes it takes, 1 to 5. Takes no memory.
#[inline(always)]
pub fn known_varint(bytes: &[u8]) -> (i32, usize)
    requires { IsOk (value_at varint bytes.now) }
    ensures exact { value_at varint bytes.now ≡ Ok (result.0, result.1) }
    ensures within { result.1 ≤ length bytes.now }
{
    let (bits, count) = known_groups(bytes, 5, 15);
    let half = (bits / 2) as i32;
    (if bits % 2 == 0 { half } else { -1 - half }, count)
}

/// The 64-bit number at the front of bytes that are known to begin with one, as
/// [`read_varlong`] reads it, and how many bytes it takes, 1 to 10. Takes no memory.
#[inline(always)]
pub fn known_varlong(bytes: &[u8]) -> (i64, usize)
    requires { IsOk (value_at varlong bytes.now) }
    ensures exact { value_at varlong bytes.now ≡ Ok (result.0, result.1) }
    ensures within { result.1 ≤ length bytes.now }
{
    let (bits, count) = known_groups(bytes, 10, 1);
    let half = (bits / 2) as i64;
    (if bits % 2 == 0 { half } else { -1 - half }, count)
}

// Appends a number in groups, lowest first: built apart, so that a refusal of memory leaves `out`.
fn put_groups(out: &mut Vec<u8>, n: u64) -> Result<(), AllocError>
    ensures ok { OnOk result (out.new.items ≡ out.old.items ++ groups_of 9 n) }
    ensures err { OnErr result (out.new.items ≡ out.old.items) }
{
    let mut text = [0; 10];
    let mut len = 0;
    let mut rest = n;
    while rest >= 128 {
        text[len] = (rest % 128) as u8 + 128;
        len += 1;
        rest /= 128;
    }
    text[len] = rest as u8;
    out.extend_from_slice(&text[..len + 1])
}

// The same, of one group without a call: most numbers have no more.
#[inline(always)]
#[tactic(auto, unfolding(crate::specs::Varint::groups_of))]
fn put_bits(out: &mut Vec<u8>, n: u64) -> Result<(), AllocError>
    ensures ok { OnOk result (out.new.items ≡ out.old.items ++ groups_of 9 n) }
    ensures err { OnErr result (out.new.items ≡ out.old.items) }
{
    if n < 128 {
        out.push(n as u8)?;
        return Ok(());
    }
    put_groups(out, n)
}

// 0, -1, 1, -2 are 0, 1, 2, 3.
fn folded(n: i64) -> u64
    ensures { result ≡ zigzag n }
{
    if n < 0 {
        2 * (-1 - n) as u64 + 1
    } else {
        2 * n as u64
    }
}

// How many groups a number has.
#[inline(always)]
fn groups_len(n: u64) -> usize
    ensures value { result ≡ length (groups_of 9 n) }
    ensures bound { result ≤ 10 }
{
    let mut more = 0;
    let mut rest = n;
    while 128 <= rest {
        rest /= 128;
        more += 1;
    }
    more + 1
}

/// How many bytes the shortest spelling of a 32-bit number takes, 1 to 5. Takes no memory.
#[tactic(auto, unfolding(crate::specs::Varint::shortest_text))]
#[inline(always)]
pub fn varint_len(n: i32) -> usize
    ensures value { result ≡ length (shortest_text n) }
    ensures bound { result ≤ 10 }
{
    groups_len(folded(i64::from(n)))
}

/// Appends the shortest spelling of a 32-bit number, 1 to 5 bytes.
///
/// # Errors
///
/// Only if memory runs out; then `out` is as before.
#[tactic(auto, unfolding(crate::specs::Varint::shortest_text))]
#[inline(always)]
pub fn put_varint(out: &mut Vec<u8>, n: i32) -> Result<(), AllocError>
    ensures ok { OnOk result (out.new.items ≡ out.old.items ++ shortest_text n) }
    ensures shortest { IsShortest varint n (shortest_text n) }
    ensures err { OnErr result (out.new.items ≡ out.old.items) }
{
    put_bits(out, folded(i64::from(n)))
}

/// Appends the shortest spelling of a 64-bit number, 1 to 10 bytes.
///
/// # Errors
///
/// Only if memory runs out; then `out` is as before.
#[tactic(auto, unfolding(crate::specs::Varint::shortest_text))]
#[inline(always)]
pub fn put_varlong(out: &mut Vec<u8>, n: i64) -> Result<(), AllocError>
    ensures ok { OnOk result (out.new.items ≡ out.old.items ++ shortest_text n) }
    ensures shortest { IsShortest varlong n (shortest_text n) }
    ensures err { OnErr result (out.new.items ≡ out.old.items) }
{
    put_bits(out, folded(n))
}

/// The round trip, as a law: a spelling of a number is read as that number, whatever follows it. So
/// what `put_varint` and `put_varlong` append is read again, and no spelling begins another.
pub fn varints_are_read_again()
    ensures { (shape : Shape) (n : ℤ) (text rest : List ℕ) → Spells shape n text
        → value_at shape (text ++ rest) ≡ Ok (n, length text) }
{}
