//! Numbers of fixed width, highest byte first, as Kafka's protocol writes INT8 to INT64: at the
//! front of some bytes, at a place of a text, and appended.
//!
//! Readers and writers stand one by one over one private reader, since a macro can't write
//! functions with contracts.
ghost use Rattle.std.specs.Prelude.{◌≡◌, ◌<◌, ◌≤◌, ◌+◌, ◌++◌, ◌^◌, ℕ, length, take, drop, OnOk};
ghost use Rattle.std.specs.Prelude.{OnErr, MatchResult, Ok, Err};
ghost use Rattle.std.specs.Int.{Width, w8, w16, w32, w64, byte_len, cast_signed, to_be_bytes};
ghost use Rattle.kx_varint.specs.BigEndian.{place_value, unsigned_field, signed_field, unsigned_at};
ghost use Rattle.kx_varint.specs.BigEndian.{signed_at, unsigned_text, signed_text, IsFieldWidth};
ghost use Rattle.kx_varint.specs.declared.fault.VarFault.TheVariants.{Short};

use crate::fault::VarFault;
use std::alloc::AllocError;

// A front of this many bytes, and the bytes after it.
fn front_of(bytes: &[u8], size: usize) -> Result<(&[u8], &[u8]), VarFault>
    ensures { MatchResult result
        (λ x. (size ≤ length bytes.now) × (x.0.now ≡ take size bytes.now)
        × (x.1.now ≡ drop size bytes.now))
        (λ fault. (length bytes.now < size) × (fault ≡ Short)) }
{
    if bytes.len() < size {
        return Err(VarFault::Short);
    }
    Ok(bytes.split_at(size))
}

fn u8_of(text: &[u8]) -> u8
    requires { length text.now ≡ 1 }
    ensures { result ≡ place_value text.now }
{
    text[0]
}

fn u16_of(text: &[u8]) -> u16
    requires { length text.now ≡ 2 }
    ensures { result ≡ place_value text.now }
{
    u16::from_be_bytes([text[0], text[1]])
}

fn u32_of(text: &[u8]) -> u32
    requires { length text.now ≡ 4 }
    ensures { result ≡ place_value text.now }
{
    u32::from_be_bytes([text[0], text[1], text[2], text[3]])
}

fn u64_of(text: &[u8]) -> u64
    requires { length text.now ≡ 8 }
    ensures { result ≡ place_value text.now }
{
    u64::from_be_bytes([
        text[0], text[1], text[2], text[3], text[4], text[5], text[6], text[7],
    ])
}

/// The unsigned number of 8 bits at the front, and the bytes after it. Takes no memory.
///
/// # Errors
///
/// [`VarFault::Short`] if there is no byte.
pub fn read_u8(bytes: &[u8]) -> Result<(u8, &[u8]), VarFault>
    ensures { MatchResult result (λ x. unsigned_field w8 bytes.now ≡ Ok (x.0, x.1.now))
        (λ fault. unsigned_field w8 bytes.now ≡ Err fault) }
{
    let (front, rest) = front_of(bytes, 1)?;
    Ok((u8_of(front), rest))
}

/// The signed number of 8 bits at the front, and the bytes after it. Takes no memory.
///
/// # Errors
///
/// [`VarFault::Short`] if there is no byte.
pub fn read_i8(bytes: &[u8]) -> Result<(i8, &[u8]), VarFault>
    ensures { MatchResult result (λ x. signed_field w8 bytes.now ≡ Ok (x.0, x.1.now))
        (λ fault. signed_field w8 bytes.now ≡ Err fault) }
{
    let (field, rest) = front_of(bytes, 1)?;
    Ok((u8_of(field).cast_signed(), rest))
}

/// The unsigned number of 16 bits at the front, and the bytes after it. Takes no memory.
///
/// # Errors
///
/// [`VarFault::Short`] if there are fewer than 2 bytes.
pub fn read_u16(bytes: &[u8]) -> Result<(u16, &[u8]), VarFault>
    ensures { MatchResult result (λ x. unsigned_field w16 bytes.now ≡ Ok (x.0, x.1.now))
        (λ fault. unsigned_field w16 bytes.now ≡ Err fault) }
{
    let (front, rest) = front_of(bytes, 2)?;
    Ok((u16_of(front), rest))
}

/// The signed number of 16 bits at the front, and the bytes after it. Takes no memory.
///
/// # Errors
///
/// [`VarFault::Short`] if there are fewer than 2 bytes.
pub fn read_i16(bytes: &[u8]) -> Result<(i16, &[u8]), VarFault>
    ensures { MatchResult result (λ x. signed_field w16 bytes.now ≡ Ok (x.0, x.1.now))
        (λ fault. signed_field w16 bytes.now ≡ Err fault) }
{
    let (field, rest) = front_of(bytes, 2)?;
    Ok((u16_of(field).cast_signed(), rest))
}

/// The unsigned number of 32 bits at the front, and the bytes after it. Takes no memory.
///
/// # Errors
///
/// [`VarFault::Short`] if there are fewer than 4 bytes.
pub fn read_u32(bytes: &[u8]) -> Result<(u32, &[u8]), VarFault>
    ensures { MatchResult result (λ x. unsigned_field w32 bytes.now ≡ Ok (x.0, x.1.now))
        (λ fault. unsigned_field w32 bytes.now ≡ Err fault) }
{
    let (front, rest) = front_of(bytes, 4)?;
    Ok((u32_of(front), rest))
}

/// The signed number of 32 bits at the front, and the bytes after it. Takes no memory.
///
/// # Errors
///
/// [`VarFault::Short`] if there are fewer than 4 bytes.
pub fn read_i32(bytes: &[u8]) -> Result<(i32, &[u8]), VarFault>
    ensures { MatchResult result (λ x. signed_field w32 bytes.now ≡ Ok (x.0, x.1.now))
        (λ fault. signed_field w32 bytes.now ≡ Err fault) }
{
    let (field, rest) = front_of(bytes, 4)?;
    Ok((u32_of(field).cast_signed(), rest))
}

/// The unsigned number of 64 bits at the front, and the bytes after it. Takes no memory.
///
/// # Errors
///
/// [`VarFault::Short`] if there are fewer than 8 bytes.
pub fn read_u64(bytes: &[u8]) -> Result<(u64, &[u8]), VarFault>
    ensures { MatchResult result (λ x. unsigned_field w64 bytes.now ≡ Ok (x.0, x.1.now))
        (λ fault. unsigned_field w64 bytes.now ≡ Err fault) }
{
    let (front, rest) = front_of(bytes, 8)?;
    Ok((u64_of(front), rest))
}

/// The signed number of 64 bits at the front, and the bytes after it. Takes no memory.
///
/// # Errors
///
/// [`VarFault::Short`] if there are fewer than 8 bytes.
pub fn read_i64(bytes: &[u8]) -> Result<(i64, &[u8]), VarFault>
    ensures { MatchResult result (λ x. signed_field w64 bytes.now ≡ Ok (x.0, x.1.now))
        (λ fault. signed_field w64 bytes.now ≡ Err fault) }
{
    let (field, rest) = front_of(bytes, 8)?;
    Ok((u64_of(field).cast_signed(), rest))
}

/// The signed number of 16 bits at a place of a text, counted in bytes.
pub fn i16_at(text: &[u8], at: usize) -> i16
    requires { at + 2 ≤ length text.now }
    ensures { result ≡ signed_at w16 at text.now }
{
    u16_of(&text[at..at + 2]).cast_signed()
}

/// The unsigned number of 32 bits at a place of a text, counted in bytes.
pub fn u32_at(text: &[u8], at: usize) -> u32
    requires { at + 4 ≤ length text.now }
    ensures { result ≡ unsigned_at w32 at text.now }
{
    u32_of(&text[at..at + 4])
}

/// The signed number of 32 bits at a place of a text, counted in bytes.
pub fn i32_at(text: &[u8], at: usize) -> i32
    requires { at + 4 ≤ length text.now }
    ensures { result ≡ signed_at w32 at text.now }
{
    u32_at(text, at).cast_signed()
}

/// The signed number of 64 bits at a place of a text, counted in bytes.
pub fn i64_at(text: &[u8], at: usize) -> i64
    requires { at + 8 ≤ length text.now }
    ensures { result ≡ signed_at w64 at text.now }
{
    u64_of(&text[at..at + 8]).cast_signed()
}

/// Appends an unsigned number of 8 bits.
///
/// # Errors
///
/// Only if memory runs out; then `out` is as before.
#[tactic(auto, unfolding(crate::specs::BigEndian::unsigned_text))]
pub fn put_u8(out: &mut Vec<u8>, n: u8) -> Result<(), AllocError>
    ensures ok { OnOk result (out.new.items ≡ out.old.items ++ unsigned_text w8 n) }
    ensures err { OnErr result (out.new.items ≡ out.old.items) }
{
    out.extend_from_slice(&u8::to_be_bytes(n))
}

/// Appends a signed number of 8 bits.
///
/// # Errors
///
/// Only if memory runs out; then `out` is as before.
#[tactic(auto, unfolding(crate::specs::BigEndian::signed_text))]
pub fn put_i8(out: &mut Vec<u8>, n: i8) -> Result<(), AllocError>
    ensures ok { OnOk result (out.new.items ≡ out.old.items ++ signed_text w8 n) }
    ensures err { OnErr result (out.new.items ≡ out.old.items) }
{
    out.extend_from_slice(&i8::to_be_bytes(n))
}

/// Appends an unsigned number of 16 bits.
///
/// # Errors
///
/// Only if memory runs out; then `out` is as before.
#[tactic(auto, unfolding(crate::specs::BigEndian::unsigned_text))]
pub fn put_u16(out: &mut Vec<u8>, n: u16) -> Result<(), AllocError>
    ensures ok { OnOk result (out.new.items ≡ out.old.items ++ unsigned_text w16 n) }
    ensures err { OnErr result (out.new.items ≡ out.old.items) }
{
    out.extend_from_slice(&u16::to_be_bytes(n))
}

/// Appends a signed number of 16 bits.
///
/// # Errors
///
/// Only if memory runs out; then `out` is as before.
#[tactic(auto, unfolding(crate::specs::BigEndian::signed_text))]
pub fn put_i16(out: &mut Vec<u8>, n: i16) -> Result<(), AllocError>
    ensures ok { OnOk result (out.new.items ≡ out.old.items ++ signed_text w16 n) }
    ensures err { OnErr result (out.new.items ≡ out.old.items) }
{
    out.extend_from_slice(&i16::to_be_bytes(n))
}

/// Appends an unsigned number of 32 bits.
///
/// # Errors
///
/// Only if memory runs out; then `out` is as before.
#[tactic(auto, unfolding(crate::specs::BigEndian::unsigned_text))]
pub fn put_u32(out: &mut Vec<u8>, n: u32) -> Result<(), AllocError>
    ensures ok { OnOk result (out.new.items ≡ out.old.items ++ unsigned_text w32 n) }
    ensures err { OnErr result (out.new.items ≡ out.old.items) }
{
    out.extend_from_slice(&u32::to_be_bytes(n))
}

/// Appends a signed number of 32 bits.
///
/// # Errors
///
/// Only if memory runs out; then `out` is as before.
#[tactic(auto, unfolding(crate::specs::BigEndian::signed_text))]
pub fn put_i32(out: &mut Vec<u8>, n: i32) -> Result<(), AllocError>
    ensures ok { OnOk result (out.new.items ≡ out.old.items ++ signed_text w32 n) }
    ensures err { OnErr result (out.new.items ≡ out.old.items) }
{
    out.extend_from_slice(&i32::to_be_bytes(n))
}

/// Appends an unsigned number of 64 bits.
///
/// # Errors
///
/// Only if memory runs out; then `out` is as before.
#[tactic(auto, unfolding(crate::specs::BigEndian::unsigned_text))]
pub fn put_u64(out: &mut Vec<u8>, n: u64) -> Result<(), AllocError>
    ensures ok { OnOk result (out.new.items ≡ out.old.items ++ unsigned_text w64 n) }
    ensures err { OnErr result (out.new.items ≡ out.old.items) }
{
    out.extend_from_slice(&u64::to_be_bytes(n))
}

/// Appends a signed number of 64 bits.
///
/// # Errors
///
/// Only if memory runs out; then `out` is as before.
#[tactic(auto, unfolding(crate::specs::BigEndian::signed_text))]
pub fn put_i64(out: &mut Vec<u8>, n: i64) -> Result<(), AllocError>
    ensures ok { OnOk result (out.new.items ≡ out.old.items ++ signed_text w64 n) }
    ensures err { OnErr result (out.new.items ≡ out.old.items) }
{
    out.extend_from_slice(&i64::to_be_bytes(n))
}

/// Place value, as a law: what is written at a width stands for its number, and takes the width.
pub fn numbers_have_place_value()
    ensures { (w : Width) (n : ℕ) → IsFieldWidth w → n < 256 ^ byte_len w
        → (place_value (to_be_bytes w n) ≡ n) × (length (to_be_bytes w n) ≡ byte_len w) }
{}
