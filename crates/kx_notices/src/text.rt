//! The parts of a line, which are put at the end of what is written.
ghost use Rattle.std.specs.Prelude.{◌≡◌, ◌++◌, ◌<◌, OnOk, codes, decimal};
ghost use Rattle.kx_notices.specs.Texts.{counted, digit_of, escaped, escaped_byte, hex_byte};
ghost use Rattle.kx_notices.specs.Texts.{quoted, signed_text, three, two};

use crate::said::Said;
use itoa::Buffer;
use std::alloc::AllocError;

/// A text as it is.
pub(crate) fn put(out: &mut Vec<u8>, text: &str) -> Result<(), AllocError>
    ensures { OnOk result (out.new.items ≡ out.old.items ++ text.now) }
{
    out.extend_from_slice(text.as_bytes())
}

// The digit of a number below 16.
fn digit(number: u8) -> u8
    requires { number < 16 }
    ensures { result ≡ digit_of number }
{
    if number < 10 {
        b'0' + number
    } else {
        b'a' + (number - 10)
    }
}

// A byte in hexadecimal.
fn put_hex(out: &mut Vec<u8>, byte: u8) -> Result<(), AllocError>
    ensures { OnOk result (out.new.items ≡ out.old.items ++ hex_byte byte) }
{
    out.extend_from_slice(&[b'\\', b'x', digit(byte / 16), digit(byte % 16)])
}

// A byte that a client sent.
fn put_byte(out: &mut Vec<u8>, byte: u8) -> Result<(), AllocError>
    ensures { OnOk result (out.new.items ≡ out.old.items ++ escaped_byte byte) }
{
    if byte == b'"' {
        put(out, "\\\"")
    } else if byte == b'\\' {
        put(out, "\\\\")
    } else if byte < b' ' || byte > b'~' {
        put_hex(out, byte)
    } else {
        out.extend_from_slice(&[byte])
    }
}

/// Bytes, escaped: a line feed among them ends no line.
pub(crate) fn put_escaped(out: &mut Vec<u8>, bytes: &[u8]) -> Result<(), AllocError>
    ensures { OnOk result (out.new.items ≡ out.old.items ++ escaped bytes.now) }
{
    for byte in bytes {
        put_byte(out, *byte)?;
    }
    Ok(())
}

/// What a client said, in quotes.
pub(crate) fn put_quoted(out: &mut Vec<u8>, said: &Said) -> Result<(), AllocError>
    ensures { OnOk result (out.new.items ≡ out.old.items ++ quoted said.now) }
{
    put(out, "\"")?;
    put_escaped(out, said.bytes.as_slice())?;
    put(out, "\"")?;
    put(out, if said.is_cut { "..." } else { "" })
}

/// A number in decimal.
pub(crate) fn put_number(out: &mut Vec<u8>, number: u64) -> Result<(), AllocError>
    ensures { OnOk result (out.new.items ≡ out.old.items ++ decimal number) }
{
    let mut buffer = Buffer::new();
    put(out, buffer.format(number))
}

/// A number that may be negative, in decimal.
#[tactic(auto, unfolding(crate::specs::Texts::signed_text))]
pub(crate) fn put_signed(out: &mut Vec<u8>, number: i16) -> Result<(), AllocError>
    ensures { OnOk result (out.new.items ≡ out.old.items ++ signed_text number) }
{
    let mut buffer = Buffer::new();
    put(out, buffer.format(number))
}

/// A number of things, by what one and what more of them are called.
pub(crate) fn put_count(
    out: &mut Vec<u8>,
    number: u64,
    one: &str,
    more: &str,
) -> Result<(), AllocError>
    ensures { OnOk result (out.new.items ≡ out.old.items ++ counted number one.now more.now) }
{
    put_number(out, number)?;
    put(out, if number == 1 { one } else { more })
}

/// A number below 100, in two digits.
pub(crate) fn put_two(out: &mut Vec<u8>, number: u64) -> Result<(), AllocError>
    requires { number < 100 }
    ensures { OnOk result (out.new.items ≡ out.old.items ++ two number) }
{
    out.extend_from_slice(&[b'0' + (number / 10) as u8, b'0' + (number % 10) as u8])
}

/// A number below 1,000, in three digits.
pub(crate) fn put_three(out: &mut Vec<u8>, number: u64) -> Result<(), AllocError>
    requires { number < 1000 }
    ensures { OnOk result (out.new.items ≡ out.old.items ++ three number) }
{
    out.extend_from_slice(&[b'0' + (number / 100) as u8])?;
    put_two(out, number % 100)
}
