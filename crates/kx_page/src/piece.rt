//! The pieces of a page: fixed texts, numbers and values, and the templates in which they stand.
ghost use Rattle.std.specs.Prelude.{◌≡◌, ◌<◌, ◌++◌, map, decimal, IfOk, OnOk};
ghost use Rattle.std.specs.List.{after_first, before_first};
ghost use Rattle.std.specs.Fmt.{signed_decimal};
ghost use Rattle.kx_page.specs.Pieces.{digit_of, escaped, escaped_byte, filled, hex_byte};
ghost use Rattle.kx_page.specs.Pieces.{is_hole, piece_text};

use itoa::Buffer;
use std::alloc::AllocError;

/// A piece of a page.
#[derive(Clone, Copy)]
pub(crate) enum Piece<'a> {
    /// A text of this crate, as it stands.
    Markup(&'static str),
    /// A number, in decimal.
    Number(i64),
    /// A place or a count, in decimal.
    Count(usize),
    /// A value from wherever, which is escaped.
    Value(&'a [u8]),
}

// Adds a text as it stands.
fn put(out: &mut Vec<u8>, text: &str) -> Result<(), AllocError>
    ensures { OnOk result (out.new.items ≡ out.old.items ++ text.now) }
{
    out.extend_from_slice(text.as_bytes())
}

// The digit of a number below 16.
fn digit(number: u8) -> u8
    requires { number < 16 }
    ensures { result ≡ digit_of number }
{
    if number < 10 {
        b'0' + number
    } else {
        b'a' + (number - 10)
    }
}

// Adds a byte in hexadecimal.
fn put_hex(out: &mut Vec<u8>, byte: u8) -> Result<(), AllocError>
    ensures { OnOk result (out.new.items ≡ out.old.items ++ hex_byte byte) }
{
    out.extend_from_slice(&[b'\\', b'x', digit(byte / 16), digit(byte % 16)])
}

// Adds a byte of a value: as a character reference if it has a meaning in HTML, and in
// hexadecimal if it is no printable ASCII.
fn put_byte(out: &mut Vec<u8>, byte: u8) -> Result<(), AllocError>
    ensures { OnOk result (out.new.items ≡ out.old.items ++ escaped_byte byte) }
{
    if byte == b'<' {
        put(out, "&lt;")
    } else if byte == b'>' {
        put(out, "&gt;")
    } else if byte == b'&' {
        put(out, "&amp;")
    } else if byte == b'"' {
        put(out, "&quot;")
    } else if byte == b'\'' {
        put(out, "&#39;")
    } else if byte < b' ' || byte > b'~' {
        put_hex(out, byte)
    } else {
        out.extend_from_slice(&[byte])
    }
}

// Adds a value, escaped.
fn put_value(out: &mut Vec<u8>, value: &[u8]) -> Result<(), AllocError>
    ensures { OnOk result (out.new.items ≡ out.old.items ++ escaped value.now) }
{
    for byte in value {
        put_byte(out, *byte)?;
    }
    Ok(())
}

// Adds a number in decimal.
fn put_number(out: &mut Vec<u8>, number: i64) -> Result<(), AllocError>
    ensures { OnOk result (out.new.items ≡ out.old.items ++ signed_decimal number) }
{
    let mut buffer = Buffer::new();
    put(out, buffer.format(number))
}

// Adds a place or a count in decimal.
fn put_count(out: &mut Vec<u8>, count: usize) -> Result<(), AllocError>
    ensures { OnOk result (out.new.items ≡ out.old.items ++ decimal count) }
{
    let mut buffer = Buffer::new();
    put(out, buffer.format(count))
}

// Adds a piece.
fn put_piece(out: &mut Vec<u8>, piece: Piece<'_>) -> Result<(), AllocError>
    ensures { OnOk result (out.new.items ≡ out.old.items ++ piece_text piece.entry) }
{
    match piece {
        Piece::Markup(markup) => put(out, markup),
        Piece::Number(number) => put_number(out, number),
        Piece::Count(count) => put_count(out, count),
        Piece::Value(value) => put_value(out, value),
    }
}

// What is before the first hole of a template, and what is after it.
fn cut(template: &str) -> (&str, &str)
    ensures before { result.0.now ≡ before_first is_hole template.now }
    ensures after { result.1.now ≡ after_first is_hole template.now }
{
    match template.split_once('@') {
        Some(parts) => parts,
        None => (template, ""),
    }
}

/// Adds a template with these pieces in the place of its holes `@`, one after the other.
///
/// # Errors
///
/// Only if memory runs out.
pub(crate) fn add(
    out: &mut Vec<u8>,
    template: &'static str,
    pieces: &[Piece<'_>],
) -> Result<(), AllocError>
    ensures { OnOk result
        (out.new.items ≡ out.old.items ++ filled template.now (map piece_text pieces.now)) }
{
    let mut rest: &str = template;
    for piece in pieces {
        let (before, after) = cut(rest);
        put(out, before)?;
        put_piece(out, *piece)?;
        rest = after;
    }
    put(out, rest)
}
