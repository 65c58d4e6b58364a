//! Why a line of a script is bad.
ghost use Rattle.std.specs.Prelude.{◌≡◌, IsTrue};
ghost use Rattle.kx_bad_line.specs.Why.{IsWhy, IsWhyOf, are_no_words, count_of};

use crate::forms::{Form, form_of};
use kx_text::{Words, words_of};
use std::fmt;
use std::fmt::{Display, Formatter};

/// Why a line is bad, as far as the line itself says it.
#[derive(Clone, Copy)]
pub enum WhyBad<'a> {
    /// It ends with a carriage return.
    CarriageReturn,
    /// This byte is in no word.
    Byte(u8),
    /// A space is in front, behind or beside another.
    Spaces,
    /// A word has more than 64 bytes.
    Long,
    /// No line begins with this word.
    Name(&'a [u8]),
    /// It has fewer words than this form, or more.
    Count(Form),
    /// It has as many words as this form. So one of them isn't as it has to be, or what it names
    /// isn't there.
    Words(Form),
}

// The first byte that is neither in a word nor a space.
fn strange_byte(line: &[u8]) -> Option<u8> {
    for byte in line {
        if *byte < b' ' || b'~' < *byte {
            return Some(*byte);
        }
    }
    None
}

// Whether a space is in front, behind or beside another.
fn has_bad_space(line: &[u8]) -> bool {
    let mut before = b' ';
    for byte in line {
        if *byte == b' ' && before == b' ' {
            return true;
        }
        before = *byte;
    }
    before == b' '
}

// Why a line is bad that has other pieces than words.
fn why_no_words(line: &[u8]) -> WhyBad<'_>
    ensures { IsTrue (are_no_words result) }
{
    if let Some(b'\r') = line.last() {
        return WhyBad::CarriageReturn;
    }
    match strange_byte(line) {
        Some(byte) => WhyBad::Byte(byte),
        None if has_bad_space(line) => WhyBad::Spaces,
        None => WhyBad::Long,
    }
}

// How many words there are, 5 if there are more: the forms that take more than four take any.
fn count_of(mut words: Words<'_>) -> usize
    ensures { result ≡ count_of words.entry }
{
    let Some(_) = words.next() else {
        return 0;
    };
    let Some(_) = words.next() else {
        return 1;
    };
    let Some(_) = words.next() else {
        return 2;
    };
    let Some(_) = words.next() else {
        return 3;
    };
    let Some(_) = words.next() else {
        return 4;
    };
    5
}

// Why a line of these words is bad.
fn why_no_form<'a>(mut words: Words<'a>) -> WhyBad<'a>
    ensures { IsWhyOf words.entry result }
{
    let name: &'a [u8] = match words.next() {
        Some(name) => name,
        None => &[],
    };
    let Some(form) = form_of(name) else {
        return WhyBad::Name(name);
    };
    if form.fits(count_of(words)) {
        WhyBad::Words(form)
    } else {
        WhyBad::Count(form)
    }
}

/// Why a line is bad, as far as the line itself says it: without the world it can't be known whether
/// what it names is there.
pub fn why_bad(line: &[u8]) -> WhyBad<'_>
    ensures { IsWhy line.now result }
{
    match words_of(line) {
        None => why_no_words(line),
        Some(words) => why_no_form(words),
    }
}

impl Display for WhyBad<'_> {
    fn fmt<W: fmt::Write>(&self, f: &mut Formatter<W>) -> fmt::Result {
        match self {
            WhyBad::CarriageReturn => f.write_str("it ends with a carriage return"),
            WhyBad::Byte(byte) => write!(f, "byte {byte} is in no word"),
            WhyBad::Spaces => f.write_str("words are parted by single spaces"),
            WhyBad::Long => f.write_str("a word has at most 64 bytes"),
            WhyBad::Name(_) => f.write_str("no line begins with its first word"),
            WhyBad::Count(form) => write!(f, "`{}` is wanted", form.text()),
            WhyBad::Words(form) => write!(
                f,
                "`{}`: a word is not as it has to be, or what it names is not there",
                form.text()
            ),
        }
    }
}
