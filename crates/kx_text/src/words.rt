//! Reading: a line's text, its words and its numbers.
ghost use Rattle.std.specs.Prelude.{◌≡◌, ◌<◌, ◌^◌, IfSome, option_map};
ghost use Rattle.std.specs.Iterator.{YieldsFirstRef, item_count};
ghost use Rattle.kx_text.specs.Words.{before, behind, below, is_visible, is_word, number_below};
ghost use Rattle.kx_text.specs.Words.{number_of, pieces_of, words_of};

use std::marker::Model;

/// How many bytes a word has at most.
const LONGEST: usize = 64;

// What is before the first such byte, and what is after it if there is one.
fn cut_at(byte: u8, text: &[u8]) -> (&[u8], Option<&[u8]>)
    ensures front { result.0.now ≡ before byte text.now }
    ensures rest { option_map (λ s. s.now) result.1 ≡ behind byte text.now }
{
    for (i, b) in text.iter().enumerate() {
        if *b == byte {
            return (&text[..i], Some(&text[i + 1..]));
        }
    }
    (text, None)
}

/// A line's bytes in front of its newline.
pub fn without_newline(line: &[u8]) -> &[u8]
    ensures { result.now ≡ before 10 line.now }
{
    let (front, _) = cut_at(b'\n', line);
    front
}

/// The pieces of a line that lie between its single spaces, in order.
#[derive(Drop)]
pub struct Words<'a> {
    rest: Option<&'a [u8]>,
}

impl<'a> Model for Words<'a> {
    ghost use Rattle.std.specs.Prelude.{ℕ, List, option_map};
    ghost use Rattle.kx_text.specs.Words.{pieces_in};

    ghost Value = { List (List ℕ) };

    ghost view = { λ words. pieces_in (option_map (λ s. s.now) words.rest) };
}

impl<'a> Words<'a> {
    // The pieces of a line, whether or not they are words.
    fn of(line: &'a [u8]) -> Words<'a>
        ensures { result ≡ pieces_of line.now }
    {
        Words { rest: Some(line) }
    }
}

impl<'a> Iterator for Words<'a> {
    type Item = &'a [u8];

    ghost next_gives = { YieldsFirstRef (λ words. words) };

    ghost remaining = { item_count (λ words. words) };

    fn next(&mut self) -> Option<&'a [u8]> {
        let rest = self.rest?;
        let (word, behind) = cut_at(b' ', rest);
        self.rest = behind;
        Some(word)
    }
}

fn is_visible(byte: u8) -> bool
    ensures { result ≡ is_visible byte }
{
    (0x21..=0x7E).contains(&byte)
}

fn is_word(text: &[u8]) -> bool
    ensures { result ≡ is_word text.now }
{
    0 < text.len() && text.len() <= LONGEST && text.iter().all(|byte| is_visible(*byte))
}

/// The words of a line, or None if one of its pieces is no word.
pub fn words_of<'a>(line: &'a [u8]) -> Option<Words<'a>>
    ensures { result ≡ words_of line.now }
{
    for piece in Words::of(line) {
        if !is_word(piece) {
            return None;
        }
    }
    Some(Words::of(line))
}

/// The number that a word writes in decimal digits, if it fits.
pub fn number(word: &[u8]) -> Option<u64>
    ensures { result ≡ below (2 ^ 64) (number_of word.now) }
{
    if word.is_empty() {
        return None;
    }
    let mut number = 0u64;
    for byte in word {
        if !byte.is_ascii_digit() {
            return None;
        }
        number = number
            .checked_mul(10)?
            .checked_add(u64::from(*byte - b'0'))?;
    }
    Some(number)
}

/// The number that a word writes in decimal digits, if it is below the limit.
#[tactic(auto, unfolding(crate::specs::Words::number_below))]
pub fn number_below(word: &[u8], limit: u64) -> Option<u64>
    ensures value { result ≡ number_below limit word.now }
    ensures bound { IfSome result (λ number. number < limit) }
{
    number(word).filter(|number| *number < limit)
}
