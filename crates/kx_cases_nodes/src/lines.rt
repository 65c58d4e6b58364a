//! Scripts, and what they write, on one line of a file of cases.
use std::alloc::{AllocError, Global};
use std::str;

// Reports a text with another end of each line.
fn tell_lines(told: &mut String, text: &str, end: char, new: &str) -> Result<(), AllocError> {
    for (at, part) in text.split(end).enumerate() {
        let parted = if at == 0 { "" } else { new };
        write!(told, "{parted}{part}")?;
    }
    Ok(())
}

fn tell_script(told: &mut String, words: &[&str]) -> Result<(), AllocError> {
    let mut parted = "";
    for word in words {
        told.push_str(parted)?;
        tell_lines(told, word, '|', "\n")?;
        parted = " ";
    }
    Ok(())
}

/// A script that stands on one line, if each `|` is the end of a line.
pub fn script_of(alloc: Global, words: &[&str]) -> Result<String, AllocError> {
    let mut script = String::new(alloc);
    tell_script(&mut script, words)?;
    Ok(script)
}

/// Tells text on one line: each `|` is the end of a line.
pub fn tell_on_one_line(told: &mut String, text: &[u8]) -> Result<(), AllocError> {
    tell_lines(told, str::from_utf8(text).unwrap_or("?"), '\n', "|")
}
