//! Bytes as files of cases write them.
ghost use Rattle.std.specs.Prelude.{◌≡◌, [], OnErr};

use crate::fault::StepFault;
use std::alloc::{AllocError, Global};
use std::collections::BTreeMap;
use std::marker::Model;

/// The bytes that have a name. Bytes are written as parts that are joined by `+`; a part is
/// hexadecimal digits, or `$NAME` of bytes with a name, or `-` for none, and after it changes, of
/// which each begins with a `,`: `,..N` cuts it to N bytes, `,xN` repeats it N times, and `,P:HEX`
/// puts these bytes at place P.
#[derive(Drop)]
pub struct Texts {
    alloc: Global,
    named: BTreeMap<String, Vec<u8>>,
}

impl Model for Texts {
    ghost use Rattle.std.specs.Prelude.{ℕ, List, map, string_bytes};

    ghost Value = { List (List ℕ × List ℕ) };

    ghost view = { λ t. map (λ e. (string_bytes e.0, e.1.items)) t.named.entries };
}

impl Texts {
    /// A table in which no bytes have a name.
    pub fn new(alloc: Global) -> Self
        ensures { result ≡ [] }
    {
        Texts {
            alloc,
            named: BTreeMap::new(alloc),
        }
    }

    /// The bytes have this name from here on. If they are refused, or there is no memory, the
    /// names are as they were.
    pub fn name(&mut self, name: &str, bytes: &str) -> Result<(), StepFault>
        ensures refused { OnErr result (self.new ≡ self.old) }
    {
        let bytes = self.bytes(bytes)?;
        let name = String::from_str(self.alloc, name)?;
        self.named.insert(name, bytes)?;
        Ok(())
    }

    /// The bytes that are written so.
    pub fn bytes(&self, text: &str) -> Result<Vec<u8>, StepFault> {
        let mut bytes = Vec::new(self.alloc);
        for part in text.split('+') {
            let part = self.part(part)?;
            bytes.extend_from_slice(part.as_slice())?;
        }
        Ok(bytes)
    }

    // One of the parts that are joined.
    fn part(&self, text: &str) -> Result<Vec<u8>, StepFault> {
        let mut words = text.split(',');
        let mut bytes = self.word(words.next().unwrap_or(""))?;
        for change in words {
            self.change(&mut bytes, change)?;
        }
        Ok(bytes)
    }

    fn word(&self, word: &str) -> Result<Vec<u8>, StepFault> {
        if word == "-" {
            return Ok(Vec::new(self.alloc));
        }
        match word.strip_prefix('$') {
            Some(name) => {
                let bytes = self.named.get(name).ok_or(StepFault::Unknown)?;
                Ok(bytes.clone()?)
            }
            None => self.digits(word),
        }
    }

    fn digits(&self, word: &str) -> Result<Vec<u8>, StepFault> {
        match hex::decode(self.alloc, word) {
            Ok(bytes) => Ok(bytes),
            Err(hex::FromHexError::OutOfMemory) => Err(StepFault::Memory(AllocError)),
            Err(_) => Err(StepFault::Unknown),
        }
    }

    // Makes one of the changes that are after a part.
    fn change(&self, bytes: &mut Vec<u8>, change: &str) -> Result<(), StepFault> {
        if let Some(len) = change.strip_prefix("..") {
            bytes.truncate(number(len)?);
            return Ok(());
        }
        if let Some(count) = change.strip_prefix('x') {
            *bytes = repeated(self.alloc, bytes.as_slice(), number(count)?)?;
            return Ok(());
        }
        self.put(bytes.as_mut_slice(), change)
    }

    // Puts the bytes of a change `P:HEX` at place P, as far as there is room.
    fn put(&self, bytes: &mut [u8], change: &str) -> Result<(), StepFault> {
        let (place, with) = change.split_once(':').ok_or(StepFault::Unknown)?;
        let place = number(place)?;
        let with = self.digits(with)?;
        overwrite(bytes, place, with.as_slice());
        Ok(())
    }
}

fn overwrite(bytes: &mut [u8], place: usize, with: &[u8]) {
    for (byte, new) in bytes.iter_mut().skip(place).zip(with.iter()) {
        *byte = *new;
    }
}

fn number(text: &str) -> Result<usize, StepFault> {
    text.parse::<usize>().map_err(|_| StepFault::Unknown)
}

fn repeated(alloc: Global, bytes: &[u8], count: usize) -> Result<Vec<u8>, AllocError> {
    let mut all = Vec::new(alloc);
    for _ in 0..count {
        all.extend_from_slice(bytes)?;
    }
    Ok(all)
}
