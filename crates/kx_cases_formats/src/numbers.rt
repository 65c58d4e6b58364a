//! Numbers as formats spell them, by the names of their types: `varint`, `varlong`, `u8`, `i8` to
//! `u64`, `i64`. `put KIND N` appends a number to what the case has written, `written` tells that,
//! `read KIND BYTES` tells a number and how it ends, `at KIND PLACE BYTES` one at a place.
use kx_cases::{StepFault, Subject, Texts, told_bytes, told_name, told_value, value};
use kx_varint::{
    VarFault, i16_at, i32_at, i64_at, numbers_have_place_value, put_i8, put_i16, put_i32, put_i64,
    put_u8, put_u16, put_u32, put_u64, put_varint, put_varlong, read_i8, read_i16, read_i32,
    read_i64, read_u8, read_u16, read_u32, read_u64, read_varint, read_varlong, u32_at,
    varints_are_read_again,
};
use std::alloc::Global;
use std::fmt::Display;

/// What a case has written so far.
#[derive(Drop)]
pub(crate) struct NumberCases {
    alloc: Global,
    written: Vec<u8>,
}

// Appends a number without a sign.
fn put_unsigned(out: &mut Vec<u8>, kind: &str, number: &str) -> Result<(), StepFault> {
    match kind {
        "u8" => put_u8(out, value(number)?)?,
        "u16" => put_u16(out, value(number)?)?,
        "u32" => put_u32(out, value(number)?)?,
        "u64" => put_u64(out, value(number)?)?,
        _ => return Err(StepFault::Unknown),
    }
    Ok(())
}

// Appends a number with a sign.
fn put_signed(out: &mut Vec<u8>, kind: &str, number: &str) -> Result<(), StepFault> {
    match kind {
        "i8" => put_i8(out, value(number)?)?,
        "i16" => put_i16(out, value(number)?)?,
        "i32" => put_i32(out, value(number)?)?,
        "i64" => put_i64(out, value(number)?)?,
        "varint" => put_varint(out, value(number)?)?,
        "varlong" => put_varlong(out, value(number)?)?,
        _ => return Err(StepFault::Unknown),
    }
    Ok(())
}

// A number of fixed width and the bytes after it.
fn told_field<T: Display + Drop>(
    alloc: Global,
    field: Result<(T, &[u8]), VarFault>,
) -> Result<String, StepFault> {
    match field {
        Ok((number, behind)) => {
            let behind = told_bytes(alloc, behind)?;
            Ok(format!(in alloc; "{number} {behind}")?)
        }
        Err(fault) => told_name(alloc, fault),
    }
}

// A number in groups, and how many bytes it takes.
fn told_groups<T: Display + Drop>(
    alloc: Global,
    groups: Result<(T, usize), VarFault>,
) -> Result<String, StepFault> {
    match groups {
        Ok((number, len)) => Ok(format!(in alloc; "{number} {len}")?),
        Err(fault) => told_name(alloc, fault),
    }
}

fn read(alloc: Global, kind: &str, bytes: &[u8]) -> Result<String, StepFault> {
    match kind {
        "u8" => told_field(alloc, read_u8(bytes)),
        "u16" => told_field(alloc, read_u16(bytes)),
        "u32" => told_field(alloc, read_u32(bytes)),
        "u64" => told_field(alloc, read_u64(bytes)),
        "i8" => told_field(alloc, read_i8(bytes)),
        "i16" => told_field(alloc, read_i16(bytes)),
        "i32" => told_field(alloc, read_i32(bytes)),
        "i64" => told_field(alloc, read_i64(bytes)),
        "varint" => told_groups(alloc, read_varint(bytes)),
        "varlong" => told_groups(alloc, read_varlong(bytes)),
        _ => Err(StepFault::Unknown),
    }
}

// The number at a place that has eight bytes after it.
fn at(bytes: &[u8], kind: &str, place: usize) -> Result<i64, StepFault> {
    let last = bytes.len().checked_sub(8).ok_or(StepFault::Unknown)?;
    if last < place {
        return Err(StepFault::Unknown);
    }
    match kind {
        "i16" => Ok(i64::from(i16_at(bytes, place))),
        "u32" => Ok(i64::from(u32_at(bytes, place))),
        "i32" => Ok(i64::from(i32_at(bytes, place))),
        "i64" => Ok(i64_at(bytes, place)),
        _ => Err(StepFault::Unknown),
    }
}

fn at_step(
    alloc: Global,
    texts: &Texts,
    kind: &str,
    place: &str,
    bytes: &str,
) -> Result<String, StepFault> {
    let place = value(place)?;
    let bytes = texts.bytes(bytes)?;
    told_value(alloc, at(bytes.as_slice(), kind, place)?)
}

// What is proved of all numbers, and takes no value.
fn laws(alloc: Global) -> Result<String, StepFault> {
    varints_are_read_again();
    numbers_have_place_value();
    told_value(alloc, "ok")
}

impl NumberCases {
    // Appends a number, and reports its bytes.
    fn put(&mut self, kind: &str, number: &str) -> Result<String, StepFault> {
        let before = self.written.len();
        match kind {
            "u8" | "u16" | "u32" | "u64" => put_unsigned(&mut self.written, kind, number)?,
            _ => put_signed(&mut self.written, kind, number)?,
        }
        let bytes = self.written.get(before..).unwrap_or(&[]);
        Ok(told_bytes(self.alloc, bytes)?)
    }
}

impl Subject for NumberCases {
    fn new(alloc: Global) -> Self {
        NumberCases {
            alloc,
            written: Vec::new(alloc),
        }
    }

    fn answer(&mut self, texts: &Texts, words: &[&str]) -> Result<String, StepFault> {
        match words {
            ["put", kind, number] => self.put(kind, number),
            ["written"] => Ok(told_bytes(self.alloc, self.written.as_slice())?),
            ["read", kind, bytes] => read(self.alloc, kind, texts.bytes(bytes)?.as_slice()),
            ["at", kind, place, bytes] => at_step(self.alloc, texts, kind, place, bytes),
            ["laws"] => laws(self.alloc),
            _ => Err(StepFault::Unknown),
        }
    }
}
