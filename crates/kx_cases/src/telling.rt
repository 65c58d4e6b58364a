//! How steps write values, and how answers tell them.
ghost use Rattle.std.specs.Prelude.{◌≡◌, Result, Ok, Err, IfErr, IfNone, IfOk, IfSome};
ghost use Rattle.std.specs.Prelude.{MatchResult, bytes_eq, codes, if◌then◌else◌, string_bytes};
ghost use Rattle.kx_cases.specs.Telling.{bytes_text};
ghost use Rattle.kx_cases.specs.declared.fault.StepFault.TheVariants as fault;

use crate::fault::StepFault;
use std::alloc::{AllocError, Global};
use std::fmt::{Debug, Display};
use std::str::FromStr;

/// What was read, if a step may write it so.
pub fn known<T, E: Drop>(read: Result<T, E>) -> Result<T, StepFault>
    ensures { MatchResult read (λ value. result ≡ Ok value) (λ _. result ≡ Err fault.Unknown) }
{
    match read {
        Ok(value) => Ok(value),
        Err(_) => Err(StepFault::Unknown),
    }
}

/// The value that a word writes, as its type reads it.
pub fn value<T: FromStr>(word: &str) -> Result<T, StepFault>
where
    T::Err: Drop,
    ensures { (given : Result T T.Err) × T.from_str_gives word.now given
        × MatchResult given (λ read. result ≡ Ok read) (λ _. result ≡ Err fault.Unknown) }
{
    known(word.parse::<T>())
}

/// A value as it is printed.
pub fn told_value<T: Display + Drop>(alloc: Global, value: T) -> Result<String, StepFault>
    ensures { IfSome (T.output value) (λ bytes. IfOk result (λ text. string_bytes text ≡ bytes)) }
{
    Ok(format!(in alloc; "{value}")?)
}

/// The name of a value, such as a fault.
pub fn told_name<E: Debug + Drop>(alloc: Global, fault: E) -> Result<String, StepFault>
    ensures { IfSome (E.debug_output fault)
        (λ bytes. IfOk result (λ text. string_bytes text ≡ bytes)) }
{
    Ok(format!(in alloc; "{fault:?}")?)
}

/// A value as it is printed, or the name of the fault that came in its place.
pub fn told<T: Display + Drop, E: Debug + Drop>(
    alloc: Global,
    given: Result<T, E>,
) -> Result<String, StepFault>
    ensures value { IfOk given (λ value. IfSome (T.output value)
        (λ bytes. IfOk result (λ text. string_bytes text ≡ bytes))) }
    ensures fault { IfErr given (λ fault. IfSome (E.debug_output fault)
        (λ bytes. IfOk result (λ text. string_bytes text ≡ bytes))) }
{
    match given {
        Ok(value) => told_value(alloc, value),
        Err(fault) => told_name(alloc, fault),
    }
}

/// `ok`, or the name of the fault that came in its place.
pub fn told_done<E: Debug + Drop>(alloc: Global, done: Result<(), E>) -> Result<String, StepFault>
    ensures done { IfOk done (λ _. IfOk result (λ text. string_bytes text ≡ codes "ok")) }
    ensures fault { IfErr done (λ fault. IfSome (E.debug_output fault)
        (λ bytes. IfOk result (λ text. string_bytes text ≡ bytes))) }
{
    match done {
        Ok(()) => told_value(alloc, "ok"),
        Err(fault) => told_name(alloc, fault),
    }
}

/// A value as it is printed, `none` if there is none.
pub fn told_option<T: Display + Drop>(alloc: Global, option: Option<T>) -> Result<String, StepFault>
    ensures value { IfSome option (λ value. IfSome (T.output value)
        (λ bytes. IfOk result (λ text. string_bytes text ≡ bytes))) }
    ensures none { IfNone option (IfOk result (λ text. string_bytes text ≡ codes "none")) }
{
    match option {
        Some(value) => Ok(format!(in alloc; "{value}")?),
        None => Ok(String::from_str(alloc, "none")?),
    }
}

/// `same` if the bytes are those that are wanted, else what they are.
pub fn told_same(alloc: Global, bytes: &[u8], want: &[u8]) -> Result<String, AllocError>
    ensures { IfOk result (λ text. string_bytes text ≡
        (if bytes_eq bytes.now want.now then codes "same" else bytes_text bytes.now)) }
{
    if bytes == want {
        return String::from_str(alloc, "same");
    }
    told_bytes(alloc, bytes)
}

/// Bytes in hexadecimal digits, `-` if there are none.
pub fn told_bytes(alloc: Global, bytes: &[u8]) -> Result<String, AllocError>
    ensures { IfOk result (λ text. string_bytes text ≡ bytes_text bytes.now) }
{
    if bytes.is_empty() {
        return String::from_str(alloc, "-");
    }
    hex::encode(alloc, bytes)
}
