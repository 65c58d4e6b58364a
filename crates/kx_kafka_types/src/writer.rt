//! Writing values one after the other, as a response's fields stand.
ghost use Rattle.std.specs.Prelude.{◌≡◌, ◌++◌, ◌+◌, ◌<◌, ◌^◌, pos, Some, None, OnOk, option_map};
ghost use Rattle.std.specs.Prelude.{length, map, IfSome};
ghost use Rattle.std.specs.List.{flat_map, AllByRecursion};
ghost use Rattle.std.specs.Int.{w8, w16, w32, w64};
ghost use Rattle.kx_varint.specs.Varint.{unzigzag};
ghost use Rattle.kx_varint.specs.BigEndian.{signed_text};
ghost use Rattle.kx_kafka_types.specs.Schema.{Since};
ghost use Rattle.kx_kafka_types.specs.Writing.{boolean_text, unsigned_varint_text, length_text};
ghost use Rattle.kx_kafka_types.specs.Writing.{counted_text, nullable_text, end_text, array_text};
ghost use Rattle.kx_kafka_types.specs.Writing.{text_in, fields_text, FitsIn, FitsLength, FitsArray, Fits};
ghost use Rattle.kx_kafka_types.specs.Writing.{nullable_array_text, FitsNullable};

use crate::fault::KafkaFault;
use crate::version::Version;
use kx_varint::{put_i16, put_i32, put_i64, put_u8, put_varint};

/// A struct of fields that is written, as a response or an array has it.
pub trait Writes {
    ghost use Rattle.std.specs.Prelude.{◌≡◌, OnOk};
    ghost use Rattle.kx_kafka_types.specs.Schema.{Fields, Values};
    ghost use Rattle.kx_kafka_types.specs.Writing.{fields_onto, Fits};

    // its fields
    ghost fields: { Fields };

    // their values
    ghost values: { Self → Values fields };

    /// Appends its fields, those that the version has.
    ///
    /// # Errors
    ///
    /// [`KafkaFault::TooLong`] for a string of more than 32767 bytes, and for bytes or an array of
    /// more than 2147483647; [`KafkaFault::Field`] for null in a version that has none;
    /// [`KafkaFault::Memory`]. What `out` holds is then of no use.
    fn put(&self, out: &mut Vec<u8>, version: Version) -> Result<(), KafkaFault>
        ensures written { OnOk result
            (out.new.items ≡ fields_onto version fields (values self.now) out.old.items) }
        ensures fits { OnOk result (Fits version fields (values self.now)) };
}

// The number of which this is the zig-zag.
fn folded(n: u32) -> i32
    ensures { result ≡ unzigzag n }
{
    let half = (n / 2) as i32;
    if n % 2 == 0 { half } else { -1 - half }
}

/// Appends a BOOLEAN.
///
/// # Errors
///
/// Only [`KafkaFault::Memory`].
#[tactic(auto, unfolding(crate::specs::Writing::boolean_text))]
pub fn put_boolean(out: &mut Vec<u8>, flag: bool) -> Result<(), KafkaFault>
    ensures { OnOk result (out.new.items ≡ out.old.items ++ boolean_text flag) }
{
    put_u8(out, if flag { 1 } else { 0 })?;
    Ok(())
}

// Appends an UNSIGNED_VARINT.
#[tactic(auto, unfolding(crate::specs::Writing::unsigned_varint_text))]
fn put_unsigned_varint(out: &mut Vec<u8>, n: u32) -> Result<(), KafkaFault>
    ensures { OnOk result (out.new.items ≡ out.old.items ++ unsigned_varint_text n) }
{
    put_varint(out, folded(n))?;
    Ok(())
}

// A length, or null, of at most 32767 bytes or elements.
#[tactic(auto, unfolding(crate::specs::Writing::length_text))]
fn put_short_length(out: &mut Vec<u8>, version: Version, len: Option<u16>) -> Result<(), KafkaFault>
    requires { IfSome len (λ n. n < 2 ^ 15) }
    ensures { OnOk result (out.new.items ≡ out.old.items ++ length_text version w16 len) }
{
    match (version.flexible, len) {
        (true, None) => put_unsigned_varint(out, 0),
        (true, Some(len)) => put_unsigned_varint(out, u32::from(len) + 1),
        (false, None) => Ok(put_i16(out, -1)?),
        (false, Some(len)) => Ok(put_i16(out, len as i16)?),
    }
}

// A length, or null, of at most 2147483647 bytes or elements.
#[tactic(auto, unfolding(crate::specs::Writing::length_text))]
fn put_long_length(out: &mut Vec<u8>, version: Version, len: Option<u32>) -> Result<(), KafkaFault>
    requires { IfSome len (λ n. n < 2 ^ 31) }
    ensures { OnOk result (out.new.items ≡ out.old.items ++ length_text version w32 len) }
{
    match (version.flexible, len) {
        (true, None) => put_unsigned_varint(out, 0),
        (true, Some(len)) => put_unsigned_varint(out, len + 1),
        (false, None) => Ok(put_i32(out, -1)?),
        (false, Some(len)) => Ok(put_i32(out, len as i32)?),
    }
}

/// Appends a STRING or COMPACT_STRING.
///
/// # Errors
///
/// [`KafkaFault::TooLong`] for more than 32767 bytes, [`KafkaFault::Memory`].
#[tactic(auto, unfolding(crate::specs::Writing::counted_text))]
pub fn put_text(out: &mut Vec<u8>, version: Version, text: &[u8]) -> Result<(), KafkaFault>
    ensures written { OnOk result (out.new.items ≡ out.old.items ++ counted_text version w16 text.now) }
    ensures fits { OnOk result (length text.now < 2 ^ 15) }
{
    if text.len() > 32767 {
        return Err(KafkaFault::TooLong);
    }
    put_short_length(out, version, Some(text.len() as u16))?;
    out.extend_from_slice(text)?;
    Ok(())
}

/// Appends a NULLABLE_STRING or COMPACT_NULLABLE_STRING.
///
/// # Errors
///
/// [`KafkaFault::TooLong`] for more than 32767 bytes, [`KafkaFault::Memory`].
pub fn put_nullable_text(
    out: &mut Vec<u8>,
    version: Version,
    text: Option<&[u8]>,
) -> Result<(), KafkaFault>
    ensures written { OnOk result (out.new.items ≡ out.old.items ++ nullable_text version w16 (option_map (λ s. s.now) text.entry)) }
    ensures fits { OnOk result (FitsLength (2 ^ 15) (option_map (λ s. s.now) text.entry)) }
{
    match text {
        None => put_short_length(out, version, None),
        Some(text) => put_text(out, version, text),
    }
}

/// Appends BYTES or COMPACT_BYTES.
///
/// # Errors
///
/// [`KafkaFault::TooLong`] for more than 2147483647 bytes, [`KafkaFault::Memory`].
#[tactic(auto, unfolding(crate::specs::Writing::counted_text))]
pub fn put_bytes(out: &mut Vec<u8>, version: Version, bytes: &[u8]) -> Result<(), KafkaFault>
    ensures written { OnOk result (out.new.items ≡ out.old.items ++ counted_text version w32 bytes.now) }
    ensures fits { OnOk result (length bytes.now < 2 ^ 31) }
{
    if bytes.len() > 2147483647 {
        return Err(KafkaFault::TooLong);
    }
    put_long_length(out, version, Some(bytes.len() as u32))?;
    out.extend_from_slice(bytes)?;
    Ok(())
}

/// Appends NULLABLE_BYTES or COMPACT_NULLABLE_BYTES.
///
/// # Errors
///
/// [`KafkaFault::TooLong`] for more than 2147483647 bytes, [`KafkaFault::Memory`].
pub fn put_nullable_bytes(
    out: &mut Vec<u8>,
    version: Version,
    bytes: Option<&[u8]>,
) -> Result<(), KafkaFault>
    ensures written { OnOk result (out.new.items ≡ out.old.items ++ nullable_text version w32 (option_map (λ s. s.now) bytes.entry)) }
    ensures fits { OnOk result (FitsLength (2 ^ 31) (option_map (λ s. s.now) bytes.entry)) }
{
    match bytes {
        None => put_long_length(out, version, None),
        Some(bytes) => put_bytes(out, version, bytes),
    }
}

/// Appends the end of a struct: in a flexible version that there are no tagged fields.
///
/// # Errors
///
/// Only [`KafkaFault::Memory`].
#[tactic(auto, unfolding(crate::specs::Writing::end_text))]
pub fn put_end(out: &mut Vec<u8>, version: Version) -> Result<(), KafkaFault>
    ensures { OnOk result (out.new.items ≡ out.old.items ++ end_text version) }
{
    if version.flexible {
        return put_unsigned_varint(out, 0);
    }
    Ok(())
}

/// Appends an array of structs.
///
/// # Errors
///
/// [`KafkaFault::TooLong`] for more than 2147483647 structs, [`KafkaFault::Memory`]. What one of
/// them is refused for is answered too.
#[tactic(auto, unfolding(crate::specs::Writing::array_text))]
pub fn put_array<T: Writes>(
    out: &mut Vec<u8>,
    version: Version,
    items: &[T],
) -> Result<(), KafkaFault>
    ensures written { OnOk result (out.new.items ≡ out.old.items ++ array_text version (fields_text version T.fields) (map T.values items.now)) }
    ensures fits { OnOk result (FitsArray (Fits version T.fields) (map T.values items.now)) }
{
    if items.len() > 2147483647 {
        return Err(KafkaFault::TooLong);
    }
    put_long_length(out, version, Some(items.len() as u32))?;
    for item in items {
        item.put(out, version)?;
    }
    Ok(())
}

/// Appends an INT16 that versions from `first` on have.
///
/// # Errors
///
/// Only [`KafkaFault::Memory`].
pub fn put_i16_since(
    out: &mut Vec<u8>,
    version: Version,
    first: u16,
    n: i16,
) -> Result<(), KafkaFault>
    ensures { OnOk result (out.new.items ≡ out.old.items ++ text_in (Since first) version (signed_text w16 n)) }
{
    if version.number < first {
        return Ok(());
    }
    put_i16(out, n)?;
    Ok(())
}

/// Appends an INT32 that versions from `first` on have.
///
/// # Errors
///
/// Only [`KafkaFault::Memory`].
pub fn put_i32_since(
    out: &mut Vec<u8>,
    version: Version,
    first: u16,
    n: i32,
) -> Result<(), KafkaFault>
    ensures { OnOk result (out.new.items ≡ out.old.items ++ text_in (Since first) version (signed_text w32 n)) }
{
    if version.number < first {
        return Ok(());
    }
    put_i32(out, n)?;
    Ok(())
}

/// Appends an INT64 that versions from `first` on have.
///
/// # Errors
///
/// Only [`KafkaFault::Memory`].
pub fn put_i64_since(
    out: &mut Vec<u8>,
    version: Version,
    first: u16,
    n: i64,
) -> Result<(), KafkaFault>
    ensures { OnOk result (out.new.items ≡ out.old.items ++ text_in (Since first) version (signed_text w64 n)) }
{
    if version.number < first {
        return Ok(());
    }
    put_i64(out, n)?;
    Ok(())
}

/// Appends a BOOLEAN that versions from `first` on have.
///
/// # Errors
///
/// Only [`KafkaFault::Memory`].
pub fn put_boolean_since(
    out: &mut Vec<u8>,
    version: Version,
    first: u16,
    flag: bool,
) -> Result<(), KafkaFault>
    ensures { OnOk result (out.new.items ≡ out.old.items ++ text_in (Since first) version (boolean_text flag)) }
{
    if version.number < first {
        return Ok(());
    }
    put_boolean(out, flag)
}

/// Appends a NULLABLE_STRING that versions from `first` on have.
///
/// # Errors
///
/// [`KafkaFault::TooLong`] for more than 32767 bytes, [`KafkaFault::Memory`].
pub fn put_nullable_text_since(
    out: &mut Vec<u8>,
    version: Version,
    first: u16,
    text: Option<&[u8]>,
) -> Result<(), KafkaFault>
    ensures written { OnOk result (out.new.items ≡ out.old.items ++ text_in (Since first) version (nullable_text version w16 (option_map (λ s. s.now) text.entry))) }
    ensures fits { OnOk result (FitsIn (Since first) version (FitsLength (2 ^ 15) (option_map (λ s. s.now) text.entry))) }
{
    if version.number < first {
        return Ok(());
    }
    put_nullable_text(out, version, text)
}

/// Appends an array of structs that versions from `first` on have.
///
/// # Errors
///
/// As [`put_array`].
pub fn put_array_since<T: Writes>(
    out: &mut Vec<u8>,
    version: Version,
    first: u16,
    items: &[T],
) -> Result<(), KafkaFault>
    ensures written { OnOk result (out.new.items ≡ out.old.items ++ text_in (Since first) version (array_text version (fields_text version T.fields) (map T.values items.now))) }
    ensures fits { OnOk result (FitsIn (Since first) version (FitsArray (Fits version T.fields) (map T.values items.now))) }
{
    if version.number < first {
        return Ok(());
    }
    put_array(out, version, items)
}

/// Appends an array of structs that may be null from version `since` on.
///
/// # Errors
///
/// As [`put_array`]; [`KafkaFault::Field`] for null in a version before `since`.
pub fn put_nullable_array<T: Writes>(
    out: &mut Vec<u8>,
    version: Version,
    since: u16,
    items: Option<&[T]>,
) -> Result<(), KafkaFault>
    ensures written { OnOk result (out.new.items ≡ out.old.items
        ++ nullable_array_text version (fields_text version T.fields)
        (option_map (λ s. map T.values s.now) items.entry)) }
    ensures fits { OnOk result (FitsNullable since version (Fits version T.fields)
        (option_map (λ s. map T.values s.now) items.entry)) }
{
    match items {
        None if version.number < since => Err(KafkaFault::Field),
        None => put_long_length(out, version, None),
        Some(items) => put_array(out, version, items),
    }
}

/// An INT32 alone, as an element of an array.
impl Writes for i32 {
    ghost use Rattle.kx_kafka_types.specs.Schema.{One, Int32};

    ghost fields = { One Int32 };

    ghost values = { λ n. n };

    fn put(&self, out: &mut Vec<u8>, _version: Version) -> Result<(), KafkaFault> {
        let n = *self;
        put_i32(out, n)?;
        Ok(())
    }
}
