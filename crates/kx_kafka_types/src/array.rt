//! Structs of fields, and arrays of them that are read as they are asked for.
ghost use Rattle.std.specs.Prelude.{◌≡◌, ◌↔◌, [], length, IsTrue, Ok, Err, MatchResult, option_map};
ghost use Rattle.std.specs.Iterator.{item_count};
ghost use Rattle.kx_kafka_types.specs.Reading.{fields_at, array_at, nullable_array_at, repeated};
ghost use Rattle.kx_kafka_types.specs.Rows.{elements, FirstOf};

use crate::fault::KafkaFault;
use crate::version::Version;
use std::marker::{Model, PhantomData};

/// A reader of the values that stand one after the other in some bytes.
pub trait Reading: Copy {
    ghost use Rattle.std.specs.Prelude.{◌≡◌, ℕ, List, Ok, Err, MatchResult};
    ghost use Rattle.kx_kafka_types.specs.Reading.{array_length, nullable_length};

    // what is left of the bytes
    ghost bytes: { Self → List ℕ };

    /// How many elements an array has.
    ///
    /// # Errors
    ///
    /// [`KafkaFault::Short`], or [`KafkaFault::Field`] if it is null or negative.
    fn array_len(&mut self, version: Version) -> Result<u32, KafkaFault>
        ensures { MatchResult result
            (λ n. array_length version (bytes self.old) ≡ Ok (n, bytes self.new))
            (λ fault. array_length version (bytes self.old) ≡ Err fault) };

    /// How many elements an array has that may be null from version `since` on; `None` for null.
    ///
    /// # Errors
    ///
    /// [`KafkaFault::Short`], or [`KafkaFault::Field`] if it is negative, but for -1 in a
    /// version that may have null.
    fn nullable_array_len(
        &mut self,
        version: Version,
        since: u16,
    ) -> Result<Option<u32>, KafkaFault>
        ensures { MatchResult result
            (λ n. nullable_length version since (bytes self.old) ≡ Ok (n, bytes self.new))
            (λ fault. nullable_length version since (bytes self.old) ≡ Err fault) };
}

/// A struct of fields, as a request or an array has it.
pub trait Struct: Drop {
    ghost use Rattle.std.specs.Prelude.{◌≡◌, Ok, Err, MatchResult};
    ghost use Rattle.kx_kafka_types.specs.Schema.{Fields, Values};
    ghost use Rattle.kx_kafka_types.specs.Reading.{fields_at};

    /// What it is read by.
    type Reader: Reading;

    // its fields
    ghost fields: { Fields };

    // their values
    ghost values: { Self → Values fields };

    /// The struct at the front.
    ///
    /// # Errors
    ///
    /// The first that comes: [`KafkaFault::Short`] where the bytes end within it,
    /// [`KafkaFault::Field`] if those of a field spell no value of its type.
    fn read(reader: &mut Self::Reader, version: Version) -> Result<Self, KafkaFault>
        ensures { MatchResult result
            (λ x. fields_at version fields (Self.Reader.bytes reader.old)
            ≡ Ok (values x, Self.Reader.bytes reader.new))
            (λ fault. fields_at version fields (Self.Reader.bytes reader.old) ≡ Err fault) };
}

/// An array of structs, which are read from the bytes as they are asked for. It takes no memory,
/// and was read through before, so that each of its structs is there.
#[derive(Drop)]
pub struct Array<T: Struct> {
    version: Version,
    reader: T::Reader,
    left: u32,
    kind: PhantomData<T>,
}

impl<T: Struct> Model for Array<T> {
    ghost use Rattle.kx_kafka_types.specs.Rows.{Rows, AreRows};

    ghost Value = { Rows };

    ghost view = { λ a. record {
      version = a.version;
      left = a.left;
      text = T.Reader.bytes a.reader;
    } };

    ghost invariant = { λ a.
        AreRows T.fields a.version a.left (T.Reader.bytes a.reader) };
}

impl<T: Struct> Array<T> {
    /// Reads an array through: how many structs it has, and the structs, one after the other.
    ///
    /// # Errors
    ///
    /// The first that comes: [`KafkaFault::Short`] where the bytes end within the array,
    /// [`KafkaFault::Field`] if its count is null or negative, or a field spells no value of its
    /// type.
    #[tactic(auto, unfolding(crate::specs::Reading::array_at))]
    pub fn read(reader: &mut T::Reader, version: Version) -> Result<Self, KafkaFault>
        ensures { MatchResult result
            (λ x. array_at version (fields_at version T.fields) (T.Reader.bytes reader.old)
            ≡ Ok (elements T.fields x, T.Reader.bytes reader.new))
            (λ fault. array_at version (fields_at version T.fields) (T.Reader.bytes reader.old)
            ≡ Err fault) }
    {
        let left = reader.array_len(version)?;
        Array::with_len(reader, version, left)
    }

    /// Reads an array through that may be null from version `since` on; `None` for null.
    ///
    /// # Errors
    ///
    /// As [`read`](Array::read); null is [`KafkaFault::Field`] before version `since`.
    #[tactic(auto, unfolding(crate::specs::Reading::nullable_array_at))]
    pub fn read_nullable(
        reader: &mut T::Reader,
        version: Version,
        since: u16,
    ) -> Result<Option<Self>, KafkaFault>
        ensures { MatchResult result
            (λ x. nullable_array_at version since (fields_at version T.fields)
            (T.Reader.bytes reader.old)
            ≡ Ok (option_map (elements T.fields) x, T.Reader.bytes reader.new))
            (λ fault. nullable_array_at version since (fields_at version T.fields)
            (T.Reader.bytes reader.old) ≡ Err fault) }
    {
        match reader.nullable_array_len(version, since)? {
            None => Ok(None),
            Some(left) => {
                let array = Array::with_len(reader, version, left)?;
                Ok(Some(array))
            }
        }
    }

    // This many structs.
    fn with_len(reader: &mut T::Reader, version: Version, left: u32) -> Result<Self, KafkaFault>
        ensures { MatchResult result
            (λ x. repeated (fields_at version T.fields) left (T.Reader.bytes reader.old)
            ≡ Ok (elements T.fields x, T.Reader.bytes reader.new))
            (λ fault. repeated (fields_at version T.fields) left (T.Reader.bytes reader.old)
            ≡ Err fault) }
    {
        let start = *reader;
        for _ in 0..left {
            T::read(reader, version)?;
        }
        Ok(Array {
            version,
            reader: start,
            left,
            kind: PhantomData,
        })
    }

    /// How many structs are left.
    pub fn len(&self) -> usize
        ensures { result ≡ length (elements T.fields self.now) }
    {
        self.left as usize
    }

    /// Whether no struct is left.
    pub fn is_empty(&self) -> bool
        ensures { IsTrue result ↔ (elements T.fields self.now ≡ []) }
    {
        self.len() == 0
    }
}

impl<T: Struct> Iterator for Array<T> {
    type Item = T;

    ghost next_gives = { FirstOf T.fields T.values };

    ghost remaining = { item_count (elements T.fields) };

    fn next(&mut self) -> Option<T> {
        if self.left == 0 {
            return None;
        }
        let mut reader = self.reader;
        match T::read(&mut reader, self.version) {
            Ok(found) => {
                self.reader = reader;
                self.left -= 1;
                Some(found)
            }
            Err(_) => unreachable!(),
        }
    }
}
