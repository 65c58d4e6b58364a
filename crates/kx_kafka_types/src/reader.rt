//! Reading values one after the other, as a request's fields stand.
ghost use Rattle.std.specs.Prelude.{◌≡◌, Option, Some, None, Ok, Err, MatchResult, option_map};
ghost use Rattle.std.specs.Int.{w8, w16, w32, w64};
ghost use Rattle.kx_kafka_types.specs.Reading.{signed, boolean, unsigned_varint, length_at, taken};
ghost use Rattle.kx_kafka_types.specs.Reading.{counted, nullable, tag_at, tags_at, end_at, length_with};
ghost use Rattle.kx_kafka_types.specs.Reading.{compact_length, array_length};
ghost use Rattle.kx_kafka_types.specs.Reading.{where_in};
ghost use Rattle.kx_kafka_types.specs.Schema.{Since, Only};
ghost use Rattle.kx_varint.specs.Varint.{zigzag};
ghost use Rattle.kx_kafka_types.specs.Reading.{fault_of};

use crate::array::{Reading, Struct};
use crate::fault::KafkaFault;
use crate::version::Version;
use kx_varint::{VarFault, read_i8, read_i16, read_i32, read_i64, read_u8, read_varint};
use std::marker::PhantomData;

/// Values that are read one after the other, from the first. Whatever is read borrows from the
/// bytes, and nothing takes memory. After an error what is left is of no use.
#[derive(Clone, Copy)]
pub struct FieldReader<'a> {
    /// What is left of the bytes.
    pub rest: &'a [u8],
}

fn fault_of(fault: VarFault) -> KafkaFault
    ensures { result ≡ fault_of fault }
{
    match fault {
        VarFault::Short => KafkaFault::Short,
        VarFault::TooLong => KafkaFault::Field,
    }
}

// The number whose zig-zag is this: what a varint of the same bytes was unfolded to.
fn unfolded(n: i32) -> u32
    ensures { result ≡ zigzag n }
{
    if n < 0 {
        2 * (-1 - n) as u32 + 1
    } else {
        2 * n as u32
    }
}

// A length of fixed width; -1 is null.
fn length_of(n: i32) -> Result<Option<u32>, KafkaFault>
    ensures { result ≡ length_with n }
{
    if n >= 0 {
        Ok(Some(n as u32))
    } else if n == -1 {
        Ok(None)
    } else {
        Err(KafkaFault::Field)
    }
}

impl<'a> FieldReader<'a> {
    /// INT8.
    ///
    /// # Errors
    ///
    /// [`KafkaFault::Short`] if fewer bytes are left.
    #[tactic(auto, unfolding(crate::specs::Reading::signed))]
    pub fn int8(&mut self) -> Result<i8, KafkaFault>
        ensures { MatchResult result
            (λ x. signed w8 self.old.rest.now ≡ Ok (x, self.new.rest.now))
            (λ fault. signed w8 self.old.rest.now ≡ Err fault) }
    {
        let (n, rest) = read_i8(self.rest).map_err(fault_of)?;
        self.rest = rest;
        Ok(n)
    }

    /// INT16.
    ///
    /// # Errors
    ///
    /// [`KafkaFault::Short`] if fewer bytes are left.
    #[tactic(auto, unfolding(crate::specs::Reading::signed))]
    pub fn int16(&mut self) -> Result<i16, KafkaFault>
        ensures { MatchResult result
            (λ x. signed w16 self.old.rest.now ≡ Ok (x, self.new.rest.now))
            (λ fault. signed w16 self.old.rest.now ≡ Err fault) }
    {
        let (n, rest) = read_i16(self.rest).map_err(fault_of)?;
        self.rest = rest;
        Ok(n)
    }

    /// INT32.
    ///
    /// # Errors
    ///
    /// [`KafkaFault::Short`] if fewer bytes are left.
    #[tactic(auto, unfolding(crate::specs::Reading::signed))]
    pub fn int32(&mut self) -> Result<i32, KafkaFault>
        ensures { MatchResult result
            (λ x. signed w32 self.old.rest.now ≡ Ok (x, self.new.rest.now))
            (λ fault. signed w32 self.old.rest.now ≡ Err fault) }
    {
        let (n, rest) = read_i32(self.rest).map_err(fault_of)?;
        self.rest = rest;
        Ok(n)
    }

    /// INT64.
    ///
    /// # Errors
    ///
    /// [`KafkaFault::Short`] if fewer bytes are left.
    #[tactic(auto, unfolding(crate::specs::Reading::signed))]
    pub fn int64(&mut self) -> Result<i64, KafkaFault>
        ensures { MatchResult result
            (λ x. signed w64 self.old.rest.now ≡ Ok (x, self.new.rest.now))
            (λ fault. signed w64 self.old.rest.now ≡ Err fault) }
    {
        let (n, rest) = read_i64(self.rest).map_err(fault_of)?;
        self.rest = rest;
        Ok(n)
    }

    /// BOOLEAN: a byte that is 0 or 1.
    ///
    /// # Errors
    ///
    /// [`KafkaFault::Short`], [`KafkaFault::Field`].
    #[tactic(auto, unfolding(crate::specs::Reading::boolean))]
    pub fn boolean(&mut self) -> Result<bool, KafkaFault>
        ensures { MatchResult result
            (λ x. boolean self.old.rest.now ≡ Ok (x, self.new.rest.now))
            (λ fault. boolean self.old.rest.now ≡ Err fault) }
    {
        let (byte, rest) = read_u8(self.rest).map_err(fault_of)?;
        self.rest = rest;
        match byte {
            0 => Ok(false),
            1 => Ok(true),
            _ => Err(KafkaFault::Field),
        }
    }

    // UNSIGNED_VARINT.
    #[tactic(auto, unfolding(crate::specs::Reading::unsigned_varint))]
    fn unsigned_varint(&mut self) -> Result<u32, KafkaFault>
        ensures { MatchResult result
            (λ x. unsigned_varint self.old.rest.now ≡ Ok (x, self.new.rest.now))
            (λ fault. unsigned_varint self.old.rest.now ≡ Err fault) }
    {
        let (n, count) = read_varint(self.rest).map_err(fault_of)?;
        self.rest = &self.rest[count..];
        Ok(unfolded(n))
    }

    // How many bytes follow, after a length of two bytes.
    #[tactic(auto, unfolding(crate::specs::Reading::length_at))]
    fn short_length(&mut self, version: Version) -> Result<Option<u32>, KafkaFault>
        ensures { MatchResult result
            (λ x. length_at version w16 self.old.rest.now ≡ Ok (x, self.new.rest.now))
            (λ fault. length_at version w16 self.old.rest.now ≡ Err fault) }
    {
        if version.flexible {
            return self.compact_length();
        }
        let n = self.int16()?;
        length_of(i32::from(n))
    }

    // How many bytes or elements follow, after a length of four bytes.
    #[tactic(auto, unfolding(crate::specs::Reading::length_at))]
    fn long_length(&mut self, version: Version) -> Result<Option<u32>, KafkaFault>
        ensures { MatchResult result
            (λ x. length_at version w32 self.old.rest.now ≡ Ok (x, self.new.rest.now))
            (λ fault. length_at version w32 self.old.rest.now ≡ Err fault) }
    {
        if version.flexible {
            return self.compact_length();
        }
        let n = self.int32()?;
        length_of(n)
    }

    // A length in a flexible version.
    #[tactic(auto, unfolding(crate::specs::Reading::compact_length))]
    fn compact_length(&mut self) -> Result<Option<u32>, KafkaFault>
        ensures { MatchResult result
            (λ x. compact_length self.old.rest.now ≡ Ok (x, self.new.rest.now))
            (λ fault. compact_length self.old.rest.now ≡ Err fault) }
    {
        let n = self.unsigned_varint()?;
        Ok(n.checked_sub(1))
    }

    // This many bytes.
    #[tactic(auto, unfolding(crate::specs::Reading::taken))]
    fn take(&mut self, count: u32) -> Result<&'a [u8], KafkaFault>
        ensures { MatchResult result
            (λ x. taken count self.old.rest.now ≡ Ok (x.now, self.new.rest.now))
            (λ fault. taken count self.old.rest.now ≡ Err fault) }
    {
        let count = count as usize;
        if self.rest.len() < count {
            return Err(KafkaFault::Short);
        }
        let (text, rest) = self.rest.split_at(count);
        self.rest = rest;
        Ok(text)
    }

    /// STRING or COMPACT_STRING.
    ///
    /// # Errors
    ///
    /// [`KafkaFault::Short`], [`KafkaFault::Field`].
    #[tactic(auto, unfolding(crate::specs::Reading::counted))]
    pub fn text(&mut self, version: Version) -> Result<&'a [u8], KafkaFault>
        ensures { MatchResult result
            (λ x. counted version w16 self.old.rest.now ≡ Ok (x.now, self.new.rest.now))
            (λ fault. counted version w16 self.old.rest.now ≡ Err fault) }
    {
        match self.short_length(version)? {
            None => Err(KafkaFault::Field),
            Some(count) => self.take(count),
        }
    }

    /// NULLABLE_STRING or COMPACT_NULLABLE_STRING.
    ///
    /// # Errors
    ///
    /// [`KafkaFault::Short`], [`KafkaFault::Field`].
    #[tactic(auto, unfolding(crate::specs::Reading::nullable))]
    pub fn nullable_text(&mut self, version: Version) -> Result<Option<&'a [u8]>, KafkaFault>
        ensures { MatchResult result
            (λ x. nullable version w16 self.old.rest.now ≡ Ok (option_map (λ s. s.now) x, self.new.rest.now))
            (λ fault. nullable version w16 self.old.rest.now ≡ Err fault) }
    {
        match self.short_length(version)? {
            None => Ok(None),
            Some(count) => Ok(Some(self.take(count)?)),
        }
    }

    /// BYTES or COMPACT_BYTES.
    ///
    /// # Errors
    ///
    /// [`KafkaFault::Short`], [`KafkaFault::Field`].
    #[tactic(auto, unfolding(crate::specs::Reading::counted))]
    pub fn bytes(&mut self, version: Version) -> Result<&'a [u8], KafkaFault>
        ensures { MatchResult result
            (λ x. counted version w32 self.old.rest.now ≡ Ok (x.now, self.new.rest.now))
            (λ fault. counted version w32 self.old.rest.now ≡ Err fault) }
    {
        match self.long_length(version)? {
            None => Err(KafkaFault::Field),
            Some(count) => self.take(count),
        }
    }

    /// NULLABLE_BYTES or COMPACT_NULLABLE_BYTES.
    ///
    /// # Errors
    ///
    /// [`KafkaFault::Short`], [`KafkaFault::Field`].
    #[tactic(auto, unfolding(crate::specs::Reading::nullable))]
    pub fn nullable_bytes(&mut self, version: Version) -> Result<Option<&'a [u8]>, KafkaFault>
        ensures { MatchResult result
            (λ x. nullable version w32 self.old.rest.now ≡ Ok (option_map (λ s. s.now) x, self.new.rest.now))
            (λ fault. nullable version w32 self.old.rest.now ≡ Err fault) }
    {
        match self.long_length(version)? {
            None => Ok(None),
            Some(count) => Ok(Some(self.take(count)?)),
        }
    }

    /// An INT8 that versions from `first` on have; before, it is `other`.
    ///
    /// # Errors
    ///
    /// [`KafkaFault::Short`], [`KafkaFault::Field`].
    pub fn int8_since(&mut self, version: Version, first: u16, other: i8) -> Result<i8, KafkaFault>
        ensures { MatchResult result
            (λ x. where_in (Since first) version (signed w8) other self.old.rest.now
            ≡ Ok (x, self.new.rest.now))
            (λ fault. where_in (Since first) version (signed w8) other self.old.rest.now
            ≡ Err fault) }
    {
        if version.number < first {
            return Ok(other);
        }
        self.int8()
    }

    /// An INT16 that versions from `first` on have; before, it is `other`.
    ///
    /// # Errors
    ///
    /// [`KafkaFault::Short`], [`KafkaFault::Field`].
    pub fn int16_since(
        &mut self,
        version: Version,
        first: u16,
        other: i16,
    ) -> Result<i16, KafkaFault>
        ensures { MatchResult result
            (λ x. where_in (Since first) version (signed w16) other self.old.rest.now
            ≡ Ok (x, self.new.rest.now))
            (λ fault. where_in (Since first) version (signed w16) other self.old.rest.now
            ≡ Err fault) }
    {
        if version.number < first {
            return Ok(other);
        }
        self.int16()
    }

    /// An INT32 that versions from `first` on have; before, it is `other`.
    ///
    /// # Errors
    ///
    /// [`KafkaFault::Short`], [`KafkaFault::Field`].
    pub fn int32_since(
        &mut self,
        version: Version,
        first: u16,
        other: i32,
    ) -> Result<i32, KafkaFault>
        ensures { MatchResult result
            (λ x. where_in (Since first) version (signed w32) other self.old.rest.now
            ≡ Ok (x, self.new.rest.now))
            (λ fault. where_in (Since first) version (signed w32) other self.old.rest.now
            ≡ Err fault) }
    {
        if version.number < first {
            return Ok(other);
        }
        self.int32()
    }

    /// An INT64 that versions from `first` on have; before, it is `other`.
    ///
    /// # Errors
    ///
    /// [`KafkaFault::Short`], [`KafkaFault::Field`].
    pub fn int64_since(
        &mut self,
        version: Version,
        first: u16,
        other: i64,
    ) -> Result<i64, KafkaFault>
        ensures { MatchResult result
            (λ x. where_in (Since first) version (signed w64) other self.old.rest.now
            ≡ Ok (x, self.new.rest.now))
            (λ fault. where_in (Since first) version (signed w64) other self.old.rest.now
            ≡ Err fault) }
    {
        if version.number < first {
            return Ok(other);
        }
        self.int64()
    }

    /// A BOOLEAN that versions from `first` on have; before, it is `other`.
    ///
    /// # Errors
    ///
    /// [`KafkaFault::Short`], [`KafkaFault::Field`].
    pub fn boolean_since(
        &mut self,
        version: Version,
        first: u16,
        other: bool,
    ) -> Result<bool, KafkaFault>
        ensures { MatchResult result
            (λ x. where_in (Since first) version boolean other self.old.rest.now
            ≡ Ok (x, self.new.rest.now))
            (λ fault. where_in (Since first) version boolean other self.old.rest.now
            ≡ Err fault) }
    {
        if version.number < first {
            return Ok(other);
        }
        self.boolean()
    }

    /// A STRING that versions from `first` on have; before, it is `other`.
    ///
    /// # Errors
    ///
    /// [`KafkaFault::Short`], [`KafkaFault::Field`].
    pub fn text_since(
        &mut self,
        version: Version,
        first: u16,
        other: &'a [u8],
    ) -> Result<&'a [u8], KafkaFault>
        ensures { MatchResult result
            (λ x. where_in (Since first) version (counted version w16) other.entry.now self.old.rest.now
            ≡ Ok (x.now, self.new.rest.now))
            (λ fault. where_in (Since first) version (counted version w16) other.entry.now self.old.rest.now
            ≡ Err fault) }
    {
        if version.number < first {
            return Ok(other);
        }
        self.text(version)
    }

    /// A NULLABLE_STRING that versions from `first` on have; before, it is null.
    ///
    /// # Errors
    ///
    /// [`KafkaFault::Short`], [`KafkaFault::Field`].
    pub fn nullable_text_since(
        &mut self,
        version: Version,
        first: u16,
    ) -> Result<Option<&'a [u8]>, KafkaFault>
        ensures { MatchResult result
            (λ x. where_in (Since first) version (nullable version w16) None self.old.rest.now
            ≡ Ok (option_map (λ s. s.now) x, self.new.rest.now))
            (λ fault. where_in (Since first) version (nullable version w16) None
            self.old.rest.now ≡ Err fault) }
    {
        if version.number < first {
            return Ok(None);
        }
        self.nullable_text(version)
    }

    /// An INT64 that one version alone has; in any other it is `other`.
    ///
    /// # Errors
    ///
    /// [`KafkaFault::Short`] if fewer bytes are left.
    pub fn int64_only(&mut self, version: Version, only: u16, other: i64) -> Result<i64, KafkaFault>
        ensures { MatchResult result
            (λ x. where_in (Only only) version (signed w64) other self.old.rest.now
            ≡ Ok (x, self.new.rest.now))
            (λ fault. where_in (Only only) version (signed w64) other self.old.rest.now
            ≡ Err fault) }
    {
        if version.number != only {
            return Ok(other);
        }
        self.int64()
    }

    // A tagged field, which is skipped.
    #[tactic(auto, unfolding(crate::specs::Reading::tag_at))]
    fn tag(&mut self) -> Result<(), KafkaFault>
        ensures { MatchResult result
            (λ x. tag_at self.old.rest.now ≡ Ok (x, self.new.rest.now))
            (λ fault. tag_at self.old.rest.now ≡ Err fault) }
    {
        self.unsigned_varint()?;
        let size = self.unsigned_varint()?;
        self.take(size)?;
        Ok(())
    }

    // Tagged fields.
    #[tactic(auto, unfolding(crate::specs::Reading::tags_at))]
    fn tags(&mut self) -> Result<(), KafkaFault>
        ensures { MatchResult result
            (λ x. tags_at self.old.rest.now ≡ Ok (x, self.new.rest.now))
            (λ fault. tags_at self.old.rest.now ≡ Err fault) }
    {
        let count = self.unsigned_varint()?;
        for _ in 0..count {
            self.tag()?;
        }
        Ok(())
    }

    /// The end of a struct: in a flexible version its tagged fields, which are skipped.
    ///
    /// # Errors
    ///
    /// [`KafkaFault::Short`], [`KafkaFault::Field`].
    #[tactic(auto, unfolding(crate::specs::Reading::end_at))]
    pub fn end(&mut self, version: Version) -> Result<(), KafkaFault>
        ensures { MatchResult result
            (λ x. end_at version self.old.rest.now ≡ Ok (x, self.new.rest.now))
            (λ fault. end_at version self.old.rest.now ≡ Err fault) }
    {
        if version.flexible {
            return self.tags();
        }
        Ok(())
    }
}

impl<'a> Reading for FieldReader<'a> {
    ghost bytes = { λ reader. reader.rest.now };

    #[tactic(auto, unfolding(crate::specs::Reading::array_length))]
    fn array_len(&mut self, version: Version) -> Result<u32, KafkaFault> {
        self.long_length(version)?.ok_or(KafkaFault::Field)
    }

    #[tactic(auto, unfolding(crate::specs::Reading::nullable_length))]
    fn nullable_array_len(
        &mut self,
        version: Version,
        since: u16,
    ) -> Result<Option<u32>, KafkaFault> {
        match self.long_length(version)? {
            None if version.number < since => Err(KafkaFault::Field),
            count => Ok(count),
        }
    }
}

/// An INT32 that is alone an element of an array.
#[derive(Clone, Copy, Debug, PartialEq, Eq)]
pub struct Int32<'a> {
    /// The number.
    pub value: i32,
    from: PhantomData<&'a [u8]>,
}

impl<'a> Struct for Int32<'a> {
    type Reader = FieldReader<'a>;

    ghost use Rattle.kx_kafka_types.specs.Schema.{One, Int32};

    ghost fields = { One Int32 };

    ghost values = { λ it. it.value };

    fn read(reader: &mut FieldReader<'a>, _version: Version) -> Result<Self, KafkaFault> {
        let value = reader.int32()?;
        Ok(Int32 {
            value,
            from: PhantomData,
        })
    }
}
