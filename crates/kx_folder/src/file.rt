//! A file that is listed, and its line.
ghost use Rattle.std.specs.Prelude.{◌≡◌, ◌++◌, IfOk, IfSome, MatchOption, MatchResult, take};
ghost use Rattle.std.specs.Option.{option_map};
ghost use Rattle.kx_folder.specs.Folder.{HasNoLine, IsListed, WhyNotListed, line_text};
ghost use Rattle.kx_folder.specs.Folder.{listed_as, most_first};
ghost use Rattle.kx_folder.specs.Internal.Parts.{HasLine, HasNoParts, HasParts};

use crate::digits::put_hex;
use crate::fault::FileFault;
use crate::name::FileName;
use hex::FromHex;
use kx_batch::crc32c;
use kx_varint::put_u64;
use std::alloc::{AllocError, Global};

/// A file that is listed: its name, and the checksum of its first bytes.
#[derive(Clone, Copy, Debug, PartialEq, Eq)]
pub struct ListedFile {
    /// Its name.
    pub name: FileName,
    /// How many bytes the checksum is of, from the first on: 4,096 at most, if a server wrote the line.
    pub len: u16,
    /// The CRC-32C of the folder's number as eight bytes, highest first, the name's eight bytes, and
    /// the file's first bytes (RFC 3720, appendix B.4).
    pub crc: u32,
}

// The checksum of a file's first bytes.
fn sum_of(alloc: Global, number: u64, name: FileName, first: &[u8]) -> Result<u32, AllocError>
    ensures { IfOk result (λ crc. crc ≡ (listed_as number name first.now).crc) }
{
    let mut bytes = Vec::with_capacity(alloc, 8 + FileName::SIZE + first.len())?;
    put_u64(&mut bytes, number)?;
    bytes.extend_from_slice(name.bytes())?;
    bytes.extend_from_slice(first)?;
    Ok(crc32c(bytes.as_slice()))
}

// The file whose line has these parts; None if its numbers aren't hexadecimal. What is between the
// parts isn't looked at.
fn in_line(line: &[u8; 22]) -> Option<ListedFile>
    ensures { MatchOption result (HasNoParts line.now) (HasParts line.now) }
{
    let len = <[u8; 2]>::from_hex(&line[8..12]).ok()?;
    let crc = <[u8; 4]>::from_hex(&line[13..21]).ok()?;
    let mut name = [b' '; 8];
    name.copy_from_slice(&line[..8]);
    Some(ListedFile {
        name: FileName::read(name),
        len: u16::from_be_bytes(len),
        crc: u32::from_be_bytes(crc),
    })
}

impl ListedFile {
    /// How many bytes a line has: eight of the name, four digits of the length and a space, eight of
    /// the checksum, and the end of the line.
    pub const LINE: usize = 22;

    /// The most bytes of a file that a server has a checksum of.
    pub const MOST_FIRST: usize = 4096;

    /// The file of this name with these bytes, in the folder of this number.
    ///
    /// # Errors
    ///
    /// Only if memory runs out.
    pub fn of(
        alloc: Global,
        number: u64,
        name: FileName,
        bytes: &[u8],
    ) -> Result<ListedFile, AllocError>
        ensures { IfOk result (λ file. file ≡ listed_as number name (take most_first bytes.now)) }
    {
        let len = bytes.len().min(ListedFile::MOST_FIRST);
        let first = &bytes[..len];
        Ok(ListedFile {
            name,
            len: len as u16,
            crc: sum_of(alloc, number, name, first)?,
        })
    }

    /// Its line.
    ///
    /// # Errors
    ///
    /// Only if memory runs out.
    pub fn line(self, alloc: Global) -> Result<Vec<u8>, AllocError>
        ensures { IfOk result (λ line. line.items ≡ line_text self) }
    {
        let mut line = Vec::with_capacity(alloc, ListedFile::LINE)?;
        line.extend_from_slice(self.name.bytes())?;
        put_hex(&mut line, &self.len.to_be_bytes())?;
        line.push(b' ')?;
        put_hex(&mut line, &self.crc.to_be_bytes())?;
        line.push(b'\n')?;
        Ok(line)
    }

    /// The file of the line at the front; None if no line is there.
    ///
    /// # Errors
    ///
    /// Only if memory runs out.
    pub(crate) fn read(alloc: Global, text: &[u8]) -> Result<Option<ListedFile>, AllocError>
        ensures { IfOk result (λ it. MatchOption it (HasNoLine text.now) (HasLine text.now)) }
    {
        let Some(line) = text.first_chunk::<22>() else {
            return Ok(None);
        };
        let Some(file) = in_line(line) else {
            return Ok(None);
        };
        if file.line(alloc)?.as_slice() != line.as_slice() {
            return Ok(None);
        }
        Ok(Some(file))
    }

    /// Compares with it the bytes at the front of what was found under its name, if anything was, in
    /// the folder of this number. Bytes after those that are listed aren't looked at.
    ///
    /// # Errors
    ///
    /// As [`FileFault`] has them.
    pub fn check(self, alloc: Global, number: u64, found: Option<&[u8]>) -> Result<(), FileFault>
        ensures { MatchResult result
            (λ done. IfSome found.entry (λ bytes. IsListed number bytes.now self))
            (WhyNotListed number (option_map (λ bytes. bytes.now) found.entry) self) }
    {
        let bytes = found.ok_or(FileFault::Missing)?;
        let Some(first) = bytes.get(..usize::from(self.len)) else {
            return Err(FileFault::Short(self.len));
        };
        if sum_of(alloc, number, self.name, first)? != self.crc {
            return Err(FileFault::Other(self.len));
        }
        Ok(())
    }
}
