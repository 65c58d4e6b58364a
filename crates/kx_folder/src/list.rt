//! The list as a text.
ghost use Rattle.std.specs.Prelude.{◌≡◌, ◌++◌, IfOk, List, MatchOption, MatchResult, drop, take};
ghost use Rattle.std.specs.Result.{IsErr};
ghost use Rattle.hex.specs.Hex.{decode_sized};
ghost use Rattle.kx_folder.specs.Folder.{HasNoHead, HasNoLine, IsListIn, WhyNoList, has_name, has_text, head_text, is_unwritten};
ghost use Rattle.kx_folder.specs.Folder.{lines_text};
ghost use Rattle.kx_folder.specs.Internal.Parts.{HasNumber};
ghost use Rattle.kx_folder.specs.declared.file.ListedFile.{ListedFile as Listed};

use crate::digits::put_hex;
use crate::fault::ListFault;
use crate::file::ListedFile;
use crate::name::FileName;
use hex::FromHex;
use std::alloc::{AllocError, Global};

/// The files of a folder that are listed.
#[derive(Debug, Drop)]
pub struct FolderList {
    /// The folder's number, which was drawn as the list was made.
    pub number: u64,
    /// The files, in the order in which they were listed.
    pub files: Vec<ListedFile>,
    /// How many bytes the whole lines take.
    pub len: usize,
}

impl FolderList {
    /// Whether a file of this name is listed.
    pub fn has(&self, name: FileName) -> bool
        ensures { result ≡ has_name name self.now.files.items }
    {
        self.files.iter().any(|file| file.name == name)
    }
}

// How many bytes the first line has: a word in eight bytes, sixteen digits, and the end of the line.
const HEAD: usize = 25;

/// The first line of the list of a folder with this number.
///
/// # Errors
///
/// Only if memory runs out.
pub fn head_text(alloc: Global, number: u64) -> Result<Vec<u8>, AllocError>
    ensures { IfOk result (λ line. line.items ≡ head_text number) }
{
    let mut line = Vec::with_capacity(alloc, HEAD)?;
    line.extend_from_slice(b"folder  ")?;
    put_hex(&mut line, &number.to_be_bytes())?;
    line.push(b'\n')?;
    Ok(line)
}

// The number that a first line has at its place; None if that isn't hexadecimal.
fn number_in(line: &[u8; 25]) -> Option<u64>
    ensures { MatchOption result (IsErr (decode_sized (take 16 (drop 8 line.now)) 8))
        (HasNumber line.now) }
{
    let number = <[u8; 8]>::from_hex(&line[8..24]).ok()?;
    Some(u64::from_be_bytes(number))
}

// The folder's number by the first line, and the bytes after it; None if no first line is there.
fn read_head(alloc: Global, text: &[u8]) -> Result<Option<(u64, &[u8])>, AllocError>
    ensures { IfOk result (λ it. MatchOption it (HasNoHead text.now)
        (λ head. text.now ≡ head_text head.0 ++ head.1.now)) }
{
    let Some((line, rest)) = text.split_first_chunk::<25>() else {
        return Ok(None);
    };
    let Some(number) = number_in(line) else {
        return Ok(None);
    };
    if head_text(alloc, number)?.as_slice() != line.as_slice() {
        return Ok(None);
    }
    Ok(Some((number, rest)))
}

// Puts the files of the lines at the front after those that were read, and returns the bytes after
// the lines, at which none begins.
fn read_lines<'a>(
    alloc: Global,
    files: &mut Vec<ListedFile>,
    text: &'a [u8],
) -> Result<&'a [u8], AllocError>
    ensures { IfOk result (λ rest. HasNoLine rest.now × ((lines : List Listed)
        × (files.new.items ≡ files.old.items ++ lines) × (text.now ≡ lines_text lines ++ rest.now))) }
{
    let mut rest = text;
    loop {
        let Some(file) = ListedFile::read(alloc, rest)? else {
            return Ok(rest);
        };
        files.push(file)?;
        rest = &rest[ListedFile::LINE..];
    }
}

// Whether one of the bytes isn't zero.
fn has_text(bytes: &[u8]) -> bool
    ensures { result ≡ has_text bytes.now }
{
    bytes.iter().any(|byte| *byte != 0)
}

// Whether bytes at the end count for nothing, as a crash leaves them: less than a line, or zeros.
fn is_unwritten(rest: &[u8]) -> bool
    ensures { result ≡ is_unwritten rest.now }
{
    rest.len() < ListedFile::LINE || !has_text(rest)
}

/// The list that this text is. What a crash left at the end counts for nothing: fewer bytes than a line
/// has, or zeros.
///
/// # Errors
///
/// As [`ListFault`] has them: at the first line that is whole and isn't right.
pub fn read_list(alloc: Global, text: &[u8]) -> Result<FolderList, ListFault>
    ensures { MatchResult result (IsListIn text.now) (WhyNoList text.now) }
{
    if text.len() < HEAD {
        return Err(ListFault::Torn);
    }
    let Some((number, lines)) = read_head(alloc, text)? else {
        return Err(ListFault::Damaged(1));
    };
    let mut files = Vec::new(alloc);
    let rest = read_lines(alloc, &mut files, lines)?;
    if !is_unwritten(rest) {
        return Err(ListFault::Damaged(files.len() as u64 + 2));
    }
    Ok(FolderList {
        number,
        len: text.len() - rest.len(),
        files,
    })
}
