//! Who adds lines of a file to the list.
ghost use Rattle.std.specs.Prelude.{◌≡◌, IfOk, OnOk};
ghost use Rattle.kx_folder.specs.Listing.{Lists};

use crate::file::ListedFile;
use crate::name::FileName;
use std::alloc::Global;
use std::fs::{File, Files, OpenOptions};
use std::io;
use std::io::Write;
use std::marker::Model;

/// The list's file, in the folder.
pub const LIST: &str = "folder";

/// The end of a folder's list, to which lines of one file are added.
#[derive(Drop)]
pub struct Lister<W: Write + Drop = File> {
    writer: W,
    alloc: Global,
    number: u64,
    name: FileName,
}

impl<W: Write + Drop> Model for Lister<W> {
    ghost use Rattle.kx_folder.specs.Listing.{ListState};

    ghost Value = { ListState };

    ghost view = { λ list. record {
      number = list.number;
      name = list.name;
      contents = W.contents list.writer;
    } };
}

impl Lister<File> {
    /// Adds lines of the file of this name to the list in the file `folder` of this folder, which has this
    /// number. Its memory is taken from the runtime's allocator.
    ///
    /// # Errors
    ///
    /// If there is no list, or it can't be opened.
    pub fn in_folder<R: Files<File = File> + AllocGlobal>(
        rt: &R,
        dir: &str,
        number: u64,
        name: FileName,
    ) -> io::Result<Lister<File>>
        ensures { IfOk result (λ list. (list.number ≡ number) × (list.name ≡ name)) }
    {
        let path = format!(in rt.alloc(); "{dir}/{LIST}")?;
        let writer = OpenOptions::new().append(true).open(rt, path.as_str())?;
        Ok(Lister::new(rt.alloc(), writer, number, name))
    }
}

impl<W: Write + Drop> Lister<W> {
    /// Adds lines of the file of this name to the list that the writer has, of the folder of this number.
    pub fn new(alloc: Global, writer: W, number: u64, name: FileName) -> Lister<W>
        ensures { result ≡ record { number = number; name = name; contents = W.contents writer } }
    {
        Lister {
            writer,
            alloc,
            number,
            name,
        }
    }

    /// Adds a line of the file, which begins with these bytes. The device needn't have the line when this
    /// returns.
    ///
    /// # Errors
    ///
    /// If the line can't be written; a part of it, from its front, may then be there.
    pub fn list(&mut self, bytes: &[u8]) -> io::Result<()>
        ensures listed { OnOk result (Lists bytes.now self.old self.new) }
        ensures number { self.new.number ≡ self.old.number }
        ensures name { self.new.name ≡ self.old.name }
    {
        let file = ListedFile::of(self.alloc, self.number, self.name, bytes)?;
        self.writer.write_all(file.line(self.alloc)?.as_slice())
    }
}
