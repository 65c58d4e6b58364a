//! Names of files, as lines have them.
ghost use Rattle.std.specs.Prelude.{◌≡◌};
ghost use Rattle.kx_folder.specs.Folder.{padded};

use std::marker::Model;

/// The name of a file, in eight bytes: the name, and then spaces.
#[derive(Clone, Copy, Debug, PartialEq, Eq)]
pub struct FileName([u8; 8]);

impl Model for FileName {
    ghost use Rattle.std.specs.Prelude.{ℕ, List, ◌≡◌, length};

    ghost Value = { List ℕ };

    ghost view = { λ name. name.0 };

    ghost invariant = { λ name. length name.0 ≡ 8 };

    ghost inverse = { λ bytes. record { 0 = bytes } };
}

impl FileName {
    /// How many bytes a line has for a name.
    pub const SIZE: usize = 8;

    /// The first eight bytes of a name, with spaces after it if it has fewer.
    pub fn of(name: &str) -> FileName
        ensures { result ≡ padded name.now }
    {
        let mut bytes = [b' '; 8];
        let len = name.len().min(FileName::SIZE);
        bytes[..len].copy_from_slice(&name.as_bytes()[..len]);
        FileName(bytes)
    }

    // The name at the front of a line.
    pub(crate) fn read(bytes: [u8; 8]) -> FileName
        ensures { result ≡ bytes }
    {
        FileName(bytes)
    }

    /// The eight bytes.
    pub(crate) fn bytes(&self) -> &[u8; 8]
        ensures { result.now ≡ self.now }
    {
        &self.0
    }
}
