//! What a list finds.
ghost use Rattle.std.specs.Prelude.{◌≡◌, ◌<◌, ◌++◌, ◌∷◌, ℕ, List, length};
ghost use Rattle.kx_folder.specs.Folder.{IsListed};
ghost use Rattle.kx_folder.specs.declared.file.ListedFile.{ListedFile as Listed};

/// A file with one other byte among those that its checksum is of isn't the one that is listed.
pub fn changed_first_bytes_are_found()
    ensures { (number : ℕ) (file : Listed) (before after : List ℕ) (byte other : ℕ)
        → length before < file.len → byte < 256 → other < 256
        → IsListed number (before ++ byte ∷ after) file
        → IsListed number (before ++ other ∷ after) file → byte ≡ other }
{}
