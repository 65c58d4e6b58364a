//! Which records a fetch shows, and how many bytes of them.
ghost use Rattle.std.specs.Prelude.{◌≡◌};
ghost use Rattle.kx_text.specs.Mode.{is_committed, mode_of};

/// How many bytes a fetch shows if it doesn't say.
pub const DEFAULT_MAX: u32 = 1_048_588;

/// Which records a fetch shows.
#[derive(Clone, Copy, Debug, PartialEq, Eq)]
pub enum Mode {
    /// `all`: those of every batch but control batches.
    All,
    /// `committed`: those that a reader of committed records gets.
    Committed,
}

impl Mode {
    /// Whether only committed records are shown.
    pub fn is_committed(self) -> bool
        ensures { result ≡ is_committed self }
    {
        match self {
            Mode::All => false,
            Mode::Committed => true,
        }
    }
}

/// The mode of a fetch that a word names.
pub fn mode_of(word: &[u8]) -> Option<Mode>
    ensures { result ≡ mode_of word.now }
{
    if word == b"all".as_slice() {
        Some(Mode::All)
    } else if word == b"committed".as_slice() {
        Some(Mode::Committed)
    } else {
        None
    }
}
