//! Why a connection closes.
ghost use Rattle.std.specs.Prelude.{◌≡◌};
ghost use Rattle.kx_notices.specs.Texts.{closing_words};

/// Why a connection closes.
#[derive(Clone, Copy, Debug, PartialEq, Eq)]
pub enum Closing {
    /// The client closed it, or it was cut.
    Client,
    /// Bytes came that are no frame, or a frame that is too long.
    Frame,
    /// A request can't be read, or is none that clients send.
    Request,
    /// A request to an API or in a version that isn't served.
    NotServed,
    /// A batch was refused whose client wants no answer, and learns of it by this.
    Batch,
    /// A request can't be answered: memory ran out, or the node gave no answer in time.
    Unanswered,
    /// An answer can't be written.
    Unwritten,
    /// Too many bytes wait to be written to it.
    Slow,
    /// Its client has sent nothing for too long.
    Idle,
    /// It would speak for too many clients.
    Crowded,
    /// As many connections are served as may be.
    Full,
    /// There is no memory for it, or no number for its client.
    Memory,
}

impl Closing {
    /// Why, in words.
    pub(crate) fn words(self) -> &'static str
        ensures { result.now ≡ closing_words self }
    {
        match self {
            Closing::Client => "by the client",
            Closing::Frame => "its frame is too long, or is none",
            Closing::Request => "its request can't be read",
            Closing::NotServed => "its request isn't served",
            Closing::Batch => "its batch is refused, and it wants no answer",
            Closing::Unanswered => "its request can't be answered",
            Closing::Unwritten => "an answer can't be written",
            Closing::Slow => "too many answers wait for it",
            Closing::Idle => "nothing came for too long",
            Closing::Crowded => "it speaks for too many clients",
            Closing::Full => "too many connections are open",
            Closing::Memory => "out of memory, or of numbers for clients",
        }
    }
}
