//! The forms of a script's lines.
ghost use Rattle.std.specs.Prelude.{◌≡◌};
ghost use Rattle.kx_bad_line.specs.Forms as spells;

/// A form that a line of a script may have, as the rules have it.
#[derive(Clone, Copy)]
pub enum Form {
    /// `init N`
    Init,
    /// `begin N`
    Begin,
    /// `send N P W..`
    Send,
    /// `commit N`
    Commit,
    /// `abort N`
    Abort,
    /// `resend N`
    Resend,
    /// `poll N`
    Poll,
    /// `join N G`
    Join,
    /// `leave N`
    Leave,
    /// `offsets N Q O`
    Offsets,
    /// `client N TXN`
    Client,
    /// `processor N TXN G K`
    Processor,
    /// `put P W..`
    Put,
    /// `deliver K`
    Deliver,
    /// `expire T`
    Expire,
    /// `remind`
    Remind,
    /// `drop G M`
    Drop,
    /// `restart NODE`
    Restart,
    /// `world P`
    World,
    /// `fail NODE LEFT`
    Fail,
    /// `fetch P FROM MODE [MAX]`
    Fetch,
    /// `offset G Q MODE`
    Offset,
    /// `rows`
    Rows,
}

impl Form {
    /// How it is written.
    pub fn text(self) -> &'static str {
        match self {
            Form::Init => "init N",
            Form::Begin => "begin N",
            Form::Send => "send N P W..",
            Form::Commit => "commit N",
            Form::Abort => "abort N",
            Form::Resend => "resend N",
            Form::Poll => "poll N",
            Form::Join => "join N G",
            Form::Leave => "leave N",
            Form::Offsets => "offsets N Q O",
            Form::Client => "client N TXN",
            Form::Processor => "processor N TXN G K",
            Form::Put => "put P W..",
            Form::Deliver => "deliver K",
            Form::Expire => "expire T",
            Form::Remind => "remind",
            Form::Drop => "drop G M",
            Form::Restart => "restart NODE",
            Form::World => "world P",
            Form::Fail => "fail NODE LEFT",
            Form::Fetch => "fetch P FROM MODE [MAX]",
            Form::Offset => "offset G Q MODE",
            Form::Rows => "rows",
        }
    }

    /// Whether it has this many words after the first.
    pub fn fits(self, count: usize) -> bool
        ensures { result ≡ spells.fits self count }
    {
        match self {
            Form::Remind | Form::Rows => count == 0,
            Form::Init
            | Form::Begin
            | Form::Commit
            | Form::Abort
            | Form::Resend
            | Form::Poll
            | Form::Leave
            | Form::Deliver
            | Form::Expire
            | Form::Restart
            | Form::World => count == 1,
            Form::Join | Form::Client | Form::Drop | Form::Fail => count == 2,
            Form::Put => 2 <= count,
            Form::Offsets | Form::Offset => count == 3,
            Form::Fetch => count == 3 || count == 4,
            Form::Send => 3 <= count,
            Form::Processor => count == 4,
        }
    }
}

// The forms of commands of clients.
fn client_form(word: &[u8]) -> Option<Form>
    ensures { result ≡ spells.client_form word.now }
{
    if word == b"init".as_slice() {
        Some(Form::Init)
    } else if word == b"begin".as_slice() {
        Some(Form::Begin)
    } else if word == b"send".as_slice() {
        Some(Form::Send)
    } else if word == b"commit".as_slice() {
        Some(Form::Commit)
    } else if word == b"abort".as_slice() {
        Some(Form::Abort)
    } else if word == b"resend".as_slice() {
        Some(Form::Resend)
    } else if word == b"poll".as_slice() {
        Some(Form::Poll)
    } else if word == b"join".as_slice() {
        Some(Form::Join)
    } else if word == b"leave".as_slice() {
        Some(Form::Leave)
    } else if word == b"offsets".as_slice() {
        Some(Form::Offsets)
    } else {
        None
    }
}

// The forms of all other events.
fn event_form(word: &[u8]) -> Option<Form>
    ensures { result ≡ spells.event_form word.now }
{
    if word == b"client".as_slice() {
        Some(Form::Client)
    } else if word == b"processor".as_slice() {
        Some(Form::Processor)
    } else if word == b"put".as_slice() {
        Some(Form::Put)
    } else if word == b"deliver".as_slice() {
        Some(Form::Deliver)
    } else if word == b"expire".as_slice() {
        Some(Form::Expire)
    } else if word == b"remind".as_slice() {
        Some(Form::Remind)
    } else if word == b"drop".as_slice() {
        Some(Form::Drop)
    } else if word == b"restart".as_slice() {
        Some(Form::Restart)
    } else {
        None
    }
}

// The forms of lines that are no event.
fn order_form(word: &[u8]) -> Option<Form>
    ensures { result ≡ spells.order_form word.now }
{
    if word == b"world".as_slice() {
        Some(Form::World)
    } else if word == b"fail".as_slice() {
        Some(Form::Fail)
    } else if word == b"fetch".as_slice() {
        Some(Form::Fetch)
    } else if word == b"offset".as_slice() {
        Some(Form::Offset)
    } else if word == b"rows".as_slice() {
        Some(Form::Rows)
    } else {
        None
    }
}

/// The form of the lines that begin with this word, if there is one.
pub fn form_of(word: &[u8]) -> Option<Form>
    ensures { result ≡ spells.form_of word.now }
{
    if let Some(form) = client_form(word) {
        return Some(form);
    }
    match event_form(word) {
        Some(form) => Some(form),
        None => order_form(word),
    }
}
