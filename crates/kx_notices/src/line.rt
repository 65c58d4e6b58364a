//! The line of a notice.
ghost use Rattle.std.specs.Prelude.{◌≡◌, ◌++◌, ◌<◌, IfOk, OnOk};
ghost use Rattle.kx_notices.specs.Texts.{EachIsOneLine, IsLineOf, IsOneLine, api_text};
ghost use Rattle.kx_notices.specs.Texts.{client_text, closed_text, connection_text, date_text};
ghost use Rattle.kx_notices.specs.Texts.{hours_text, made_text, not_made_text, opened_text};
ghost use Rattle.kx_notices.specs.Texts.{range_text, seconds_text, text_of, topic_text};
ghost use Rattle.kx_notices.specs.Texts.{unserved_text, version_text};

use crate::closing::Closing;
use crate::moment::{Date, date_of};
use crate::notice::{Notice, TopicRefusal, Unserved};
use crate::said::Said;
use crate::text::{
    put, put_count, put_escaped, put_number, put_quoted, put_signed, put_three, put_two,
};
use std::alloc::{AllocError, Global};

// The last millisecond of the year 9999.
const LATEST: u64 = 253_402_300_799_999;

const DAY: u64 = 86_400_000;

const HOUR: u64 = 3_600_000;

const MINUTE: u64 = 60_000;

const SECOND: u64 = 1000;

// A date.
fn put_date(out: &mut Vec<u8>, date: Date) -> Result<(), AllocError>
    requires month { date.month < 100 }
    requires day { date.day < 100 }
    ensures { OnOk result (out.new.items ≡ out.old.items ++ date_text date) }
{
    put_number(out, date.year)?;
    put(out, "-")?;
    put_two(out, date.month)?;
    put(out, "-")?;
    put_two(out, date.day)
}

// The hours and minutes of a time of a day, in milliseconds.
fn put_hours(out: &mut Vec<u8>, milli: u64) -> Result<(), AllocError>
    requires { milli < 86400000 }
    ensures { OnOk result (out.new.items ≡ out.old.items ++ hours_text milli) }
{
    put(out, "T")?;
    put_two(out, milli / HOUR)?;
    put(out, ":")?;
    put_two(out, milli / MINUTE % 60)
}

// Its seconds.
fn put_seconds(out: &mut Vec<u8>, milli: u64) -> Result<(), AllocError>
    ensures { OnOk result (out.new.items ≡ out.old.items ++ seconds_text milli) }
{
    put(out, ":")?;
    put_two(out, milli / SECOND % 60)?;
    put(out, ".")?;
    put_three(out, milli % SECOND)?;
    put(out, "Z")
}

// Which versions are served.
fn put_range(out: &mut Vec<u8>, least: i16, greatest: i16) -> Result<(), AllocError>
    ensures { OnOk result (out.new.items ≡ out.old.items ++ range_text least greatest) }
{
    put_signed(out, least)?;
    put(out, " to ")?;
    put_signed(out, greatest)?;
    put(out, " is")
}

// An API that isn't served.
fn put_api(out: &mut Vec<u8>, key: i16) -> Result<(), AllocError>
    ensures { OnOk result (out.new.items ≡ out.old.items ++ api_text key) }
{
    put(out, "API ")?;
    put_signed(out, key)?;
    put(out, " isn't served")
}

// A version of an API that isn't served, and which are.
fn put_version(
    out: &mut Vec<u8>,
    api: &Said,
    version: i16,
    least: i16,
    greatest: i16,
) -> Result<(), AllocError>
    ensures { OnOk result (out.new.items ≡ out.old.items
        ++ version_text api.now version least greatest) }
{
    put_escaped(out, api.bytes.as_slice())?;
    put(out, " version ")?;
    put_signed(out, version)?;
    put(out, " isn't served, ")?;
    put_range(out, least, greatest)
}

// What isn't served.
fn put_unserved(out: &mut Vec<u8>, asked: &Unserved) -> Result<(), AllocError>
    ensures { OnOk result (out.new.items ≡ out.old.items ++ unserved_text asked.now) }
{
    match asked {
        Unserved::Api { key } => put_api(out, *key),
        Unserved::Version {
            api,
            version,
            least,
            greatest,
        } => put_version(out, api, *version, *least, *greatest),
    }
}

// The number of a connection.
fn put_connection(out: &mut Vec<u8>, number: u64) -> Result<(), AllocError>
    ensures { OnOk result (out.new.items ≡ out.old.items ++ connection_text number) }
{
    put(out, "connection ")?;
    put_number(out, number)
}

// A client, by its connection and its name.
fn put_client(out: &mut Vec<u8>, connection: u64, client: &Said) -> Result<(), AllocError>
    ensures { OnOk result (out.new.items ≡ out.old.items ++ client_text connection client.now) }
{
    put_connection(out, connection)?;
    put(out, ": client ")?;
    put_quoted(out, client)?;
    put(out, ": ")
}

// A topic, by its name.
fn put_topic(out: &mut Vec<u8>, topic: &Said) -> Result<(), AllocError>
    ensures { OnOk result (out.new.items ≡ out.old.items ++ topic_text topic.now) }
{
    put(out, "topic ")?;
    put_quoted(out, topic)
}

// A connection that is served from now on.
fn put_opened(out: &mut Vec<u8>, connection: u64, from: &Said) -> Result<(), AllocError>
    ensures { OnOk result (out.new.items ≡ out.old.items ++ opened_text connection from.now) }
{
    put_connection(out, connection)?;
    put(out, " from ")?;
    put_escaped(out, from.bytes.as_slice())?;
    put(out, " opened")
}

// A connection that closes.
fn put_closed(out: &mut Vec<u8>, connection: u64, why: Closing) -> Result<(), AllocError>
    ensures { OnOk result (out.new.items ≡ out.old.items ++ closed_text connection why) }
{
    put_connection(out, connection)?;
    put(out, " closed: ")?;
    put(out, why.words())
}

// A topic that is made.
fn put_made(out: &mut Vec<u8>, topic: &Said, partitions: u64) -> Result<(), AllocError>
    ensures { OnOk result (out.new.items ≡ out.old.items ++ made_text topic.now partitions) }
{
    put_topic(out, topic)?;
    put(out, " made, ")?;
    put_count(out, partitions, " partition", " partitions")
}

// A topic that isn't made.
fn put_not_made(out: &mut Vec<u8>, topic: &Said, why: TopicRefusal) -> Result<(), AllocError>
    ensures { OnOk result (out.new.items ≡ out.old.items ++ not_made_text topic.now why) }
{
    put_topic(out, topic)?;
    put(out, " not made: ")?;
    put(out, why.words())
}

// What a notice says.
fn put_notice(out: &mut Vec<u8>, notice: &Notice) -> Result<(), AllocError>
    ensures { OnOk result (out.new.items ≡ out.old.items ++ text_of notice.now) }
{
    match notice {
        Notice::Opened { connection, from } => put_opened(out, *connection, from),
        Notice::Closed { connection, why } => put_closed(out, *connection, *why),
        Notice::NotServed {
            connection,
            client,
            asked,
        } => {
            put_client(out, *connection, client)?;
            put_unserved(out, asked)
        }
        Notice::TopicMade { topic, partitions } => put_made(out, topic, u64::from(*partitions)),
        Notice::TopicNotMade { topic, why } => put_not_made(out, topic, *why),
        Notice::RanOut { what } => put(out, what.words()),
        Notice::LeftOut { lines } => put_count(out, *lines, " line left out", " lines left out"),
    }
}

// The text of a line.
fn written(alloc: Global, time: u64, notice: &Notice) -> Result<Vec<u8>, AllocError>
    ensures { IfOk result (λ line. IsLineOf time notice.now line.items) }
{
    let time = time.min(LATEST);
    let mut out = Vec::new(alloc);
    put_date(&mut out, date_of(time / DAY))?;
    put_hours(&mut out, time % DAY)?;
    put_seconds(&mut out, time % DAY)?;
    put(&mut out, " ")?;
    put_notice(&mut out, notice)?;
    put(&mut out, "\n")?;
    Ok(out)
}

/// The line of a notice at a time, in milliseconds since 1970; later than the year 9999 is its last
/// millisecond. The time comes first, in UTC (ISO 8601). What a client said is escaped: the line has
/// one line feed, at its end, and else printable ASCII.
///
/// # Errors
///
/// Only if memory runs out.
pub fn line_of(alloc: Global, time: u64, notice: &Notice) -> Result<Vec<u8>, AllocError>
    ensures text { IfOk result (λ line. IsLineOf time notice.now line.items) }
    ensures one { IfOk result (λ line. IsOneLine line.items) }
{
    written(alloc, time, notice)
}

/// The line of a notice is one line, whatever a client sent.
pub fn one_notice_is_one_line()
    ensures { EachIsOneLine }
{}
