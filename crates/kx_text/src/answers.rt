//! What is printed of a put and of a refusal.
ghost use Rattle.std.specs.Prelude.{OnOk};
ghost use Rattle.std.specs.Io.KnownBytes.{Appends};
ghost use Rattle.kx_text.specs.Pages.{answer_text, offset_text, refused_text};

use kx_message::ErrorCode;
use kx_partition::Produced;
use std::io;
use std::io::Write;

/// Writes what a refusal is answered.
pub fn write_refusal<W: Write>(writer: &mut W, code: ErrorCode) -> io::Result<()>
    ensures { OnOk result (Appends (W.contents writer.old) (W.contents writer.new)
        (refused_text code)) }
{
    writeln!(writer, "refused {code}")
}

// Writes where a batch begins.
fn write_offset<W: Write>(writer: &mut W, offset: i64) -> io::Result<()>
    ensures { OnOk result (Appends (W.contents writer.old) (W.contents writer.new)
        (offset_text offset)) }
{
    writeln!(writer, "offset {offset}")
}

/// Writes what a batch is answered.
pub fn write_answer<W: Write>(writer: &mut W, answer: Produced) -> io::Result<()>
    ensures { OnOk result (Appends (W.contents writer.old) (W.contents writer.new)
        (answer_text answer)) }
{
    match answer {
        Produced::Appended(offset) => write_offset(writer, offset),
        Produced::Duplicate(offset) => write_offset(writer, offset),
        Produced::Unverified => write_refusal(writer, ErrorCode::InvalidTxnState),
        Produced::Refused(code) => write_refusal(writer, code),
    }
}
