//! Doing what the words of a command line ask for.
ghost use Rattle.std.specs.Prelude.{◌≡◌, ◌⊎◌, IfErr, MatchResult, is_some, map, string_bytes};
ghost use Rattle.std.specs.Io.Buffered.{writer_contents};
ghost use Rattle.std.specs.Io.KnownBytes.{Keeps};
ghost use Rattle.std.specs.IoError.{error_kind};
ghost use Rattle.kx_program.specs.Asking.{EndsRefused};
ghost use Rattle.kx_program.specs.Endings.{ending_of_demo};
ghost use Rattle.kx_program.specs.Program.{Audits, DoesWords, IsWithoutWords, Performs, Plays};
ghost use Rattle.kx_program.specs.Program.{ServesAll};
ghost use Rattle.kx_server_audit.specs.Contents.{unknown};
ghost use Rattle.kx_server_audit.specs.Telling.{Tells};
ghost use Rattle.kx_text.specs.declared.program.Ending.TheVariants as ending;

use crate::asking::{Refusal, asked};
use crate::drawing::{draw_server, folders_of, sim_with};
use crate::kafka::kafka;
use crate::streams::{dump_read, failed, played_ending, usage_ending};
use crate::task::{Auditing, Demonstration, Task};
use crate::telling::{audit_ending, finds_folder, served_ending};
use kx_demo::DemoFault;
use kx_serve::{Folders, ServeOptions};
use kx_server_audit::{AuditFault, AuditOptions, audit_server};
use kx_text::Ending;
use std::alloc::Global;
use std::fs::{File, Files};
use std::io::{BufRead, BufWriter, ErrorKind, Write};
use std::net::{Net, TcpListener, TcpStream};
use std::random::RandomSource;
use std::sync::Wait;
use std::thread::Threads;
use std::time::Clock;
use std::{fs, io};

// Makes a file anew that is asked for. If that fails, a line on standard error says why.
fn created<R: Files<File = File> + AllocGlobal, E: Write>(
    rt: &R,
    path: Option<&str>,
    errors: &mut E,
) -> Result<Option<BufWriter<File>>, Ending>
    ensures { IfErr result (λ how. how ≡ ending.Failed) }
{
    let Some(path) = path else {
        return Ok(None);
    };
    let file = match File::create(rt, path) {
        Ok(file) => file,
        Err(error) => return Err(failed(errors, format_args!("{path}: {error}"))),
    };
    match BufWriter::new(rt.alloc(), file) {
        Ok(writer) => Ok(Some(writer)),
        Err(_) => Err(failed(errors, DemoFault::Memory)),
    }
}

// Writes what is left of a file that was asked for, and says whether all of it was written. If not,
// a line on standard error says why.
fn finished<E: Write>(path: Option<&str>, file: Option<BufWriter<File>>, errors: &mut E) -> bool {
    let (Some(path), Some(mut file)) = (path, file) else {
        return true;
    };
    match file.flush() {
        Ok(()) => true,
        Err(error) => {
            let _ = failed(errors, format_args!("{path}: {error}"));
            false
        }
    }
}

// The file that a fault is about, if it is about one.
fn file_of<'a>(asked: &Demonstration<'a>, fault: DemoFault) -> Option<&'a str> {
    match fault {
        DemoFault::Trace => asked.trace,
        DemoFault::Page => asked.page,
        _ => None,
    }
}

// How the program ends when a demonstration has ended, whose files were written.
fn demo_ending<E: Write>(
    asked: &Demonstration<'_>,
    played: Result<bool, DemoFault>,
    errors: &mut E,
) -> Ending
    ensures { result ≡ ending_of_demo played }
{
    let Err(fault) = played else {
        return played_ending(played, errors);
    };
    match file_of(asked, fault) {
        Some(path) => failed(errors, format_args!("{path}: {fault}")),
        None => played_ending(played, errors),
    }
}

// Plays the demonstration, and writes what happened into these files.
fn demo_with<
    R: Net<Listener = TcpListener, Stream = TcpStream>
        + AllocGlobal
        + Eprint
        + Threads
        + Wait
        + Clock
        + Copy
        + Send
        + Sync
        + Drop
        + 'static,
    O: Write,
    E: Write,
>(
    rt: &R,
    asked: &Demonstration<'_>,
    trace: Option<BufWriter<File>>,
    page: Option<BufWriter<File>>,
    out: &mut O,
    errors: &mut E,
) -> Ending
    ensures { Plays (O.contents out.old) (O.contents out.new) result }
{
    let (mut trace, mut page) = (trace, page);
    let played = kx_demo::demo(*rt, &asked.options, out, trace.as_mut(), page.as_mut());
    let traced = finished(asked.trace, trace, errors);
    let drawn = finished(asked.page, page, errors);
    if !traced || !drawn {
        return Ending::Failed;
    }
    demo_ending(asked, played, errors)
}

// Plays the demonstration.
fn demo<
    R: Files<File = File>
        + Net<Listener = TcpListener, Stream = TcpStream>
        + AllocGlobal
        + Eprint
        + Threads
        + Wait
        + Clock
        + Copy
        + Send
        + Sync
        + Drop
        + 'static,
    O: Write,
    E: Write,
>(rt: &R, asked: &Demonstration<'_>, out: &mut O, errors: &mut E) -> Ending
    ensures { Plays (O.contents out.old) (O.contents out.new) result }
{
    let trace = match created(rt, asked.trace, errors) {
        Ok(trace) => trace,
        Err(ending) => return ending,
    };
    match created(rt, asked.page, errors) {
        Ok(page) => demo_with(rt, asked, trace, page, out, errors),
        Err(ending) => ending,
    }
}

// Flushes what was written by a program that ends so; if that fails, it failed.
fn flushed<O: Write, E: Write>(how: Ending, out: &mut O, errors: &mut E) -> Ending
    ensures keeps { Keeps (O.contents out.old) (O.contents out.new) }
    ensures ends { (result ≡ ending.Failed) ⊎ (result ≡ how) }
{
    match out.flush() {
        Ok(()) => how,
        Err(_) => failed(errors, DemoFault::Write),
    }
}

// Audits what a server left in its folders.
fn audit_folders<R: Files<File = File> + AllocGlobal + Eprint, O: Write>(
    rt: &R,
    asked: &Auditing<'_>,
    out: &mut O,
) -> Result<bool, AuditFault>
    ensures { Tells unknown (is_some asked.now.logs) (O.contents out.old) (O.contents out.new)
        result }
{
    let options = AuditOptions {
        compares_logs: asked.logs.is_some(),
        tells_progress: asked.tells_progress,
    };
    audit_server(rt, &folders_of(rt, asked), options, out)
}

// Audits a server that ran, and draws its steps.
fn audit_and_draw<R: Files<File = File> + AllocGlobal + Eprint, O: Write, E: Write>(
    rt: &R,
    asked: &Auditing<'_>,
    path: &str,
    out: &mut O,
    errors: &mut E,
) -> Ending
    ensures { Audits (is_some asked.now.logs) (O.contents out.old) (O.contents out.new) result }
{
    let audited = audit_folders(rt, asked, out);
    if audited.is_ok() && !draw_server(rt, asked, path, errors) {
        return Ending::Failed;
    }
    audit_ending(rt, asked, audited, errors)
}

// Audits a server whose logs are there, if they are to be compared.
fn audit_left<R: Files<File = File> + AllocGlobal + Eprint, O: Write, E: Write>(
    rt: &R,
    asked: &Auditing<'_>,
    out: &mut O,
    errors: &mut E,
) -> Ending
    ensures { Audits (is_some asked.now.logs) (O.contents out.old) (O.contents out.new) result }
{
    if let Some(path) = asked.page {
        return audit_and_draw(rt, asked, path, out, errors);
    }
    let audited = audit_folders(rt, asked, out);
    audit_ending(rt, asked, audited, errors)
}

// Audits a server that ran.
fn audit<R: Files<File = File> + AllocGlobal + Eprint, O: Write, E: Write>(
    rt: &R,
    asked: &Auditing<'_>,
    out: &mut O,
    errors: &mut E,
) -> Ending
    ensures { Audits (is_some asked.now.logs) (O.contents out.old) (O.contents out.new) result }
{
    if let Some(folder) = asked.logs {
        if !finds_folder(rt, folder, errors) {
            return Ending::Failed;
        }
    }
    audit_left(rt, asked, out, errors)
}

// Serves clients.
fn serve<
    R: Files<File = File>
        + Net<Listener = TcpListener, Stream = TcpStream>
        + AllocGlobal
        + Eprint
        + Threads
        + Wait
        + Clock
        + RandomSource
        + Copy
        + Send
        + Sync
        + Drop
        + 'static,
    O: Write,
    E: Write,
>(rt: &R, options: &ServeOptions<'_>, out: &mut O, errors: &mut E) -> Ending
    ensures { ServesAll options.now.connections (O.contents out.old) (O.contents out.new) result }
{
    let folders = Folders {
        logs: options.dir,
        traces: options.traces,
    };
    let served = kx_serve::serve(*rt, options, out);
    served_ending(rt, folders, served, errors)
}

// Does what is asked for.
fn perform<
    R: Files<File = File>
        + Net<Listener = TcpListener, Stream = TcpStream>
        + AllocGlobal
        + Eprint
        + Threads
        + Wait
        + Clock
        + RandomSource
        + Copy
        + Send
        + Sync
        + Drop
        + 'static,
    I: BufRead,
    O: Write + Drop,
    E: Write,
>(rt: &R, task: &Task<'_>, input: &mut I, out: &mut BufWriter<O>, errors: &mut E) -> Ending
    ensures { Performs (I.remaining input.old) (writer_contents O.contents out.old)
        (writer_contents O.contents out.new) task.now result }
{
    match task {
        Task::Sim(asked) => sim_with(rt, *asked, input, out, errors),
        Task::Dump(path) => dump_read(rt.alloc(), path, fs::read(rt, *path), out, errors),
        Task::Serve(options) => serve(rt, options, out, errors),
        Task::Kafka(asked) => kafka(rt, asked, out, errors),
        Task::Demo(asked) => {
            let ending = demo(rt, asked, out, errors);
            flushed(ending, out, errors)
        }
        Task::Audit(asked) => {
            let ending = audit(rt, asked, out, errors);
            flushed(ending, out, errors)
        }
    }
}

// How the program ends if its words can't be had; those that aren't text are wrong.
fn no_words<E: Write>(error: io::Error, errors: &mut E) -> Ending
    ensures { IsWithoutWords (error_kind error) result }
{
    if error.kind() == ErrorKind::InvalidData {
        let _ = writeln!(errors, "kx: an argument is not text");
        return Ending::WrongArguments;
    }
    failed(errors, error)
}

// How the program ends if its words ask for nothing.
fn refuse<O: Write, E: Write>(why: &Refusal, out: &mut O, errors: &mut E) -> Ending
    ensures { EndsRefused why.now result }
{
    match why {
        Refusal::Usage(error) => usage_ending(error, out, errors),
        Refusal::Nothing => {
            let _ = writeln!(errors, "kx: the arguments are wrong");
            Ending::WrongArguments
        }
        Refusal::Memory => failed(errors, "out of memory"),
    }
}

// Does what the words ask for.
fn do_words<
    R: Files<File = File>
        + Net<Listener = TcpListener, Stream = TcpStream>
        + AllocGlobal
        + Eprint
        + Threads
        + Wait
        + Clock
        + RandomSource
        + Copy
        + Send
        + Sync
        + Drop
        + 'static,
    I: BufRead,
    O: Write + Drop,
    E: Write,
>(
    rt: &R,
    words: &[String],
    is_watched: bool,
    input: &mut I,
    out: &mut BufWriter<O>,
    errors: &mut E,
) -> Ending
    ensures { DoesWords (map string_bytes words.now) is_watched (I.remaining input.old)
        (writer_contents O.contents out.old) (writer_contents O.contents out.new) result }
{
    match asked(rt.alloc(), words, is_watched) {
        Ok(task) => perform(rt, &task, input, out, errors),
        Err(why) => refuse(&why, out, errors),
    }
}

/// Does what the words of a command line ask for, of which the first is the program's name, and
/// says how the program ends. `is_watched` says whether somebody watches standard error.
///
/// Words that ask for nothing that it does end it with `WrongArguments`, and standard error has
/// words on them. Faults of reading, writing, files and the network end it with `Failed`, and one
/// line on standard error.
pub fn run<
    R: Files<File = File>
        + Net<Listener = TcpListener, Stream = TcpStream>
        + AllocGlobal
        + Eprint
        + Threads
        + Wait
        + Clock
        + RandomSource
        + Copy
        + Send
        + Sync
        + Drop
        + 'static,
    I: BufRead,
    O: Write + Drop,
    E: Write,
>(
    rt: &R,
    words: io::Result<Vec<String>>,
    is_watched: bool,
    input: &mut I,
    out: &mut BufWriter<O>,
    errors: &mut E,
) -> Ending
    ensures { MatchResult words
        (λ given. DoesWords (map string_bytes given.items) is_watched (I.remaining input.old)
        (writer_contents O.contents out.old) (writer_contents O.contents out.new) result)
        (λ error. IsWithoutWords (error_kind error) result) }
{
    match words {
        Ok(words) => do_words(rt, words.as_slice(), is_watched, input, out, errors),
        Err(error) => no_words(error, errors),
    }
}
