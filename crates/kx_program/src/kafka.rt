//! Serving stock Kafka clients.
ghost use Rattle.std.specs.Prelude.{◌≡◌, ◌⊎◌, MatchResult, Option, option_map};
ghost use Rattle.std.specs.Io.Buffered.{writer_contents};
ghost use Rattle.kx_kafka_server.specs.declared.advertised.Advertised.{Advertised as Asked};
ghost use Rattle.kx_program.specs.Program.{IsAddressIn, ServesStock};
ghost use Rattle.kx_program.specs.Tasks.{IsGiven, tells_notices, topics_made};
ghost use Rattle.kx_text.specs.declared.program.Ending.TheVariants as ending;

use crate::streams::failed;
use crate::task::StockClients;
use crate::telling::served_ending;
use kx_kafka_server::{Advertised, AskFault, TopicFault, Topics, advertised_in, topics_asked};
use kx_serve::{Folders, KafkaOptions, serve_kafka};
use kx_server::{Connections, Until};
use kx_text::Ending;
use std::alloc::Global;
use std::fs::{File, Files};
use std::io::{BufWriter, Write};
use std::net::{Net, TcpListener, TcpStream};
use std::random::RandomSource;
use std::sync::Wait;
use std::thread::Threads;
use std::time::Clock;

// How many connections are served at a time.
const MOST_CONNECTIONS: u16 = 1024;

// The topics that are asked for.
fn topics_of<'a>(alloc: Global, asked: Option<&'a str>) -> Result<Topics, AskFault<'a>> {
    match asked {
        Some(text) => topics_asked(alloc, text),
        None => Ok(Topics::new(alloc)),
    }
}

// How the program ends if the topics that are asked for are wrong, or out of memory.
fn refuse_topics<E: Write>(fault: AskFault<'_>, errors: &mut E) -> Ending
    ensures { (result ≡ ending.Failed) ⊎ (result ≡ ending.WrongArguments) }
{
    if matches!(
        fault,
        AskFault::Refused {
            fault: TopicFault::Memory,
            ..
        }
    ) {
        return failed(errors, "out of memory");
    }
    let _ = writeln!(errors, "kx: --topics {fault}");
    Ending::WrongArguments
}

// Where clients are told to find the broker, None if nothing is asked for; or how the program
// ends if something else than `HOST:PORT` is asked for.
fn address_of<'a, E: Write>(
    asked: Option<&'a str>,
    errors: &mut E,
) -> Result<Option<Advertised<'a>>, Ending>
    ensures { let text = option_map (λ a. a.now) asked.entry in MatchResult result
        (IsAddressIn text) (λ how. (how ≡ ending.WrongArguments)
        × ((address : Option Asked) → IsAddressIn text address → ⊥)) }
{
    let Some(text) = asked else {
        return Ok(None);
    };
    match advertised_in(text) {
        Some(address) => Ok(Some(address)),
        None => {
            let _ = writeln!(errors, "kx: --advertise {text}: HOST:PORT is wanted");
            Err(Ending::WrongArguments)
        }
    }
}

// Whether notices are written: if that is asked for, or somebody watches and nobody asked for none.
fn tells_notices(asked: &StockClients<'_>) -> bool
    ensures { result ≡ tells_notices asked.now }
{
    asked.log || (asked.tells_progress && !asked.no_log)
}

// How many topics are made when clients first ask for them.
fn topics_made(asked: &StockClients<'_>) -> u16
    ensures { result ≡ topics_made asked.now }
{
    if asked.no_auto_topics {
        0
    } else {
        asked.auto_topics
    }
}

// What the server of stock clients is given of what was asked for.
fn given<'a>(
    asked: &StockClients<'a>,
    topics: &'a Topics,
    advertise: Option<Advertised<'a>>,
    connections: Connections,
) -> KafkaOptions<'a>
    ensures given { IsGiven asked.now result }
    ensures advertise { result.advertise ≡ advertise.entry }
{
    KafkaOptions {
        topics,
        auto_topics: topics_made(asked),
        advertise,
        port: asked.port,
        dir: asked.dir,
        traces: asked.traces,
        new_traces: asked.new_traces,
        idle: asked.idle,
        connections,
        until: Until::Killed,
        tells_progress: asked.tells_progress,
        tells_notices: tells_notices(asked),
    }
}

// Serves stock clients, who find these topics and are told this address.
fn serve_stock<
    R: Files<File = File>
        + Net<Listener = TcpListener, Stream = TcpStream>
        + AllocGlobal
        + Eprint
        + Threads
        + Wait
        + Clock
        + RandomSource
        + Copy
        + Send
        + Sync
        + Drop
        + 'static,
    O: Write + Drop,
    E: Write,
>(
    rt: &R,
    asked: &StockClients<'_>,
    topics: &Topics,
    advertise: Option<Advertised<'_>>,
    out: &mut BufWriter<O>,
    errors: &mut E,
) -> Ending
    ensures { ServesStock (writer_contents O.contents out.old) (writer_contents O.contents out.new)
        result }
{
    let Some(connections) = Connections::new(MOST_CONNECTIONS) else {
        unreachable!();
    };
    let options = given(asked, topics, advertise, connections);
    let folders = Folders {
        logs: asked.dir,
        traces: asked.traces,
    };
    let served = serve_kafka(*rt, &options, out);
    served_ending(rt, folders, served, errors)
}

// Serves stock clients, who are told this address.
fn serve_told<
    R: Files<File = File>
        + Net<Listener = TcpListener, Stream = TcpStream>
        + AllocGlobal
        + Eprint
        + Threads
        + Wait
        + Clock
        + RandomSource
        + Copy
        + Send
        + Sync
        + Drop
        + 'static,
    O: Write + Drop,
    E: Write,
>(
    rt: &R,
    asked: &StockClients<'_>,
    advertise: Option<Advertised<'_>>,
    out: &mut BufWriter<O>,
    errors: &mut E,
) -> Ending
    ensures { ServesStock (writer_contents O.contents out.old) (writer_contents O.contents out.new)
        result }
{
    match topics_of(rt.alloc(), asked.topics) {
        Ok(topics) => serve_stock(rt, asked, &topics, advertise, out, errors),
        Err(fault) => refuse_topics(fault, errors),
    }
}

// Whether notices are asked for, and none are asked for too: that is refused.
fn asks_for_both<E: Write>(asked: &StockClients<'_>, errors: &mut E) -> bool {
    let both = asked.log && asked.no_log;
    if both {
        let _ = writeln!(
            errors,
            "kx: --log and --no-log: only one of them can be asked for"
        );
    }
    both
}

/// Serves stock clients until the process is killed.
pub(crate) fn kafka<
    R: Files<File = File>
        + Net<Listener = TcpListener, Stream = TcpStream>
        + AllocGlobal
        + Eprint
        + Threads
        + Wait
        + Clock
        + RandomSource
        + Copy
        + Send
        + Sync
        + Drop
        + 'static,
    O: Write + Drop,
    E: Write,
>(rt: &R, asked: &StockClients<'_>, out: &mut BufWriter<O>, errors: &mut E) -> Ending
    ensures { ServesStock (writer_contents O.contents out.old) (writer_contents O.contents out.new)
        result }
{
    if asks_for_both(asked, errors) {
        return Ending::WrongArguments;
    }
    match address_of(asked.advertise, errors) {
        Ok(advertise) => serve_told(rt, asked, advertise, out, errors),
        Err(ending) => ending,
    }
}
