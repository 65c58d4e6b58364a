//! Serving nodes whose logs are in memory or in a folder.
ghost use Rattle.std.specs.Prelude.{◌≤◌, All, IfOk, OnOk, length, option_map};
ghost use Rattle.kx_machine.specs.Meaning.{NodeState};
ghost use Rattle.kx_message.specs.Ranges.{data_partitions};
ghost use Rattle.kx_serve.specs.Files.{IsNamed};
ghost use Rattle.kx_serve.specs.Opening.{HasBook, HasOffsetsBook, InOrder, IsReady};
ghost use Rattle.kx_server.specs.Lines.{Listens, Prints};

use crate::fault::ServeFault;
use crate::folder::{Folder, InFiles, InMemory};
use crate::judging::judge_logs;
use crate::kafka::coordinator_log;
use crate::limits::connections_beside_files;
use crate::listing::folder_number;
use crate::locking::lock_folders;
use crate::opening::{Kept, Opening};
use crate::options::ServeOptions;
use crate::placing::{OpenedNodes, Placing};
use crate::tracing::Traces;
use crate::tying::tie_folders;
use kx_message::PartitionId;
use kx_published::book::{Naming, Opened};
use kx_publishing::Readable;
use kx_server::{OwnFrames, Partitions, Protocol, ServerOptions, Until, moment, serve_nodes, tell};
use kx_txnlog::Entry;
use std::alloc::{AllocError, Global};
use std::fs::{File, Files};
use std::io::Write;
use std::marker::Brand;
use std::net::{Net, TcpListener, TcpStream};
use std::random::RandomSource;
use std::sync::Wait;
use std::thread::Threads;
use std::time::Clock;

// Opens the books of the published logs of data partitions, in order.
fn open_books(alloc: Global, partitions: Partitions) -> Result<Vec<Opened>, AllocError>
    ensures { IfOk result (λ books. InOrder 0 books.items
        × (length books.items ≤ data_partitions)) }
{
    let mut books = Vec::new(alloc);
    for number in 0..partitions.get() {
        let Ok(partition) = PartitionId::try_from(number) else {
            break;
        };
        books.push(Opened::new(partition))?;
    }
    Ok(books)
}

// What nodes are opened with.
fn opening<'a, F: Folder, R: Files<File = File> + AllocGlobal + Eprint + Clock + Copy + Drop>(
    rt: R,
    folder: &'a F,
    options: &ServeOptions<'a>,
) -> Opening<'a, F, R> {
    let alloc = rt.alloc();
    let time = moment(&rt).unwrap_or(0);
    let traces = options.traces.map(|dir| Traces {
        rt,
        alloc,
        dir,
        outlives: options.dir.is_some(),
        time,
    });
    Opening {
        alloc,
        folder,
        partitions: options.partitions,
        time,
        traces,
    }
}

/// How clients speak with a server, when it ends, the latest time that its coordinator's log has, in
/// milliseconds since 1970, and the number of its folder, 0 without one.
#[derive(Drop)]
pub(crate) struct Spoken<'a, P: Protocol> {
    pub(crate) protocol: &'a P,
    pub(crate) until: Until,
    pub(crate) since: u64,
    pub(crate) folder_number: u64,
}

/// The latest time at which a transaction of these entries began, in milliseconds since 1970; 0 if
/// there is none.
pub(crate) fn latest_start(entries: &[Entry]) -> u64 {
    let mut latest = 0;
    for entry in entries {
        if let Entry::Row(row) = entry {
            latest = row.start.max(latest);
        }
    }
    latest
}

// What the threads of a server are asked for. One that ends with its process takes no more
// connections than it may have open beside its files.
fn asked_of<R: Files<File = File> + AllocGlobal + Eprint + Copy + Drop, P: Protocol>(
    rt: &R,
    options: &ServeOptions<'_>,
    spoken: &Spoken<'_, P>,
) -> ServerOptions {
    let mut asked = options.server(spoken.since);
    if spoken.until == Until::Killed {
        asked.connections = connections_beside_files(rt, asked.connections);
    }
    asked
}

// Serves with nodes that were opened.
fn serve_opened<
    L: Readable + Send + Sync + 'static,
    J: Naming + Send + Sync + 'static,
    F: Folder,
    R: Net<Listener = TcpListener, Stream = TcpStream>
        + Eprint
        + Threads
        + Wait
        + Clock
        + Copy
        + Send
        + Sync
        + Drop
        + 'static,
    P: Protocol,
    W: Write,
>(
    placing: &Placing<'_, F, R>,
    nodes: OpenedNodes<L>,
    port: u16,
    asked: &ServerOptions,
    spoken: &Spoken<'_, P>,
    out: &mut W,
) -> Result<(), ServeFault>
    requires coordinator { (node : NodeState) × L.stands node nodes.coordinator }
    requires partitions { All (IsReady L.stands L.log J.book) nodes.partitions.items }
    ensures { OnOk result (Listens (W.contents out.old) (W.contents out.new)) }
{
    let nodes = placing.place_all::<L, J>(nodes)?;
    serve_nodes(
        placing.rt,
        placing.alloc,
        nodes,
        port,
        asked,
        (spoken.protocol, spoken.until),
        out,
    )?;
    Ok(())
}

// Serves with nodes whose published logs have these books.
fn serve_named<
    J: Naming + Send + Sync + 'static,
    F: Folder,
    R: Net<Listener = TcpListener, Stream = TcpStream>
        + Files<File = File>
        + AllocGlobal
        + Eprint
        + Threads
        + Wait
        + Clock
        + Copy
        + Send
        + Sync
        + Drop
        + 'static,
    P: Protocol,
    W: Write,
>(
    rt: R,
    folder: &F,
    options: &ServeOptions<'_>,
    books: Vec<Opened>,
    offsets: Opened,
    spoken: &Spoken<'_, P>,
    out: &mut W,
) -> Result<(), ServeFault>
    requires books { All (HasBook J.book) books.items }
    requires offsets { HasOffsetsBook J.book offsets }
    ensures { OnOk result (Listens (W.contents out.old) (W.contents out.new)) }
{
    let nodes = opening(rt, folder, options).open::<J>(books, offsets)?;
    folder.list_files()?;
    let placing = Placing {
        rt,
        alloc: rt.alloc(),
        folder,
        connections: options.connections,
    };
    let asked = asked_of(&rt, options, spoken);
    serve_opened::<Kept<F, R>, J, F, R, P, W>(&placing, nodes, options.port, &asked, spoken, out)
}

// Serves with logs in a folder.
fn serve_over<
    F: Folder,
    R: Net<Listener = TcpListener, Stream = TcpStream>
        + Files<File = File>
        + AllocGlobal
        + Eprint
        + Threads
        + Wait
        + Clock
        + Copy
        + Send
        + Sync
        + Drop
        + 'static,
    P: Protocol,
    W: Write,
>(
    rt: R,
    folder: &F,
    options: &ServeOptions<'_>,
    spoken: &Spoken<'_, P>,
    out: &mut W,
) -> Result<(), ServeFault>
    ensures { OnOk result (Listens (W.contents out.old) (W.contents out.new)) }
{
    let books = open_books(rt.alloc(), options.partitions)?;
    let offsets = Opened::new(PartitionId::OFFSETS);
    serve_named::<Brand, F, R, P, W>(rt, folder, options, books, offsets, spoken, out)
}

/// Serves the core on 127.0.0.1 to clients that speak a protocol: prints `listening` and the port,
/// and serves connections at once. The folders are this server's alone.
///
/// # Errors
///
/// As [`ServeFault`] has them. Connections that were taken are served to their ends also then.
pub(crate) fn serve_speaking<
    R: Net<Listener = TcpListener, Stream = TcpStream>
        + Files<File = File>
        + AllocGlobal
        + Eprint
        + Threads
        + Wait
        + Clock
        + Copy
        + Send
        + Sync
        + Drop
        + 'static,
    P: Protocol,
    W: Write,
>(rt: R, options: &ServeOptions<'_>, spoken: &Spoken<'_, P>, out: &mut W) -> Result<(), ServeFault>
    ensures { OnOk result (Listens (W.contents out.old) (W.contents out.new)) }
{
    tie_folders(&rt, options)?;
    match options.dir {
        None => serve_over(rt, &InMemory, options, spoken, out),
        Some(dir) => {
            let folder = InFiles {
                rt,
                dir,
                number: spoken.folder_number,
                tells_progress: options.tells_progress,
            };
            serve_over(rt, &folder, options, spoken, out)
        }
    }
}

// Serves the project's own protocol, and prints what was served.
fn serve_own<
    R: Net<Listener = TcpListener, Stream = TcpStream>
        + Files<File = File>
        + AllocGlobal
        + Eprint
        + Threads
        + Wait
        + Clock
        + RandomSource
        + Copy
        + Send
        + Sync
        + Drop
        + 'static,
    W: Write,
>(rt: R, options: &ServeOptions<'_>, out: &mut W) -> Result<(), ServeFault>
    ensures { OnOk result (Prints options.now.connections (W.contents out.old)
        (W.contents out.new)) }
{
    let number = folder_number(&rt, options.dir)?;
    judge_logs(&rt, options.dir, number, options.partitions)?;
    let log = coordinator_log(&rt, options.dir)?;
    let since = latest_start(log.entries());
    drop(log);
    let spoken = Spoken {
        protocol: &OwnFrames::of(&options.server(since)),
        until: Until::Served,
        since,
        folder_number: number,
    };
    serve_speaking(rt, options, &spoken, out)?;
    tell(out, "served", usize::from(options.connections.get()))?;
    Ok(())
}

/// Serves the core on 127.0.0.1: prints `listening` and the port, serves as many connections as
/// are asked for, at once, and prints `served` and their number when the last of them has ended.
///
/// # Errors
///
/// As [`ServeFault`] has them. Connections that were taken are served to their ends also then.
pub fn serve<
    R: Net<Listener = TcpListener, Stream = TcpStream>
        + Files<File = File>
        + AllocGlobal
        + Eprint
        + Threads
        + Wait
        + Clock
        + RandomSource
        + Copy
        + Send
        + Sync
        + Drop
        + 'static,
    W: Write,
>(rt: R, options: &ServeOptions<'_>, out: &mut W) -> Result<(), ServeFault>
    // What it printed when it has ended.
    ensures prints { OnOk result (Prints options.now.connections (W.contents out.old)
        (W.contents out.new)) }
    ensures named { OnOk result (IsNamed (option_map (λ d. d.now) options.now.dir)
        × IsNamed (option_map (λ d. d.now) options.now.traces)) }
{
    let locks = lock_folders(&rt, options.dir, options.traces)?;
    let served = serve_own(rt, options, out);
    drop(locks);
    served
}
