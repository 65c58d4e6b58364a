//! Serving stock Kafka clients.
ghost use Rattle.std.specs.Prelude.{OnOk, option_map};
ghost use Rattle.kx_serve.specs.Files.{IsNamed};
ghost use Rattle.kx_server.specs.Lines.{Listens};

use crate::fault::ServeFault;
use crate::files::LogFile;
use crate::judging::{NamedIds, judge_logs};
use crate::listing::folder_number;
use crate::locking::lock_folders;
use crate::options::{KafkaOptions, ServeOptions};
use crate::server::{Spoken, latest_start, serve_speaking};
use kx_ends::next_id;
use kx_kafka_server::{GatewayOptions, Kafka};
use kx_log::{MemStore, OpenFault};
use kx_message::PartitionId;
use kx_server::Partitions;
use kx_txnlog::{Entry, TxnLog};
use std::alloc::Global;
use std::fs;
use std::fs::{File, Files};
use std::io::{ErrorKind, Write};
use std::net::{Net, TcpListener, TcpStream};
use std::random::RandomSource;
use std::sync::Wait;
use std::thread::Threads;
use std::time::Clock;

/// What the coordinator wrote in this folder: which transactional ids were granted, and to whom.
pub(crate) fn coordinator_log<R: Files<File = File> + AllocGlobal>(
    rt: &R,
    dir: Option<&str>,
) -> Result<TxnLog<MemStore>, ServeFault> {
    let alloc = rt.alloc();
    let file = LogFile::Coordinator;
    let bytes = match dir {
        None => Vec::new(alloc),
        Some(dir) => {
            let path = format!(in alloc; "{dir}/{file}")?;
            match fs::read(rt, path.as_str()) {
                Ok(bytes) => bytes,
                Err(error) if error.kind() == ErrorKind::NotFound => Vec::new(alloc),
                Err(_) => {
                    let fault = OpenFault::Device;
                    return Err(ServeFault::Open { file, fault });
                }
            }
        }
    };
    match TxnLog::open(alloc, MemStore::new(bytes)) {
        Ok(log) => Ok(log),
        Err((OpenFault::Memory, _)) => Err(ServeFault::Memory),
        Err((fault, _)) => Err(ServeFault::Open { file, fault }),
    }
}

// The protocol of stock clients, with what the folder, which has this number, and the coordinator's
// log have of it. No client is given one of the producer ids that logs name.
fn gateway<R: Files<File = File> + AllocGlobal + Clock + Eprint>(
    rt: &R,
    options: &KafkaOptions<'_>,
    folder_number: u64,
    entries: &[Entry],
    named: NamedIds,
) -> Result<Kafka, ServeFault> {
    let skipped_ids = named.skipped(next_id(entries))?;
    let asked = GatewayOptions {
        topics: options.topics,
        auto_topics: options.auto_topics,
        idle: options.idle,
        advertise: options.advertise,
        dir: options.dir,
        folder_number,
        named_ids: named.above,
        skipped_ids,
    };
    Ok(Kafka::open(rt, &asked, entries)?)
}

impl<'a> KafkaOptions<'a> {
    // What the server of the core is asked for: all its partitions, and that transactions expire.
    fn served(&self) -> ServeOptions<'a> {
        let Some(partitions) = Partitions::new(PartitionId::DATA_COUNT) else {
            unreachable!();
        };
        ServeOptions {
            partitions,
            connections: self.connections,
            port: self.port,
            dir: self.dir,
            traces: self.traces,
            new_traces: self.new_traces,
            expires: true,
            session_timeout: None,
            tells_progress: self.tells_progress,
            tells_notices: self.tells_notices,
        }
    }
}

// Serves, once the folders are this server's alone.
fn serve_locked<
    R: Net<Listener = TcpListener, Stream = TcpStream>
        + Files<File = File>
        + AllocGlobal
        + Eprint
        + Threads
        + Wait
        + Clock
        + RandomSource
        + Copy
        + Send
        + Sync
        + Drop
        + 'static,
    W: Write,
>(rt: R, options: &KafkaOptions<'_>, out: &mut W) -> Result<(), ServeFault>
    ensures { OnOk result (Listens (W.contents out.old) (W.contents out.new)) }
{
    let served = options.served();
    let number = folder_number(&rt, options.dir)?;
    let named = judge_logs(&rt, options.dir, number, served.partitions)?;
    let log = coordinator_log(&rt, options.dir)?;
    let protocol = gateway(&rt, options, number, log.entries(), named)?;
    let since = latest_start(log.entries());
    drop(log);
    let spoken = Spoken {
        protocol: &protocol,
        until: options.until,
        since,
        folder_number: number,
    };
    serve_speaking(rt, &served, &spoken, out)
}

/// Serves the core on 127.0.0.1 to clients that speak Kafka's protocol: prints `listening` and the
/// port, and serves connections at once.
///
/// # Errors
///
/// As [`ServeFault`] has them. Connections that were taken are served to their ends also then.
pub fn serve_kafka<
    R: Net<Listener = TcpListener, Stream = TcpStream>
        + Files<File = File>
        + AllocGlobal
        + Eprint
        + Threads
        + Wait
        + Clock
        + RandomSource
        + Copy
        + Send
        + Sync
        + Drop
        + 'static,
    W: Write,
>(rt: R, options: &KafkaOptions<'_>, out: &mut W) -> Result<(), ServeFault>
    // What it printed when it has ended.
    ensures listens { OnOk result (Listens (W.contents out.old) (W.contents out.new)) }
    ensures named { OnOk result (IsNamed (option_map (λ d. d.now) options.now.dir)
        × IsNamed (option_map (λ d. d.now) options.now.traces)) }
{
    let locks = lock_folders(&rt, options.dir, options.traces)?;
    let served = serve_locked(rt, options, out);
    drop(locks);
    served
}
