//! What the words of a command line ask for.
ghost use Rattle.std.specs.Prelude.{ℕ, ◌≡◌, MatchOption, Option, codes};
ghost use Rattle.clap.specs.Words.{found_of, one_of, rows_of, subcommand_rows_of};
ghost use Rattle.kx_play.specs.declared.options.PlayOptions.{PlayOptions};
ghost use Rattle.kx_program.specs.Tasks.{AsksFor, IsAudit, IsDemo, IsKafka, IsPlay, IsServe};
ghost use Rattle.kx_program.specs.Tasks.{FitsTimeout, IsSim, Writes, millis_of};
ghost use Rattle.kx_program.specs.declared.task.Auditing.{Auditing};
ghost use Rattle.kx_program.specs.declared.task.Demonstration.{Demonstration};
ghost use Rattle.kx_program.specs.declared.task.StockClients.{StockClients};
ghost use Rattle.kx_program.specs.declared.task.Task.{Task};
ghost use Rattle.kx_serve.specs.declared.options.ServeOptions.{ServeOptions};

use clap::ArgMatches;
use kx_message::Timeout;
use kx_play::{PlayOptions, Records, WorkerCount};
use kx_relay::{Holding, Losses};
use kx_serve::ServeOptions;
use kx_server::{Connections, Partitions};

/// Which pictures of a run are asked for.
#[derive(Clone, Copy)]
pub struct Pictures<'a> {
    /// The file into which the run's page is written, if any.
    pub page: Option<&'a str>,
    /// The file into which the run's diagram is written, if any.
    pub diagram: Option<&'a str>,
}

/// What `demo` is asked for.
#[derive(Clone, Copy)]
pub struct Demonstration<'a> {
    /// What is played.
    pub options: PlayOptions,
    /// The file into which each event is written, if any.
    pub trace: Option<&'a str>,
    /// The file into which the run's page is written, if any.
    pub page: Option<&'a str>,
}

/// What `audit` is asked for.
#[derive(Clone, Copy)]
pub struct Auditing<'a> {
    /// The folder with the traces.
    pub traces: &'a str,
    /// The folder with the logs, if they are to be compared.
    pub logs: Option<&'a str>,
    /// Whether it is told on standard error how far a long audit is.
    pub tells_progress: bool,
    /// The file into which the page of the steps is written, if any.
    pub page: Option<&'a str>,
}

/// What `kafka` is asked for.
#[derive(Clone, Copy)]
pub struct StockClients<'a> {
    /// The topics that are there from the start, as `NAME:PARTITIONS`, with commas between them.
    pub topics: Option<&'a str>,
    /// The port on 127.0.0.1 on which it listens; 0 takes any that is free.
    pub port: u16,
    /// Where clients are told to find the broker, as `HOST:PORT`, if that is asked for.
    pub advertise: Option<&'a str>,
    /// The folder of its files, if any.
    pub dir: Option<&'a str>,
    /// The folder of its traces, if any.
    pub traces: Option<&'a str>,
    /// Whether its traces begin anew.
    pub new_traces: bool,
    /// How many topics are made at most when clients first ask for them.
    pub auto_topics: u16,
    /// Whether no topic is made when a client first asks for it.
    pub no_auto_topics: bool,
    /// For how long a connection may ask for nothing until it is closed; None closes none.
    pub idle: Option<Timeout>,
    /// Whether it writes notices of what happens to standard error, also if nobody watches that.
    pub log: bool,
    /// Whether it writes none, also if somebody watches.
    pub no_log: bool,
    /// Whether it tells on standard error which log it opens.
    pub tells_progress: bool,
}

/// What the words of a command line ask for.
#[derive(Clone, Copy)]
pub enum Task<'a> {
    /// Run the script on standard input.
    Sim(Pictures<'a>),
    /// Print the record batches of the file at this path.
    Dump(&'a str),
    /// Serve clients.
    Serve(ServeOptions<'a>),
    /// Serve stock Kafka clients.
    Kafka(StockClients<'a>),
    /// Play the demonstration and audit it.
    Demo(Demonstration<'a>),
    /// Audit a server by the traces that it left.
    Audit(Auditing<'a>),
}

// A number that an option has, of 16 bits.
fn number_in(given: &ArgMatches<'_>, id: &str) -> Option<u16>
    ensures { MatchOption result
        ((n : ℕ) → Writes 16 (one_of id.now (rows_of (found_of given.now))) n → ⊥)
        (Writes 16 (one_of id.now (rows_of (found_of given.now)))) }
{
    given.get_one(id)
}

// The seed.
fn seed_in(given: &ArgMatches<'_>) -> Option<u64>
    ensures { MatchOption result
        ((n : ℕ) → Writes 64 (one_of (codes "seed") (rows_of (found_of given.now))) n → ⊥)
        (Writes 64 (one_of (codes "seed") (rows_of (found_of given.now)))) }
{
    given.get_one("seed")
}

// A number of milliseconds that an option has.
fn millis_in(given: &ArgMatches<'_>, id: &str) -> Option<u32>
    ensures { MatchOption result
        ((n : ℕ) → Writes 32 (one_of id.now (rows_of (found_of given.now))) n → ⊥)
        (Writes 32 (one_of id.now (rows_of (found_of given.now)))) }
{
    given.get_one(id)
}

// The timeout of this many milliseconds; 0 is none.
fn timeout_of(millis: u32) -> Option<Option<Timeout>>
    ensures { MatchOption result
        ((timeout : Option ℕ) → millis ≡ millis_of timeout → FitsTimeout timeout → ⊥)
        (λ timeout. (millis ≡ millis_of timeout) × FitsTimeout timeout) }
{
    if millis == 0 {
        return Some(None);
    }
    match Timeout::try_from(millis) {
        Ok(timeout) => Some(Some(timeout)),
        Err(_) => None,
    }
}

// A timeout that an option has; None if 0 is written.
fn timeout_in(given: &ArgMatches<'_>, id: &str) -> Option<Option<Timeout>>
    ensures { MatchOption result
        ((timeout : Option ℕ) → Writes 32 (one_of id.now (rows_of (found_of given.now)))
        (millis_of timeout) → FitsTimeout timeout → ⊥)
        (λ timeout. Writes 32 (one_of id.now (rows_of (found_of given.now)))
        (millis_of timeout) × FitsTimeout timeout) }
{
    let millis = millis_in(given, id)?;
    timeout_of(millis)
}

// What `serve` is asked for.
fn serve_options<'a>(given: &ArgMatches<'a>, is_watched: bool) -> Option<ServeOptions<'a>>
    ensures { MatchOption result
        ((options : ServeOptions) → IsServe (rows_of (found_of given.now)) is_watched options → ⊥)
        (IsServe (rows_of (found_of given.now)) is_watched) }
{
    Some(ServeOptions {
        partitions: Partitions::new(number_in(given, "partitions")?)?,
        connections: Connections::new(number_in(given, "connections")?)?,
        port: number_in(given, "port")?,
        dir: given.get_str("dir"),
        traces: given.get_str("trace"),
        new_traces: given.get_flag("new-traces"),
        tells_progress: is_watched,
        tells_notices: given.get_flag("log"),
        expires: given.get_flag("expire"),
        session_timeout: timeout_in(given, "session-timeout")?,
    })
}

// What `kafka` is asked for.
fn kafka_in<'a>(given: &ArgMatches<'a>, is_watched: bool) -> Option<StockClients<'a>>
    ensures { MatchOption result
        ((asked : StockClients) → IsKafka (rows_of (found_of given.now)) is_watched asked → ⊥)
        (IsKafka (rows_of (found_of given.now)) is_watched) }
{
    Some(StockClients {
        topics: given.get_str("topics"),
        port: number_in(given, "port")?,
        advertise: given.get_str("advertise"),
        dir: given.get_str("dir"),
        traces: given.get_str("trace"),
        new_traces: given.get_flag("new-traces"),
        auto_topics: number_in(given, "auto-topics")?,
        no_auto_topics: given.get_flag("no-auto-topics"),
        idle: timeout_in(given, "idle")?,
        log: given.get_flag("log"),
        no_log: given.get_flag("no-log"),
        tells_progress: is_watched,
    })
}

// What `demo` is asked to play.
fn play_options(given: &ArgMatches<'_>) -> Option<PlayOptions>
    ensures { MatchOption result
        ((options : PlayOptions) → IsPlay (rows_of (found_of given.now)) options → ⊥)
        (IsPlay (rows_of (found_of given.now))) }
{
    Some(PlayOptions {
        workers: WorkerCount::new(number_in(given, "workers")?)?,
        records: Records::new(number_in(given, "records")?)?,
        seed: seed_in(given)?,
        lose: Losses::new(number_in(given, "lose")?)?,
        hold: Holding::new(number_in(given, "hold")?)?,
    })
}

// What `demo` is asked for.
fn demo_in<'a>(given: &ArgMatches<'a>) -> Option<Demonstration<'a>>
    ensures { MatchOption result
        ((asked : Demonstration) → IsDemo (rows_of (found_of given.now)) asked → ⊥)
        (IsDemo (rows_of (found_of given.now))) }
{
    Some(Demonstration {
        options: play_options(given)?,
        trace: given.get_str("trace"),
        page: given.get_str("page"),
    })
}

// Which pictures `sim` is asked for.
fn pictures_in<'a>(given: &ArgMatches<'a>) -> Pictures<'a>
    ensures { IsSim (rows_of (found_of given.now)) result }
{
    Pictures {
        page: given.get_str("page"),
        diagram: given.get_str("svg"),
    }
}

// What `audit` is asked for.
fn audit_in<'a>(given: &ArgMatches<'a>, is_watched: bool) -> Option<Auditing<'a>>
    ensures { MatchOption result
        ((asked : Auditing) → IsAudit (rows_of (found_of given.now)) is_watched asked → ⊥)
        (IsAudit (rows_of (found_of given.now)) is_watched) }
{
    match given.get_str("DIR") {
        Some(traces) => Some(Auditing {
            traces,
            logs: given.get_str("dir"),
            tells_progress: is_watched,
            page: given.get_str("page"),
        }),
        None => None,
    }
}

/// What the words of a command line ask for, as clap found them; None if they name no
/// subcommand, or an option has a value out of its range. `is_watched` says whether somebody
/// watches standard error, so that a server tells there which logs it opens, and a long audit how
/// far it is.
pub fn task_in<'a>(found: &ArgMatches<'a>, is_watched: bool) -> Option<Task<'a>>
    ensures { MatchOption result
        ((what : Task) → AsksFor (subcommand_rows_of found.now) is_watched what → ⊥)
        (AsksFor (subcommand_rows_of found.now) is_watched) }
{
    match found.subcommand() {
        Some(("sim", given)) => Some(Task::Sim(pictures_in(given))),
        Some(("dump", given)) => match given.get_str("FILE") {
            Some(path) => Some(Task::Dump(path)),
            None => None,
        },
        Some(("serve", given)) => match serve_options(given, is_watched) {
            Some(options) => Some(Task::Serve(options)),
            None => None,
        },
        Some(("kafka", given)) => match kafka_in(given, is_watched) {
            Some(asked) => Some(Task::Kafka(asked)),
            None => None,
        },
        Some(("demo", given)) => match demo_in(given) {
            Some(asked) => Some(Task::Demo(asked)),
            None => None,
        },
        Some(("audit", given)) => match audit_in(given, is_watched) {
            Some(asked) => Some(Task::Audit(asked)),
            None => None,
        },
        Some(_) | None => None,
    }
}
