//! The command line: subcommands, options and their ranges.
ghost use Rattle.std.specs.Prelude.{◌≡◌, IfOk, codes, false};
ghost use Rattle.clap.specs.Words.{app_of, new_app, rule_of};
ghost use Rattle.clap.specs.declared.builder.command.Command.TheViews.{out-Command};
ghost use Rattle.kx_program.specs.Usage.{advertise_rule, audit_app, audited_rule};
ghost use Rattle.kx_program.specs.Usage.{auto_topics_rule, flag_of, idle_rule};
ghost use Rattle.kx_program.specs.Usage.{session_timeout_rule};
ghost use Rattle.kx_program.specs.Usage.{connections_rule, demo_app, dir_rule, dump_app};
ghost use Rattle.kx_program.specs.Usage.{dumped_rule, expire_rule};
ghost use Rattle.kx_program.specs.Usage.{hold_rule, kafka_app, kafka_port_rule, logs_rule, lose_rule};
ghost use Rattle.kx_program.specs.Usage.{log_rule, needed, new_traces_rule, no_log_rule};
ghost use Rattle.kx_program.specs.Usage.{no_auto_topics_rule, option_of, page_rule};
ghost use Rattle.kx_program.specs.Usage.{partitions_rule, port_rule, svg_rule};
ghost use Rattle.kx_program.specs.Usage.{program_app, records_rule, seed_rule, serve_app, sim_app};
ghost use Rattle.kx_program.specs.Usage.{topics_rule, trace_rule, traces_rule, with_default};
ghost use Rattle.kx_program.specs.Usage.{with_needed_subcommand, workers_rule};

use clap::builder::ValueParser;
use clap::{Arg, ArgAction, Command};
use std::alloc::{AllocError, Global};

// An option with a number that has a default.
fn number<'a>(
    alloc: Global,
    name: &'a str,
    value: &'a str,
    default: &'a str,
    help: &'a str,
) -> Arg<'a>
    ensures rule { rule_of result ≡ with_default default.entry.now (option_of name.entry.now) }
    ensures local { result.global ≡ false }
{
    Arg::new(alloc, name)
        .long(name)
        .value_name(value)
        .default_value(default)
        .action(ArgAction::Set)
        .help(help)
}

// An option with a number that has to be given.
fn required<'a>(alloc: Global, name: &'a str, value: &'a str, help: &'a str) -> Arg<'a>
    ensures rule { rule_of result ≡ needed (option_of name.entry.now) }
    ensures local { result.global ≡ false }
{
    Arg::new(alloc, name)
        .long(name)
        .value_name(value)
        .required(true)
        .action(ArgAction::Set)
        .help(help)
}

// A flag: it is on if it is given.
fn flag<'a>(alloc: Global, name: &'a str, help: &'a str) -> Arg<'a>
    ensures rule { rule_of result ≡ flag_of name.entry.now }
    ensures local { result.global ≡ false }
{
    Arg::new(alloc, name)
        .long(name)
        .action(ArgAction::SetTrue)
        .help(help)
}

// How many data partitions a server has.
fn partitions<'a>(alloc: Global) -> Arg<'a>
    ensures rule { rule_of result ≡ partitions_rule }
    ensures local { result.global ≡ false }
{
    let help = "How many data partitions there are, 1 to 16";
    required(alloc, "partitions", "P", help).value_parser(clap::value_parser!(u16).range(1..=16))
}

// How many connections a server serves.
fn connections<'a>(alloc: Global) -> Arg<'a>
    ensures rule { rule_of result ≡ connections_rule }
    ensures local { result.global ≡ false }
{
    let help = "How many connections are served before the server ends, 1 to 1024";
    required(alloc, "connections", "N", help).value_parser(clap::value_parser!(u16).range(1..=1024))
}

// The port on which a server listens.
fn port<'a>(alloc: Global) -> Arg<'a>
    ensures rule { rule_of result ≡ port_rule }
    ensures local { result.global ≡ false }
{
    let help = "The port on 127.0.0.1; 0 takes any that is free";
    number(alloc, "port", "PORT", "0", help).value_parser(clap::value_parser!(u16))
}

// The folder of a server's logs. An empty name is wrong: its files would be at the root.
fn dir<'a>(alloc: Global) -> Arg<'a>
    ensures rule { rule_of result ≡ dir_rule }
    ensures local { result.global ≡ false }
{
    Arg::new(alloc, "dir")
        .long("dir")
        .value_name("DIR")
        .action(ArgAction::Set)
        .value_parser(ValueParser::NonEmptyString)
        .help("Keeps the logs in files of this folder; else they are in memory")
}

// The folder of a server's traces. An empty name is wrong, as for its logs.
fn traces<'a>(alloc: Global) -> Arg<'a>
    ensures rule { rule_of result ≡ traces_rule }
    ensures local { result.global ≡ false }
{
    Arg::new(alloc, "trace")
        .long("trace")
        .value_name("DIR")
        .action(ArgAction::Set)
        .value_parser(ValueParser::NonEmptyString)
        .help("Writes what each node does into files of this folder, for the audit")
}

// Whether a server's traces begin anew.
fn new_traces<'a>(alloc: Global) -> Arg<'a>
    ensures rule { rule_of result ≡ new_traces_rule }
    ensures local { result.global ≡ false }
{
    flag(
        alloc,
        "new-traces",
        "Removes the traces that are there; they begin anew, with the logs",
    )
}

// Whether a server's clock aborts transactions.
fn expire<'a>(alloc: Global) -> Arg<'a>
    ensures rule { rule_of result ≡ expire_rule }
    ensures local { result.global ≡ false }
{
    flag(
        alloc,
        "expire",
        "Aborts transactions whose time is up; else they stay open",
    )
}

// For how long a member of a group may be silent.
fn session_timeout<'a>(alloc: Global) -> Arg<'a>
    ensures rule { rule_of result ≡ session_timeout_rule }
    ensures local { result.global ≡ false }
{
    let help =
        "Drops members of groups that are silent for MS milliseconds, up to 900000; 0 drops none";
    number(alloc, "session-timeout", "MS", "0", help).value_parser(clap::value_parser!(u32).range(
        0..=900_000,
    ))
}

// The topics of a server of stock clients.
fn topics<'a>(alloc: Global) -> Arg<'a>
    ensures rule { rule_of result ≡ topics_rule }
    ensures local { result.global ≡ false }
{
    Arg::new(alloc, "topics")
        .long("topics")
        .value_name("NAME:PARTITIONS,..")
        .action(ArgAction::Set)
        .value_parser(ValueParser::NonEmptyString)
        .help("Topics that are there from the start, with at most 16 partitions in all")
}

// The port on which a server of stock clients listens.
fn kafka_port<'a>(alloc: Global) -> Arg<'a>
    ensures rule { rule_of result ≡ kafka_port_rule }
    ensures local { result.global ≡ false }
{
    let help = "The port on 127.0.0.1; 0 takes any that is free";
    number(alloc, "port", "PORT", "9092", help).value_parser(clap::value_parser!(u16))
}

// Where clients of a server of stock clients are told to find the broker.
fn advertise<'a>(alloc: Global) -> Arg<'a>
    ensures rule { rule_of result ≡ advertise_rule }
    ensures local { result.global ≡ false }
{
    Arg::new(alloc, "advertise")
        .long("advertise")
        .value_name("HOST:PORT")
        .action(ArgAction::Set)
        .value_parser(ValueParser::NonEmptyString)
        .help("Where clients are told to find the server; port 0 is the one on which it listens")
}

// Whether topics are made when clients first ask for them.
fn no_auto_topics<'a>(alloc: Global) -> Arg<'a>
    ensures rule { rule_of result ≡ no_auto_topics_rule }
    ensures local { result.global ≡ false }
{
    flag(
        alloc,
        "no-auto-topics",
        "Makes no topic when a client first asks for it",
    )
}

// How many topics are made when clients first ask for them.
fn auto_topics<'a>(alloc: Global) -> Arg<'a>
    ensures rule { rule_of result ≡ auto_topics_rule }
    ensures local { result.global ≡ false }
{
    let help = "How many topics are made at most when clients first ask for them";
    number(alloc, "auto-topics", "N", "16", help).value_parser(clap::value_parser!(u16))
}

// For how long a connection may be idle.
fn idle<'a>(alloc: Global) -> Arg<'a>
    ensures rule { rule_of result ≡ idle_rule }
    ensures local { result.global ≡ false }
{
    let help =
        "Closes connections that ask for nothing for MS milliseconds, up to 900000; 0 closes none";
    number(alloc, "idle", "MS", "600000", help).value_parser(clap::value_parser!(u32).range(
        0..=900_000,
    ))
}

// Whether a server writes notices of what happens.
fn log<'a>(alloc: Global) -> Arg<'a>
    ensures rule { rule_of result ≡ log_rule }
    ensures local { result.global ≡ false }
{
    flag(
        alloc,
        "log",
        "Writes to standard error what happens: connections, refusals, topics",
    )
}

// Whether a server of stock clients writes none.
fn no_log<'a>(alloc: Global) -> Arg<'a>
    ensures rule { rule_of result ≡ no_log_rule }
    ensures local { result.global ≡ false }
{
    flag(
        alloc,
        "no-log",
        "Writes none of it, also if standard error is a terminal",
    )
}

// How many threads serve a demonstration.
fn workers<'a>(alloc: Global) -> Arg<'a>
    ensures rule { rule_of result ≡ workers_rule }
    ensures local { result.global ≡ false }
{
    let help = "How many threads serve the nodes, 1 to 16";
    number(alloc, "workers", "W", "4", help).value_parser(clap::value_parser!(u16).range(1..=16))
}

// How many records a demonstration has.
fn records<'a>(alloc: Global) -> Arg<'a>
    ensures rule { rule_of result ≡ records_rule }
    ensures local { result.global ≡ false }
{
    let help = "How many records each of the two input partitions has, 1 to 10000";
    number(alloc, "records", "N", "100", help).value_parser(clap::value_parser!(u16).range(
        1..=10000,
    ))
}

// What the lost frames are drawn from.
fn seed<'a>(alloc: Global) -> Arg<'a>
    ensures rule { rule_of result ≡ seed_rule }
    ensures local { result.global ≡ false }
{
    let help = "What the lost frames are drawn from";
    number(alloc, "seed", "S", "1", help).value_parser(clap::value_parser!(u64))
}

// How many frames are lost.
fn lose<'a>(alloc: Global) -> Arg<'a>
    ensures rule { rule_of result ≡ lose_rule }
    ensures local { result.global ≡ false }
{
    let help = "How many frames of a hundred are lost, 0 to 50";
    number(alloc, "lose", "L", "0", help).value_parser(clap::value_parser!(u8).range(0..=50))
}

// How long copies are held back.
fn hold<'a>(alloc: Global) -> Arg<'a>
    ensures rule { rule_of result ≡ hold_rule }
    ensures local { result.global ≡ false }
{
    let help = "How many further frames go between a frame and its copy, 0 to 8";
    number(alloc, "hold", "H", "0", help).value_parser(clap::value_parser!(u16).range(0..=8))
}

// The file of a demonstration's trace.
fn trace<'a>(alloc: Global) -> Arg<'a>
    ensures rule { rule_of result ≡ trace_rule }
    ensures local { result.global ≡ false }
{
    Arg::new(alloc, "trace")
        .long("trace")
        .value_name("FILE")
        .action(ArgAction::Set)
        .value_parser(ValueParser::NonEmptyString)
        .help("Writes what happened into this file, one line an event")
}

// The file of a run's page.
fn page<'a>(alloc: Global) -> Arg<'a>
    ensures rule { rule_of result ≡ page_rule }
    ensures local { result.global ≡ false }
{
    Arg::new(alloc, "page")
        .long("page")
        .value_name("FILE")
        .action(ArgAction::Set)
        .value_parser(ValueParser::NonEmptyString)
        .help("Writes what happened into this file, as a page in HTML")
}

// The file of a run's diagram.
fn svg<'a>(alloc: Global) -> Arg<'a>
    ensures rule { rule_of result ≡ svg_rule }
    ensures local { result.global ≡ false }
{
    Arg::new(alloc, "svg")
        .long("svg")
        .value_name("FILE")
        .action(ArgAction::Set)
        .value_parser(ValueParser::NonEmptyString)
        .help("Writes what happened into this file, as a diagram in SVG")
}

// `sim`.
fn sim_usage<'a>(alloc: Global) -> Result<Command<'a>, AllocError>
    ensures app { IfOk result (λ command. app_of command ≡ sim_app) }
    ensures local { IfOk result (λ command. (out-Command command).has_globals ≡ false) }
{
    Command::new(alloc, "sim")
        .about("Runs the script on standard input and writes its answers to standard output")
        .arg(page(alloc))?
        .arg(svg(alloc))
}

// The file of record batches that are printed.
fn dumped<'a>(alloc: Global) -> Arg<'a>
    ensures rule { rule_of result ≡ dumped_rule }
    ensures local { result.global ≡ false }
{
    Arg::new(alloc, "FILE")
        .required(true)
        .action(ArgAction::Set)
        .value_parser(ValueParser::NonEmptyString)
        .help("Record batches, one after the other")
}

// `dump`.
fn dump_usage<'a>(alloc: Global) -> Result<Command<'a>, AllocError>
    ensures app { IfOk result (λ command. app_of command ≡ dump_app) }
    ensures local { IfOk result (λ command. (out-Command command).has_globals ≡ false) }
{
    Command::new(alloc, "dump")
        .about("Prints the record batches of a file, one line for each batch and record")
        .arg(dumped(alloc))
}

// `serve`.
fn serve_usage<'a>(alloc: Global) -> Result<Command<'a>, AllocError>
    ensures app { IfOk result (λ command. app_of command ≡ serve_app) }
    ensures local { IfOk result (λ command. (out-Command command).has_globals ≡ false) }
{
    Command::new(alloc, "serve")
        .about("Serves all nodes of a core to clients over sockets")
        .arg(partitions(alloc))?
        .arg(connections(alloc))?
        .arg(port(alloc))?
        .arg(dir(alloc))?
        .arg(traces(alloc))?
        .arg(new_traces(alloc))?
        .arg(expire(alloc))?
        .arg(session_timeout(alloc))?
        .arg(log(alloc))
}

// `kafka`.
fn kafka_usage<'a>(alloc: Global) -> Result<Command<'a>, AllocError>
    ensures app { IfOk result (λ command. app_of command ≡ kafka_app) }
    ensures local { IfOk result (λ command. (out-Command command).has_globals ≡ false) }
{
    Command::new(alloc, "kafka")
        .about("Serves stock Kafka clients, which speak Kafka's own protocol")
        .arg(topics(alloc))?
        .arg(kafka_port(alloc))?
        .arg(advertise(alloc))?
        .arg(dir(alloc))?
        .arg(traces(alloc))?
        .arg(new_traces(alloc))?
        .arg(auto_topics(alloc))?
        .arg(no_auto_topics(alloc))?
        .arg(idle(alloc))?
        .arg(log(alloc))?
        .arg(no_log(alloc))
}

// `demo`.
fn demo_usage<'a>(alloc: Global) -> Result<Command<'a>, AllocError>
    ensures app { IfOk result (λ command. app_of command ≡ demo_app) }
    ensures local { IfOk result (λ command. (out-Command command).has_globals ≡ false) }
{
    Command::new(alloc, "demo")
        .about("Plays producers and processors against a core over a bad line, and audits them")
        .arg(workers(alloc))?
        .arg(records(alloc))?
        .arg(seed(alloc))?
        .arg(lose(alloc))?
        .arg(hold(alloc))?
        .arg(trace(alloc))?
        .arg(page(alloc))
}

// The folder of the traces that are audited.
fn audited<'a>(alloc: Global) -> Arg<'a>
    ensures rule { rule_of result ≡ audited_rule }
    ensures local { result.global ≡ false }
{
    Arg::new(alloc, "DIR")
        .required(true)
        .action(ArgAction::Set)
        .value_parser(ValueParser::NonEmptyString)
        .help("The folder of the traces")
}

// The folder of the logs that are compared.
fn logs<'a>(alloc: Global) -> Arg<'a>
    ensures rule { rule_of result ≡ logs_rule }
    ensures local { result.global ≡ false }
{
    Arg::new(alloc, "dir")
        .long("dir")
        .value_name("LOGS")
        .action(ArgAction::Set)
        .value_parser(ValueParser::NonEmptyString)
        .help("Compares the logs of this folder with those to which the traces lead")
}

// `audit`.
fn audit_usage<'a>(alloc: Global) -> Result<Command<'a>, AllocError>
    ensures app { IfOk result (λ command. app_of command ≡ audit_app) }
    ensures local { IfOk result (λ command. (out-Command command).has_globals ≡ false) }
{
    Command::new(alloc, "audit")
        .about("Says whether a server that ran was exactly-once, by the traces that it left")
        .arg(audited(alloc))?
        .arg(logs(alloc))?
        .arg(page(alloc))
}

// The program, of which a subcommand has to be named.
fn program_usage<'a>(alloc: Global) -> Result<Command<'a>, AllocError>
    ensures app { IfOk result
        (λ command. app_of command ≡ with_needed_subcommand (new_app (codes "kx"))) }
    ensures local { IfOk result (λ command. (out-Command command).has_globals ≡ false) }
{
    Command::new(alloc, "kx")
        .about("An exactly-once core for Kafka's protocol")
        .subcommand_required(true)
        .bin_name("kx")
}

/// The command line: `kx sim`, `kx dump FILE`, `kx serve`, `kx kafka`, `kx demo` or `kx audit DIR`.
///
/// # Errors
///
/// Out of memory.
pub fn command_line<'a>(alloc: Global) -> Result<Command<'a>, AllocError>
    ensures { IfOk result (λ command. app_of command ≡ program_app) }
{
    program_usage(alloc)?
        .subcommand(sim_usage(alloc)?)?
        .subcommand(dump_usage(alloc)?)?
        .subcommand(serve_usage(alloc)?)?
        .subcommand(kafka_usage(alloc)?)?
        .subcommand(demo_usage(alloc)?)?
        .subcommand(audit_usage(alloc)?)
}
