//! The program: its words, standard streams and exit status. What it does with them is
//! kx_program's.
#![tactic(auto)]

use kx_program::{failed, run};
use std::alloc::Global;
use std::env::Env;
use std::io::{BufReader, BufWriter, IsTerminal};
use std::process::ExitCode;
use std::{env, io};

// The words of the command line.
fn words_of(rt: &(impl Env + AllocGlobal)) -> io::Result<Vec<String>> {
    Ok(env::args(rt)?.collect(rt.alloc())?)
}

fn main(rt: HostRuntime) -> ExitCode {
    let mut errors = rt.stderr();
    let is_watched = errors.is_terminal();
    let input = BufReader::new(rt.alloc(), rt.stdin());
    let out = BufWriter::new(rt.alloc(), rt.stdout());
    let ending = match (input, out) {
        (Ok(mut input), Ok(mut out)) => {
            let words = words_of(&rt);
            run(&rt, words, is_watched, &mut input, &mut out, &mut errors)
        }
        _ => failed(&mut errors, "out of memory"),
    };
    ExitCode::from(ending.status())
}
