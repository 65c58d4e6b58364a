//! Scripts that are run and drawn, and servers that were audited.
ghost use Rattle.std.specs.Prelude.{◌≡◌, ◌⊎◌, IfOk, OnOk, Some, length};
ghost use Rattle.std.specs.Io.Buffered.{writer_contents};
ghost use Rattle.kx_program.specs.Drawing.{rows_of};
ghost use Rattle.kx_program.specs.Program.{Answers, Draws, Simulates};
ghost use Rattle.kx_watch.specs.Steps.{AddsSteps};
ghost use Rattle.kx_text.specs.declared.program.Ending.TheVariants as ending;

use crate::streams::{failed, sim};
use crate::task::{Auditing, Pictures};
use kx_page::{Run, diagram, page};
use kx_server_audit::{ServerFolders, end_steps, server_steps};
use kx_text::{Ending, ScriptFault};
use kx_trace_audit::ToldStep;
use kx_watch::{Watched, all_partitions, run_of_script};
use std::alloc::{AllocError, Global};
use std::fs;
use std::fs::{File, Files};
use std::io::{BufRead, BufWriter, Read, Write};

// Writes a picture into a file, and says whether it is there; if not, a line on standard error
// says why.
fn drawn<R: Files<File = File>, E: Write>(
    rt: &R,
    path: &str,
    picture: Result<Vec<u8>, AllocError>,
    errors: &mut E,
) -> bool {
    let Ok(picture) = picture else {
        let _ = failed(errors, ScriptFault::Memory);
        return false;
    };
    match fs::write(rt, path, picture) {
        Ok(()) => true,
        Err(error) => {
            let _ = failed(errors, format_args!("{path}: {error}"));
            false
        }
    }
}

// Draws a run into the files that are asked for, and says whether all of them stand.
fn draw_run<R: Files<File = File> + AllocGlobal, E: Write>(
    rt: &R,
    asked: Pictures<'_>,
    run: &Run,
    errors: &mut E,
) -> bool {
    if let Some(path) = asked.page {
        if !drawn(rt, path, page(rt.alloc(), run), errors) {
            return false;
        }
    }
    match asked.diagram {
        Some(path) => drawn(rt, path, diagram(rt.alloc(), run), errors),
        None => true,
    }
}

// Draws a run into the files that are asked for, if there was memory for it, and says whether all of
// them stand.
fn draw<R: Files<File = File> + AllocGlobal, E: Write>(
    rt: &R,
    asked: Pictures<'_>,
    run: Result<Run, AllocError>,
    errors: &mut E,
) -> bool {
    match run {
        Ok(run) => {
            let stand = draw_run(rt, asked, &run, errors);
            run.end();
            stand
        }
        Err(_) => {
            let _ = failed(errors, ScriptFault::Memory);
            false
        }
    }
}

// Runs a script of which all bytes are there, and then draws it.
fn sim_and_draw<R: Files<File = File> + AllocGlobal, O: Write + Drop, E: Write>(
    rt: &R,
    asked: Pictures<'_>,
    script: &[u8],
    out: &mut BufWriter<O>,
    errors: &mut E,
) -> Ending
    ensures { Simulates (Some script.now) (writer_contents O.contents out.old)
        (writer_contents O.contents out.new) result
        ⊎ ((result ≡ ending.Failed) × Answers (Some script.now)
        (writer_contents O.contents out.old) (writer_contents O.contents out.new)) }
{
    let mut rest = script;
    let ran = sim(rt.alloc(), &mut rest, out, errors);
    let run = run_of_script(rt.alloc(), "A script", script);
    if draw(rt, asked, run, errors) {
        ran
    } else {
        Ending::Failed
    }
}

/// Runs the script that the input has, draws it if that is asked for, and says how the program ends:
/// as without pictures, or `Failed` if the input can't be read whole or a picture can't be written.
pub(crate) fn sim_with<R: Files<File = File> + AllocGlobal, I: BufRead, O: Write + Drop, E: Write>(
    rt: &R,
    asked: Pictures<'_>,
    input: &mut I,
    out: &mut BufWriter<O>,
    errors: &mut E,
) -> Ending
    ensures { Draws asked.entry (I.remaining input.old) (writer_contents O.contents out.old)
        (writer_contents O.contents out.new) result }
{
    if asked.page.is_none() && asked.diagram.is_none() {
        return sim(rt.alloc(), input, out, errors);
    }
    let mut script = Vec::new(rt.alloc());
    match input.read_to_end(&mut script) {
        Ok(_) => sim_and_draw(rt, asked, script.as_slice(), out, errors),
        Err(error) => failed(errors, error),
    }
}

// Each step of a server is made again, and watched.
fn take_all(watched: &mut Watched, steps: &[ToldStep]) -> Result<(), AllocError>
    ensures { OnOk result (AddsSteps (rows_of steps.now) watched.old watched.new) }
{
    for step in steps {
        watched.take(step.node, &step.input, step.store)?;
    }
    Ok(())
}

// The run that these steps of a server are.
fn server_run(alloc: Global, steps: &[ToldStep]) -> Result<Run, AllocError>
    ensures { IfOk result (λ run. length run.steps.items ≡ rows_of steps.now) }
{
    let mut watched = Watched::new(alloc, all_partitions())?;
    let taken = take_all(&mut watched, steps);
    watched.into_run("A server", taken)
}

/// The folders of the server that is audited.
pub(crate) fn folders_of<'a, R: Files<File = File>>(
    rt: &'a R,
    asked: &Auditing<'a>,
) -> ServerFolders<'a, R> {
    ServerFolders::new(rt, asked.traces, asked.logs.unwrap_or(""))
}

/// Draws the steps of a server into the file at this path, by the traces that it left, and says
/// whether the page is there. If not, a line on standard error says why.
pub(crate) fn draw_server<R: Files<File = File> + AllocGlobal + Eprint, E: Write>(
    rt: &R,
    asked: &Auditing<'_>,
    path: &str,
    errors: &mut E,
) -> bool {
    match server_steps(rt, &folders_of(rt, asked), asked.logs.is_some()) {
        Ok(steps) => {
            let run = server_run(rt.alloc(), steps.as_slice());
            end_steps(steps);
            let pictures = Pictures {
                page: Some(path),
                diagram: None,
            };
            draw(rt, pictures, run, errors)
        }
        Err(fault) => {
            let _ = failed(errors, fault);
            false
        }
    }
}
