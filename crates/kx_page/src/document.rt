//! The whole page of a run, in HTML.
ghost use Rattle.std.specs.Prelude.{◌≡◌, ◌≤◌, ◌<◌, ◌+◌, ◌++◌, IfOk, OnOk, length, min};
ghost use Rattle.kx_page.specs.Page.{batch_in, batches_of, diagram_head, diagram_of, head_of, log_head};
ghost use Rattle.kx_page.specs.Page.{log_of, logs_of, names_of, page_of, part_at, part_head, part_of};
ghost use Rattle.kx_page.specs.Page.{parts_of, row_of, rows_in, rule_of, table_at, tail_of};
ghost use Rattle.kx_page.specs.declared.document.TheConstants.{PART};

use crate::drawing::{Part, about, class_of, image, lane_names, shown};
use crate::piece::Piece::{Count, Markup, Number, Value};
use crate::piece::add;
use crate::places::{NAMES, y_of};
use crate::rule::Rule;
use crate::rules::RULES;
use crate::run::{Log, LoggedBatch, Run, Step};
use crate::script::SCRIPT;
use crate::style::{DIAGRAM, PAGE, TIPS};
use crate::texts::{
    BATCH, DIAGRAM_HEAD, DIAGRAM_NAMES_END, END, FORM, HEAD, IMAGE_END, LIST_HEAD, LOG_END,
    LOG_HEAD, LOGS, NAMES_END, NAMES_HEAD, NEXT_TABLE, PART_END, PART_HEAD, ROW_END, ROW_HEAD,
    RULE_LINK, STEP_ROW,
};
use std::alloc::{AllocError, Global};

// How many steps a part of a page has at most: what isn't looked at isn't laid out, part by part.
const PART: usize = 200;

// Where the names of the lanes begin in a diagram alone, above the first step.
const ABOVE: i64 = -28;

// The room for the names of the lanes and below the last step, in a diagram alone.
const AROUND: usize = 54;

// Adds the head of a page.
fn head(out: &mut Vec<u8>, run: &Run) -> Result<(), AllocError>
    ensures { OnOk result (out.new.items ≡ out.old.items ++ head_of run.now) }
{
    let title = run.title.as_bytes();
    add(
        out,
        HEAD,
        &[
            Value(title),
            Markup(DIAGRAM),
            Markup(PAGE),
            Value(title),
            Count(run.steps.len()),
            Count(run.arrows.len()),
            Markup(FORM),
        ],
    )
}

// Adds the names of the lanes, which stay in sight.
fn names(out: &mut Vec<u8>, run: &Run) -> Result<(), AllocError>
    ensures { OnOk result (out.new.items ≡ out.old.items ++ names_of run.now) }
{
    add(out, NAMES_HEAD, &[])?;
    image(out, run.lanes.len(), Count(0), NAMES)?;
    add(out, TIPS, &[])?;
    lane_names(out, run.lanes.as_slice())?;
    add(out, NAMES_END, &[])
}

// Adds the link to the rule by which a step answered, if there is one.
fn rule_of(out: &mut Vec<u8>, rule: Option<Rule>) -> Result<(), AllocError>
    ensures { OnOk result (out.new.items ≡ out.old.items ++ rule_of rule) }
{
    match rule {
        Some(rule) => {
            let anchor = rule.anchor();
            add(out, RULE_LINK, &[Markup(anchor), Markup(anchor)])
        }
        None => Ok(()),
    }
}

// Adds the row of a step.
fn row_of(out: &mut Vec<u8>, number: usize, step: &Step) -> Result<(), AllocError>
    ensures { OnOk result (out.new.items ≡ out.old.items ++ row_of number step.now) }
{
    add(out, ROW_HEAD, &[])?;
    about(out, step.lane, step.client, step.producer)?;
    add(
        out,
        STEP_ROW,
        &[
            Count(number),
            Value(step.title.as_bytes()),
            Value(step.detail.as_bytes()),
        ],
    )?;
    rule_of(out, step.rule)?;
    add(out, ROW_END, &[])
}

// Adds the rows of a part.
fn rows_in(out: &mut Vec<u8>, part: Part, all: &[Step]) -> Result<(), AllocError>
    requires { (part.first ≤ part.end) × (part.end ≤ length all.now) }
    ensures { OnOk result
        (out.new.items ≡ out.old.items ++ rows_in part.first part.end all.now) }
{
    for number in part.first..part.end {
        row_of(out, number, &all[number])?;
    }
    Ok(())
}

// Adds the head of a part, up to its diagram.
fn part_head(out: &mut Vec<u8>, run: &Run, part: Part) -> Result<(), AllocError>
    ensures { OnOk result
        (out.new.items ≡ out.old.items ++ part_head part.first part.end run.now) }
{
    let top = y_of(part.first, 0);
    let height = y_of(part.end, 0).saturating_sub(top);
    add(out, PART_HEAD, &[Count(height)])?;
    image(out, run.lanes.len(), Count(top), height)
}

// Adds a part: its diagram, and the list of its rows.
fn part_of(out: &mut Vec<u8>, run: &Run, part: Part) -> Result<(), AllocError>
    requires { (part.first ≤ part.end) × (part.end ≤ length run.now.steps.items) }
    ensures { OnOk result
        (out.new.items ≡ out.old.items ++ part_of part.first part.end run.now) }
{
    part_head(out, run, part)?;
    shown(out, run, part)?;
    add(out, LIST_HEAD, &[Count(part.first)])?;
    rows_in(out, part, run.steps.as_slice())?;
    add(out, PART_END, &[])
}

// Where the part that begins at a step ends, in a run of n steps.
fn part_end(first: usize, steps: usize) -> usize
    requires { first ≤ steps }
    ensures { result ≡ min (first + PART) steps }
{
    if steps - first < PART {
        steps
    } else {
        first + PART
    }
}

// Adds the part that begins at a step, if one does.
fn part_at(out: &mut Vec<u8>, run: &Run, number: usize) -> Result<(), AllocError>
    requires { number < length run.now.steps.items }
    ensures { OnOk result (out.new.items ≡ out.old.items ++ part_at run.now number) }
{
    if number % PART == 0 {
        let end = part_end(number, run.steps.len());
        part_of(out, run, Part { first: number, end })
    } else {
        Ok(())
    }
}

// Adds all parts.
fn parts(out: &mut Vec<u8>, run: &Run) -> Result<(), AllocError>
    ensures { OnOk result (out.new.items ≡ out.old.items ++ parts_of run.now) }
{
    for number in 0..run.steps.len() {
        part_at(out, run, number)?;
    }
    Ok(())
}

// Adds the end of a table and the head of the next one before the batch that begins it, so that no
// table is longer than a part.
fn table_at(out: &mut Vec<u8>, number: usize) -> Result<(), AllocError>
    ensures { OnOk result (out.new.items ≡ out.old.items ++ table_at number) }
{
    if 0 < number && number % PART == 0 {
        add(out, NEXT_TABLE, &[])
    } else {
        Ok(())
    }
}

// Adds a batch, in its table.
fn batch_in(out: &mut Vec<u8>, number: usize, batch: &LoggedBatch) -> Result<(), AllocError>
    ensures { OnOk result (out.new.items ≡ out.old.items ++ batch_in number batch.now) }
{
    table_at(out, number)?;
    add(
        out,
        BATCH,
        &[
            Markup(class_of(batch.fate)),
            Number(batch.offset),
            Value(batch.kind.as_bytes()),
            Value(batch.records.as_slice()),
            Value(batch.reading.as_bytes()),
        ],
    )
}

// Adds the batches of a log.
fn batches(out: &mut Vec<u8>, all: &[LoggedBatch]) -> Result<(), AllocError>
    ensures { OnOk result (out.new.items ≡ out.old.items ++ batches_of all.now) }
{
    for number in 0..all.len() {
        batch_in(out, number, &all[number])?;
    }
    Ok(())
}

// Adds the head of a log.
fn log_head(out: &mut Vec<u8>, log: &Log) -> Result<(), AllocError>
    ensures { OnOk result (out.new.items ≡ out.old.items ++ log_head log.now) }
{
    add(
        out,
        LOG_HEAD,
        &[
            Value(log.name.as_bytes()),
            Number(log.stable),
            Number(log.end),
        ],
    )
}

// Adds a log.
fn log(out: &mut Vec<u8>, log: &Log) -> Result<(), AllocError>
    ensures { OnOk result (out.new.items ≡ out.old.items ++ log_of log.now) }
{
    log_head(out, log)?;
    batches(out, log.batches.as_slice())?;
    add(out, LOG_END, &[])
}

// Adds the logs.
fn logs(out: &mut Vec<u8>, all: &[Log]) -> Result<(), AllocError>
    ensures { OnOk result (out.new.items ≡ out.old.items ++ logs_of all.now) }
{
    for given in all {
        log(out, given)?;
    }
    Ok(())
}

// Adds what is beside and below the steps: the logs, the rules, and the page's script.
fn tail(out: &mut Vec<u8>, run: &Run) -> Result<(), AllocError>
    ensures { OnOk result (out.new.items ≡ out.old.items ++ tail_of run.now) }
{
    add(out, LOGS, &[])?;
    logs(out, run.logs.as_slice())?;
    add(out, END, &[Markup(RULES), Markup(SCRIPT)])
}

// Adds a whole page.
fn whole(out: &mut Vec<u8>, run: &Run) -> Result<(), AllocError>
    ensures { OnOk result (out.new.items ≡ out.old.items ++ page_of run.now) }
{
    head(out, run)?;
    names(out, run)?;
    parts(out, run)?;
    tail(out, run)
}

/// The page of a run, in HTML: the diagram with a row for each step, in order; the logs as they end;
/// the rules. It loads nothing from elsewhere. No value of the run can become markup.
///
/// # Errors
///
/// Only if memory runs out.
pub fn page(alloc: Global, run: &Run) -> Result<Vec<u8>, AllocError>
    ensures { IfOk result (λ page. page.items ≡ page_of run.now) }
{
    let mut out = Vec::new(alloc);
    whole(&mut out, run)?;
    Ok(out)
}

// Adds the head of an image of its own, up to the names of the lanes.
fn diagram_head(out: &mut Vec<u8>, run: &Run) -> Result<(), AllocError>
    ensures { OnOk result (out.new.items ≡ out.old.items ++ diagram_head run.now) }
{
    let height = y_of(run.steps.len(), AROUND);
    image(out, run.lanes.len(), Number(ABOVE), height)?;
    add(
        out,
        DIAGRAM_HEAD,
        &[
            Value(run.title.as_bytes()),
            Markup(DIAGRAM),
            Number(ABOVE),
            Markup(TIPS),
            Number(ABOVE),
        ],
    )
}

// Adds the diagram of a whole run as an image of its own.
fn drawn(out: &mut Vec<u8>, run: &Run) -> Result<(), AllocError>
    ensures { OnOk result (out.new.items ≡ out.old.items ++ diagram_of run.now) }
{
    let end = run.steps.len();
    diagram_head(out, run)?;
    lane_names(out, run.lanes.as_slice())?;
    add(out, DIAGRAM_NAMES_END, &[])?;
    shown(out, run, Part { first: 0, end })?;
    add(out, IMAGE_END, &[])
}

/// The diagram of a run alone, in SVG. No value of the run can become markup.
///
/// # Errors
///
/// Only if memory runs out.
pub fn diagram(alloc: Global, run: &Run) -> Result<Vec<u8>, AllocError>
    ensures { IfOk result (λ image. image.items ≡ diagram_of run.now) }
{
    let mut out = Vec::new(alloc);
    drawn(&mut out, run)?;
    Ok(out)
}
