//! The space-time diagram of a run, in SVG.
//!
//! A part of it has the rows of some steps, one after the other, and of every arrow what crosses
//! these rows; so a page can show the parts that are looked at, and leave the others out.
ghost use Rattle.std.specs.Prelude.{◌≡◌, ◌≤◌, ◌++◌, OnOk, length};
ghost use Rattle.kx_page.specs.Drawing.{about, across, arrow_end, arrow_head, arrow_in, arrow_line};
ghost use Rattle.kx_page.specs.Drawing.{arrows_in, class_of, client_of, dot, framed, image, lane_line};
ghost use Rattle.kx_page.specs.Drawing.{lane_lines, lane_name, lane_names, link_head, mark_class};
ghost use Rattle.kx_page.specs.Drawing.{producer_of, shape, shown, stable, step_of, steps_in, title};
ghost use Rattle.kx_page.specs.Drawing.{waiting, way_class, words_at};
ghost use Rattle.kx_page.specs.Pieces.{piece_text};

use crate::piece::Piece::{self, Count, Markup, Number, Value};
use crate::piece::add;
use crate::places::{
    BESIDE, BOX_WIDTH, CENTRE, LEFT, LOWER, MIDDLE, NAME, RIGHT, ROW, UNDER, UPPER, WORDS, down,
    halfway, width_of, x_of, y_of,
};
use crate::run::{Arrow, Fate, Lane, Mark, Run, Step, Way};
use crate::texts::{
    ACROSS, ARROW, ARROW_HEAD, BOX, DOT, HEAD_END, IMAGE, LANE_LINE, LANE_NAME, OF_CLIENT, OF_LANE,
    OF_PRODUCER, STABLE, STEP_HEAD, STEP_TITLE, WAITING,
};
use std::alloc::AllocError;

/// The rows of some steps: from `first` on, up to `end`.
#[derive(Clone, Copy)]
pub(crate) struct Part {
    pub(crate) first: usize,
    pub(crate) end: usize,
}

/// The class of what is about a transaction.
pub(crate) fn class_of(fate: Fate) -> &'static str
    ensures { result.now ≡ class_of fate }
{
    match fate {
        Fate::Plain => "n",
        Fate::Open => "o",
        Fate::Committed => "c",
        Fate::Aborted => "a",
    }
}

// Adds the attribute that has the client, if there is one.
fn client_of(out: &mut Vec<u8>, client: Option<u32>) -> Result<(), AllocError>
    ensures { OnOk result (out.new.items ≡ out.old.items ++ client_of client) }
{
    match client {
        Some(client) => add(out, OF_CLIENT, &[Count(client as usize)]),
        None => Ok(()),
    }
}

// Adds the attribute that has the producer id, if there is one.
fn producer_of(out: &mut Vec<u8>, producer: Option<i64>) -> Result<(), AllocError>
    ensures { OnOk result (out.new.items ≡ out.old.items ++ producer_of producer) }
{
    match producer {
        Some(producer) => add(out, OF_PRODUCER, &[Number(producer)]),
        None => Ok(()),
    }
}

/// Adds the attributes by which a page leaves out what isn't asked for: the lane, the client and
/// the producer id.
pub(crate) fn about(
    out: &mut Vec<u8>,
    lane: usize,
    client: Option<u32>,
    producer: Option<i64>,
) -> Result<(), AllocError>
    ensures { OnOk result (out.new.items ≡ out.old.items ++ about lane client producer) }
{
    add(out, OF_LANE, &[Count(lane)])?;
    client_of(out, client)?;
    producer_of(out, producer)
}

// Adds the line from a batch's box to the marker that ended its transaction.
fn waiting(out: &mut Vec<u8>, number: usize, step: &Step) -> Result<(), AllocError>
    ensures { OnOk result (out.new.items ≡ out.old.items ++ waiting number step.now) }
{
    let Some(ended) = step.ended else {
        return Ok(());
    };
    add(
        out,
        WAITING,
        &[
            Markup(class_of(step.fate)),
            Count(x_of(step.lane, LEFT)),
            Count(y_of(number, CENTRE)),
            Count(y_of(ended, CENTRE)),
        ],
    )
}

// Adds a box, whose corners are as round as this says.
fn framed(
    out: &mut Vec<u8>,
    number: usize,
    lane: usize,
    corners: &'static str,
) -> Result<(), AllocError>
    ensures { OnOk result (out.new.items ≡ out.old.items ++ framed number lane corners.now) }
{
    add(
        out,
        BOX,
        &[
            Count(x_of(lane, LEFT)),
            Count(y_of(number, UPPER)),
            Count(BOX_WIDTH),
            Markup(corners),
        ],
    )
}

// Adds the line across a lane at which its node was opened again, or its store failed.
fn across(out: &mut Vec<u8>, number: usize, lane: usize) -> Result<(), AllocError>
    ensures { OnOk result (out.new.items ≡ out.old.items ++ across number lane) }
{
    add(
        out,
        ACROSS,
        &[
            Count(x_of(lane, LEFT)),
            Count(y_of(number, LOWER)),
            Count(BOX_WIDTH),
        ],
    )
}

// Adds a dot.
fn dot(out: &mut Vec<u8>, number: usize, lane: usize) -> Result<(), AllocError>
    ensures { OnOk result (out.new.items ≡ out.old.items ++ dot number lane) }
{
    add(
        out,
        DOT,
        &[Count(x_of(lane, MIDDLE)), Count(y_of(number, CENTRE))],
    )
}

// Adds the shape of a step.
fn shape(out: &mut Vec<u8>, number: usize, lane: usize, mark: Mark) -> Result<(), AllocError>
    ensures { OnOk result (out.new.items ≡ out.old.items ++ shape number lane mark) }
{
    match mark {
        Mark::Dot => dot(out, number, lane),
        Mark::Batch => framed(out, number, lane, "2"),
        Mark::Marker => framed(out, number, lane, "9"),
        Mark::Restart | Mark::Failure => across(out, number, lane),
    }
}

// The class of a step's mark.
fn mark_class(mark: Mark) -> &'static str
    ensures { result.now ≡ mark_class mark }
{
    match mark {
        Mark::Dot => "dot ",
        Mark::Batch => "batch ",
        Mark::Marker => "marker ",
        Mark::Restart => "restart ",
        Mark::Failure => "failure ",
    }
}

// Where a step's words stand in its lane: in the middle of a box, or beside a dot.
fn words_at(mark: Mark) -> usize
    ensures { result ≡ words_at mark }
{
    match mark {
        Mark::Dot => BESIDE,
        Mark::Batch | Mark::Marker | Mark::Restart | Mark::Failure => MIDDLE,
    }
}

// Adds what a step did, and ends the link.
fn title(out: &mut Vec<u8>, number: usize, step: &Step) -> Result<(), AllocError>
    ensures { OnOk result (out.new.items ≡ out.old.items ++ title number step.now) }
{
    add(
        out,
        STEP_TITLE,
        &[
            Count(x_of(step.lane, words_at(step.mark))),
            Count(y_of(number, WORDS)),
            Value(step.title.as_bytes()),
        ],
    )
}

// Adds the line at which the last stable offset of a partition changed.
fn stable(out: &mut Vec<u8>, number: usize, step: &Step) -> Result<(), AllocError>
    ensures { OnOk result (out.new.items ≡ out.old.items ++ stable number step.now) }
{
    let Some(offset) = step.stable else {
        return Ok(());
    };
    add(
        out,
        STABLE,
        &[
            Count(x_of(step.lane, LEFT)),
            Count(y_of(number, ROW)),
            Count(BOX_WIDTH),
            Count(x_of(step.lane, RIGHT)),
            Count(y_of(number, UNDER)),
            Number(offset),
        ],
    )
}

// Adds the head of the link from a step to its row.
fn link_head(out: &mut Vec<u8>, number: usize, step: &Step) -> Result<(), AllocError>
    ensures { OnOk result (out.new.items ≡ out.old.items ++ link_head number step.now) }
{
    add(
        out,
        STEP_HEAD,
        &[
            Markup(mark_class(step.mark)),
            Markup(class_of(step.fate)),
            Count(number),
        ],
    )?;
    about(out, step.lane, step.client, step.producer)?;
    add(out, HEAD_END, &[])
}

// Adds a step: its shape and what it did are a link to its row.
fn step_of(out: &mut Vec<u8>, number: usize, step: &Step) -> Result<(), AllocError>
    ensures { OnOk result (out.new.items ≡ out.old.items ++ step_of number step.now) }
{
    waiting(out, number, step)?;
    link_head(out, number, step)?;
    shape(out, number, step.lane, step.mark)?;
    title(out, number, step)?;
    stable(out, number, step)
}

// The class of a message's way.
fn way_class(way: Way) -> &'static str
    ensures { result.now ≡ way_class way }
{
    match way {
        Way::First => "m ",
        Way::Again => "m again ",
        Way::Lost => "m lost ",
        Way::Outside => "m out ",
    }
}

// Where an arrow ends: at the step that took its message, or in the lane of a client outside; a lost
// one ends on its way there.
fn arrow_end(arrow: &Arrow) -> (usize, usize)
    ensures { result ≡ arrow_end arrow.now }
{
    let below = y_of(arrow.sent, ROW);
    let there = x_of(arrow.to, MIDDLE);
    match arrow.way {
        Way::First | Way::Again => (there, y_of(arrow.taken, CENTRE)),
        Way::Outside => (there, below),
        Way::Lost => (halfway(x_of(arrow.from, MIDDLE), there), below),
    }
}

// Adds the head of an arrow.
fn arrow_head(out: &mut Vec<u8>, arrow: &Arrow) -> Result<(), AllocError>
    ensures { OnOk result (out.new.items ≡ out.old.items ++ arrow_head arrow.now) }
{
    add(
        out,
        ARROW_HEAD,
        &[
            Markup(way_class(arrow.way)),
            Markup(class_of(arrow.fate)),
            Count(arrow.sent),
            Count(arrow.taken),
        ],
    )?;
    about(out, arrow.to, arrow.client, arrow.producer)?;
    add(out, HEAD_END, &[])
}

// Adds the line of an arrow, with the name of its message in the middle of it.
fn arrow_line(out: &mut Vec<u8>, arrow: &Arrow) -> Result<(), AllocError>
    ensures { OnOk result (out.new.items ≡ out.old.items ++ arrow_line arrow.now) }
{
    let from = x_of(arrow.from, MIDDLE);
    let sent = y_of(arrow.sent, CENTRE);
    let (to, taken) = arrow_end(arrow);
    add(
        out,
        ARROW,
        &[
            Count(from),
            Count(sent),
            Count(to),
            Count(taken),
            Value(arrow.text.as_bytes()),
            Count(halfway(from, to)),
            Count(down(halfway(sent, taken), NAME)),
            Value(arrow.name.as_bytes()),
        ],
    )
}

// Adds an arrow if it crosses the rows of a part.
fn arrow_in(out: &mut Vec<u8>, part: Part, arrow: &Arrow) -> Result<(), AllocError>
    ensures { OnOk result
        (out.new.items ≡ out.old.items ++ arrow_in part.first part.end arrow.now) }
{
    if arrow.sent < part.end && part.first <= arrow.taken {
        arrow_head(out, arrow)?;
        arrow_line(out, arrow)
    } else {
        Ok(())
    }
}

// Adds the arrows that cross the rows of a part.
fn arrows_in(out: &mut Vec<u8>, part: Part, all: &[Arrow]) -> Result<(), AllocError>
    ensures { OnOk result
        (out.new.items ≡ out.old.items ++ arrows_in part.first part.end all.now) }
{
    for arrow in all {
        arrow_in(out, part, arrow)?;
    }
    Ok(())
}

// Adds the line of a lane through the rows of a part.
fn lane_line(out: &mut Vec<u8>, part: Part, lane: usize) -> Result<(), AllocError>
    ensures { OnOk result
        (out.new.items ≡ out.old.items ++ lane_line part.first part.end lane) }
{
    add(
        out,
        LANE_LINE,
        &[
            Count(x_of(lane, MIDDLE)),
            Count(y_of(part.first, 0)),
            Count(y_of(part.end, 0)),
        ],
    )
}

// Adds the line of each lane through the rows of a part.
fn lane_lines(out: &mut Vec<u8>, part: Part, all: &[Lane]) -> Result<(), AllocError>
    ensures { OnOk result
        (out.new.items ≡ out.old.items ++ lane_lines part.first part.end all.now) }
{
    for lane in 0..all.len() {
        lane_line(out, part, lane)?;
    }
    Ok(())
}

// Adds the steps of a part.
fn steps_in(out: &mut Vec<u8>, part: Part, all: &[Step]) -> Result<(), AllocError>
    requires { (part.first ≤ part.end) × (part.end ≤ length all.now) }
    ensures { OnOk result
        (out.new.items ≡ out.old.items ++ steps_in part.first part.end all.now) }
{
    for number in part.first..part.end {
        step_of(out, number, &all[number])?;
    }
    Ok(())
}

/// Adds what a part shows, without the element around it.
///
/// # Errors
///
/// Only if memory runs out.
pub(crate) fn shown(out: &mut Vec<u8>, run: &Run, part: Part) -> Result<(), AllocError>
    requires { (part.first ≤ part.end) × (part.end ≤ length run.now.steps.items) }
    ensures { OnOk result
        (out.new.items ≡ out.old.items ++ shown part.first part.end run.now) }
{
    lane_lines(out, part, run.lanes.as_slice())?;
    arrows_in(out, part, run.arrows.as_slice())?;
    steps_in(out, part, run.steps.as_slice())
}

// Adds the name of a lane.
fn lane_name(out: &mut Vec<u8>, number: usize, lane: &Lane) -> Result<(), AllocError>
    ensures { OnOk result (out.new.items ≡ out.old.items ++ lane_name number lane.now) }
{
    add(
        out,
        LANE_NAME,
        &[Count(x_of(number, MIDDLE)), Value(lane.name.as_bytes())],
    )
}

/// Adds the name of each lane.
///
/// # Errors
///
/// Only if memory runs out.
pub(crate) fn lane_names(out: &mut Vec<u8>, lanes: &[Lane]) -> Result<(), AllocError>
    ensures { OnOk result (out.new.items ≡ out.old.items ++ lane_names lanes.now) }
{
    for number in 0..lanes.len() {
        lane_name(out, number, &lanes[number])?;
    }
    Ok(())
}

/// Adds the head of an image that is as wide as n lanes, of this height, from this place on.
///
/// # Errors
///
/// Only if memory runs out.
pub(crate) fn image(
    out: &mut Vec<u8>,
    lanes: usize,
    top: Piece<'static>,
    height: usize,
) -> Result<(), AllocError>
    ensures { OnOk result
        (out.new.items ≡ out.old.items ++ image lanes (piece_text top.entry) height) }
{
    let width = width_of(lanes);
    add(
        out,
        IMAGE,
        &[
            Count(width),
            Count(height),
            top,
            Count(width),
            Count(height),
        ],
    )
}
