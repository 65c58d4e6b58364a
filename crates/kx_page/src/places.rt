//! Where things are in the diagram, in pixels. A place past what a usize holds is the last one.
ghost use Rattle.std.specs.Prelude.{◌≡◌};
ghost use Rattle.kx_page.specs.Places.{down, halfway, placed, width_of, x_of, y_of};

/// How far one step is below the step before.
pub(crate) const ROW: usize = 26;

/// How far a lane is right of the lane before.
pub(crate) const LANE: usize = 152;

/// The left edge of a box in its lane.
pub(crate) const LEFT: usize = 18;

/// The middle of a lane.
pub(crate) const MIDDLE: usize = 76;

/// Right of a dot in its lane.
pub(crate) const BESIDE: usize = 84;

/// The right edge of a box in its lane.
pub(crate) const RIGHT: usize = 134;

/// How wide a box is.
pub(crate) const BOX_WIDTH: usize = 116;

/// The room right of the last lane, for what its steps say.
pub(crate) const MARGIN: usize = 50;

/// The upper edge of a box in its row.
pub(crate) const UPPER: usize = 4;

/// The middle of a row.
pub(crate) const CENTRE: usize = 13;

/// On which line of its row a step's words stand.
pub(crate) const WORDS: usize = 17;

/// Where a line across a lane is in its row.
pub(crate) const LOWER: usize = 23;

/// On which line the words of a last stable offset stand.
pub(crate) const UNDER: usize = 29;

/// How high the names of the lanes are.
pub(crate) const NAMES: usize = 28;

/// How far the name of a message is below the middle of its arrow.
pub(crate) const NAME: usize = 3;

/// A place this far below or right of another.
pub(crate) fn down(place: usize, more: usize) -> usize
    ensures { result ≡ down place more }
{
    place.saturating_add(more)
}

// The place `more` below or right of `count` lengths.
fn placed(count: usize, each: usize, more: usize) -> usize
    ensures { result ≡ placed count each more }
{
    down(count.saturating_mul(each), more)
}

/// A place so far right of the left edge of a lane.
pub(crate) fn x_of(lane: usize, more: usize) -> usize
    ensures { result ≡ x_of lane more }
{
    placed(lane, LANE, more)
}

/// A place so far below the upper edge of a step's row.
pub(crate) fn y_of(step: usize, more: usize) -> usize
    ensures { result ≡ y_of step more }
{
    placed(step, ROW, more)
}

/// The place halfway between two.
pub(crate) fn halfway(one: usize, other: usize) -> usize
    ensures { result ≡ halfway one other }
{
    one / 2 + other / 2
}

/// How wide n lanes are, with room for what the last one says.
pub(crate) fn width_of(lanes: usize) -> usize
    ensures { result ≡ width_of lanes }
{
    placed(lanes, LANE, MARGIN)
}
