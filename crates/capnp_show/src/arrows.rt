//! The arrows of a drawing, from each pointer to the object that it leads to.
//!
//! An arrow runs only in the gaps between the cells. From the right of its pointer it runs in the
//! gap after that column, then in the gap above the object's row, to the left of the object's first
//! cell. Cells, gaps and headings have fixed sizes, so its corners are computed. In a segment of up
//! to eight rows no arrow runs over an arrow to another object. In the gap after a column each row
//! has a lane of its own, and in the gap above a row each column has one.
ghost use Rattle.std.specs.Prelude.{◌≡◌, ◌⊎◌, ◌+◌, ◌*◌, ◌/◌, ◌^◌, ◌<◌, ℕ, None, length, slice_get, MatchOption, ◌++◌, IfOk, OnOk, codes, string_bytes};
ghost use Rattle.capnp_show.specs.Arrows.{height_of, AreTops, IsCorner, AddsArrowOf, HasNoArrow, arrow_front, arrow_head, arrow_of, turns_between, sizes_rule};
ghost use Rattle.capnp_show.specs.Output.{with_number};

use crate::drawn::{ROW_WORDS, colour_of};
use crate::numbers::push_counted;
use crate::owners::{Owners, Word};
use capnp::layout::Place;
use std::alloc::{AllocError, Global};
use std::fmt::Write;

// Sizes in pixels.
const NUMBER_WIDTH: u64 = 44;

const CELL_WIDTH: u64 = 132;

const CELL_HEIGHT: u64 = 26;

const COLUMN_GAP: u64 = 40;

const ROW_GAP: u64 = 14;

const HEADING_HEIGHT: u64 = 34;

// The left of the first cell of a row, after the row's number and a gap.
const FIRST_LEFT: u64 = NUMBER_WIDTH + COLUMN_GAP;

// The distance from one column to the next, and from one row to the next.
const COLUMN_STEP: u64 = CELL_WIDTH + COLUMN_GAP;

const ROW_STEP: u64 = CELL_HEIGHT + ROW_GAP;

// How many arrows run side by side in the gap after a column, and how far apart.
const LANES: u64 = 8;

const LANE_STEP: u64 = 3;

// The width of a drawing.
const WIDTH: u64 = FIRST_LEFT + 4 * COLUMN_STEP;

/// Adds the sizes that the style names.
pub fn push_sizes(markup: &mut String) -> Result<(), AllocError>
    ensures { OnOk result (string_bytes markup.new ≡ string_bytes markup.old ++ sizes_rule) }
{
    write!(
        markup,
        ":root {{ --number-width: {NUMBER_WIDTH}px; --cell-width: {CELL_WIDTH}px; \
--cell-height: {CELL_HEIGHT}px; --column-gap: {COLUMN_GAP}px; --row-gap: {ROW_GAP}px; \
--heading-height: {HEADING_HEIGHT}px; --drawing-width: {WIDTH}px; }}\n"
    )
}

/// The height of the part of a drawing that shows a segment of this many words.
pub fn part_height(words: usize) -> u64
    ensures { result ≡ height_of words }
{
    let rows = words.div_ceil(ROW_WORDS) as u64;
    let gaps = HEADING_HEIGHT + ROW_GAP;
    rows.saturating_mul(ROW_STEP).saturating_add(gaps)
}

/// The left and the top of a cell.
#[derive(Clone, Copy)]
pub struct Corner {
    pub left: u64,
    pub top: u64,
}

/// Where the cells of a message's words are.
#[derive(Drop)]
pub struct Grid {
    // The top of each segment's first row.
    tops: Vec<u64>,
}

impl Grid {
    /// Where the cells of these words are.
    pub fn new(alloc: Global, owners: &Owners) -> Result<Grid, AllocError>
        ensures { IfOk result (λ grid. (height : ℕ)
            × AreTops owners.now.segments.items grid.tops.items height) }
    {
        let mut tops = Vec::new(alloc);
        let mut height: u64 = 0;
        for words in owners.segments() {
            tops.push(height.saturating_add(HEADING_HEIGHT + ROW_GAP))?;
            height = height.saturating_add(part_height(words.len()));
        }
        Ok(Grid { tops })
    }

    /// Adds the arrow of the word at a place, where it leads to a word.
    pub fn push_arrow(
        &self,
        markup: &mut String,
        owners: &Owners,
        place: Place,
        word: &Word,
    ) -> Result<(), AllocError>
        ensures { let old = string_bytes markup.old in let new = string_bytes markup.new in OnOk result
            (AddsArrowOf self.now place word.now old new
            ⊎ ((new ≡ old) × HasNoArrow self.now owners.now place word.now)) }
    {
        let Some((number, start)) = word.target() else {
            return Ok(());
        };
        if owners.word(start).is_none() {
            return Ok(());
        }
        match (self.corner(place), self.corner(start)) {
            (Some(from), Some(to)) => push_path(markup, number, from, to),
            _ => Ok(()),
        }
    }

    // Where the cell of a word is: four cells in a row, and the rows of a segment below its top.
    fn corner(&self, place: Place) -> Option<Corner>
        ensures { MatchOption result (slice_get self.now.tops.items place.segment ≡ None)
            (IsCorner self.now place) }
    {
        let top = *self.tops.get(place.segment as usize)?;
        let row = (place.word / ROW_WORDS) as u64;
        let column = (place.word % ROW_WORDS) as u64;
        Some(Corner {
            left: FIRST_LEFT + column * COLUMN_STEP,
            top: top.saturating_add(row.saturating_mul(ROW_STEP)),
        })
    }
}

// Adds the arrow to the object of this number, from one cell to another.
fn push_path(markup: &mut String, number: u64, from: Corner, to: Corner) -> Result<(), AllocError>
    ensures { OnOk result (string_bytes markup.new ≡ string_bytes markup.old ++ arrow_of number from to) }
{
    push_arrow_front(markup, number, from)?;
    push_turns(markup, from, to)?;
    push_arrow_head(markup, to)
}

// Adds the front of an arrow, from the cell where it begins.
fn push_arrow_front(markup: &mut String, number: u64, from: Corner) -> Result<(), AllocError>
    ensures { OnOk result (string_bytes markup.new ≡ string_bytes markup.old ++ arrow_front number from) }
{
    let colour = colour_of(number);
    let right = from.left.saturating_add(CELL_WIDTH);
    let middle = from.top.saturating_add(CELL_HEIGHT / 2);
    push_counted(markup, "<path class=\"c", colour)?;
    push_counted(markup, "\" d=\"M", right)?;
    push_counted(markup, " ", middle)
}

// Adds the head of an arrow, at the cell where it ends.
fn push_arrow_head(markup: &mut String, to: Corner) -> Result<(), AllocError>
    ensures { OnOk result (string_bytes markup.new ≡ string_bytes markup.old ++ arrow_head to) }
{
    let end = to.left.saturating_sub(2);
    push_counted(markup, "H", end)?;
    markup.push_str("m-5 -3l5 3l-5 3\"/>")
}

// Adds the turns of an arrow, where it does not lead to the next cell.
fn push_turns(markup: &mut String, from: Corner, to: Corner) -> Result<(), AllocError>
    ensures { OnOk result (string_bytes markup.new ≡ string_bytes markup.old ++ turns_between from to) }
{
    let right = from.left.saturating_add(CELL_WIDTH);
    if from.top == to.top && to.left == right.saturating_add(COLUMN_GAP) {
        return Ok(());
    }
    let channel = right.saturating_add(4 + from.top / ROW_STEP % LANES * LANE_STEP);
    let lane = to
        .top
        .saturating_sub(3 + to.left / COLUMN_STEP % ROW_WORDS as u64 * LANE_STEP);
    let entry = to.left.saturating_sub(9);
    let middle = to.top.saturating_add(CELL_HEIGHT / 2);
    push_counted(markup, "H", channel)?;
    push_counted(markup, "V", lane)?;
    push_counted(markup, "H", entry)?;
    push_counted(markup, "V", middle)
}
