// FRAME (document 02, E2): the least allowance whose sheet is no wider than a frame of so many squares, by halving.
#![tactic(auto)]

ghost use Rattle.std.specs.Prelude.{◌≡◌, cond, suc, ◌+◌, ◌-◌, ◌≤◌, T, length, replicate, pos};
ghost use Rattle.plan.specs.Limits.{scratch_size, most_allowance};
ghost use Rattle.plan.specs.Plan.{row};
ghost use Rattle.plan.specs.Fit.{Fit};
ghost use Rattle.plan.specs.Trees.{Column};
ghost use Rattle.plan.specs.Columns.{table_of};
ghost use Rattle.plan.specs.Questions.{refusal, frame, frame_given, «passed»};
ghost use Rattle.rules.specs.Placement.{width};
ghost use Rattle.contours.specs.Sheet.{sheet};
ghost use Rattle.least.specs.Frame.{fits, least_allowance, found};
ghost use Rattle.layout.specs.Laid.{Placeable};
ghost use Rattle.fitting.specs.Fitted.{told, Frames};

use asking::tree::survey;
use asking::{asked, counted_refusal};
use layout::place;
use plan::limits::{MOST_ALLOWANCE, MOST_CELLS, SCRATCH_SIZE};
use plan::{Columns, Refusal};
use positions::sheet_width;

// The questions that Frame puts: 1 (scratch), 4, 6 to 8, 11 to 13, 19.
fn frame_refusal(t: &Columns, squares: u32, scratch: usize) -> Result<(), Refusal>
    ensures { result ≡ passed (refusal frame (frame_given (table_of t.now) squares scratch)) }
{
    asked(1, SCRATCH_SIZE <= scratch, 0)?;
    counted_refusal(t)?;
    asked(19, 1 <= squares, 0)
}

// The row of each cell.
pub fn tops_of(t: &Columns) -> [u16; MOST_CELLS]
    requires { Fit (table_of t.now) }
    ensures { Column result t.now.count (row (table_of t.now)) }
{
    survey(t).rows
}

// The width of the sheet for this allowance, over a scratch of zeros. No position is written.
pub fn width_at(t: Columns, tops: &[u16; MOST_CELLS], allowance: u32, scratch: &mut [u32]) -> u32
    requires { Placeable t tops.now scratch.old }
    ensures { (pos result ≡ width (table_of t) (sheet (table_of t) allowance)) × (scratch.new ≡ replicate scratch_size 0) }
{
    let xs = place(t, tops, allowance, scratch);
    sheet_width(&xs, &t.width, t.count)
}

// Whether it is no wider than the frame.
fn fits(
    t: Columns,
    tops: &[u16; MOST_CELLS],
    squares: u32,
    allowance: u32,
    scratch: &mut [u32],
) -> bool
    requires { Placeable t tops.now scratch.old }
    ensures { (result ≡ fits (table_of t) squares allowance) × (scratch.new ≡ replicate scratch_size 0) }
{
    width_at(t, tops, allowance, scratch) <= squares
}

// How many allowances there are, from 0 on.
const ALLOWANCES: u32 = MOST_ALLOWANCE + 1;

// One turn of the halving: of the 2 · half allowances from low on, the first of the half that has the answer.
fn half_from(
    t: Columns,
    tops: &[u16; MOST_CELLS],
    squares: u32,
    low: u32,
    half: u32,
    scratch: &mut [u32],
) -> u32
    requires { Placeable t tops.now scratch.old × (1 ≤ half) × (low + half ≤ suc most_allowance) }
    ensures { (result ≡ cond (fits (table_of t) squares (low + half - 1)) low (low + half)) × (scratch.new ≡ replicate scratch_size 0) }
{
    if fits(t, tops, squares, low + half - 1, scratch) {
        return low;
    }
    low + half
}

// The least allowance that fits, where the greatest does. Their number is halved sixteen times.
fn halved(t: Columns, tops: &[u16; MOST_CELLS], squares: u32, scratch: &mut [u32]) -> u32
    requires placeable { Placeable t tops.now scratch.old }
    requires t { T (fits (table_of t) squares most_allowance) }
    ensures { (least_allowance (table_of t) squares ≡ found result) × (scratch.new ≡ replicate scratch_size 0) }
{
    let mut low = 0;
    let mut size = ALLOWANCES;
    while 1 < size {
        size = size / 2;
        low = half_from(t, tops, squares, low, size, scratch);
    }
    low
}

// The least allowance that fits, or none that does, for a table that no question refuses and a scratch of 16,384 numbers:
// at most 17 sheets, one clearing.
fn searched(t: Columns, squares: u32, scratch: &mut [u32]) -> Option<u32>
    requires { Fit (table_of t) × (length scratch.old ≡ scratch_size) }
    ensures { (result ≡ told (least_allowance (table_of t) squares)) × (scratch.new ≡ replicate scratch_size 0) }
{
    scratch.fill(0);
    let tops = tops_of(&t);
    if fits(t, &tops, squares, MOST_ALLOWANCE, scratch) {
        return Some(halved(t, &tops, squares, scratch));
    }
    None
}

// Frame: the questions, then the search.
pub fn frame(t: Columns, squares: u32, scratch: &mut [u32]) -> Result<Option<u32>, Refusal>
    ensures { Frames (table_of t) squares scratch.old scratch.new result }
{
    frame_refusal(&t, squares, scratch.len())?;
    Ok(searched(t, squares, &mut scratch[..SCRATCH_SIZE]))
}
