// LAYOUT: a table and an allowance to positions, width and rows.
#![tactic(auto)]

ghost use Rattle.std.specs.Prelude.{◌≡◌, length, replicate};
ghost use Rattle.plan.specs.Limits.{scratch_size};
ghost use Rattle.plan.specs.Columns.{table_of};
ghost use Rattle.plan.specs.Questions.{layout, refusal, layout_given, «passed»};
ghost use Rattle.contours.specs.Sheet.{sheet};
ghost use Rattle.positions.specs.Raised.{Raised};
ghost use Rattle.layout.specs.Laid.{Lays, Placeable, Drawable, Drawn};

use asking::tree::survey;
use asking::{allowance_refusal, asked, lent_refusal};
use marks::{MARKS, marks_of};
use plan::limits::{MOST_CELLS, SCRATCH_SIZE};
use plan::{Columns, Measures, Refusal};
use positions::{raised, sheet_rows, sheet_width, write_positions};

// The questions that Layout puts: 1 (scratch), 4, 1 (positions), 6 to 8, 11 to 14.
pub fn layout_refusal(
    t: &Columns,
    allowance: u32,
    scratch: usize,
    positions: usize,
) -> Result<(), Refusal>
    ensures { result ≡ passed (refusal layout (layout_given (table_of t.now) allowance scratch positions)) }
{
    asked(1, SCRATCH_SIZE <= scratch, 0)?;
    lent_refusal(t, positions)?;
    allowance_refusal(allowance)
}

// The x of each cell, from the marks of a walk over a scratch of zeros.
pub fn place(
    t: Columns,
    tops: &[u16; MOST_CELLS],
    allowance: u32,
    scratch: &mut [u32],
) -> [u32; MOST_CELLS]
    requires { Placeable t tops.now scratch.old }
    ensures { Raised result t.count (sheet (table_of t) allowance).x × (scratch.new ≡ replicate scratch_size 0) }
{
    let mut marks = [0u32; MARKS];
    marks_of(t, tops, allowance, scratch, &mut marks);
    raised(t, &marks)
}

// A table that no question refuses is laid out over a scratch of 16,384 zeros.
pub fn draw_over_zeros(
    t: Columns,
    allowance: u32,
    scratch: &mut [u32],
    positions: &mut [i32],
) -> Measures
    requires { Drawable (table_of t) (length scratch.old) (length positions.old) × (scratch.old ≡ replicate scratch_size 0) }
    ensures { Drawn (table_of t) allowance scratch.new positions.old positions.new result }
{
    let n = t.count;
    let tops = survey(&t).rows;
    let xs = place(t, &tops, allowance, scratch);
    write_positions(&xs, &tops, n, positions);
    Measures {
        width: sheet_width(&xs, &t.width, n),
        rows: sheet_rows(&tops, &t.depth, n),
    }
}

// The same over a scratch of 16,384 numbers, whatever they are.
pub fn draw(t: Columns, allowance: u32, scratch: &mut [u32], positions: &mut [i32]) -> Measures
    requires { Drawable (table_of t) (length scratch.old) (length positions.old) }
    ensures { Drawn (table_of t) allowance scratch.new positions.old positions.new result }
{
    scratch.fill(0);
    draw_over_zeros(t, allowance, scratch, positions)
}

// Layout: the questions, then our sheet, with its width and rows.
pub fn layout(
    t: Columns,
    allowance: u32,
    scratch: &mut [u32],
    positions: &mut [i32],
) -> Result<Measures, Refusal>
    ensures { Lays (table_of t) allowance scratch.old scratch.new positions.old positions.new result }
{
    layout_refusal(&t, allowance, scratch.len(), positions.len())?;
    Ok(draw(t, allowance, &mut scratch[..SCRATCH_SIZE], positions))
}
