// THE GUARD (document 02, E9): whether the scratches can be those of a sheet that is being made, as far as a step reads them. A cell is finished, by the functions of Layout's walk, if the guard lets it; else nothing changes.
#![tactic(auto)]

ghost use Rattle.std.specs.Prelude.{◌≡◌, ◌↔◌, ◌+◌, ◌*◌, ◌≤◌, ◌<◌, length, get_or, slice_index, EachIndex, IsTrue};
ghost use Rattle.plan.specs.Limits.{farthest, last_row, scratch_size, second_size};
ghost use Rattle.joining.specs.Joining.{memory_of};
ghost use Rattle.walk.specs.Machine.{chart_of, closed, root_closed};
ghost use Rattle.finishing_guard.specs.Guard.{OwnRows, TheirRows, Guarded, Tells, Static, uncounted, Tried};

use joining_cells::{joined_rows, mark_of};
use plan::limits::FARTHEST;
use rows::ROW;
use walk::{Board, close, finish_root};

// Where the number of steps stands in the scratch: the last number of row 0, which the walk does not use.
pub const COUNT_AT: usize = 63;

// Rows of the scratch.
const ROWS: usize = 256;

// ---- The guard.

// Whether every number is a low one: the greatest is, which is sought with no test at each, so that several are looked at together.
fn all_low(xs: &[u32]) -> bool
    ensures { IsTrue result ↔ EachIndex xs.now (λ k. slice_index xs.now k ≤ farthest) }
{
    let mut greatest: u32 = 0;
    for i in 0..xs.len() {
        greatest = greatest.max(xs[i]);
    }
    greatest <= FARTHEST
}

// The cell's own joined rows and marks, as to its number of rows and its middle; the box of depth d begins at row y.
fn guarded_own(marks: &[u32], c: usize, d: usize, y: usize) -> bool
    requires { (4 * c + 4 ≤ length marks.now) × (y + (d + 1) ≤ last_row + 1) }
    ensures { Tells result (OwnRows marks.now c d y) }
{
    if mark_of(marks, c, 3) < mark_of(marks, c, 2) {
        return false;
    }
    y + (d + 1 + mark_of(marks, c, 0) as usize) <= ROWS
}

// The marks of its parent.
fn guarded_parent(marks: &[u32], f: usize, y: usize) -> bool
    requires { (4 * f + 4 ≤ length marks.now) × (y ≤ last_row + 1) }
    ensures { Tells result (TheirRows marks.now f y) }
{
    if ROWS < y + mark_of(marks, f, 0) as usize {
        return false;
    }
    mark_of(marks, f, 1).max(mark_of(marks, f, 2).max(mark_of(marks, f, 3))) <= FARTHEST
}

// Of the cell c and its parent f: the marks, and every number of the rows that c joins.
fn guarded(scratch: &[u32], marks: &[u32], c: usize, f: usize, d: usize, y: usize) -> bool
    requires { (length scratch.now ≡ scratch_size) × (4 * c + 4 ≤ length marks.now) × (4 * f + 4 ≤ length marks.now) × (y + (d + 1) ≤ last_row + 1) }
    ensures { Tells result (Guarded scratch.now marks.now c f d y) }
{
    if !guarded_own(marks, c, d, y) {
        return false;
    }
    if !guarded_parent(marks, f, y) {
        return false;
    }
    let start = ROW * y;
    let end = start + ROW * joined_rows(marks, f, c, d);
    all_low(&scratch[start..end])
}

// ---- One cell.

// The root, which is the last.
pub fn finish_last(widths: &[u16], depths: &[u8], rows: &mut [u32], marks: &mut [u32]) -> bool
    requires { (0 < length widths.now) × (0 < length depths.now) × (length rows.old ≡ scratch_size) × (length marks.old ≡ second_size) × (get_or depths.now 0 0 + 1 ≤ last_row + 1) }
    ensures { Tried (memory_of rows.old marks.old) (memory_of rows.new marks.new) (root_closed (uncounted (memory_of rows.old marks.old)) (get_or depths.now 0 0) (get_or widths.now 0 0)) (OwnRows marks.old 0 (get_or depths.now 0 0) 0) result }
{
    let d = usize::from(depths[0]);
    if guarded_own(marks, 0, d, 0) {
        rows[COUNT_AT] = 0;
        finish_root(rows, marks, d, u32::from(widths[0]));
        return true;
    }
    false
}

// The cell c, which joins its parent f.
pub fn finish_joined(
    b: &Board,
    level: usize,
    f: usize,
    c: usize,
    rows: &mut [u32],
    marks: &mut [u32],
) -> bool
    requires { Static (chart_of b.now) level f c rows.old marks.old × (1 ≤ c) }
    ensures { Tried (memory_of rows.old marks.old) (memory_of rows.new marks.new) (closed (chart_of b.now) level f c (uncounted (memory_of rows.old marks.old))) (Guarded rows.old marks.old c f (get_or b.now.depths.now c 0) (get_or b.now.tops.now c 0)) result }
{
    let depth = usize::from(b.depths[c]);
    let top = usize::from(b.tops[c]);
    if guarded(rows, marks, c, f, depth, top) {
        rows[COUNT_AT] = 0;
        close(b, level, f, c, rows, marks);
        return true;
    }
    false
}
