// A cell is complete: its box over its joined rows, and its marks. Four marks a cell.
//
// While a cell is open: the joined rows below its box, and of the child joined last its right extent, how far it stands past the appointed
// child, and its distance from the first. Once it is complete: how far its appointed child stands from its first, its left and its right
// extent, and its own distance from its first sibling.
#![tactic(auto)]

ghost use Rattle.std.specs.Prelude.{◌≡◌, ◌+◌, ◌*◌, ◌≤◌, ◌<◌, length};
ghost use Rattle.plan.specs.Limits.{last_row};
ghost use Rattle.joining_cells.specs.Cells.{memory_of, mark, four, noted, height, joined_rows, completed, Completing};

use rows::{box_rows, column_max};

pub fn mark_of(marks: &[u32], c: usize, k: usize) -> u32
    requires { (4 * c + 4 ≤ length marks.now) × (k < 4) }
    ensures { result ≡ mark marks.now c k }
{
    marks[4 * c + k]
}

// The rows below the box of f once its child c, of depth d, has joined.
pub fn joined_rows(marks: &[u32], f: usize, c: usize, d: usize) -> usize
    requires { (4 * f + 4 ≤ length marks.now) × (4 * c + 4 ≤ length marks.now) × (height marks.now c d ≤ last_row + 1) }
    ensures { result ≡ joined_rows marks.now f c d }
{
    let before = mark_of(marks, f, 0) as usize;
    before.max(d + 1 + mark_of(marks, c, 0) as usize)
}

pub fn put_marks(marks: &mut [u32], c: usize, m0: u32, m1: u32, m2: u32, m3: u32)
    requires { 4 * c + 4 ≤ length marks.old }
    ensures { marks.new ≡ four marks.old c m0 m1 m2 m3 }
{
    let b = 4 * c;
    marks[b] = m0;
    marks[b + 1] = m1;
    marks[b + 2] = m2;
    marks[b + 3] = m3;
}

// The distance of the child c from its first sibling is noted.
pub fn note(marks: &mut [u32], c: usize, x: u32)
    requires { 4 * c + 4 ≤ length marks.old }
    ensures { marks.new ≡ noted marks.old c x }
{
    marks[4 * c + 3] = x;
}

// The cell c, of depth d and width w, is complete: its box is drawn over its joined rows, and its marks are made. Its number of rows.
pub fn complete(rows: &mut [u32], marks: &mut [u32], at: usize, c: usize, d: usize, w: u32) -> usize
    requires { Completing (memory_of rows.old marks.old) at c d }
    ensures { (memory_of rows.new marks.new ≡ completed (memory_of rows.old marks.old) at c d w) × (result ≡ height marks.old c d) }
{
    let hs = d + 1 + mark_of(marks, c, 0) as usize;
    let middle = mark_of(marks, c, 3) - mark_of(marks, c, 2);
    box_rows(rows, at, d + 1, w);
    let l = column_max(rows, at, hs);
    let r = column_max(rows, at + 1, hs);
    put_marks(marks, c, middle, l, r, 0);
    hs
}
