// Where the cells of a plan stand: their x's from the marks of the walk, written out, and the width and the rows measured from them.
// An x lies from −262,143 to 262,143, and is held here moved up by 262,143.
#![tactic(auto)]

ghost use Rattle.std.specs.Prelude.{◌≡◌, List, ℕ, ◌+◌, ◌-◌, ◌*◌, ◌≤◌, ◌<◌, length, get_or, set, pos, ◌-ℤ◌};
ghost use Rattle.plan.specs.Limits.{farthest, most_cells};
ghost use Rattle.plan.specs.Plan.{Sound, row, dictated_bottom};
ghost use Rattle.plan.specs.Columns.{table, «table_of»};
ghost use Rattle.plan.specs.Trees.{Column};
ghost use Rattle.rules.specs.Placement.{Placement, width};
ghost use Rattle.contours.specs.Sheet.{sheet};
ghost use Rattle.positions.specs.Written.{written};
ghost use Rattle.marks.specs.Marks.{Marked};
ghost use Rattle.positions.specs.Raised.{Raised, High, Topped, Raising};

use joining_cells::mark_of;
use marks::MARKS;
use plan::Columns;
use plan::limits::{FARTHEST, MOST_CELLS};
use whole::difference;

// The x of each cell: its parent's, and its distance from its first sibling less that of the appointed one.
pub fn raised(t: Columns, marks: &[u32; MARKS]) -> [u32; MOST_CELLS]
    requires { Raising (table_of t) marks.now }
    ensures { (al : ℕ) → Marked (table_of t) al marks.now → Raised result t.count (sheet (table_of t) al).x }
{
    let mut xs = [FARTHEST; MOST_CELLS];
    for c in 1..t.count {
        let f = usize::from(t.parent[c]);
        let right = xs[f] + mark_of(marks, c, 3);
        xs[c] = right - mark_of(marks, f, 0);
    }
    xs
}

// The x of the cell c.
fn x_of(xs: &[u32; MOST_CELLS], c: usize) -> i32
    requires { (c < most_cells) × (get_or xs.now c 0 ≤ 2 * farthest) }
    ensures { result ≡ pos (get_or xs.now c 0) -ℤ pos farthest }
{
    difference(xs[c], FARTHEST)
}

// Its y.
fn y_of(tops: &[u16; MOST_CELLS], c: usize) -> i32
    requires { c < most_cells }
    ensures { result ≡ pos (get_or tops.now c 0) }
{
    i32::from(tops[c])
}

// Both are written.
fn put_corner(positions: &mut [i32], c: usize, x: i32, y: i32)
    requires { 2 * c + 2 ≤ length positions.old }
    ensures { positions.new ≡ set (set positions.old (2 * c) x) (2 * c + 1) y }
{
    positions[2 * c] = x;
    positions[2 * c + 1] = y;
}

// x and y of each cell, written: x, then y, cell after cell.
pub fn write_positions(
    xs: &[u32; MOST_CELLS],
    tops: &[u16; MOST_CELLS],
    n: usize,
    positions: &mut [i32],
)
    requires { High xs.now n × (2 * n ≤ length positions.old) }
    ensures { (p : Placement) → Raised xs.now n p.x → Topped tops.now n p.y → positions.new ≡ written positions.old p n }
{
    for c in 0..n {
        put_corner(positions, c, x_of(xs, c), y_of(tops, c));
    }
}

// The last column of a box, moved up.
fn right_edge(xs: &[u32; MOST_CELLS], widths: &[u16; MOST_CELLS], c: usize) -> u32
    requires { (c < most_cells) × (get_or xs.now c 0 ≤ 2 * farthest) }
    ensures { result ≡ get_or xs.now c 0 + get_or widths.now c 0 }
{
    xs[c] + u32::from(widths[c])
}

// The greatest right edge less the least x.
pub fn sheet_width(xs: &[u32; MOST_CELLS], widths: &[u16; MOST_CELLS], n: usize) -> u32
    requires { High xs.now n × (1 ≤ n) }
    ensures { (p : Placement) (ps ks ds qs : List ℕ) → Raised xs.now n p.x → pos result ≡ width (table ps ks widths.now ds qs n) p }
{
    let mut least = xs[0];
    let mut most = right_edge(xs, widths, 0);
    for c in 1..n {
        least = least.min(xs[c]);
        most = most.max(right_edge(xs, widths, c));
    }
    most - least
}

// The last row of a box.
fn last_row(tops: &[u16; MOST_CELLS], depths: &[u8; MOST_CELLS], c: usize) -> u32
    requires { c < most_cells }
    ensures { (result ≡ get_or tops.now c 0 + get_or depths.now c 0) × (result ≤ 65790) }
{
    u32::from(tops[c]) + u32::from(depths[c])
}

// The last row of all, and one.
pub fn sheet_rows(tops: &[u16; MOST_CELLS], depths: &[u8; MOST_CELLS], n: usize) -> u32
    requires { (1 ≤ n) × (n ≤ most_cells) }
    ensures { (ps ks ws qs : List ℕ) → Sound (table ps ks ws depths.now qs n) → Column tops.now n (row (table ps ks ws depths.now qs n)) → result ≡ dictated_bottom (table ps ks ws depths.now qs n) 0 + 1 }
{
    let mut last = last_row(tops, depths, 0);
    for c in 1..n {
        last = last.max(last_row(tops, depths, c));
    }
    last + 1
}
