// The columns that the rules read, made of a table and a placement, and their numbers set out cell after cell.
#![tactic(auto)]

ghost use Rattle.std.specs.Prelude.{◌≡◌, [], ◌∷◌, ◌+◌, ◌*◌, ◌≤◌, ◌<◌, length, get_or, pos};
ghost use Rattle.whole.specs.Bias.{bias};
ghost use Rattle.plan.specs.Plan.{parent, kind, appointed, box_width, box_depth};
ghost use Rattle.plan.specs.Limits.{farthest, most_cells};
ghost use Rattle.plan.specs.Columns.{«table_of»};
ghost use Rattle.plan.specs.Fit.{Fit};
ghost use Rattle.plan.specs.Near.{Near};
ghost use Rattle.plan.specs.Trees.{Column};
ghost use Rattle.spans.specs.Spans.{at};
ghost use Rattle.looking_columns.specs.Columns.{sight, Scattered, Short, Due};

use plan::Columns;
use plan::kinds::appointed;
use plan::limits::{FARTHEST, MOST_CELLS};
use spans::parent_of;
use whole::raise_at;

// How many numbers the rules read of a cell. Those of all cells lie in one array, cell after cell: a `View` for each.
pub const SIGHT: usize = 13;

pub const SIGHTS: usize = SIGHT * MOST_CELLS;

// The right edge and the last row of each box.
#[derive(Drop)]
pub struct Edges {
    pub right: [u32; MOST_CELLS],
    pub base: [u32; MOST_CELLS],
}

// The parent of each cell, and the number of its appointed child.
#[derive(Drop)]
pub struct Heads {
    pub parent: [u32; MOST_CELLS],
    pub middle: [u32; MOST_CELLS],
}

// The x (offset 0) or the y (offset 1) of each cell, moved up.
pub fn raised(positions: &[i32], n: usize, offset: usize) -> [u32; MOST_CELLS]
    requires { (n ≤ most_cells) × (offset ≤ 1) × Near positions.now n }
    ensures { Column result n (λ c. bias farthest (get_or positions.now (2 * c + offset) (pos 0))) }
{
    let mut out = [0u32; MOST_CELLS];
    for c in 0..n {
        out[c] = raise_at(positions, 2 * c + offset, FARTHEST);
    }
    out
}

pub fn edges_of(t: Columns, x: [u32; MOST_CELLS], y: [u32; MOST_CELLS]) -> Edges
    requires { Fit (table_of t) × Short x t.count × Short y t.count }
    ensures { Column result.right t.count (λ c. get_or x c 0 + box_width (table_of t) c) × Column result.base t.count (λ c. get_or y c 0 + box_depth (table_of t) c) }
{
    let mut right = [0u32; MOST_CELLS];
    let mut base = [0u32; MOST_CELLS];
    for c in 0..t.count {
        right[c] = x[c] + u32::from(t.width[c]);
        base[c] = y[c] + u32::from(t.depth[c]);
    }
    Edges { right, base }
}

// The row that S1 asks of each cell.
pub fn dues(t: Columns, base: [u32; MOST_CELLS]) -> [u32; MOST_CELLS]
    requires { Fit (table_of t) × Short base t.count }
    ensures { Due (table_of t) (at base) (at result) }
{
    let mut due = [0u32; MOST_CELLS];
    due[0] = FARTHEST;
    for c in 1..t.count {
        let f = parent_of(&t.parent, c);
        due[c] = base[f] + 1;
    }
    due
}

pub fn heads_of(t: Columns, many: [u32; MOST_CELLS]) -> Heads
    requires { Fit (table_of t) × Short many t.count }
    ensures { Column result.parent t.count (parent (table_of t)) × Column result.middle t.count (λ c. appointed (kind (table_of t) c) (get_or many c 0)) }
{
    let mut parent = [0u32; MOST_CELLS];
    let mut middle = [0u32; MOST_CELLS];
    for c in 0..t.count {
        parent[c] = u32::from(t.parent[c]);
        middle[c] = appointed(t.kind[c], many[c]);
    }
    Heads { parent, middle }
}

// A column's numbers, as number k of their cells.
pub fn scatter(column: &[u32; MOST_CELLS], n: usize, k: usize, out: &mut [u32; SIGHTS])
    requires { (n ≤ most_cells) × (k < sight) × (length out.old ≡ most_cells * sight) }
    ensures { Scattered (column.now ∷ []) n k out.old out.new }
{
    for c in 0..n {
        out[SIGHT * c + k] = column[c];
    }
}
