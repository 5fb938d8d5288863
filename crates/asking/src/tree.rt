// What the questions and the engines read off a table whose parents are lower than their children.
ghost use Rattle.std.specs.Prelude.{List, ℕ, ◌+◌, length};
ghost use Rattle.plan.specs.Plan.{children, level, row};
ghost use Rattle.plan.specs.Columns.{table};
ghost use Rattle.plan.specs.Trees.{Lower, Flat, Column};

use plan::Columns;
use plan::limits::MOST_CELLS;

// Of each cell, the number of children, the level and, as S1 dictates it, the row.
#[derive(Clone, Copy, Drop)]
pub struct Surveyed {
    pub counts: [u16; MOST_CELLS],
    pub levels: [u16; MOST_CELLS],
    pub rows: [u16; MOST_CELLS],
}

// One pass, from parents to children.
pub fn survey(t: &Columns) -> Surveyed
    requires lower { Lower t.now.parent t.now.count }
    requires flat { Flat t.now.depth t.now.count }
    ensures { (ks ws qs : List ℕ) → Column result.counts t.now.count (λ c. length (children (table t.now.parent ks ws t.now.depth qs t.now.count) c))
        × Column result.levels t.now.count (level (table t.now.parent ks ws t.now.depth qs t.now.count))
        × Column result.rows t.now.count (row (table t.now.parent ks ws t.now.depth qs t.now.count)) }
{
    let mut counts = [0u16; MOST_CELLS];
    let mut levels = [0u16; MOST_CELLS];
    let mut rows = [0u16; MOST_CELLS];
    for c in 1..t.count {
        let p = t.parent[c] as usize;
        counts[p] = counts[p] + 1;
        levels[c] = levels[p] + 1;
        rows[c] = rows[p] + (t.depth[p] as u16) + 1;
    }
    Surveyed {
        counts,
        levels,
        rows,
    }
}
