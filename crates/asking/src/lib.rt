// The questions put to a table, each answered: nothing, or the refusal. None asks about a rank: the contracts hold whatever the ranks qs are.
#![tactic(auto)]

pub mod tree;

ghost use Rattle.std.specs.Prelude.{◌≡◌, List, ◌&&◌, ℕ, ◌+◌, ◌*◌, ◌^◌, ◌≤◌, ◌<◌, leb, length, get_or, pos};
ghost use Rattle.plan.specs.Limits.{between, most_cells, most_allowance};
ghost use Rattle.plan.specs.Trees.{Short, Lower, Flat};
ghost use Rattle.plan.specs.Questions.{asked, «or_else», lower, sized, near, «at_each», passed, «put_at»};
ghost use Rattle.plan.specs.Columns.{table};
ghost use Rattle.plan.specs.Steps.{cell_refusal, cells_refusal, tree_refusal, table_refusal, counted_refusal, lent_refusal, near_refusal, children_at, levels_at, «rows_at»};

use crate::tree::survey;
use plan::kinds::{allows, known};
use plan::limits::{
    FARTHEST, LAST_ROW, MOST_ALLOWANCE, MOST_CELLS, MOST_DEPTH, MOST_LEVEL, MOST_WIDTH, NO_PARENT,
    between,
};
use plan::{Columns, Refusal};
use whole::within;

// Question `number` at a cell, answered.
pub fn asked(number: u8, yes: bool, cell: usize) -> Result<(), Refusal>
    requires { cell < 2 ^ 16 }
    ensures put { result ≡ put_at number yes cell }
    ensures numbered { 0 < number → result ≡ passed (asked number yes cell) }
{
    if yes {
        return Ok(());
    }
    Err(Refusal {
        number,
        cell: cell as u16,
    })
}

// Question 6.
fn lower(cell: usize, parent: u16) -> bool
    ensures { result ≡ lower cell parent }
{
    if cell == 0 {
        return parent == NO_PARENT;
    }
    (parent as usize) < cell
}

// Question 8.
fn sized(most: u16, width: u16, depth: u8) -> bool
    ensures { result ≡ sized most width depth }
{
    if !between(1, most, width) {
        return false;
    }
    between(1, MOST_DEPTH, depth as u16)
}

fn at_most(x: u16, most: u16) -> bool
    ensures { result ≡ leb x most }
{
    x <= most
}

// The last row of a box.
fn box_bottom(row: u16, depth: u8) -> u16
    requires { row ≤ 4096 }
    ensures { result ≡ row + depth }
{
    row + (depth as u16)
}

// Questions 6 to 8 at one cell, of a width of at most `most`.
pub fn cell_refusal(
    most: u16,
    cell: usize,
    parent: u16,
    kind: u8,
    width: u16,
    depth: u8,
) -> Result<(), Refusal>
    requires { cell < 2 ^ 16 }
    ensures { result ≡ passed (cell_refusal most cell parent kind width depth) }
{
    asked(6, lower(cell, parent), cell)?;
    asked(7, known(kind), cell)?;
    asked(8, sized(most, width, depth), cell)
}

// Questions 6 to 8, cell by cell.
pub fn cells_refusal(t: &Columns) -> Result<(), Refusal>
    requires { t.now.count ≤ most_cells }
    ensures { (qs : List ℕ) → result ≡ passed (cells_refusal (table t.now.parent t.now.kind t.now.width t.now.depth qs t.now.count)) }
{
    for c in 0..t.count {
        cell_refusal(
            MOST_WIDTH,
            c,
            t.parent[c],
            t.kind[c],
            t.width[c],
            t.depth[c],
        )?;
    }
    Ok(())
}

// Question 11, from the numbers of children.
fn children_refusal(
    kinds: &[u8; MOST_CELLS],
    counts: &[u16; MOST_CELLS],
    n: usize,
) -> Result<(), Refusal>
    requires { n ≤ most_cells }
    ensures { result ≡ passed (at_each (children_at kinds.now counts.now) 0 n) }
{
    for c in 0..n {
        asked(11, allows(kinds[c], counts[c]), c)?;
    }
    Ok(())
}

// Question 12, from the levels.
fn levels_refusal(levels: &[u16; MOST_CELLS], n: usize) -> Result<(), Refusal>
    requires { n ≤ most_cells }
    ensures { result ≡ passed (at_each (levels_at levels.now) 0 n) }
{
    for c in 0..n {
        asked(12, at_most(levels[c], MOST_LEVEL), c)?;
    }
    Ok(())
}

// Question 13, from the rows.
fn rows_refusal(
    rows: &[u16; MOST_CELLS],
    depths: &[u8; MOST_CELLS],
    n: usize,
) -> Result<(), Refusal>
    requires { (n ≤ most_cells) × Short rows.now n }
    ensures { result ≡ passed (at_each (rows_at rows.now depths.now) 0 n) }
{
    for c in 0..n {
        asked(13, at_most(box_bottom(rows[c], depths[c]), LAST_ROW), c)?;
    }
    Ok(())
}

// Questions 11 to 13, put to cells that 6 to 8 have passed.
pub fn tree_refusal(t: &Columns) -> Result<(), Refusal>
    requires lower { Lower t.now.parent t.now.count }
    requires flat { Flat t.now.depth t.now.count }
    ensures { (ws qs : List ℕ) → result ≡ passed (tree_refusal (table t.now.parent t.now.kind ws t.now.depth qs t.now.count)) }
{
    let found = survey(t);
    children_refusal(&t.kind, &found.counts, t.count)?;
    levels_refusal(&found.levels, t.count)?;
    rows_refusal(&found.rows, &t.depth, t.count)
}

// Questions 6 to 8 and 11 to 13.
fn table_refusal(t: &Columns) -> Result<(), Refusal>
    requires { (1 ≤ t.now.count) × (t.now.count ≤ most_cells) }
    ensures { (qs : List ℕ) → result ≡ passed (table_refusal (table t.now.parent t.now.kind t.now.width t.now.depth qs t.now.count)) }
{
    cells_refusal(t)?;
    tree_refusal(t)
}

// Question 4.
pub fn counted(n: usize) -> bool
    ensures { result ≡ between 1 most_cells n }
{
    if n < 1 {
        return false;
    }
    n <= MOST_CELLS
}

// Questions 4, 6 to 8 and 11 to 13, put to a lent table by a call without positions.
pub fn counted_refusal(t: &Columns) -> Result<(), Refusal>
    ensures { (qs : List ℕ) → result ≡ passed (counted_refusal (table t.now.parent t.now.kind t.now.width t.now.depth qs t.now.count)) }
{
    asked(4, counted(t.count), 0)?;
    table_refusal(t)
}

// Questions 4, 1 (of so many positions), 6 to 8 and 11 to 13, put to a lent table.
pub fn lent_refusal(t: &Columns, positions: usize) -> Result<(), Refusal>
    ensures { (qs : List ℕ) → result ≡ passed (lent_refusal (table t.now.parent t.now.kind t.now.width t.now.depth qs t.now.count) positions) }
{
    asked(4, counted(t.count), 0)?;
    asked(1, 2 * t.count <= positions, 0)?;
    table_refusal(t)
}

// Question 14.
pub fn allowance_refusal(allowance: u32) -> Result<(), Refusal>
    ensures { result ≡ passed (asked 14 (leb allowance most_allowance) 0) }
{
    asked(14, allowance <= MOST_ALLOWANCE, 0)
}

// Question 15, for one number of the positions.
fn near(positions: &[i32], i: usize) -> bool
    requires { i < length positions.now }
    ensures { result ≡ near (get_or positions.now i (pos 0)) }
{
    within(positions[i], FARTHEST)
}

// The same for both of a cell.
fn both_near(positions: &[i32], c: usize) -> bool
    requires { (2 * c + 1 < length positions.now) × (c < most_cells) }
    ensures { result ≡ (near (get_or positions.now (2 * c) (pos 0)) && near (get_or positions.now (2 * c + 1) (pos 0))) }
{
    if !near(positions, 2 * c) {
        return false;
    }
    near(positions, 2 * c + 1)
}

// Question 15, cell by cell.
pub fn near_refusal(positions: &[i32], n: usize) -> Result<(), Refusal>
    requires { (n ≤ most_cells) × (2 * n ≤ length positions.now) }
    ensures { result ≡ passed (near_refusal positions.now n) }
{
    for c in 0..n {
        asked(15, both_near(positions, c), c)?;
    }
    Ok(())
}

// Questions 4 and 6 to 8, put to a lent table that is to be a part of another.
pub fn part_refusal(t: &Columns) -> Result<(), Refusal>
    ensures { (qs : List ℕ) → result ≡ passed (or_else (asked 4 (between 1 most_cells t.now.count) 0) (cells_refusal (table t.now.parent t.now.kind t.now.width t.now.depth qs t.now.count))) }
{
    asked(4, counted(t.count), 0)?;
    cells_refusal(t)
}
