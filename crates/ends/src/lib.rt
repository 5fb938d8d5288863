// Ends: where the connector from a parent to a child begins and ends.
#![tactic(auto)]

ghost use Rattle.std.specs.Prelude.{◌≡◌, ◌&&◌, ◌<◌, ◌≤◌, ltb, length, get_or, pos, ◌+ℤ◌};
ghost use Rattle.whole.specs.Range.{InRange};
ghost use Rattle.plan.specs.Limits.{farthest, most_width};
ghost use Rattle.plan.specs.Columns.{«table_of»};
ghost use Rattle.plan.specs.Questions.{refusal, ends, ends_given, passed};
ghost use Rattle.ends.specs.Ended.{half, «ended_of»};

use asking::{asked, lent_refusal, near_refusal};
use plan::limits::FARTHEST;
use plan::{Columns, Refusal};
use spans::parent_of;
use whole::{difference, raise_at};

// Where a connector begins, at the parent, and where it ends, at the child.
#[derive(Clone, Copy, Drop)]
pub struct Ended {
    pub from_x: i32,
    pub from_y: i32,
    pub to_x: i32,
    pub to_y: i32,
}

// Half a width: the nearer whole number, a tie to the even one.
pub fn half(width: u16) -> u32
    ensures { result ≡ half width }
{
    let down = (width as u32) / 2;
    if width % 2 == 0 {
        return down;
    }
    if down % 2 == 0 {
        return down;
    }
    down + 1
}

// Question 16 for Ends: a cell of the table, not the root.
fn named(cell: usize, n: usize) -> bool
    ensures { result ≡ (ltb cell n && ltb 0 cell) }
{
    if n <= cell {
        return false;
    }
    0 < cell
}

// The questions, in their sequence.
fn refuse(t: &Columns, positions: &[i32], cell: usize) -> Result<(), Refusal>
    ensures { result ≡ passed (refusal ends (ends_given (table_of t.now) positions.now cell)) }
{
    lent_refusal(t, positions.len())?;
    near_refusal(positions, t.count)?;
    asked(16, named(cell, t.count), 0)
}

// The number at a place of the positions, moved right or down.
fn moved(positions: &[i32], i: usize, by: u32) -> i32
    requires { (i < length positions.now) × InRange farthest (get_or positions.now i (pos 0)) × (by ≤ most_width) }
    ensures { result ≡ get_or positions.now i (pos 0) +ℤ pos by }
{
    difference(raise_at(positions, i, FARTHEST) + by, FARTHEST)
}

pub fn ends(t: Columns, positions: &[i32], cell: usize) -> Result<Ended, Refusal>
    ensures { result ≡ ended_of (table_of t) positions.now cell }
{
    refuse(&t, positions, cell)?;
    let p = parent_of(&t.parent, cell);
    Ok(Ended {
        from_x: moved(positions, 2 * p, half(t.width[p])),
        from_y: moved(positions, 2 * p + 1, u32::from(t.depth[p])),
        to_x: moved(positions, 2 * cell, half(t.width[cell])),
        to_y: moved(positions, 2 * cell + 1, 0),
    })
}
