// How far a child stands from the one before it, and its rows joined to those of its parent.
//
// In the calls, rows begins with the child's top row; at and at + 1 are the columns of its parent f, at + 2 and at + 3 its own; hf and hs are
// the rows of either.
#![tactic(auto)]

ghost use Rattle.std.specs.Prelude.{◌≡◌, cond, ◌+◌, ◌*◌, ◌≤◌, max};
ghost use Rattle.plan.specs.Limits.{farthest};
ghost use Rattle.rows.specs.Rows.{upto_rows, beyond_rows};
ghost use Rattle.joining_cells.specs.Cells.{memory_of};
ghost use Rattle.joining_separation.specs.Separation.{settled_apart, Settling, Siding};

use joining_cells::mark_of;
use rows::{clash, join_beyond, join_upto};

// The least distance of the child c from the child before it: S3, S3, S4, S5.
pub fn separation(
    rows: &[u32],
    marks: &[u32],
    at: usize,
    f: usize,
    c: usize,
    hs: usize,
    allowance: u32,
) -> u32
    requires { Settling (memory_of rows.now marks.now) at f c hs }
    ensures { (result ≡ settled_apart (memory_of rows.now marks.now) at f c hs allowance) × (result ≤ 2 * farthest + 1) }
{
    let r = mark_of(marks, f, 1);
    let l = mark_of(marks, c, 1);
    let n = (mark_of(marks, f, 0) as usize).min(hs);
    let row = clash(rows, at, mark_of(marks, f, 2), n);
    (r + 1)
        .max(l + 1)
        .max(row.max((r + l + 1).saturating_sub(allowance)))
}

// The rows of a child that stands g from the one before it join those up to the appointed child, or those beyond it. How far past the appointed one it stands.
pub fn join_side(
    rows: &mut [u32],
    at: usize,
    beyond: bool,
    hf: usize,
    hs: usize,
    past: u32,
    g: u32,
) -> u32
    requires { Siding rows.old at hf hs past g }
    ensures { (rows.new ≡ cond beyond (beyond_rows rows.old at (past + g) hs) (upto_rows rows.old at hf g (max hf hs))) × (result ≡ cond beyond (past + g) 0) }
{
    if beyond {
        join_beyond(rows, at, past + g, hs);
        return past + g;
    }
    join_upto(rows, at, hf, g, hf.max(hs));
    0
}
