// A complete cell joins its parent.
//
// In the calls, rows begins with the child's top row; at and at + 1 are the columns of its parent f, at + 2 and at + 3 its own; hf and hs are
// the rows of either.
#![tactic(auto)]

ghost use Rattle.std.specs.Prelude.{◌≡◌};
ghost use Rattle.joining.specs.Joining.{memory_of, settled_apart, settled_first, settled_by, settled, Settling};

use joining_cells::{mark_of, note, put_marks};
use joining_separation::{join_side, separation};
use rows::join_upto;

// The first child c joins its parent f.
fn settle_first(rows: &mut [u32], marks: &mut [u32], at: usize, f: usize, c: usize, hs: usize)
    requires { Settling (memory_of rows.old marks.old) at f c hs }
    ensures { memory_of rows.new marks.new ≡ settled_first (memory_of rows.old marks.old) at f c hs }
{
    join_upto(rows, at, 0, 0, hs);
    let r = mark_of(marks, c, 2);
    put_marks(marks, f, hs as u32, r, 0, 0);
}

// A later child c joins.
fn settle_later(
    rows: &mut [u32],
    marks: &mut [u32],
    at: usize,
    f: usize,
    c: usize,
    hs: usize,
    beyond: bool,
    allowance: u32,
)
    requires { Settling (memory_of rows.old marks.old) at f c hs }
    ensures { memory_of rows.new marks.new ≡ settled_by (memory_of rows.old marks.old) at f c hs beyond (settled_apart (memory_of rows.old marks.old) at f c hs allowance) }
{
    let g = separation(rows, marks, at, f, c, hs, allowance);
    let x = mark_of(marks, f, 3) + g;
    let hf = mark_of(marks, f, 0) as usize;
    let past = join_side(rows, at, beyond, hf, hs, mark_of(marks, f, 2), g);
    let r = mark_of(marks, c, 2);
    note(marks, c, x);
    put_marks(marks, f, hf.max(hs) as u32, r, past, x);
}

// The complete child c, at the given place among its siblings, joins its parent f, whose appointed child has the place apt.
pub fn settle(
    rows: &mut [u32],
    marks: &mut [u32],
    at: usize,
    f: usize,
    c: usize,
    hs: usize,
    place: usize,
    apt: usize,
    allowance: u32,
)
    requires { Settling (memory_of rows.old marks.old) at f c hs }
    ensures { memory_of rows.new marks.new ≡ settled (memory_of rows.old marks.old) at f c hs place apt allowance }
{
    if place == 0 {
        settle_first(rows, marks, at, f, c, hs);
        return;
    }
    settle_later(rows, marks, at, f, c, hs, apt < place, allowance);
}
