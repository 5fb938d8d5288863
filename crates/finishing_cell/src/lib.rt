// CELL NUMBER k OF THE ORDER (document 02, E9) is finished, if the guard lets it; else nothing changes.
#![tactic(auto)]

ghost use Rattle.std.specs.Prelude.{◌≡◌, ◌<◌, length};
ghost use Rattle.plan.specs.Columns.{table_of};
ghost use Rattle.joining.specs.Joining.{memory_of};
ghost use Rattle.walk.specs.Machine.{chart_of};
ghost use Rattle.finishing_guard.specs.Guard.{Static, Finished};
ghost use Rattle.finishing_cell.specs.Taking.{Steppable, «up_of», Took};

use asking::tree::survey;
use finishing_guard::{finish_joined, finish_last};
use finishing_order::seek;
use links::links_of;
use plan::Columns;
use plan::limits::MOST_CELLS;
use walk::Board;

// Any cell: the root, or one at the level below its parent f.
fn finish(b: &Board, level: usize, f: usize, c: usize, rows: &mut [u32], marks: &mut [u32]) -> bool
    requires { Static (chart_of b.now) level f c rows.old marks.old }
    ensures { Finished (chart_of b.now) level f c (memory_of rows.old marks.old) (memory_of rows.new marks.new) result }
{
    if c == 0 {
        return finish_last(b.widths, b.depths, rows, marks);
    }
    finish_joined(b, level, f, c, rows, marks)
}

// The parent of a cell; the root for itself.
fn above(parents: &[u16; MOST_CELLS], c: usize) -> usize
    requires { c < 256 }
    ensures { result ≡ up_of parents.now c }
{
    if c == 0 {
        return 0;
    }
    usize::from(parents[c])
}

// Cell number k of the order is finished, and told; also where the guard does not let it be finished.
pub fn take(
    t: &Columns,
    k: usize,
    allowance: u32,
    scratch: &mut [u32],
    marks: &mut [u32],
) -> Result<usize, usize>
    requires { Steppable (table_of t.now) (length scratch.old) (length marks.old) × (k < t.now.count) }
    ensures { Took (table_of t.now) allowance k (memory_of scratch.old marks.old) (memory_of scratch.new marks.new) result }
{
    let found = survey(t);
    let links = links_of(*t);
    let s = seek(&links, &t.parent, k, 0, t.count);
    let c = s.cell;
    let f = above(&t.parent, c);
    let level = usize::from(found.levels[f]);
    let b = Board {
        links: &links,
        widths: &t.width,
        depths: &t.depth,
        tops: &found.rows,
        allowance,
    };
    let done = finish(&b, level, f, c, scratch, marks);
    if done { Ok(c) } else { Err(c) }
}
