// The engine's core: what Layout needs to know of every cell of a table that keeps the questions.
#![tactic(auto)]

ghost use Rattle.std.specs.Prelude.{◌≡◌};
ghost use Rattle.plan.specs.Columns.{table_of};
ghost use Rattle.joining.specs.Joining.{memory_of};
ghost use Rattle.marks.specs.Marks.{Markable, Marked, Toured};

use links::links_of;
use plan::Columns;
use plan::limits::MOST_CELLS;
use walk::{Board, walk};

// Four marks a cell.
pub const MARKS: usize = 4 * MOST_CELLS;

// Four marks a cell, from a scratch and marks of zeros: how far its appointed child stands from its first, its left and its right extent, its
// distance from its own first sibling. The scratch is zeros again. The cells are opened in the table's preorder, each once (`Toured`).
pub fn marks_of(
    t: Columns,
    tops: &[u16; MOST_CELLS],
    allowance: u32,
    rows: &mut [u32],
    marks: &mut [u32; MARKS],
)
    requires { Markable t tops.now rows.old marks.old }
    ensures rows_unchanged { (rows.new ≡ rows.old) × Marked (table_of t) allowance marks.new }
    ensures toured { Toured (table_of t) (memory_of rows.old marks.old) (memory_of rows.new marks.new) }
{
    let links = links_of(t);
    let board = Board {
        links: &links,
        widths: &t.width,
        depths: &t.depth,
        tops,
        allowance,
    };
    walk(&board, rows, marks);
}
