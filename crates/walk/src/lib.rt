// The walk of the tree: a loop over the chain of open cells. Each cell is opened, its children are joined one after another, and it is closed.
#![tactic(auto)]

ghost use Rattle.std.specs.Prelude.{◌≡◌, ◌+◌, ◌<◌, ◌≤◌, length, [], ◌∷◌};
ghost use Rattle.links.specs.Links.{link};
ghost use Rattle.joining.specs.Joining.{memory_of, finished};
ghost use Rattle.walk.specs.Walked.{Walking, Walked};
ghost use Rattle.walk.specs.Opened.{Visited, Begins, Descends, Underway, Onward};
ghost use Rattle.walk.specs.Machine.{Finishing, Rooting, root_closed, chart_of, step, Closing, closed, OnlyStretch, Turning};
ghost use Rattle.walk.specs.Turns.{stack_of, state_of};
ghost use Rattle.walk.specs.Falls.{Falls, fallen, down};

use joining::settle;
use joining_cells::{complete, joined_rows};
use links::link_of;
use rows::{ROW, box_rows};

// What the walk reads of a table: its links, its widths and depths and the top rows of its cells; and the allowance.
#[derive(Clone, Copy)]
pub struct Board<'a> {
    pub links: &'a [u16],
    pub widths: &'a [u16],
    pub depths: &'a [u8],
    pub tops: &'a [u16],
    pub allowance: u32,
}

// The finished child c, of depth d and width w, is completed and joins its parent f.
fn finish_child(
    rows: &mut [u32],
    marks: &mut [u32],
    at: usize,
    f: usize,
    c: usize,
    d: usize,
    w: u32,
    place: usize,
    apt: usize,
    allowance: u32,
)
    requires { Finishing (memory_of rows.old marks.old) at f c d w }
    ensures { memory_of rows.new marks.new ≡ finished (memory_of rows.old marks.old) at f c d w place apt allowance }
{
    let hs = complete(rows, marks, at + 2, c, d, w);
    settle(rows, marks, at, f, c, hs, place, apt, allowance);
}

// The root is completed, and its rows are cleared.
pub fn finish_root(rows: &mut [u32], marks: &mut [u32], d: usize, w: u32)
    requires { Rooting (memory_of rows.old marks.old) d }
    ensures { memory_of rows.new marks.new ≡ root_closed (memory_of rows.old marks.old) d w }
{
    let hs = complete(rows, marks, 0, 0, d, w);
    box_rows(rows, 0, hs, 0);
}

// The finished cell c joins its parent f at the given level. Only the stretch of rows below the box of f is lent on, and written.
pub fn close(b: &Board, level: usize, f: usize, c: usize, rows: &mut [u32], marks: &mut [u32])
    requires { Closing (chart_of b.now) level f c rows.old marks.old }
    ensures marks_after { memory_of rows.new marks.new ≡ closed (chart_of b.now) level f c (memory_of rows.old marks.old) }
    ensures only_stretch { OnlyStretch (chart_of b.now) f c rows.old marks.old rows.new }
{
    let d = usize::from(b.depths[c]);
    let w = u32::from(b.widths[c]);
    let place = link_of(b.links, c, 2);
    let apt = link_of(b.links, f, 3);
    let start = ROW * usize::from(b.tops[c]);
    let end = start + ROW * joined_rows(marks, f, c, d);
    finish_child(
        &mut rows[start..end],
        marks,
        2 * level,
        f,
        c,
        d,
        w,
        place,
        apt,
        b.allowance,
    );
}

// The chain of open cells, from the root down.
#[derive(Drop)]
pub struct Chain {
    pub cells: [u16; 32],
    pub count: usize,
}

// The chain before or after a turn, and the child to open next, 0 where there is none.
#[derive(Drop)]
pub struct Turned {
    pub open_cells: Chain,
    pub next: usize,
}

// The latest open cell, at the given level, is closed. Its next sibling, 0 where there is none.
fn shut(b: &Board, cells: &[u16; 32], level: usize, rows: &mut [u32], marks: &mut [u32]) -> usize
    requires { Turning (chart_of b.now) (state_of cells.now (level + 1) 0 rows.old marks.old) }
    ensures { state_of cells.now level result rows.new marks.new ≡ step (chart_of b.now) (state_of cells.now (level + 1) 0 rows.old marks.old) }
{
    if level == 0 {
        finish_root(
            rows,
            marks,
            usize::from(b.depths[0]),
            u32::from(b.widths[0]),
        );
        return 0;
    }
    let c = usize::from(cells[level]);
    let f = usize::from(cells[level - 1]);
    close(b, level - 1, f, c, rows, marks);
    link_of(b.links, c, 1)
}

// The child `next` is opened, and its first child, and so on, down to a cell with no children. Each of them is put into the chain:
// its numbers up to the new count are then exactly the open cells, with none next.
fn descend(links: &[u16], cells: &mut [u16; 32], count: usize, next: usize) -> usize
    requires cells_len { length cells.old ≡ 32 }
    requires falls { Falls links.now 32 count next }
    ensures result_after { stack_of cells.new result ≡ fallen links.now 32 next (stack_of cells.old count) }
    ensures lower_bound { count ≤ result }
    ensures descends { Descends links.now cells.old count next cells.new result }
{
    let mut k = count;
    let mut n = next;
    while 0 < n {
        cells[k] = n as u16;
        k += 1;
        n = link_of(links, n, 0);
    }
    k
}

// Before the first turn: the root is open, and its first child is next. Of every chart with these links, and every memory, this is where its walk begins.
pub fn begin(links: &[u16]) -> Turned
    requires { 4 ≤ length links.now }
    ensures count_value { (stack_of result.open_cells.cells result.open_cells.count ≡ 0 ∷ []) × (result.next ≡ link links.now 0 0) }
    ensures begins { Begins links.now result.open_cells.cells result.open_cells.count result.next }
{
    let root = Chain {
        cells: [0u16; 32],
        count: 1,
    };
    Turned {
        open_cells: root,
        next: link_of(links, 0, 0),
    }
}

// One turn: the child that is next, if there is one, is opened and so on down; then the latest open cell is closed. The chain travels by value.
// It is given a chain whose numbers up to the count are exactly the open cells (`Underway`), and hands such a one back (`Onward`).
pub fn turn(b: &Board, at: Turned, rows: &mut [u32], marks: &mut [u32]) -> Turned
    requires count_nonzero { 0 < at.open_cells.count }
    requires falls { Falls b.now.links.now 32 at.open_cells.count at.next }
    requires turning { Turning (chart_of b.now) (down b.now.links.now (stack_of at.open_cells.cells at.open_cells.count) at.next (memory_of rows.old marks.old)) }
    requires underway { Underway (chart_of b.now) at.open_cells.cells at.open_cells.count at.next rows.old marks.old }
    ensures marks_after { state_of result.open_cells.cells result.open_cells.count result.next rows.new marks.new ≡ step (chart_of b.now) (down b.now.links.now (stack_of at.open_cells.cells at.open_cells.count) at.next (memory_of rows.old marks.old)) }
    ensures onward { Onward (chart_of b.now) at.open_cells.cells at.open_cells.count at.next rows.old marks.old result.open_cells.cells result.open_cells.count result.next rows.new marks.new }
{
    let mut c = at.open_cells;
    let level = descend(b.links, &mut c.cells, c.count, at.next) - 1;
    c.count = level;
    let n = shut(b, &c.cells, level, rows, marks);
    Turned {
        open_cells: c,
        next: n,
    }
}

// The walk of the tree below cell 0: a loop in which the chain of open cells travels from turn to turn.
// `Visited`: at every turn its numbers up to the count are the open cells from the root down, and the cells are opened in preorder, each once
// (proofs/Visits: `open_cells`, `opened-in_order`, `opened-once`). Of the chain itself `begin` and `turn` say it (`Visiting`), and the loop keeps it.
pub fn walk(b: &Board, rows: &mut [u32], marks: &mut [u32])
    requires { Walking (chart_of b.now) rows.old marks.old }
    ensures walked { Walked (chart_of b.now) rows.old rows.new marks.new }
    ensures visited { Visited (chart_of b.now) (memory_of rows.old marks.old) (memory_of rows.new marks.new) }
{
    let mut at = begin(b.links);
    while 0 < at.open_cells.count {
        at = turn(b, at, rows, marks);
    }
}
