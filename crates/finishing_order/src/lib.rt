// THE ORDER OF FINISHING (document 02, E9) along the links: its cell number k, and whether a cell is among the first k.
#![tactic(auto)]

ghost use Rattle.std.specs.Prelude.{◌≡◌, ◌≤◌, ◌<◌, take};
ghost use Rattle.plan.specs.Lists.{mem};
ghost use Rattle.plan.specs.Fit.{Fit};
ghost use Rattle.plan.specs.Columns.{table_of};
ghost use Rattle.finishing_order.specs.Postorder.{postorder};
ghost use Rattle.finishing_order.specs.Order as order;
ghost use Rattle.finishing_order.specs.Order.{Falls, Seeks};

use links::{link_of, links_of};
use plan::Columns;
use plan::limits::MOST_CELLS;

// Cell number k of the order of finishing, and whether the cell sought is among the first k.
#[derive(Drop)]
pub struct Sought {
    pub cell: usize,
    pub met: bool,
}

// The first cell to finish at or below c, of n cells.
fn leaf(links: &[u16], c: usize, n: usize) -> usize
    requires { Falls links.now n × (c < n) }
    ensures { result ≡ order.leaf links.now c }
{
    let mut a = c;
    let mut s = link_of(links, a, 0);
    while 0 < s {
        a = s;
        s = link_of(links, a, 0);
    }
    a
}

// The cell to finish after c.
fn after(links: &[u16], parents: &[u16; MOST_CELLS], c: usize, n: usize) -> usize
    requires { Seeks links.now parents.now n × (c < n) }
    ensures { result ≡ order.after links.now parents.now c }
{
    if c == 0 {
        return 0;
    }
    let s = link_of(links, c, 1);
    if s == 0 {
        return usize::from(parents[c]);
    }
    leaf(links, s, n)
}

// Cell number k of the order of finishing, and whether x is before it.
pub fn seek(links: &[u16], parents: &[u16; MOST_CELLS], k: usize, x: usize, n: usize) -> Sought
    requires { Seeks links.now parents.now n × (0 < n) × (k ≤ n) }
    ensures { (result.cell ≡ order.nth links.now parents.now k) × (result.met ≡ order.met links.now parents.now x k) }
{
    let mut cell = leaf(links, 0, n);
    let mut met = false;
    for _i in 0..k {
        met = met || x == cell;
        cell = after(links, parents, cell, n);
    }
    Sought { cell, met }
}

// Whether x is among the first k cells of the order.
pub fn is_finished(t: &Columns, k: usize, x: usize) -> bool
    requires { Fit (table_of t.now) }
    ensures { result ≡ mem x (take k (postorder (table_of t.now))) }
{
    let n = t.count;
    let links = links_of(*t);
    let s = seek(&links, &t.parent, k.min(n), x, n);
    s.met
}
