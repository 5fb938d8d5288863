// All five rules decided at once: each cell with its parent, each with the sibling right before it, and a sweep of the cells in preorder over the
// rows. Only where that fails is the lowest pair searched for.
#![tactic(auto)]

ghost use Rattle.std.specs.Prelude.{◌≡◌, true, false, ◌+◌, ◌-◌, ◌^◌, ◌≤◌, ◌<◌, length, get_or};
ghost use Rattle.whole.specs.Says.{Says};
ghost use Rattle.plan.specs.Limits.{farthest, «last_row», most_cells};
ghost use Rattle.plan.specs.Trees.{Column};
ghost use Rattle.rules.specs.Search.{kept};
ghost use Rattle.spans.specs.Spans.{at};
ghost use Rattle.looking_sights.specs.Sights.{Sighted, «view_in»};
ghost use Rattle.looking.specs.Passes.{«found_of», «all_found»};
ghost use Rattle.sweeping.specs.Swept.{Seen, Ready, AloneAt, Alone, Order, top, Gathered, Small, BesideAt, Beside, Clear, Rows, most_rows, Filled, Taken, Settled, Blocked};

use looking::search::{pass1, pass2, search};
use looking_columns::SIGHTS;
use looking_sights::see;
use plan::Breach;
use plan::limits::{FARTHEST, LAST_ROW, MOST_CELLS};

// A number that no coordinate passes: what is left to it of an x is greatest where the x is least.
pub const TOP: u32 = 2147483648;

// The rows of a sheet.
pub const ROWS: usize = LAST_ROW as usize + 1;

// S1 at the cell, and S2 at it and its parent.
fn alone_at(sights: &[u32; SIGHTS], n: usize, c: usize) -> bool
    requires { Ready (view_in sights.now) n × (c < n) }
    ensures { Says result (AloneAt (view_in sights.now) c) }
{
    let w = see(sights, c);
    if !pass1(c, c, w) {
        return false;
    }
    if c == 0 {
        return true;
    }
    let f = w.parent as usize;
    let v = see(sights, f);
    pass2(f, v, w)
}

fn alone(sights: &[u32; SIGHTS], n: usize) -> bool
    requires { Ready (view_in sights.now) n }
    ensures { Says result (Alone (view_in sights.now) n) }
{
    for c in 0..n {
        if !alone_at(sights, n, c) {
            return false;
        }
    }
    true
}

// The cells in preorder: each at its number.
fn order_of(sights: &[u32; SIGHTS], n: usize) -> [u16; MOST_CELLS]
    requires { Ready (view_in sights.now) n }
    ensures { Order (view_in sights.now) n result }
{
    let mut order = [0u16; MOST_CELLS];
    for c in 0..n {
        let w = see(sights, c);
        let k = w.first as usize;
        order[k] = c as u16;
    }
    order
}

// The cell with the number k.
fn cell_at(order: &[u16; MOST_CELLS], k: usize) -> usize
    requires { k < most_cells }
    ensures { result ≡ get_or order.now k 0 }
{
    usize::from(order[k])
}

// Of each cell a right edge, and what is left of TOP to the right of an x.
#[derive(Drop)]
struct Sides {
    high: [u32; MOST_CELLS],
    low: [u32; MOST_CELLS],
}

// Those of the cell alone.
fn sides_of(sights: &[u32; SIGHTS], n: usize) -> Sides
    requires { Ready (view_in sights.now) n }
    ensures { Column result.high n (λ c. (view_in sights.now c).right) × Column result.low n (λ c. top - (view_in sights.now c).x) }
{
    let mut high = [0u32; MOST_CELLS];
    let mut low = [0u32; MOST_CELLS];
    for c in 0..n {
        let w = see(sights, c);
        high[c] = w.right;
        low[c] = TOP - w.x;
    }
    Sides { high, low }
}

// The greatest of a column's numbers in each subtree. From the last cell to the first: each is taken in by its parent.
fn gather(sights: &[u32; SIGHTS], n: usize, column: &mut [u32; MOST_CELLS])
    requires { Ready (view_in sights.now) n × (length column.old ≡ most_cells) }
    ensures { Gathered (view_in sights.now) n (at column.old) (at column.new) }
{
    for c in (1..n).rev() {
        let w = see(sights, c);
        let f = w.parent as usize;
        let most = column[f].max(column[c]);
        column[f] = most;
    }
}

// S3 and S5 for the subtrees of the cell v and of the sibling right before it. Of the first cell of a row, that is v itself.
fn beside_at(
    sights: &[u32; SIGHTS],
    n: usize,
    order: &[u16; MOST_CELLS],
    sides: &Sides,
    v: usize,
    allowance: u32,
) -> bool
    requires ready { Ready (view_in sights.now) n × Order (view_in sights.now) n order.now }
    requires small { Small n (at sides.now.high) (at sides.now.low) × (v < n) × (allowance < 2 ^ 31) }
    ensures { Says result (BesideAt (view_in sights.now) n allowance (at sides.now.high) (at sides.now.low) v) }
{
    let w = see(sights, v);
    let k = w.from as usize;
    let u = cell_at(order, k);
    if u == v {
        return true;
    }
    let e = see(sights, u);
    let most = sides.high[u];
    let least = TOP - sides.low[v];
    if w.x <= most {
        return false;
    }
    if least <= e.x {
        return false;
    }
    most + 1 <= least + allowance
}

fn beside(
    sights: &[u32; SIGHTS],
    n: usize,
    order: &[u16; MOST_CELLS],
    sides: &Sides,
    allowance: u32,
) -> bool
    requires ready { Ready (view_in sights.now) n × Order (view_in sights.now) n order.now }
    requires small { Small n (at sides.now.high) (at sides.now.low) × (allowance < 2 ^ 31) }
    ensures { Says result (Beside (view_in sights.now) n allowance (at sides.now.high) (at sides.now.low)) }
{
    for v in 0..n {
        if !beside_at(sights, n, order, sides, v, allowance) {
            return false;
        }
    }
    true
}

// Rows from top to bottom that must be free at x are taken to before v.
fn fill(rows: &mut [u32; ROWS], from: u32, to: u32, x: u32, v: u32) -> bool
    requires { (x ≤ v) × (length rows.old ≡ most_rows) × (farthest ≤ from) × (from ≤ to + 1) × (to ≤ farthest + last_row) }
    ensures { (result ≡ true → Filled rows.old rows.new from to x v) × (result ≡ false → Taken rows.old from to x) }
{
    for y in from..=to {
        let r = (y - FARTHEST) as usize;
        if x < rows[r] {
            return false;
        }
        rows[r] = v;
    }
    true
}

// The cell c is opened: the rows of its box; and, where it is its parent's appointed child, those of the parent's stem that are below its subtree.
fn settle(sights: &[u32; SIGHTS], n: usize, rows: &mut [u32; ROWS], c: usize) -> bool
    requires { Ready (view_in sights.now) n × Rows (view_in sights.now) n × (c < n) × (length rows.old ≡ most_rows) }
    ensures { (result ≡ true → Settled (view_in sights.now) c rows.old rows.new) × (result ≡ false → Blocked (view_in sights.now) c rows.old) }
{
    let w = see(sights, c);
    if !fill(rows, w.y, w.base, w.x, w.right + 1) {
        return false;
    }
    if c == 0 {
        return true;
    }
    let v = see(sights, w.parent as usize);
    if w.nth != v.middle {
        return true;
    }
    fill(rows, w.bottom + 1, v.bottom, w.x, w.x + 1)
}

// S4, from the cells in preorder.
fn sweep(sights: &[u32; SIGHTS], n: usize, order: &[u16; MOST_CELLS]) -> bool
    requires { Ready (view_in sights.now) n × Order (view_in sights.now) n order.now × Rows (view_in sights.now) n }
    ensures { Says result (Clear (view_in sights.now) n) }
{
    let root = see(sights, 0);
    let last = root.end as usize;
    let mut rows = [0u32; ROWS];
    for k in 0..last {
        let c = cell_at(order, k);
        if !settle(sights, n, &mut rows, c) {
            return false;
        }
    }
    true
}

// All five rules.
fn all_kept(sights: &[u32; SIGHTS], n: usize, allowance: u32) -> bool
    requires { Seen (view_in sights.now) n × Sighted (view_in sights.now) n × (allowance < 2 ^ 31) }
    ensures { Says result (all_found (view_in sights.now) allowance n ≡ kept) }
{
    if !alone(sights, n) {
        return false;
    }
    let order = order_of(sights, n);
    let mut sides = sides_of(sights, n);
    gather(sights, n, &mut sides.high);
    gather(sights, n, &mut sides.low);
    if !beside(sights, n, &order, &sides, allowance) {
        return false;
    }
    sweep(sights, n, &order)
}

// What the search finds, which is run only where the rules are not all kept.
pub fn find(sights: &[u32; SIGHTS], n: usize, allowance: u32) -> Result<(), Breach>
    requires { Seen (view_in sights.now) n × Sighted (view_in sights.now) n × (allowance < 2 ^ 31) }
    ensures { result ≡ found_of (all_found (view_in sights.now) allowance n) }
{
    if all_kept(sights, n, allowance) {
        return Ok(());
    }
    search(sights, n, allowance)
}
