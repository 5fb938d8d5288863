// The search: a cell's mark is 1 more than the fewest links that lead to it, 0 where none do so far.
#![tactic(auto)]

ghost use Rattle.std.specs.Prelude.{◌≡◌, ◌^◌, ◌≤◌, ◌<◌};
ghost use Rattle.plan.specs.Limits.{most_cells};
ghost use Rattle.plan.specs.Trees.{Column};
ghost use Rattle.looking_sights.specs.Sights.{«view_in», Sighted};
ghost use Rattle.why_ties.specs.Ties.{Ready};
ghost use Rattle.why_layers.specs.Marks.{leads_on, among, source, at_end, ending, mark_first, mark_next};

use looking_columns::SIGHTS;
use looking_sights::see;
use plan::limits::MOST_CELLS;
use why_ties::rule_of;

// a has mark m, and a tight link leads from it to b.
fn leads_on<'a>(
    sights: &'a [u32; SIGHTS],
    marks: &'a [usize; MOST_CELLS],
    m: usize,
    a: usize,
    b: usize,
    allowance: u32,
) -> bool
    requires { Ready a b (view_in sights.now a) (view_in sights.now b) allowance }
    ensures { result ≡ leads_on (view_in sights.now) allowance marks.now m b a }
{
    if marks[a] != m {
        return false;
    }
    let v = see(sights, a);
    let w = see(sights, b);
    rule_of(a, b, v, w, allowance).is_some()
}

// The lowest such a.
pub fn source<'a>(
    sights: &'a [u32; SIGHTS],
    marks: &'a [usize; MOST_CELLS],
    n: usize,
    m: usize,
    b: usize,
    allowance: u32,
) -> Option<usize>
    requires { Sighted (view_in sights.now) n × (b < n) × (allowance < 2 ^ 31) }
    ensures { result ≡ among n (source (view_in sights.now) allowance n marks.now m b) }
{
    for a in 0..n {
        if leads_on(sights, marks, m, a, b, allowance) {
            return Some(a);
        }
    }
    None
}

// e has mark m and the greatest right edge.
fn at_end<'a>(
    sights: &'a [u32; SIGHTS],
    marks: &'a [usize; MOST_CELLS],
    m: usize,
    high: u32,
    e: usize,
) -> bool
    requires { e < most_cells }
    ensures { result ≡ at_end (view_in sights.now) marks.now m high e }
{
    if marks[e] != m {
        return false;
    }
    let v = see(sights, e);
    v.right == high
}

// The lowest such e.
pub fn ending<'a>(
    sights: &'a [u32; SIGHTS],
    marks: &'a [usize; MOST_CELLS],
    n: usize,
    m: usize,
    high: u32,
) -> Option<usize>
    requires { n ≤ most_cells }
    ensures { result ≡ among n (ending (view_in sights.now) n marks.now m high) }
{
    for e in 0..n {
        if at_end(sights, marks, m, high, e) {
            return Some(e);
        }
    }
    None
}

fn mark_first(sights: &[u32; SIGHTS], low: u32, c: usize) -> usize
    requires { c < most_cells }
    ensures { result ≡ mark_first (view_in sights.now) low c }
{
    let v = see(sights, c);
    if v.x == low {
        return 1;
    }
    0
}

// The marks of no link: 1 for the cells with the least x.
pub fn first_marks(sights: &[u32; SIGHTS], n: usize, low: u32) -> [usize; MOST_CELLS]
    requires { n ≤ most_cells }
    ensures { Column result n (mark_first (view_in sights.now) low) }
{
    let mut out = [0usize; MOST_CELLS];
    for c in 0..n {
        out[c] = mark_first(sights, low, c);
    }
    out
}

fn mark_next<'a>(
    sights: &'a [u32; SIGHTS],
    marks: &'a [usize; MOST_CELLS],
    n: usize,
    m: usize,
    c: usize,
    allowance: u32,
) -> usize
    requires { Sighted (view_in sights.now) n × (c < n) × (allowance < 2 ^ 31) × (m ≤ most_cells) }
    ensures { result ≡ mark_next (view_in sights.now) allowance n marks.now m c }
{
    let old = marks[c];
    if old != 0 {
        return old;
    }
    match source(sights, marks, n, m, c, allowance) {
        Some(_) => m + 1,
        None => 0,
    }
}

// The marks of one link more.
pub fn next_marks<'a>(
    sights: &'a [u32; SIGHTS],
    marks: &'a [usize; MOST_CELLS],
    n: usize,
    m: usize,
    allowance: u32,
) -> [usize; MOST_CELLS]
    requires { Sighted (view_in sights.now) n × (allowance < 2 ^ 31) × (m ≤ most_cells) }
    ensures { Column result n (mark_next (view_in sights.now) allowance n marks.now m) }
{
    let mut out = [0usize; MOST_CELLS];
    for c in 0..n {
        out[c] = mark_next(sights, marks, n, m, c, allowance);
    }
    out
}
