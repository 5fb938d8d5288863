// Where the cells stand as seen from one another, told by numbers: passes over the cells, up or down, and along the links.
#![tactic(auto)]

ghost use Rattle.std.specs.Prelude.{◌≡◌, ◌+◌, ◌*◌, ◌≤◌, ◌<◌, length, get_or};
ghost use Rattle.plan.specs.Limits.{most_cells};
ghost use Rattle.plan.specs.Columns.{«table_of»};
ghost use Rattle.plan.specs.Fit.{Fit};
ghost use Rattle.links.specs.Links.{link, Links};
ghost use Rattle.spans.specs.Spans.{at, Counted, Deepest, Sized, Spans};
ghost use Rattle.spans.specs.Shared.{cols, kids, or_none, «spread_at», Sharing};

use links::link_of;
use plan::Columns;
use plan::limits::MOST_CELLS;

// The span of each cell, from first to before end; where the span of the sibling right before begins, and where that of the one right after ends.
#[derive(Drop)]
pub struct Standing {
    pub first: [u32; MOST_CELLS],
    pub end: [u32; MOST_CELLS],
    pub from: [u32; MOST_CELLS],
    pub to: [u32; MOST_CELLS],
}

// nth: a cell's number among its siblings, from 1, and 0 for the root; many: how many children it has.
#[derive(Drop)]
pub struct Numbers {
    pub nth: [u32; MOST_CELLS],
    pub many: [u32; MOST_CELLS],
}

// The parent of a cell, which is lower.
pub fn parent_of(parents: &[u16; MOST_CELLS], c: usize) -> usize
    requires { (c < most_cells) × (get_or parents.now c 0 < c) }
    ensures { (result ≡ get_or parents.now c 0) × (result < c) }
{
    usize::from(parents[c])
}

// How many cells are at or below each cell. From the last cell to the first: each is taken in by its parent.
pub fn measure(t: Columns) -> [u32; MOST_CELLS]
    requires { Fit (table_of t) }
    ensures { Sized (table_of t) (at result) }
{
    let mut size = [1u32; MOST_CELLS];
    for c in (1..t.count).rev() {
        let f = parent_of(&t.parent, c);
        size[f] = size[f] + size[c];
    }
    size
}

// The size of a cell; 0 for none.
fn size_at(size: &[u32; MOST_CELLS], s: usize) -> u32
    requires { s < most_cells }
    ensures { result ≡ or_none size.now s }
{
    if s == 0 {
        return 0;
    }
    size[s]
}

// The children of f, along the links: each has its part of f's span, right after its elder sibling's.
fn lay_children<'a>(
    links: &'a [u16],
    size: &'a [u32; MOST_CELLS],
    f: usize,
    first: &mut [u32; MOST_CELLS],
    end: &mut [u32; MOST_CELLS],
    from: &mut [u32; MOST_CELLS],
    to: &mut [u32; MOST_CELLS],
)
    requires { Sharing links.now size.now (cols first.old end.old from.old to.old) f }
    ensures { cols first.new end.new from.new to.new
        ≡ spread_at (at size.now) (cols first.old end.old from.old to.old) f (kids links.now f) }
{
    let mut s = link_of(links, f, 0);
    let mut elder = first[f] + 1;
    let mut here = elder;
    while 0 < s {
        let after = here + size[s];
        let next = link_of(links, s, 1);
        first[s] = here;
        end[s] = after;
        from[s] = elder;
        to[s] = after + size_at(size, next);
        elder = here;
        here = after;
        s = next;
    }
}

// From the first cell to the last: each shares its span out among its children.
pub fn lay(t: Columns, links: &[u16], size: [u32; MOST_CELLS]) -> Standing
    requires fit { Fit (table_of t) }
    requires links { Links (table_of t) links.now }
    requires sized { Sized (table_of t) (at size) }
    ensures { Spans (table_of t) (at result.first) (at result.end) (at result.from) (at result.to) }
{
    let mut first = [0u32; MOST_CELLS];
    let mut end = [0u32; MOST_CELLS];
    let mut from = [0u32; MOST_CELLS];
    let mut to = [0u32; MOST_CELLS];
    let whole = size[0];
    end[0] = whole;
    to[0] = whole;
    for c in 0..t.count {
        lay_children(links, &size, c, &mut first, &mut end, &mut from, &mut to);
    }
    Standing {
        first,
        end,
        from,
        to,
    }
}

// The greatest of the numbers in each subtree.
pub fn sink(t: Columns, bases: [u32; MOST_CELLS]) -> [u32; MOST_CELLS]
    requires { Fit (table_of t) }
    ensures { Deepest (table_of t) (at bases) (at result) }
{
    let mut bottoms = bases;
    for c in (1..t.count).rev() {
        let f = parent_of(&t.parent, c);
        bottoms[f] = bottoms[f].max(bottoms[c]);
    }
    bottoms
}

// A cell's place among its siblings, from 0.
fn place_of(links: &[u16], c: usize) -> u32
    requires { 4 * c + 4 ≤ length links.now }
    ensures { result ≡ link links.now c 2 }
{
    u32::from(links[4 * c + 2])
}

// The siblings numbered and the children counted.
pub fn number(t: Columns, links: &[u16]) -> Numbers
    requires fit { Fit (table_of t) }
    requires links { Links (table_of t) links.now }
    ensures { Counted (table_of t) (at result.nth) (at result.many) }
{
    let mut nth = [0u32; MOST_CELLS];
    let mut many = [0u32; MOST_CELLS];
    for c in 1..t.count {
        let f = parent_of(&t.parent, c);
        nth[c] = place_of(links, c) + 1;
        many[f] = many[f] + 1;
    }
    Numbers { nth, many }
}
