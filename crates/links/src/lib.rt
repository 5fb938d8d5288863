// The links of a table, made once: how the walk finds a cell's children. Only this crate knows the order of siblings.
#![tactic(auto)]

ghost use Rattle.std.specs.Prelude.{◌≡◌, ◌+◌, ◌-◌, ◌*◌, ◌≤◌, ◌<◌, length, get_or};
ghost use Rattle.plan.specs.Columns.{table_of};
ghost use Rattle.plan.specs.Fit.{Fit};
ghost use Rattle.links.specs.Links.{link, Links};
ghost use Rattle.links.specs.Chain.{«line_of», seek, «goes_on»};
ghost use Rattle.links.specs.Build.{Built, chained, number_one, counted, placed, Building, Seeking, Numbering, Counting, Appointing, Linking};

use plan::Columns;
use plan::kinds::appointed;
use plan::limits::MOST_CELLS;

// Four links a cell.
pub const LINKS: usize = 4 * MOST_CELLS;

// Link k of the cell c: its first child, its next sibling (0: none), its place among its siblings, the place of its appointed child.
pub fn link_of(links: &[u16], c: usize, k: usize) -> usize
    requires { (4 * c + 4 ≤ length links.now) × (k < 4) }
    ensures { result ≡ link links.now c k }
{
    usize::from(links[4 * c + k])
}

// The number of children that stands as link 3 of the cell c.
fn count_of(links: &[u16], c: usize) -> u32
    requires { 4 * c + 4 ≤ length links.now }
    ensures { result ≡ link links.now c 3 }
{
    u32::from(links[4 * c + 3])
}

// The cell that a link leads to (0: none).
fn cell_at(links: &[u16], at: usize) -> usize
    requires { at < length links.now }
    ensures { result ≡ get_or links.now at 0 }
{
    usize::from(links[at])
}

// Whether s is a sibling (0: none) of lower rank than q.
fn goes_on(ranks: &[u8], s: usize, q: u8) -> bool
    requires { s < length ranks.now }
    ensures { result ≡ goes_on ranks.now s q }
{
    if s == 0 {
        return false;
    }
    ranks[s] < q
}

// Along a chain of siblings from the link `from` on, past those of lower rank than q: the link that leads to the first other, or to none.
fn slot(ranks: &[u8], links: &[u16], from: usize, q: u8) -> usize
    requires { Seeking ranks.now links.now from }
    ensures { result ≡ seek ranks.now q from (line_of links.now (get_or links.now from 0)) }
{
    let mut at = from;
    let mut s = cell_at(links, at);
    while goes_on(ranks, s, q) {
        at = 4 * s + 1;
        s = cell_at(links, at);
    }
    at
}

// First child and next sibling, by rank, then in file order: each cell, from the last on, is linked in before its siblings of the same rank.
fn chain_siblings(t: &Columns, links: &mut [u16])
    requires { Building t.now.parent t.now.rank t.now.count links.old }
    ensures { links.new ≡ chained t.now.parent t.now.rank links.old (t.now.count - 1) 1 }
{
    for c in (1..t.count).rev() {
        let first = 4 * usize::from(t.parent[c]);
        let at = slot(&t.rank, links, first, t.rank[c]);
        links[4 * c + 1] = links[at];
        links[at] = c as u16;
    }
}

// The places of the children of f among each other, and their number.
fn number_children(f: usize, links: &mut [u16])
    requires { Numbering links.old f }
    ensures { links.new ≡ number_one links.old f }
{
    let mut s = cell_at(links, 4 * f);
    let mut k: u16 = 0;
    while 0 < s {
        links[4 * s + 2] = k;
        k += 1;
        s = cell_at(links, 4 * s + 1);
    }
    links[4 * f + 3] = k;
}

// The same for each cell.
fn number_siblings(n: usize, links: &mut [u16])
    requires { Counting n links.old }
    ensures { links.new ≡ counted links.old n }
{
    for c in 0..n {
        number_children(c, links);
    }
}

// The place of the appointed child stands where the number of children stood.
fn appoint(t: &Columns, links: &mut [u16])
    requires { Appointing t.now.kind t.now.count links.old }
    ensures { links.new ≡ placed t.now.kind links.old t.now.count }
{
    for c in 0..t.count {
        let first = appointed(t.kind[c], count_of(links, c));
        links[4 * c + 3] = (first - 1) as u16;
    }
}

// The links of the cells of a table, from links of zeros.
fn link_all(t: &Columns, links: &mut [u16])
    requires { Linking t.now.parent t.now.kind t.now.rank t.now.count links.old }
    ensures { Built t.now.parent t.now.kind t.now.rank t.now.count links.new }
{
    chain_siblings(t, links);
    number_siblings(t.count, links);
    appoint(t, links);
}

// The links of a table: four numbers a cell.
pub fn links_of(t: Columns) -> [u16; LINKS]
    requires { Fit (table_of t) }
    ensures { Links (table_of t) result }
{
    let mut links = [0u16; LINKS];
    link_all(&t, &mut links);
    links
}
