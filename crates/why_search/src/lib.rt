// Why a drawn sheet is as wide as it is: the chain with the fewest links that its cells just keep, from a cell with the least x to one with the greatest right edge.
#![tactic(auto)]

pub mod between;
pub mod search;

ghost use Rattle.std.specs.Prelude.{◌≤◌};
ghost use Rattle.plan.specs.Limits.{most_allowance, most_cells};
ghost use Rattle.plan.specs.Columns.{«table_of»};
ghost use Rattle.plan.specs.Fit.{Fit};
ghost use Rattle.plan.specs.Near.{Near};
ghost use Rattle.rules.specs.Placement.{placed};
ghost use Rattle.rules.specs.Rules.{S1};
ghost use Rattle.looking_sights.specs.Sights.{«view_in»};
ghost use Rattle.why_search.specs.Explains.{Explained};
ghost use Rattle.why_search.specs.Extremes.{Extremes};

use crate::between::rules_of;
use crate::search::{search, trace};
use looking_columns::SIGHTS;
use looking_sights::{look, see};
use plan::Columns;
use plan::limits::MOST_CELLS;

// The least x and the greatest right edge.
#[derive(Drop)]
pub struct Span {
    pub low: u32,
    pub high: u32,
}

fn span_of(sights: &[u32; SIGHTS], n: usize) -> Span
    requires { (1 ≤ n) × (n ≤ most_cells) }
    ensures { Extremes (view_in sights.now) n n result.low result.high }
{
    let root = see(sights, 0);
    let mut high = root.right;
    let mut low = root.x;
    for c in 1..n {
        let v = see(sights, c);
        high = high.max(v.right);
        low = low.min(v.x);
    }
    Span { low, high }
}

// The number of links; the cells, one more than the links, from left to right; the rule of each link.
#[derive(Drop)]
pub struct Chain {
    pub count: usize,
    pub cells: [usize; MOST_CELLS],
    pub rules: [u8; MOST_CELLS],
}

// The chain, if there is one, of a placement whose rows are those of S1: our sheet's, or one that Check keeps.
pub fn explain(t: Columns, positions: &[i32], allowance: u32) -> Option<Chain>
    requires { Fit (table_of t) × Near positions.now t.count × (allowance ≤ most_allowance) × S1 (table_of t) (placed positions.now) }
    ensures { Explained (table_of t) allowance (placed positions.now) result }
{
    let n = t.count;
    let mut sights = [0u32; SIGHTS];
    look(t, positions, &mut sights);
    let span = span_of(&sights, n);
    let way = search(&sights, n, allowance, span.low, span.high)?;
    let cells = trace(&sights, &way.marks, n, allowance, way.count, way.last);
    let rules = rules_of(&sights, &cells, n, way.count, allowance);
    Some(Chain {
        count: way.count,
        cells,
        rules,
    })
}
