// The rule of each link of a chain.
ghost use Rattle.std.specs.Prelude.{◌≡◌, ◌^◌, ◌<◌};
ghost use Rattle.plan.specs.Trees.{Column};
ghost use Rattle.looking_sights.specs.Sights.{«view_in», Sighted};
ghost use Rattle.why_search.specs.Rules.{rule_between, Inside};

use looking_columns::SIGHTS;
use looking_sights::see;
use plan::limits::MOST_CELLS;
use why_ties::rule_of;

// The rule between cell number j and the next; 0 where no link is tight.
fn rule_at<'a>(
    sights: &'a [u32; SIGHTS],
    cells: &'a [usize; MOST_CELLS],
    n: usize,
    count: usize,
    j: usize,
    allowance: u32,
) -> u8
    requires { Sighted (view_in sights.now) n × (allowance < 2 ^ 31) × (count < n) × Inside cells.now n count × (j < count) }
    ensures { result ≡ rule_between (view_in sights.now) allowance cells.now j }
{
    let a = cells[j];
    let b = cells[j + 1];
    let v = see(sights, a);
    let w = see(sights, b);
    rule_of(a, b, v, w, allowance).unwrap_or(0)
}

pub fn rules_of<'a>(
    sights: &'a [u32; SIGHTS],
    cells: &'a [usize; MOST_CELLS],
    n: usize,
    count: usize,
    allowance: u32,
) -> [u8; MOST_CELLS]
    requires { Sighted (view_in sights.now) n × (allowance < 2 ^ 31) × (count < n) × Inside cells.now n count }
    ensures { Column result count (rule_between (view_in sights.now) allowance cells.now) }
{
    let mut out = [0u8; MOST_CELLS];
    for j in 0..count {
        out[j] = rule_at(sights, cells, n, count, j, allowance);
    }
    out
}
