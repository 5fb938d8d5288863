// The loop of the search, and the way back.
ghost use Rattle.std.specs.Prelude.{◌≡◌, ℕ, ◌^◌, ◌≤◌, ◌<◌, get_or};
ghost use Rattle.plan.specs.Plan.{Table};
ghost use Rattle.rules.specs.Placement.{Placement};
ghost use Rattle.looking_sights.specs.Sights.{«view_in», Sighted};
ghost use Rattle.why_search.specs.Stops.{stop};
ghost use Rattle.why_search.specs.Found.{Stands, Told, Begun};

use looking_columns::SIGHTS;
use plan::limits::MOST_CELLS;
use why_layers::{ending, first_marks, next_marks, source};

// The marks, the number of links and the last cell.
#[derive(Drop)]
pub struct Way {
    pub marks: [usize; MOST_CELLS],
    pub count: usize,
    pub last: usize,
}

// A link more each time, until a cell with the greatest right edge is marked.
pub fn search(sights: &[u32; SIGHTS], n: usize, allowance: u32, low: u32, high: u32) -> Option<Way>
    requires { Sighted (view_in sights.now) n × (allowance < 2 ^ 31) }
    ensures { (t : Table) (p : Placement) → Stands t allowance p (view_in sights.now) n low high → Told t allowance p n result }
{
    let mut marks = first_marks(sights, n, low);
    for count in 0..n {
        if let Some(last) = ending(sights, &marks, n, count + 1, high) {
            return Some(Way { marks, count, last });
        }
        marks = next_marks(sights, &marks, n, count + 1, allowance);
    }
    None
}

// The cells of the chain, from the last back to the first; number j of the result is the cell that j links lead to.
pub fn trace<'a>(
    sights: &'a [u32; SIGHTS],
    marks: &'a [usize; MOST_CELLS],
    n: usize,
    allowance: u32,
    count: usize,
    last: usize,
) -> [usize; MOST_CELLS]
    requires { Sighted (view_in sights.now) n × (allowance < 2 ^ 31) × (count < n) × (last < n) }
    ensures { (t : Table) (p : Placement) → Begun t allowance p (view_in sights.now) n marks.now count last
        → (j : ℕ) → j ≤ count → get_or result j 0 ≡ stop t allowance p count last j }
{
    let mut out = [0usize; MOST_CELLS];
    let mut b = last;
    out[count] = b;
    for k in (0..count).rev() {
        let Some(a) = source(sights, marks, n, k + 1, b, allowance) else {
            return out;
        };
        out[k] = a;
        b = a;
    }
    out
}
