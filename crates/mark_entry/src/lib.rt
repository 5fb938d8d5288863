// MARK, over lent records and the positions of a drawing. It asks nothing of its caller.
#![tactic(auto)]

ghost use Rattle.plan.specs.Records.{«cells_of»};
ghost use Rattle.mark_spec.specs.Marked.{Marks};

use mark_spec::Marked;
use plan::{Record, Refusal};
use records::columns_of;

// Mark: full marks, "wide" with the least width, "broken" with rule and cells; or the refusal.
pub fn mark(
    table: &[Record],
    positions: &[i32],
    allowance: u32,
    scratch: &mut [u32],
) -> Result<Marked, Refusal>
    ensures { Marks (cells_of table.now) positions.now allowance scratch.old scratch.new result }
{
    let t = columns_of(table);
    mark::mark(t, positions, allowance, scratch)
}
