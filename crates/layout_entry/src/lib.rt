// LAYOUT, over lent records. It asks nothing of its caller.
#![tactic(auto)]

ghost use Rattle.plan.specs.Records.{«cells_of»};
ghost use Rattle.layout.specs.Laid.{Lays};

use plan::{Measures, Record, Refusal};
use records::columns_of;

// Layout: our sheet is written into the positions; its width and rows, or the refusal.
pub fn layout(
    table: &[Record],
    allowance: u32,
    scratch: &mut [u32],
    positions: &mut [i32],
) -> Result<Measures, Refusal>
    ensures { Lays (cells_of table.now) allowance scratch.old scratch.new positions.old positions.new result }
{
    let t = columns_of(table);
    layout::layout(t, allowance, scratch, positions)
}
