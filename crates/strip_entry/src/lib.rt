// STRIP, over lent records and the positions of a sheet. It asks nothing of its caller.
#![tactic(auto)]

ghost use Rattle.plan.specs.Records.{«cells_of»};
ghost use Rattle.strips.specs.Stripped.{Strips};

use plan::{Record, Refusal};
use records::columns_of;

// Strip: a row of a drawn sheet, from a column on, is written into the bytes, eight columns a byte; or the refusal.
pub fn strip(
    table: &[Record],
    positions: &[i32],
    row: u32,
    first: u32,
    bytes: &mut [u8],
) -> Result<(), Refusal>
    ensures { Strips (cells_of table.now) positions.now row first bytes.old bytes.new result }
{
    strips::strip(&columns_of(table), positions, row, first, bytes)
}
