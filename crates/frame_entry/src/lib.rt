// FRAME, over lent records. It asks nothing of its caller.
#![tactic(auto)]

ghost use Rattle.plan.specs.Records.{«cells_of»};
ghost use Rattle.fitting.specs.Fitted.{Frames};

use plan::{Record, Refusal};
use records::columns_of;

// Frame: the least allowance whose sheet is no wider than a frame of so many squares, or none; or the refusal.
pub fn frame(table: &[Record], squares: u32, scratch: &mut [u32]) -> Result<Option<u32>, Refusal>
    ensures { Frames (cells_of table.now) squares scratch.old scratch.new result }
{
    let t = columns_of(table);
    fitting::frame(t, squares, scratch)
}
