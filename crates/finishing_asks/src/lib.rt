// THE QUESTIONS of Start, Step and Reach (document 02, E9), put in their order.
#![tactic(auto)]

ghost use Rattle.std.specs.Prelude.{◌≡◌};
ghost use Rattle.plan.specs.Columns.{table_of};
ghost use Rattle.plan.specs.Questions.{passed};
ghost use Rattle.finishing_asks.specs.Asks.{start_no, step_no};

use asking::{allowance_refusal, asked, counted_refusal};
use layout::layout_refusal;
use plan::limits::{SCRATCH_SIZE, SECOND_SIZE};
use plan::{Columns, Refusal};

// The questions that Start puts: 1 (both scratches), 4, 6 to 8, 11 to 14.
pub fn start_refusal(
    t: &Columns,
    allowance: u32,
    scratch: usize,
    second: usize,
) -> Result<(), Refusal>
    ensures { result ≡ passed (start_no (table_of t.now) allowance scratch second) }
{
    asked(1, SECOND_SIZE <= second, 0)?;
    asked(1, SCRATCH_SIZE <= scratch, 0)?;
    counted_refusal(t)?;
    allowance_refusal(allowance)
}

// The questions that Step puts: 1 (both scratches), 4, 1 (positions), 6 to 8, 11 to 14.
pub fn step_refusal(
    t: &Columns,
    allowance: u32,
    scratch: usize,
    second: usize,
    positions: usize,
) -> Result<(), Refusal>
    ensures { result ≡ passed (step_no (table_of t.now) allowance scratch second positions) }
{
    asked(1, SECOND_SIZE <= second, 0)?;
    layout_refusal(t, allowance, scratch, positions)
}
