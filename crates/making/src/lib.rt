// A SHEET MADE A CELL A STEP, over lent records (document 02, E9): a library above the engine. It asks nothing of its caller.
#![tactic(auto)]

ghost use Rattle.plan.specs.Records.{«cells_of»};
ghost use Rattle.finishing.specs.Finishing.{Starts};
ghost use Rattle.finishing_reach.specs.Reaching.{Reaches};
ghost use Rattle.finishing_step.specs.Stepping.{Steps};

use finishing_reach::Sides;
use plan::{Record, Refusal};
use records::columns_of;

// Start: both scratches are cleared, for a sheet that is made a cell a step; or the refusal.
pub fn start(
    table: &[Record],
    allowance: u32,
    scratch: &mut [u32],
    second: &mut [u32],
) -> Result<(), Refusal>
    ensures { Starts (cells_of table.now) allowance scratch.old scratch.new second.old second.new result }
{
    let t = columns_of(table);
    finishing::start(&t, allowance, scratch, second)
}

// Step: one more cell is finished, and with the last the positions are written; none when all are; or the refusal.
pub fn step(
    table: &[Record],
    allowance: u32,
    scratch: &mut [u32],
    second: &mut [u32],
    positions: &mut [i32],
) -> Result<Option<u16>, Refusal>
    ensures { Steps (cells_of table.now) allowance scratch.old scratch.new second.old second.new positions.old positions.new result }
{
    let t = columns_of(table);
    finishing::step(&t, allowance, scratch, second, positions)
}

// Reach: the left and the right reach of a subtree that is finished; or the refusal.
pub fn reach(
    table: &[Record],
    allowance: u32,
    scratch: &[u32],
    second: &[u32],
    cell: usize,
) -> Result<Sides, Refusal>
    ensures { Reaches (cells_of table.now) allowance scratch.now second.now cell result }
{
    let t = columns_of(table);
    finishing_reach::reach(&t, allowance, scratch, second, cell)
}
