// START AND STEP (document 02, E9): a sheet that is made a cell a step.
#![tactic(auto)]

ghost use Rattle.plan.specs.Columns.{table_of};
ghost use Rattle.finishing.specs.Finishing.{Starts};
ghost use Rattle.finishing_step.specs.Stepping.{Steps};

use finishing_asks::{start_refusal, step_refusal};
use finishing_step::advance;
use plan::limits::{SCRATCH_SIZE, SECOND_SIZE};
use plan::{Columns, Refusal};

// A START: the questions, then both scratches are cleared.
pub fn start(
    t: &Columns,
    allowance: u32,
    scratch: &mut [u32],
    second: &mut [u32],
) -> Result<(), Refusal>
    ensures { Starts (table_of t.now) allowance scratch.old scratch.new second.old second.new result }
{
    start_refusal(t, allowance, scratch.len(), second.len())?;
    scratch[..SCRATCH_SIZE].fill(0);
    second[..SECOND_SIZE].fill(0);
    Ok(())
}

// A STEP: the questions, then one cell is finished, and told; or all are, and none is.
pub fn step(
    t: &Columns,
    allowance: u32,
    scratch: &mut [u32],
    second: &mut [u32],
    positions: &mut [i32],
) -> Result<Option<u16>, Refusal>
    ensures { Steps (table_of t.now) allowance scratch.old scratch.new second.old second.new positions.old positions.new result }
{
    step_refusal(t, allowance, scratch.len(), second.len(), positions.len())?;
    let told = advance(
        t,
        allowance,
        &mut scratch[..SCRATCH_SIZE],
        &mut second[..SECOND_SIZE],
        positions,
    );
    Ok(told)
}
