// REACH (document 02, E9): the reach of what is finished of a sheet that is made a cell a step.
#![tactic(auto)]

ghost use Rattle.std.specs.Prelude.{◌≡◌, ◌≤◌, ◌<◌, length};
ghost use Rattle.plan.specs.Limits.{second_size};
ghost use Rattle.plan.specs.Fit.{Fit};
ghost use Rattle.plan.specs.Columns.{table_of};
ghost use Rattle.finishing_reach.specs.Reaching.{Reaches};
ghost use Rattle.finishing_reach.specs.Reading.{read};

use asking::asked;
use finishing_asks::start_refusal;
use finishing_order::is_finished;
use finishing_step::count_of;
use joining_cells::mark_of;
use plan::{Columns, Refusal};

// The left and the right reach of a finished subtree.
#[derive(Drop)]
pub struct Sides {
    pub left: u32,
    pub right: u32,
}

// A reading, for a table that no question refuses: the marks of a finished cell.
fn reading(t: &Columns, scratch: &[u32], second: &[u32], c: usize) -> Result<Sides, Refusal>
    requires { Fit (table_of t.now) × (63 < length scratch.now) × (second_size ≤ length second.now) × (c < t.now.count) }
    ensures { result ≡ read (table_of t.now) scratch.now second.now c }
{
    asked(20, is_finished(t, count_of(scratch), c), c)?;
    Ok(Sides {
        left: mark_of(second, c, 1),
        right: mark_of(second, c, 2),
    })
}

// THE REACH of the cell c, if it is finished: the questions, then the reading.
pub fn reach(
    t: &Columns,
    allowance: u32,
    scratch: &[u32],
    second: &[u32],
    cell: usize,
) -> Result<Sides, Refusal>
    ensures { Reaches (table_of t.now) allowance scratch.now second.now cell result }
{
    start_refusal(t, allowance, scratch.len(), second.len())?;
    asked(16, cell < t.count, 0)?;
    reading(t, scratch, second, cell)
}
