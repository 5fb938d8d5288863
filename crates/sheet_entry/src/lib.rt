// CHECK AND ENDS, over lent records and the positions of a sheet. They ask nothing of their caller.
#![tactic(auto)]

ghost use Rattle.std.specs.Prelude.{◌≡◌};
ghost use Rattle.plan.specs.Records.{«cells_of»};
ghost use Rattle.checker.specs.Checked.{checked_of};
ghost use Rattle.ends.specs.Ended.{«ended_of»};

use checker::Verdict;
use ends::Ended;
use plan::{Record, Refusal};
use records::columns_of;

// Check: "kept" with width and rows, or "broken" with the lowest rule, then the lowest a, then the lowest b; or the refusal.
pub fn check(table: &[Record], positions: &[i32], allowance: u32) -> Result<Verdict, Refusal>
    ensures { result ≡ checked_of (cells_of table.now) positions.now allowance }
{
    let t = columns_of(table);
    checker::check(t, positions, allowance)
}

// Ends: where the connector from a cell's parent to the cell begins and ends; or the refusal.
pub fn ends(table: &[Record], positions: &[i32], cell: usize) -> Result<Ended, Refusal>
    ensures { result ≡ ended_of (cells_of table.now) positions.now cell }
{
    let t = columns_of(table);
    ends::ends(t, positions, cell)
}
