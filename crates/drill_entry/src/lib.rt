// DRILL, over lent records and answers. It asks nothing of its caller.
#![tactic(auto)]

ghost use Rattle.plan.specs.Records.{«cells_of»};
ghost use Rattle.following.specs.Drilled.{Drills};

use following::Drilled;
use plan::{Record, Refusal};
use records::columns_of;

// Drill: the plan is followed with these answers; how it ends, the bytes used and the number of records, with the recorded steps first in the list; or the refusal.
pub fn drill(table: &[Record], answers: &[u8], list: &mut [u16]) -> Result<Drilled, Refusal>
    ensures { Drills (cells_of table.now) answers.now list.old list.new result }
{
    let t = columns_of(table);
    following::drill(&t, answers, list)
}
