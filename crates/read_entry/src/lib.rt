// READ, over a lent file and a lent table to fill. It asks nothing of its caller.
#![tactic(auto)]

ghost use Rattle.read_entry.specs.Read.{Reads};

use plan::{Record, Refusal};
use records::fill;

// The number of cells and the allowance.
#[derive(Drop)]
pub struct ReadPlan {
    pub count: u16,
    pub allowance: u16,
}

// Read: the file's records are written into the table.
pub fn read(file: &[u8], table: &mut [Record]) -> Result<ReadPlan, Refusal>
    ensures { Reads file.now table.old table.new result }
{
    let plan = planfile::read(file, table.len())?;
    fill(&plan.cells, plan.cells.columns.count, table);
    Ok(ReadPlan {
        count: plan.cells.columns.count as u16,
        allowance: plan.allowance,
    })
}
