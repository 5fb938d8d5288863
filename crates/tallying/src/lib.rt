// THE SEASON'S FOLDER, over lent memory (document 02, E14): a library above the engine. It asks nothing of its caller.
#![tactic(auto)]

ghost use Rattle.std.specs.Prelude.{◌≡◌};
ghost use Rattle.season.specs.Pool.{pool};
ghost use Rattle.reporting.specs.Reporting.{Reports};

use plan::{Record, Refusal};
use records::fill;
use season::Report;

// Report: the report of one plan file, with its sheet at its own allowance. The table is filled as Read fills it, scratch and positions are left as Layout leaves them; or the refusal.
pub fn report(
    file: &[u8],
    table: &mut [Record],
    scratch: &mut [u32],
    positions: &mut [i32],
) -> Result<Report, Refusal>
    ensures { Reports file.now table.old table.new scratch.old scratch.new positions.old positions.new result }
{
    let draft = reporting::report(file, table.len(), scratch, positions)?;
    fill(&draft.plan.cells, draft.plan.cells.columns.count, table);
    Ok(draft.report)
}

// Pool: the report of two folders together; or the refusal.
pub fn pool(a: Report, b: Report) -> Result<Report, Refusal>
    ensures { result ≡ pool a b }
{
    season::pool(a, b)
}
