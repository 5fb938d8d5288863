// JOIN, over two lent tables and a table to fill. It asks nothing of its caller.
#![tactic(auto)]

ghost use Rattle.grafting.specs.Joins.{Joins};
ghost use Rattle.join_entry.specs.Hung.{Hangs};

use plan::{Lettered, Record, Refusal};
use records::{fill, lettered_of};

// The joined records of two tables that were taken apart are written into the table to fill.
fn hang(
    first: &Lettered,
    second: &Lettered,
    cell: usize,
    table: &mut [Record],
) -> Result<u16, Refusal>
    ensures { Hangs first.now second.now cell table.old table.new result }
{
    let joined = grafting::join(first, second, cell, table.len())?;
    fill(&joined, joined.columns.count, table);
    Ok(joined.columns.count as u16)
}

// Join: the second plan, hung under a cell of the first, is written into the table to fill; how many records, or the refusal.
pub fn join(
    first: &[Record],
    second: &[Record],
    cell: usize,
    table: &mut [Record],
) -> Result<u16, Refusal>
    ensures { Joins first.now second.now cell table.old table.new result }
{
    let a = lettered_of(first);
    let b = lettered_of(second);
    hang(&a, &b, cell, table)
}
