// JOIN (document 02, E10): a second plan hung under a cell of a first, over columns.
#![tactic(auto)]

ghost use Rattle.std.specs.Prelude.{◌≡◌, ◌+◌, ◌-◌, ◌≤◌, ◌<◌, get_or};
ghost use Rattle.plan.specs.Limits.{most_cells};
ghost use Rattle.plan.specs.Columns.{table_of};
ghost use Rattle.planfile_spec.specs.Reading.{column};
ghost use Rattle.plan.specs.Questions.{passed};
ghost use Rattle.grafting.specs.Grafted.{picked_of, column_of, picked_parent, grafted, Hangs, Graftable, ready_refusal, accepted, graft_of};

use asking::{asked, counted, part_refusal, tree_refusal};
use plan::limits::MOST_CELLS;
use plan::{Columns, Lettered, Refusal};

// A value of cell i, n cells being the first's.
fn pick<'a, T: Copy>(
    first: &'a [T; MOST_CELLS],
    second: &'a [T; MOST_CELLS],
    n: usize,
    i: usize,
) -> T
    requires { i < most_cells }
    ensures { (z : T) → result ≡ picked_of z n first.now second.now i }
{
    if i < n {
        return first[i];
    }
    second[i - n]
}

// Its parent: the named cell for the second's root.
fn pick_parent<'a>(
    first: &'a [u16; MOST_CELLS],
    second: &'a [u16; MOST_CELLS],
    n: usize,
    cell: usize,
    i: usize,
) -> u16
    requires { (i < most_cells) × (n ≤ most_cells) × (cell < most_cells) × (n < i → get_or second.now (i - n) 0 < most_cells) }
    ensures { result ≡ picked_parent n cell first.now second.now i }
{
    if i < n {
        return first[i];
    }
    if i == n {
        return cell as u16;
    }
    (n as u16) + second[i - n]
}

// The values of the first k cells, then zeros.
fn join_values<'a, T: Copy>(
    first: &'a [T; MOST_CELLS],
    second: &'a [T; MOST_CELLS],
    zero: T,
    n: usize,
    k: usize,
) -> [T; MOST_CELLS]
    requires { k ≤ most_cells }
    ensures { result ≡ column_of zero (picked_of zero n first.now second.now) k }
{
    let mut all = [zero; MOST_CELLS];
    for i in 0..k {
        all[i] = pick(first, second, n, i);
    }
    all
}

// Their parents.
fn join_parents<'a>(
    first: &'a [u16; MOST_CELLS],
    second: &'a [u16; MOST_CELLS],
    n: usize,
    cell: usize,
    k: usize,
) -> [u16; MOST_CELLS]
    requires { Hangs second.now n cell k }
    ensures { result ≡ column (picked_parent n cell first.now second.now) k }
{
    let mut all = [0u16; MOST_CELLS];
    for i in 0..k {
        all[i] = pick_parent(first, second, n, cell, i);
    }
    all
}

// The columns of the joined table.
fn join_columns(first: &Columns, second: &Columns, cell: usize) -> Columns
    requires { Graftable first.now second.now cell }
    ensures { result ≡ grafted first.now second.now cell }
{
    let n = first.count;
    let count = n + second.count;
    Columns {
        count,
        parent: join_parents(&first.parent, &second.parent, n, cell, count),
        kind: join_values(&first.kind, &second.kind, 0, n, count),
        width: join_values(&first.width, &second.width, 0, n, count),
        depth: join_values(&first.depth, &second.depth, 0, n, count),
        rank: join_values(&first.rank, &second.rank, 0, n, count),
    }
}

// All questions but 11 to 13 of the joined table: 1 (the table to fill), 4 and 6 to 8 of the first, of the second, 16, 4 of the joined one.
fn ready(first: &Columns, second: &Columns, cell: usize, room: usize) -> Result<(), Refusal>
    ensures { result ≡ passed (ready_refusal room (table_of first.now) (table_of second.now) cell) }
{
    asked(1, MOST_CELLS <= room, 0)?;
    part_refusal(first)?;
    part_refusal(second)?;
    asked(16, cell < first.count, 0)?;
    asked(4, counted(first.count + second.count), 0)
}

// The records of joined columns, with the label fields as they were.
fn accept(first: &Lettered, second: &Lettered, columns: Columns) -> Lettered
    requires { columns.count ≤ most_cells }
    ensures { result ≡ accepted first.now second.now columns }
{
    let n = first.columns.count;
    let count = columns.count;
    Lettered {
        columns,
        label_length: join_values(&first.label_length, &second.label_length, 0, n, count),
        label_start: join_values(&first.label_start, &second.label_start, 0, n, count),
    }
}

// Join: the questions, then the records, for a table of so many.
pub fn join(
    first: &Lettered,
    second: &Lettered,
    cell: usize,
    room: usize,
) -> Result<Lettered, Refusal>
    ensures { result ≡ graft_of room first.now second.now cell }
{
    ready(&first.columns, &second.columns, cell, room)?;
    let t = join_columns(&first.columns, &second.columns, cell);
    tree_refusal(&t)?;
    Ok(accept(first, second, t))
}
