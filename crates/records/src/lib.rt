// A lent run of records, taken apart into columns of numbers and filled from columns.
#![tactic(auto)]

ghost use Rattle.std.specs.Prelude.{◌≡◌, ◌<◌, ◌≤◌, length};
ghost use Rattle.plan.specs.Limits.{most_cells};
ghost use Rattle.records.specs.Apart.{«lent_at», blank, clipped, lent_columns, lent_lettered};
ghost use Rattle.records.specs.Together.{as_reading, filled};

use plan::limits::MOST_CELLS;
use plan::{Columns, Lettered, Record};

// One record of a lent table.
fn record_at(table: &[Record], c: usize) -> Record
    requires { c < length table.now }
    ensures { result ≡ lent_at table.now c }
{
    table[c]
}

// Columns with no cell's numbers in them.
fn empty(count: usize) -> Lettered
    ensures { result ≡ blank count }
{
    let columns = Columns {
        count,
        parent: [0u16; MOST_CELLS],
        kind: [0u8; MOST_CELLS],
        width: [0u16; MOST_CELLS],
        depth: [0u8; MOST_CELLS],
        rank: [0u8; MOST_CELLS],
    };
    Lettered {
        columns,
        label_length: [0u8; MOST_CELLS],
        label_start: [0u16; MOST_CELLS],
    }
}

// How many records of a table are taken apart: none where there are too many.
#[tactic(auto, unfolding(crate::specs::Apart::clipped))]
fn clip(count: usize) -> usize
    ensures value { result ≡ clipped count }
    ensures within { result ≤ count }
    ensures few { result ≤ most_cells }
{
    if MOST_CELLS < count { 0 } else { count }
}

// The columns of a lent table, with those of its label fields. One of more than 256 records gives its count, and no numbers.
pub fn lettered_of(table: &[Record]) -> Lettered
    ensures { result ≡ lent_lettered table.now }
{
    let count = table.len();
    let taken = clip(count);
    let mut t = empty(count);
    for c in 0..taken {
        let r = record_at(table, c);
        t.columns.parent[c] = r.parent;
        t.columns.kind[c] = r.kind;
        t.columns.width[c] = r.width;
        t.columns.depth[c] = r.depth;
        t.columns.rank[c] = r.rank;
        t.label_length[c] = r.label_length;
        t.label_start[c] = r.label_start;
    }
    t
}

// The columns of a lent table alone.
pub fn columns_of(table: &[Record]) -> Columns
    ensures { result ≡ lent_columns table.now }
{
    let t = lettered_of(table);
    t.columns
}

// Writes the records of cells 0 to n - 1, and leaves the rest.
pub fn fill(t: &Lettered, n: usize, table: &mut [Record])
    requires { (n ≤ length table.old) × (n ≤ most_cells) }
    ensures { table.new ≡ filled (as_reading t.now) n table.old }
{
    for c in 0..n {
        table[c] = Record {
            parent: t.columns.parent[c],
            kind: t.columns.kind[c],
            rank: t.columns.rank[c],
            width: t.columns.width[c],
            depth: t.columns.depth[c],
            label_length: t.label_length[c],
            label_start: t.label_start[c],
        };
    }
}
