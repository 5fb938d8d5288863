// THE OUTLINE OF A PLAN FILE, written into a lent output.
#![tactic(auto)]

ghost use Rattle.std.specs.Prelude.{◌≡◌, ◌++◌, ◌∷◌, [], ◌+◌, ◌≤◌, ◌<◌, length};
ghost use Rattle.plan.specs.Limits.{most_cells};
ghost use Rattle.records.specs.Apart.{«row_at»};
ghost use Rattle.listing.specs.Put.{Put};
ghost use Rattle.listing.specs.Printed.{line_feed};
ghost use Rattle.outline_spec.specs.Outline.{first_line};
ghost use Rattle.outline.specs.Outlined.{outline_size, Outlines};
ghost use Rattle.outline.specs.Steps.{«item_at», «lines_of», Ready, Outlining};

use decimals::{put_byte, put_decimal, put_text};
use outline_line::{level_under, put_cell};
use plan::limits::MOST_CELLS;
use plan::{Lettered, Record, Refusal};
use planfile_cursor::trailer;

const LINE_FEED: u8 = 10;

const OUTLINE_SIZE: usize = 66560;

// A cell's fields, from the columns.
fn record_at(t: &Lettered, c: usize) -> Record
    requires { c < most_cells }
    ensures { result ≡ row_at t.now c }
{
    Record {
        parent: t.columns.parent[c],
        kind: t.columns.kind[c],
        width: t.columns.width[c],
        depth: t.columns.depth[c],
        rank: t.columns.rank[c],
        label_length: t.label_length[c],
        label_start: t.label_start[c],
    }
}

// The lines of the cells.
fn put_cells(t: &Lettered, letters: &[u8], out: &mut [u8], begin: usize) -> usize
    requires { Ready t.now letters.now × (begin + 66048 ≤ length out.old) }
    ensures { Put out.old begin (lines_of (item_at t.now letters.now) t.now.columns.count) out.new result }
{
    let mut levels = [0u8; MOST_CELLS];
    let mut at = begin;
    for c in 0..t.columns.count {
        let cell = record_at(t, c);
        let seen = &levels[..c];
        let level = level_under(seen, usize::from(cell.parent));
        let start = usize::from(cell.label_start);
        let text = &letters[start..start + usize::from(cell.label_length)];
        at = put_cell(seen, level, cell, text, out, at);
        levels[c] = level as u8;
    }
    at
}

// The line of the allowance.
fn put_first(allowance: u64, out: &mut [u8]) -> usize
    requires { 31 ≤ length out.old }
    ensures { Put out.old 0 (first_line allowance ++ (line_feed ∷ [])) out.new result × (result ≤ 31) }
{
    let a = put_text(b"allowance ", out, 0);
    let b = put_decimal(allowance, out, a);
    put_byte(LINE_FEED, out, b)
}

// The outline, into an output that is long enough.
fn outlining(file: &[u8], out: &mut [u8]) -> Result<usize, Refusal>
    requires { outline_size ≤ length out.old }
    ensures { Outlining file.now out.old out.new result }
{
    let plan = planfile::read(file, MOST_CELLS)?;
    let end = trailer(file);
    let begin = usize::from(end.begin);
    let at = put_first(u64::from(plan.allowance), out);
    Ok(put_cells(&plan.cells, &file[..begin], out, at))
}

// The outline of a plan file, from the output's first byte on: its length, or the refusal: 1 where the output is too short, else Read's. Beyond it the output stays as it was, and wholly where the file is refused.
pub fn outline(file: &[u8], out: &mut [u8]) -> Result<usize, Refusal>
    ensures { Outlines file.now out.old out.new result }
{
    if out.len() < OUTLINE_SIZE {
        return Err(Refusal { number: 1, cell: 0 });
    }
    outlining(file, out)
}
