// The lines that tell of the cells altered, written at a place of an output.
#![tactic(auto)]

ghost use Rattle.std.specs.Prelude.{◌≡◌, ◌+◌, ◌*◌, ◌≤◌, ◌<◌, length};
ghost use Rattle.plan.specs.Limits.{most_cells, lines_size};
ghost use Rattle.plan.specs.Forms.{record_size};
ghost use Rattle.planfile_spec.specs.Format.{record_at};
ghost use Rattle.listing.specs.Put.{Put};
ghost use Rattle.mending_lines.specs.Steps.{alteration_text, alterations_text, line_room};

use listing::{mended_line, put_line};
use mending_boxes::{changed, new_depth, new_width};
use plan::Record;
use plan::forms::Form;
use planfile_cursor::{Cursor, place};

// The line of a cell that is altered, at a place of the output; of another cell nothing.
fn put_alteration(cell: usize, r: Record, out: &mut [u8], at: usize) -> usize
    requires { (cell < most_cells) × (at + line_room ≤ length out.old) }
    ensures { Put out.old at (alteration_text cell r) out.new result × (result ≤ at + line_room) }
{
    if changed(r) {
        let line = mended_line(
            cell as u32,
            u32::from(r.width),
            u32::from(r.depth),
            u32::from(new_width(r)),
            u32::from(new_depth(r)),
        );
        return put_line(line, out, at);
    }
    at
}

// The record of a cell.
fn record_of(form: Form, file: &[u8], begin: usize, cell: usize) -> Record
    requires { (cell < most_cells) × (begin + record_size form * cell + record_size form ≤ length file.now) }
    ensures { result ≡ record_at form file.now (begin + record_size form * cell) }
{
    let cursor = Cursor {
        at: place(form, begin, cell),
    };
    let entry = cursor.entry(file, form);
    entry.fields
}

// The lines of the n records from begin on: their length.
pub fn put_lines(form: Form, file: &[u8], begin: usize, n: usize, out: &mut [u8]) -> usize
    requires { (n ≤ most_cells) × (begin + record_size form * n ≤ length file.now) × (lines_size ≤ length out.old) }
    ensures { Put out.old 0 (alterations_text (λ c. record_at form file.now (begin + record_size form * c)) n) out.new result × (result ≤ line_room * n) }
{
    let mut next = 0;
    for c in 0..n {
        next = put_alteration(c, record_of(form, file, begin, c), out, next);
    }
    next
}
