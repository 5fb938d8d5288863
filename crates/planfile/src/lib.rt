// The plan file: Read, Label and Label's refusal.
#![tactic(auto)]

pub mod questions;

ghost use Rattle.std.specs.Prelude.{◌≡◌};
ghost use Rattle.plan.specs.Questions.{answered, passed};
ghost use Rattle.planfile_spec.specs.Read.{answer_of};
ghost use Rattle.planfile_spec.specs.Reading.{reading_of, label_refusal, label_part};
ghost use Rattle.planfile.specs.Subslice.{Subslice};

use crate::questions::examined;
use asking::asked;
use plan::Refusal;
use plan::forms::form_of;
use plan::limits::MOST_CELLS;
use planfile_cursor::{Cursor, place, trailer};
use planfile_spec::{Part, PlanFile};

// Reads a plan file for a table of so many records.
pub fn read(file: &[u8], room: usize) -> Result<PlanFile, Refusal>
    ensures { result ≡ answer_of (reading_of file.now room) }
{
    asked(1, MOST_CELLS <= room, 0)?;
    examined(file)
}

// Why Label refuses.
pub fn label_refusal(file: &[u8], cell: usize) -> Result<(), Refusal>
    ensures { result ≡ passed (label_refusal file.now cell) }
{
    let plan = examined(file)?;
    asked(16, cell < plan.cells.columns.count, 0)
}

// Where a cell's label stands in the file.
fn placed(file: &[u8], cell: usize) -> Result<Part, Refusal>
    ensures { result ≡ answered (label_refusal file.now cell) (label_part file.now cell) }
{
    label_refusal(file, cell)?;
    let t = trailer(file);
    let form = form_of(t.mark);
    let cursor = Cursor {
        at: place(form, t.begin as usize, cell),
    };
    let entry = cursor.entry(file, form);
    let fields = entry.fields;
    let start = usize::from(fields.label_start);
    Ok(Part {
        start,
        end: start + usize::from(fields.label_length),
    })
}

// The same; refused, the empty part at byte 0.
pub fn label_part(file: &[u8], cell: usize) -> Part
    ensures { result ≡ label_part file.now cell }
{
    placed(file, cell).unwrap_or(Part { start: 0, end: 0 })
}

// A cell's label, as that part of the file's own bytes; refused, the empty part at byte 0.
pub fn label(file: &[u8], cell: usize) -> &[u8]
    ensures { Subslice file.entry (label_part file.now cell) result }
{
    let part = label_part(file, cell);
    let start = part.start;
    let end = part.end;
    &file[start..end]
}
