// The records of a file in columns, and questions 6 to 14 put to them, each answered: nothing, or the refusal.
#![tactic(auto)]

ghost use Rattle.std.specs.Prelude.{◌≡◌, ◌+◌, ◌*◌, ◌≤◌, ◌<◌, length};
ghost use Rattle.plan.specs.Limits.{most_cells};
ghost use Rattle.plan.specs.Forms.{record_size};
ghost use Rattle.plan.specs.Questions.{none, «at_each», passed};
ghost use Rattle.planfile_spec.specs.Format.{record_at};
ghost use Rattle.planfile_spec.specs.Read.{plan_of, reading};
ghost use Rattle.planfile_spec.specs.Reading.{«columns_of»};
ghost use Rattle.planfile_spec.specs.FileSteps.{inside, records_at, columns_refusal};

use asking::{allowance_refusal, asked, cell_refusal, tree_refusal};
use plan::forms::{Form, widest};
use plan::kinds::bordered;
use plan::limits::{MOST_CELLS, MOST_LABEL};
use plan::{Columns, Lettered, Refusal};
use planfile_cursor::Cursor;
use planfile_spec::PlanFile;

// The columns of the n records from begin on.
pub fn records(file: &[u8], form: Form, begin: usize, n: usize, allowance: u16) -> PlanFile
    requires { (n ≤ most_cells) × (begin + record_size form * n ≤ length file.now) }
    ensures { result ≡ plan_of (columns_of none allowance n (λ c. record_at form file.now (begin + record_size form * c))) }
{
    let mut parent = [0u16; MOST_CELLS];
    let mut kind = [0u8; MOST_CELLS];
    let mut width = [0u16; MOST_CELLS];
    let mut depth = [0u8; MOST_CELLS];
    let mut rank = [0u8; MOST_CELLS];
    let mut label_length = [0u8; MOST_CELLS];
    let mut label_start = [0u16; MOST_CELLS];
    let mut cursor = Cursor { at: begin };
    for c in 0..n {
        let entry = cursor.entry(file, form);
        let fields = entry.fields;
        parent[c] = fields.parent;
        kind[c] = fields.kind;
        width[c] = fields.width;
        depth[c] = fields.depth;
        rank[c] = fields.rank;
        label_length[c] = fields.label_length;
        label_start[c] = fields.label_start;
        cursor = entry.next;
    }
    PlanFile {
        allowance,
        cells: Lettered {
            columns: Columns {
                count: n,
                parent,
                kind,
                width,
                depth,
                rank,
            },
            label_length,
            label_start,
        },
    }
}

// Question 9, for a label of so many bytes.
fn inside(begin: usize, size: u8, start: u16) -> bool
    ensures { result ≡ inside begin size start }
{
    (size <= MOST_LABEL) & (usize::from(start) + usize::from(size) <= begin)
}

// Questions 6 to 10 at one record.
fn record_refusal(form: Form, begin: usize, t: &Lettered, cell: usize) -> Result<(), Refusal>
    requires { cell < most_cells }
    ensures { result ≡ passed (records_at form begin t.now.columns.parent t.now.columns.kind t.now.columns.width t.now.columns.depth t.now.label_length t.now.label_start cell) }
{
    let kind = t.columns.kind[cell];
    let width = t.columns.width[cell];
    let size = t.label_length[cell];
    cell_refusal(
        widest(form),
        cell,
        t.columns.parent[cell],
        kind,
        width,
        t.columns.depth[cell],
    )?;
    asked(9, inside(begin, size, t.label_start[cell]), cell)?;
    asked(10, bordered(kind, size, width), cell)
}

// Questions 6 to 10, record by record.
pub fn records_refusal(form: Form, begin: usize, t: &Lettered) -> Result<(), Refusal>
    requires { t.now.columns.count ≤ most_cells }
    ensures { result ≡ passed (at_each (records_at form begin t.now.columns.parent t.now.columns.kind t.now.columns.width t.now.columns.depth t.now.label_length t.now.label_start) 0 t.now.columns.count) }
{
    for c in 0..t.columns.count {
        record_refusal(form, begin, t, c)?;
    }
    Ok(())
}

// Questions 6 to 14, put to the records that were read.
pub fn body_refusal(plan: &PlanFile, form: Form, begin: usize) -> Result<(), Refusal>
    requires { (1 ≤ plan.now.cells.columns.count) × (plan.now.cells.columns.count ≤ most_cells) }
    ensures { result ≡ passed (columns_refusal (reading plan.now) form begin) }
{
    records_refusal(form, begin, &plan.cells)?;
    tree_refusal(&plan.cells.columns)?;
    allowance_refusal(plan.allowance as u32)
}
