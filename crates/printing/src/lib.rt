// THE LISTING of a plan file, as bytes: a sheet, or the line of a refusal.
#![tactic(auto)]

ghost use Rattle.std.specs.Prelude.{◌≡◌, ◌+◌, ◌*◌, ◌≤◌, ◌<◌, length};
ghost use Rattle.plan.specs.Limits.{listing_size};
ghost use Rattle.planfile_spec.specs.Read.{reading};
ghost use Rattle.listing.specs.Line.{line_size, «line_of»};
ghost use Rattle.listing.specs.Put.{Put};
ghost use Rattle.printing.specs.Printing.{Measured, Placed, Taken, Lists, label_bytes, first_line, cell_of, cells_text, «text_of», cell_size};

use asking::asked;
use listing::{Line, cell_line, put_line, refused_line, sheet_line};
use plan::limits::{LISTING_SIZE, MOST_CELLS, SCRATCH_SIZE};
use plan::{Measures, Refusal};
use planfile_spec::PlanFile;

// The first line of a plan whose sheet has these measures.
fn first_line(plan: PlanFile, sheet: Measures) -> Line
    requires { Measured (reading plan) sheet.width sheet.rows }
    ensures { (result ≡ line_of (first_line (reading plan))) × (result.length ≤ line_size) }
{
    let cells = plan.cells.columns.count as u32;
    sheet_line(cells, plan.allowance as u32, sheet.width, sheet.rows)
}

// The label of a cell: the part of the file that its record says.
pub fn label_at<'a>(plan: &PlanFile, file: &'a [u8], c: usize) -> &'a [u8]
    requires { (c < plan.now.cells.columns.count) × Taken (reading plan.now) file.now }
    ensures { result.now ≡ label_bytes file.now c }
{
    let start = plan.cells.label_start[c] as usize;
    let end = start + (plan.cells.label_length[c] as usize);
    &file[start..end]
}

// The line of a cell of a plan whose sheet stands in the positions.
fn line_at(plan: &PlanFile, file: &[u8], positions: &[i32], c: usize) -> Line
    requires { (c < plan.now.cells.columns.count) × Taken (reading plan.now) file.now × Placed (reading plan.now) positions.now }
    ensures { (result ≡ line_of (cell_of (reading plan.now) file.now c)) × (result.length ≤ cell_size) }
{
    let x = positions[2 * c];
    let y = positions[2 * c + 1];
    let width = plan.cells.columns.width[c] as u32;
    let depth = plan.cells.columns.depth[c] as u32;
    cell_line(c as u32, x, y, width, depth, label_at(plan, file, c))
}

// The lines of the cells.
fn put_cells(plan: &PlanFile, file: &[u8], positions: &[i32], out: &mut [u8], at: usize) -> usize
    requires { Taken (reading plan.now) file.now × Placed (reading plan.now) positions.now × (at + cell_size * plan.now.cells.columns.count ≤ length out.old) }
    ensures { Put out.old at (cells_text (reading plan.now) file.now plan.now.cells.columns.count) out.new result × (result ≤ at + cell_size * plan.now.cells.columns.count) }
{
    let mut next = at;
    for c in 0..plan.cells.columns.count {
        let line = line_at(plan, file, positions, c);
        next = put_line(line, out, next);
    }
    next
}

// The sheet of a plan that Read gave: Layout's questions have all been answered.
fn write_sheet(plan: PlanFile, file: &[u8], out: &mut [u8]) -> usize
    requires { Taken (reading plan) file.now × (listing_size ≤ length out.old) }
    ensures { Put out.old 0 (text_of file.now) out.new result × (result ≤ listing_size) }
{
    let columns = plan.cells.columns;
    let allowance = plan.allowance as u32;
    let mut scratch = [0u32; SCRATCH_SIZE];
    let mut positions = [0i32; 2 * MOST_CELLS];
    let drawn = layout::draw_over_zeros(columns, allowance, &mut scratch, &mut positions);
    let first = first_line(plan, drawn);
    let next = put_line(first, out, 0);
    put_cells(&plan, file, &positions, out, next)
}

// The listing of a plan file, or the line of the refusal, into an output that is long enough: its length.
pub fn write_listing(file: &[u8], out: &mut [u8]) -> usize
    requires { listing_size ≤ length out.old }
    ensures { Put out.old 0 (text_of file.now) out.new result × (result ≤ listing_size) }
{
    match planfile::read(file, MOST_CELLS) {
        Ok(plan) => write_sheet(plan, file, out),
        Err(refusal) => {
            let line = refused_line(refusal.number as u32, refusal.cell as u32);
            put_line(line, out, 0)
        }
    }
}

// The same as a call, which answers the length: an output that is too short is refused by question 1.
pub fn list(file: &[u8], out: &mut [u8]) -> Result<usize, Refusal>
    ensures { Lists file.now out.old out.new result }
{
    asked(1, LISTING_SIZE <= out.len(), 0)?;
    Ok(write_listing(file, out))
}
