// Prints the sheet of the plan file on standard input as a portable bitmap (PBM, P4): a point for each lattice point of the sheet, row by row.
// Of a plan that is refused, the line of the refusal. One byte more than a plan file may have is read, so that a longer one is refused.
#![tactic(auto)]

ghost use Rattle.std.specs.Prelude.{◌≡◌, ◌≤◌, length, IfOk};
ghost use Rattle.listing.specs.Line.{line_size};
ghost use Rattle.strip.specs.Sizes.{most_wide};

use listing::{Line, bitmap_line, refused_line};
use plan::limits::{MOST_CELLS, MOST_FILE, SCRATCH_SIZE};
use plan::{Columns, Measures, Refusal};
use std::io;

// A sheet: its table, and its width and rows.
#[derive(Clone, Copy, Drop)]
struct Sheet {
    table: Columns,
    measures: Measures,
}

fn print_line(out: &impl Print, line: Line) -> io::Result<()>
    requires { (length line.bytes ≡ line_size) × (line.length ≤ line_size) }
{
    let bytes = line.bytes;
    out.write_all(&bytes[..line.length])
}

// A row, which is as long as the strip.
fn print_row(
    out: &impl Print,
    t: &Columns,
    positions: &[i32],
    row: u32,
    strip: &mut [u8],
) -> io::Result<()> {
    strips::strip(t, positions, row, 0, strip).is_ok();
    out.write_all(strip)
}

fn print_rows(
    out: &impl Print,
    sheet: &Sheet,
    positions: &[i32],
    strip: &mut [u8],
) -> io::Result<()> {
    for row in 0..sheet.measures.rows {
        print_row(out, &sheet.table, positions, row, strip)?;
    }
    Ok(())
}

// The bitmap of a sheet.
fn print_sheet(out: &impl Print, sheet: &Sheet, positions: &[i32]) -> io::Result<()>
    requires { sheet.now.measures.width ≤ most_wide }
{
    let width = sheet.measures.width;
    print_line(out, bitmap_line(width + 1, sheet.measures.rows))?;
    let size = (width as usize) / 8 + 1;
    let mut buffer = [0u8; 65536];
    print_rows(out, sheet, positions, &mut buffer[..size])
}

// The sheet of a plan file, with its positions.
fn draw(file: &[u8], positions: &mut [i32]) -> Result<Sheet, Refusal>
    ensures { IfOk result (λ s. s.measures.width ≤ most_wide) }
{
    let plan = planfile::read(file, MOST_CELLS)?;
    let mut scratch = [0u32; SCRATCH_SIZE];
    let table = plan.cells.columns;
    let allowance = u32::from(plan.allowance);
    let measures = layout::layout(table, allowance, &mut scratch, positions)?;
    Ok(Sheet { table, measures })
}

// The bitmap of a plan file, or the line of its refusal.
fn print_plan(out: &impl Print, file: &[u8]) -> io::Result<()> {
    let mut positions = [0i32; 2 * MOST_CELLS];
    match draw(file, &mut positions) {
        Ok(sheet) => print_sheet(out, &sheet, &positions),
        Err(no) => print_line(out, refused_line(u32::from(no.number), u32::from(no.cell))),
    }
}

fn main(rt: HostRuntime) {
    let err = rt.stderr();
    let mut from = rt.stdin();
    let mut file = [0u8; MOST_FILE + 1];
    let Ok(input) = input::read_whole(&mut from, &mut file) else {
        err.write_all(b"strip: the plan cannot be read\n").is_ok();
        return;
    };
    if print_plan(&rt.stdout(), &file[..input.length]).is_err() {
        err.write_all(b"strip: the bitmap could not be written whole\n")
            .is_ok();
    }
}
