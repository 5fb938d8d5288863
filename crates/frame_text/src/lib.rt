// WHAT THE PROGRAM `frame` PRINTS (document 02, E2) of a plan file and a frame of so many squares: the least allowance that fits, with the width and the rows of its sheet; or none; or the line of a refusal.
// Each function writes a text into a buffer at a place, and hands the next place back.
#![tactic(auto)]

ghost use Rattle.std.specs.Prelude.{◌≡◌, ◌∷◌, ◌+◌, ◌≤◌, length};
ghost use Rattle.plan.specs.Fit.{Fit};
ghost use Rattle.plan.specs.Columns.{table_of};
ghost use Rattle.listing.specs.Printed.{space, line, refused_line};
ghost use Rattle.listing.specs.Put.{Put};
ghost use Rattle.frame_text.specs.FrameText.{sheet_fields, allowance_line, none_line, measures_of, fitted_line, answer_line, frame_text, sheet_size, frame_size};

use decimals::{put_byte, put_decimal, put_refused, put_text};
use plan::limits::{MOST_ALLOWANCE, MOST_CELLS, SCRATCH_SIZE};
use plan::{Columns, Measures, Refusal};

// Bytes of an output that holds every text.
pub const FRAME_SIZE: usize = 128;

const LINE_FEED: u8 = 10;

// Width and rows of a sheet, behind what stands before them in their line.
fn put_sheet(sheet: Measures, out: &mut [u8], at: usize) -> usize
    requires { at + sheet_size ≤ length out.old }
    ensures { Put out.old at (space ∷ line (sheet_fields sheet.width sheet.rows)) out.new result × (result ≤ at + sheet_size) }
{
    let a = put_text(b" width ", out, at);
    let b = put_decimal(sheet.width as u64, out, a);
    let c = put_text(b" rows ", out, b);
    let d = put_decimal(sheet.rows as u64, out, c);
    put_byte(LINE_FEED, out, d)
}

// The line of an allowance.
fn put_allowance(allowance: u32, sheet: Measures, out: &mut [u8]) -> usize
    requires { frame_size ≤ length out.old }
    ensures { Put out.old 0 (allowance_line allowance sheet.width sheet.rows) out.new result × (result ≤ frame_size) }
{
    let a = put_text(b"allowance ", out, 0);
    let b = put_decimal(allowance as u64, out, a);
    put_sheet(sheet, out, b)
}

// The line where none fits.
fn put_none(sheet: Measures, out: &mut [u8]) -> usize
    requires { frame_size ≤ length out.old }
    ensures { Put out.old 0 (none_line sheet.width sheet.rows) out.new result × (result ≤ frame_size) }
{
    let a = put_text(b"none", out, 0);
    put_sheet(sheet, out, a)
}

// The line of a refusal.
fn put_refusal(refusal: Refusal, out: &mut [u8]) -> usize
    requires { frame_size ≤ length out.old }
    ensures { Put out.old 0 (refused_line refusal.number refusal.cell) out.new result × (result ≤ frame_size) }
{
    put_refused(refusal.number as u64, refusal.cell as u64, out, 0)
}

// Width and rows of our sheet at an allowance.
fn measured(t: Columns, allowance: u32) -> Measures
    requires { Fit (table_of t) }
    ensures { result ≡ measures_of (table_of t) allowance }
{
    let mut scratch = [0u32; SCRATCH_SIZE];
    let mut positions = [0i32; 2 * MOST_CELLS];
    layout::draw_over_zeros(t, allowance, &mut scratch, &mut positions)
}

// The line of Frame's answer.
fn tell(t: Columns, answer: Result<Option<u32>, Refusal>, out: &mut [u8]) -> usize
    requires { Fit (table_of t) × (frame_size ≤ length out.old) }
    ensures { Put out.old 0 (fitted_line (table_of t) answer) out.new result × (result ≤ frame_size) }
{
    match answer {
        Ok(Some(allowance)) => {
            let m = measured(t, allowance);
            put_allowance(allowance, m, out)
        }
        Ok(None) => {
            let m = measured(t, MOST_ALLOWANCE);
            put_none(m, out)
        }
        Err(refusal) => put_refusal(refusal, out),
    }
}

// Frame's answer of a table that Read gave, and its line.
fn write_answer(t: Columns, squares: u32, out: &mut [u8]) -> usize
    requires { Fit (table_of t) × (frame_size ≤ length out.old) }
    ensures { Put out.old 0 (answer_line (table_of t) squares) out.new result × (result ≤ frame_size) }
{
    let mut scratch = [0u32; SCRATCH_SIZE];
    let answer = fitting::frame(t, squares, &mut scratch);
    tell(t, answer, out)
}

// The text of a plan file and a frame, into an output that is long enough: its length.
pub fn write_frame(file: &[u8], squares: u32, out: &mut [u8]) -> usize
    requires { frame_size ≤ length out.old }
    ensures { Put out.old 0 (frame_text file.now squares) out.new result × (result ≤ frame_size) }
{
    match planfile::read(file, MOST_CELLS) {
        Ok(plan) => write_answer(plan.cells.columns, squares, out),
        Err(unread) => put_refusal(unread, out),
    }
}
