// The drawing of a plan file in SVG, as bytes: its strokes as paths and its labels as texts, in millimetres; or the line of a refusal.
#![tactic(auto)]

ghost use Rattle.std.specs.Prelude.{◌≡◌, ◌+◌, ◌*◌, ◌-◌, ◌≤◌, length};
ghost use Rattle.plan.specs.Columns.{«table_of»};
ghost use Rattle.plan.specs.Fit.{Fit};
ghost use Rattle.plan.specs.Near.{Near};
ghost use Rattle.rules.specs.Placement.{placed};
ghost use Rattle.pen.specs.Strokes.{strokes};
ghost use Rattle.listing.specs.Put.{Put};
ghost use Rattle.planfile_spec.specs.Read.{reading};
ghost use Rattle.printing.specs.Printing.{Taken};
ghost use Rattle.svg_strokes.specs.Sizes.{stroke_size};
ghost use Rattle.svg_labels.specs.Sizes.{label_size};
ghost use Rattle.svg.specs.Drawing.{strokes_text, side, labels_text, sheet_text, drawing_of};
ghost use Rattle.svg.specs.Sizes.{drawing_size};

use decimals::{put_refused, put_text};
use plan::limits::{MOST_CELLS, SCRATCH_SIZE};
use plan::{Columns, Page};
use planfile_spec::PlanFile;
use strokes::{drawn, fair};
use svg_labels::{put_label, put_labels_head};
use svg_strokes::{put_head, put_stroke};

// Bytes of an output for a drawing: more than the longest has.
pub const DRAWING_SIZE: usize = 262144;

// All strokes of a sheet.
fn put_strokes(t: &Columns, positions: &[i32], page: Page, out: &mut [u8], at: usize) -> usize
    requires { Fit (table_of t.now) × Near positions.now t.now.count × (at + stroke_size * (9 * t.now.count - 3) ≤ length out.old) }
    ensures { Put out.old at (strokes_text (strokes (table_of t.now) (placed positions.now) page)) out.new result × (result ≤ at + stroke_size * (9 * t.now.count - 3)) }
{
    let mut next = at;
    for s in 0..9 * t.count - 3 {
        next = put_stroke(drawn(t, positions, page, s), out, next);
    }
    next
}

// All labels.
fn put_labels(
    t: &Columns,
    file: &[u8],
    positions: &[i32],
    page: Page,
    out: &mut [u8],
    at: usize,
) -> usize
    requires { Fit (table_of t.now) × Near positions.now t.now.count × (at + label_size * t.now.count ≤ length out.old) }
    ensures { Put out.old at (labels_text (strokes (table_of t.now) (placed positions.now) page) file.now t.now.count) out.new result × (result ≤ at + label_size * t.now.count) }
{
    let mut next = at;
    for c in 0..t.count {
        let corner = drawn(t, positions, page, 6 * c + 3);
        next = put_label(corner, planfile::label(file, c), out, next);
    }
    next
}

// So many lattice units, and a margin on both sides.
fn side(units: u32, pitch: f64, margin: f64) -> f64
    ensures { result ≡ side units pitch margin }
{
    (units as f64) * pitch + margin + margin
}

// The drawing of a plan that Read gave, on a page that question 17 passes.
fn write_sheet(plan: PlanFile, file: &[u8], page: Page, out: &mut [u8]) -> usize
    requires { Taken (reading plan) file.now × (drawing_size ≤ length out.old) }
    ensures { Put out.old 0 (sheet_text (reading plan) page file.now) out.new result × (result ≤ drawing_size) }
{
    let mut scratch = [0u32; SCRATCH_SIZE];
    let mut positions = [0i32; 2 * MOST_CELLS];
    let t = plan.cells.columns;
    let allowance = plan.allowance as u32;
    let sheet = layout::draw_over_zeros(t, allowance, &mut scratch, &mut positions);
    let wide = side(sheet.width, page.pitch, page.margin_x);
    let high = side(sheet.rows, page.pitch, page.margin_y);
    let a = put_head(wide, high, out, 0);
    let b = put_strokes(&t, &positions, page, out, a);
    let c = put_labels_head(page.pitch, out, b);
    let d = put_labels(&t, file, &positions, page, out, c);
    put_text(b"</g></g>\n</svg>\n", out, d)
}

// The drawing of a plan file on a page, or the line of the refusal, into an output that is long enough: its length.
pub fn write_drawing(file: &[u8], page: Page, out: &mut [u8]) -> usize
    requires { drawing_size ≤ length out.old }
    ensures { Put out.old 0 (drawing_of file.now page) out.new result × (result ≤ drawing_size) }
{
    let plan = match planfile::read(file, MOST_CELLS) {
        Ok(plan) => plan,
        Err(no) => return put_refused(no.number as u64, no.cell as u64, out, 0),
    };
    if !fair(page) {
        return put_refused(17, 0, out, 0);
    }
    write_sheet(plan, file, page, out)
}
