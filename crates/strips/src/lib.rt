// Strip: a row of a drawn sheet as bytes, for the raster printer.
#![tactic(auto)]

ghost use Rattle.std.specs.Prelude.{◌≡◌, ◌&&◌, ◌+◌, ◌-◌, ◌^◌, ◌/◌, ◌%◌, ◌<◌, ◌≤◌, eqb, leb, ltb, length};
ghost use Rattle.plan.specs.Limits.{between};
ghost use Rattle.plan.specs.Columns.{«table_of»};
ghost use Rattle.plan.specs.Fit.{Fit};
ghost use Rattle.plan.specs.Near.{Near};
ghost use Rattle.plan.specs.Questions.{passed, refusal, strip, strip_given};
ghost use Rattle.rules.specs.Placement.{placed};
ghost use Rattle.corners.specs.Corners.{Spot, x_up};
ghost use Rattle.raster.specs.Strip.{byte, strip_of};
ghost use Rattle.strips.specs.Stripped.{Strips};
ghost use Rattle.strips.specs.Picture.{Paints, «or_at», column, edge, «cell_in»};

use asking::{lent_refusal, near_refusal};
use corners::{least_x, x_of, y_of};
use plan::limits::FARTHEST;
use plan::{Columns, Refusal};

// Place j of a byte alone, counted from the left.
fn one_mask(j: u8) -> u8
    requires { j < 8 }
    ensures { result ≡ byte (λ i. eqb i j) }
{
    128 >> j
}

// Place j and those to its right.
fn tail_mask(j: u8) -> u8
    requires { j < 8 }
    ensures { result ≡ byte (λ i. leb j i) }
{
    255 >> j
}

// Place j and those to its left.
fn head_mask(j: u8) -> u8
    requires { j < 8 }
    ensures { result ≡ byte (λ i. leb i j) }
{
    255 << (7 - j)
}

// Places j to k.
fn part_mask(j: u8, k: u8) -> u8
    requires { (j < 8) × (k < 8) }
    ensures { result ≡ byte (λ i. leb j i && leb i k) }
{
    tail_mask(j) & head_mask(k)
}

// The place of a column in its byte.
fn place(k: usize) -> u8
    ensures { (result ≡ k % 8) × (result < 8) }
{
    (k % 8) as u8
}

// A mask into byte i, if there is one.
fn or_at(bytes: &mut [u8], i: usize, mask: u8)
    ensures { bytes.new ≡ or_at bytes.old i mask }
{
    if i < bytes.len() {
        bytes[i] |= mask;
    }
}

// The whole bytes from a to before b.
fn fill(bytes: &mut [u8], a: usize, b: usize)
    requires { a ≤ b }
    ensures { Paints bytes.old bytes.new (λ i j. leb a i && ltb i b) }
{
    let stop = b.min(bytes.len());
    for k in a..stop {
        bytes[k] = 255;
    }
}

// Column k of the strip.
fn put_one(bytes: &mut [u8], k: usize)
    ensures { Paints bytes.old bytes.new (λ i j. eqb (column i j) k) }
{
    or_at(bytes, k / 8, one_mask(place(k)));
}

// Columns lo to hi of the strip.
fn put_run(bytes: &mut [u8], lo: usize, hi: usize)
    requires { lo ≤ hi }
    ensures { Paints bytes.old bytes.new (λ i j. between lo hi (column i j)) }
{
    let a = lo / 8;
    let b = hi / 8;
    if a == b {
        or_at(bytes, a, part_mask(place(lo), place(hi)));
        return;
    }
    or_at(bytes, a, tail_mask(place(lo)));
    fill(bytes, a + 1, b);
    or_at(bytes, b, head_mask(place(hi)));
}

// Column a of the sheet, where the strip has it.
fn one_from(bytes: &mut [u8], first: usize, a: usize)
    ensures { Paints bytes.old bytes.new (λ i j. eqb (first + column i j) a) }
{
    if first <= a {
        put_one(bytes, a - first);
    }
}

// Columns a to b of the sheet, as far as the strip has them.
fn run_from(bytes: &mut [u8], first: usize, a: usize, b: usize)
    requires { a ≤ b }
    ensures { Paints bytes.old bytes.new (λ i j. between a b (first + column i j)) }
{
    if b < first {
        return;
    }
    if a < first {
        put_run(bytes, 0, b - first);
        return;
    }
    put_run(bytes, a - first, b - first);
}

// The boundary of a box at x, y in a row.
fn put_box(bytes: &mut [u8], first: usize, row: usize, x: usize, y: usize, w: usize, d: usize)
    requires { (x < 2 ^ 32) × (y < 2 ^ 32) × (w < 2 ^ 32) × (d < 2 ^ 32) }
    ensures { Paints bytes.old bytes.new (λ i j. edge x y w d (first + column i j) row) }
{
    if row < y || y + d < row {
        return;
    }
    if row == y || row == y + d {
        run_from(bytes, first, x, x + w);
        return;
    }
    one_from(bytes, first, x);
    one_from(bytes, first, x + w);
}

// The boundary of the box of cell c in a row; the row and y moved up, x counted from the least.
fn put_cell(
    t: &Columns,
    positions: &[i32],
    left: u32,
    first: usize,
    row: usize,
    c: usize,
    bytes: &mut [u8],
)
    requires { Spot positions.now c × (left ≤ x_up positions.now c) }
    ensures { Paints bytes.old bytes.new (cell_in first row left t.now.width t.now.depth positions.now c) }
{
    let x = x_of(positions, c) - left;
    let y = y_of(positions, c);
    let w = usize::from(t.width[c]);
    let d = usize::from(t.depth[c]);
    put_box(bytes, first, row, x as usize, y as usize, w, d);
}

// The strip of a sheet that no question refuses.
fn draw(t: &Columns, positions: &[i32], row: u32, first: u32, bytes: &mut [u8])
    requires { Fit (table_of t.now) × Near positions.now t.now.count }
    ensures { bytes.new ≡ strip_of (table_of t.now) (placed positions.now) row first (length bytes.old) }
{
    let left = least_x(positions, t.count);
    let from = first as usize;
    let at = (row as usize) + (FARTHEST as usize);
    bytes.fill(0);
    for c in 0..t.count {
        put_cell(t, positions, left, from, at, c, bytes);
    }
}

// The questions, in their sequence.
fn refuse(t: &Columns, positions: &[i32]) -> Result<(), Refusal>
    ensures { result ≡ passed (refusal strip (strip_given (table_of t.now) positions.now)) }
{
    lent_refusal(t, positions.len())?;
    near_refusal(positions, t.count)
}

// THE call: the bytes of a row, from a column on. Refused, they stay as they are.
pub fn strip(
    t: &Columns,
    positions: &[i32],
    row: u32,
    first: u32,
    bytes: &mut [u8],
) -> Result<(), Refusal>
    ensures { Strips (table_of t.now) positions.now row first bytes.old bytes.new result }
{
    refuse(t, positions)?;
    draw(t, positions, row, first, bytes);
    Ok(())
}
