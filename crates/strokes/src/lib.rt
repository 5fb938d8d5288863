// Stroke number s of a drawn sheet, for the pen plotter.
#![tactic(auto)]

ghost use Rattle.std.specs.Prelude.{◌≡◌, ◌+◌, ◌<◌, ◌≤◌, ◌^◌, get_or, pos, ◌-ℤ◌};
ghost use Rattle.plan.specs.Limits.{farthest};
ghost use Rattle.plan.specs.Columns.{«table_of»};
ghost use Rattle.plan.specs.Fit.{Fit};
ghost use Rattle.plan.specs.Near.{Near};
ghost use Rattle.plan.specs.Pages.{from_to, fair};
ghost use Rattle.plan.specs.Questions.{passed, refusal, stroke, stroke_given, strokes_of};
ghost use Rattle.rules.specs.Placement.{placed};
ghost use Rattle.corners.specs.Corners.{Spot};
ghost use Rattle.ends.specs.Ended.{half};
ghost use Rattle.pen.specs.Paper.{plotted};
ghost use Rattle.pen.specs.Strokes.{strokes};
ghost use Rattle.strokes.specs.Stroked.{stroked_of};
ghost use Rattle.strokes.specs.Raised.{«move_at», «line_at», box_at, connector_at, «box_of», connector_of, Boxed};

use asking::{asked, lent_refusal, near_refusal};
use corners::{least_x, x_of, y_of};
use ends::half;
use pen::Stroke;
use plan::limits::FARTHEST;
use plan::{Columns, Page, Refusal};
use spans::parent_of;
use whole::difference;

// From low to high, both included. A NaN is not.
fn from_to(low: f64, high: f64, x: f64) -> bool
    ensures { result ≡ from_to low high x }
{
    if low <= x {
        return x <= high;
    }
    false
}

// Question 17.
pub fn fair(page: Page) -> bool
    ensures { result ≡ fair page }
{
    if !from_to(0.25, 16.0, page.pitch) {
        return false;
    }
    if !from_to(0.0, 100.0, page.margin_x) {
        return false;
    }
    from_to(0.0, 100.0, page.margin_y)
}

// A lattice number on paper: times the pitch, rounded once, plus the margin, rounded once.
fn plot(z: i32, pitch: f64, margin: f64) -> f64
    ensures { result ≡ plotted z pitch margin }
{
    (z as f64) * pitch + margin
}

// The same of a − zero.
fn plot_from(a: u32, zero: u32, pitch: f64, margin: f64) -> f64
    requires { (a < 2 ^ 31) × (zero < 2 ^ 31) }
    ensures { result ≡ plotted (pos a -ℤ pos zero) pitch margin }
{
    plot(difference(a, zero), pitch, margin)
}

fn move_to(page: Page, left: u32, x: u32, y: u32) -> Stroke
    requires { (left < 2 ^ 31) × (x < 2 ^ 31) × (y < 2 ^ 31) }
    ensures { result ≡ move_at page left x y }
{
    Stroke::Move(
        plot_from(x, left, page.pitch, page.margin_x),
        plot_from(y, FARTHEST, page.pitch, page.margin_y),
    )
}

fn line_to(page: Page, left: u32, x: u32, y: u32) -> Stroke
    requires { (left < 2 ^ 31) × (x < 2 ^ 31) × (y < 2 ^ 31) }
    ensures { result ≡ line_at page left x y }
{
    Stroke::Line(
        plot_from(x, left, page.pitch, page.margin_x),
        plot_from(y, FARTHEST, page.pitch, page.margin_y),
    )
}

// Stroke j of a box whose upper left corner is x, y.
fn box_stroke(page: Page, left: u32, x: u32, y: u32, w: u32, d: u32, j: usize) -> Stroke
    requires { (left < 2 ^ 31) × (x < 2 ^ 30) × (y < 2 ^ 30) × (w < 2 ^ 30) × (d < 2 ^ 30) }
    ensures { result ≡ get_or (box_at page left x y w d) j Stroke.Lift }
{
    match j {
        0 => move_to(page, left, x, y),
        1 => line_to(page, left, x + w, y),
        2 => line_to(page, left, x + w, y + d),
        3 => line_to(page, left, x, y + d),
        4 => line_to(page, left, x, y),
        _ => Stroke::Lift,
    }
}

// Stroke j of a connector from x, y to u, v.
fn connector_stroke(page: Page, left: u32, x: u32, y: u32, u: u32, v: u32, j: usize) -> Stroke
    requires { (left < 2 ^ 31) × (x < 2 ^ 31) × (y < 2 ^ 31) × (u < 2 ^ 31) × (v < 2 ^ 31) }
    ensures { result ≡ get_or (connector_at page left x y u v) j Stroke.Lift }
{
    match j {
        0 => move_to(page, left, x, y),
        1 => line_to(page, left, u, v),
        _ => Stroke::Lift,
    }
}

// Stroke j of box c.
fn box_of(t: &Columns, positions: &[i32], page: Page, left: u32, c: usize, j: usize) -> Stroke
    requires { (left ≤ farthest + farthest) × Spot positions.now c × Boxed t.now.width t.now.depth c }
    ensures { result ≡ get_or (box_of page left t.now.width t.now.depth positions.now c) j Stroke.Lift }
{
    let x = x_of(positions, c);
    let y = y_of(positions, c);
    let w = u32::from(t.width[c]);
    let d = u32::from(t.depth[c]);
    box_stroke(page, left, x, y, w, d, j)
}

// Stroke j of the connector from cell p to cell c: its ends are those of Ends.
fn connector_of(
    t: &Columns,
    positions: &[i32],
    page: Page,
    left: u32,
    p: usize,
    c: usize,
    j: usize,
) -> Stroke
    requires { (left ≤ farthest + farthest) × Spot positions.now p × Spot positions.now c × Boxed t.now.width t.now.depth p × Boxed t.now.width t.now.depth c }
    ensures { result ≡ get_or (connector_of page left t.now.width t.now.depth positions.now p c) j Stroke.Lift }
{
    let h = half(t.width[p]);
    let d = u32::from(t.depth[p]);
    let k = half(t.width[c]);
    let x = x_of(positions, p);
    let y = y_of(positions, p);
    let u = x_of(positions, c);
    let v = y_of(positions, c);
    connector_stroke(page, left, x + h, y + d, u + k, v, j)
}

// Stroke s of a sheet that no question refuses.
pub fn drawn(t: &Columns, positions: &[i32], page: Page, s: usize) -> Stroke
    requires { Fit (table_of t.now) × Near positions.now t.now.count × (s < strokes_of t.now.count) }
    ensures { result ≡ get_or (strokes (table_of t.now) (placed positions.now) page) s Stroke.Lift }
{
    let n = t.count;
    let left = least_x(positions, n);
    if s < 6 * n {
        return box_of(t, positions, page, left, s / 6, s % 6);
    }
    let r = s - 6 * n;
    let c = 1 + r / 3;
    let p = parent_of(&t.parent, c);
    connector_of(t, positions, page, left, p, c, r % 3)
}

// The questions, in their sequence.
fn refuse(t: &Columns, positions: &[i32], page: Page, s: usize) -> Result<(), Refusal>
    ensures { result ≡ passed (refusal stroke (stroke_given (table_of t.now) positions.now page s)) }
{
    lent_refusal(t, positions.len())?;
    near_refusal(positions, t.count)?;
    asked(17, fair(page), 0)?;
    asked(18, s < 9 * t.count - 3, 0)
}

// THE call over columns: stroke number s, from 0.
pub fn stroke_at(t: &Columns, positions: &[i32], page: Page, s: usize) -> Result<Stroke, Refusal>
    ensures { result ≡ stroked_of (table_of t.now) positions.now page s }
{
    refuse(t, positions, page, s)?;
    Ok(drawn(t, positions, page, s))
}
