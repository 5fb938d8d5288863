// The strokes of a drawing in SVG, as bytes, and what stands before them.
#![tactic(auto)]

ghost use Rattle.std.specs.Prelude.{◌+◌, ◌≤◌, length};
ghost use Rattle.listing.specs.Put.{Put};
ghost use Rattle.svg_strokes.specs.Strokes.{point_text, stroke_text, head_text};
ghost use Rattle.svg_strokes.specs.Sizes.{point_size, stroke_size, head_size};

use decimals::{put_byte, put_millimetres, put_text};
use pen::Stroke;

const SPACE: u8 = 32;

// A point: x, a space, y.
fn put_point(x: f64, y: f64, out: &mut [u8], at: usize) -> usize
    requires { at + point_size ≤ length out.old }
    ensures { Put out.old at (point_text x y) out.new result × (result ≤ at + point_size) }
{
    let a = put_millimetres(x, out, at);
    let b = put_byte(SPACE, out, a);
    put_millimetres(y, out, b)
}

// A stroke.
pub fn put_stroke(stroke: Stroke, out: &mut [u8], at: usize) -> usize
    requires { at + stroke_size ≤ length out.old }
    ensures { Put out.old at (stroke_text stroke) out.new result × (result ≤ at + stroke_size) }
{
    match stroke {
        Stroke::Move(x, y) => {
            let a = put_text(b"<path d=\"M", out, at);
            put_point(x, y, out, a)
        }
        Stroke::Line(x, y) => {
            let b = put_text(b"L", out, at);
            put_point(x, y, out, b)
        }
        Stroke::Lift => put_text(b"\"/>\n", out, at),
    }
}

// What stands before the strokes.
pub fn put_head(wide: f64, high: f64, out: &mut [u8], at: usize) -> usize
    requires { at + head_size ≤ length out.old }
    ensures { Put out.old at (head_text wide high) out.new result × (result ≤ at + head_size) }
{
    let a = put_text(
        b"<svg xmlns=\"http://www.w3.org/2000/svg\" width=\"",
        out,
        at,
    );
    let b = put_millimetres(wide, out, a);
    let c = put_text(b"mm\" height=\"", out, b);
    let d = put_millimetres(high, out, c);
    let e = put_text(b"mm\" viewBox=\"0 0 ", out, d);
    let f = put_point(wide, high, out, e);
    put_text(
        b"\">\n<rect width=\"100%\" height=\"100%\" fill=\"white\"/>\n<g fill=\"none\" stroke=\"black\" stroke-width=\"0.35\" stroke-linejoin=\"round\">\n",
        out,
        f,
    )
}
