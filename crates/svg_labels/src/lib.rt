// The labels of a drawing in SVG, as bytes, and what stands before them.
#![tactic(auto)]

ghost use Rattle.std.specs.Prelude.{◌+◌, ◌*◌, ◌≤◌, length};
ghost use Rattle.plan.specs.Limits.{most_label};
ghost use Rattle.listing.specs.Put.{Put};
ghost use Rattle.svg_labels.specs.Labels.{letter, escaped, «label_at», label_text, labels_head};
ghost use Rattle.svg_labels.specs.Sizes.{label_size, labels_head_size};

use decimals::{put_byte, put_millimetres, put_text};
use pen::Stroke;

// A letter of a label, as a text of SVG has it.
fn put_letter(b: u8, out: &mut [u8], at: usize) -> usize
    requires { at + 5 ≤ length out.old }
    ensures { Put out.old at (letter b) out.new result × (result ≤ at + 5) }
{
    match b {
        b'&' => put_text(b"&amp;", out, at),
        b'<' => put_text(b"&lt;", out, at),
        b'>' => put_text(b"&gt;", out, at),
        _ => put_byte(b, out, at),
    }
}

// The letters of a label.
fn put_letters(label: &[u8], out: &mut [u8], at: usize) -> usize
    requires { at + 5 * length label.now ≤ length out.old }
    ensures { Put out.old at (escaped label.now) out.new result × (result ≤ at + 5 * length label.now) }
{
    let mut next = at;
    for letter in label {
        next = put_letter(*letter, out, next);
    }
    next
}

// A label that is not empty, at a point.
fn put_label_at(x: f64, y: f64, label: &[u8], out: &mut [u8], at: usize) -> usize
    requires { (length label.now ≤ most_label) × (at + label_size ≤ length out.old) }
    ensures { Put out.old at (label_at x y label.now) out.new result × (result ≤ at + label_size) }
{
    let a = put_text(b"<text x=\"", out, at);
    let b = put_millimetres(x, out, a);
    let c = put_text(b"\" y=\"", out, b);
    let d = put_millimetres(y, out, c);
    let e = put_text(b"\" dx=\"0.4em\" dy=\"-0.3em\">", out, d);
    let f = put_letters(label, out, e);
    put_text(b"</text>\n", out, f)
}

// A label where a line ends; nothing where it is empty.
pub fn put_label(stroke: Stroke, label: &[u8], out: &mut [u8], at: usize) -> usize
    requires { (length label.now ≤ most_label) × (at + label_size ≤ length out.old) }
    ensures { Put out.old at (label_text stroke label.now) out.new result × (result ≤ at + label_size) }
{
    if label.is_empty() {
        return at;
    }
    match stroke {
        Stroke::Move(_, _) => at,
        Stroke::Line(x, y) => put_label_at(x, y, label, out, at),
        Stroke::Lift => at,
    }
}

// What stands before the labels.
pub fn put_labels_head(pitch: f64, out: &mut [u8], at: usize) -> usize
    requires { at + labels_head_size ≤ length out.old }
    ensures { Put out.old at (labels_head pitch) out.new result × (result ≤ at + labels_head_size) }
{
    let a = put_text(b"</g>\n<g font-family=\"monospace\" font-size=\"", out, at);
    let b = put_millimetres(pitch, out, a);
    put_text(b"\"><g font-size=\"70%\">\n", out, b)
}
