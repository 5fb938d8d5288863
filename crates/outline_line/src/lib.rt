// The line of a cell in an outline, written into a buffer. The functions write a part at a place, and hand the next place back.
#![tactic(auto)]

ghost use Rattle.std.specs.Prelude.{◌≡◌, ◌++◌, ◌∷◌, [], ◌+◌, ◌≤◌, length};
ghost use Rattle.plan.specs.Limits.{most_label};
ghost use Rattle.plan.specs.Records.{bare};
ghost use Rattle.listing.specs.Put.{Put};
ghost use Rattle.listing.specs.Printed.{line_feed};
ghost use Rattle.outline_spec.specs.Outline.{nearest, level_under, border, unless, indent, field, label, word, cell_line};
ghost use Rattle.outline_line.specs.Steps.{Room};

use decimals::{put_byte, put_decimal, put_text};
use plan::Record;
use plan::kinds::about;

const SPACE: u8 = 32;

const QUOTE: u8 = 34;

const LINE_FEED: u8 = 10;

const NO_PARENT: usize = 65535;

// Two blanks for each level.
fn put_indent(level: usize, out: &mut [u8], at: usize) -> usize
    requires { (level ≤ 127) × (at + 256 ≤ length out.old) }
    ensures { Put out.old at (indent level) out.new result × (result ≤ at + 254) }
{
    let mut next = at;
    for _ in 0..level {
        next = put_text(b"  ", out, next);
    }
    next
}

// The kind's word.
fn put_word(kind: u8, out: &mut [u8], at: usize) -> usize
    requires { at + 6 ≤ length out.old }
    ensures { Put out.old at (word kind) out.new result × (result ≤ at + 6) }
{
    match kind {
        1 => put_text(b"step", out, at),
        2 => put_text(b"run", out, at),
        3 => put_text(b"repeat", out, at),
        4 => put_text(b"choice", out, at),
        5 => put_text(b"wait", out, at),
        _ => at,
    }
}

// A word and its number, unless that is the usual one.
fn put_field(name: &[u8], usual: u64, value: u64, out: &mut [u8], at: usize) -> usize
    requires { (length name.now ≤ 7) × (at + 27 ≤ length out.old) }
    ensures { Put out.old at (field name.now (unless usual value)) out.new result × (result ≤ at + 27) }
{
    if value == usual {
        return at;
    }
    let next = put_text(name, out, at);
    put_decimal(value, out, next)
}

// A label in quotes; none if it is empty.
fn put_label(text: &[u8], out: &mut [u8], at: usize) -> usize
    requires { (length text.now ≤ most_label) × (at + 43 ≤ length out.old) }
    ensures { Put out.old at (label text.now) out.new result × (result ≤ at + 43) }
{
    if text.len() == 0 {
        return at;
    }
    let open = put_text(b" \"", out, at);
    let close = put_text(text, out, open);
    put_byte(QUOTE, out, close)
}

// The level under a parent, of the cells whose levels were seen.
pub fn level_under(seen: &[u8], parent: usize) -> usize
    ensures { result ≡ level_under seen.now parent }
{
    if parent < seen.len() {
        return usize::from(seen[parent]) + 1;
    }
    0
}

// The nearest line above with less indentation.
pub fn nearest(seen: &[u8], level: usize) -> usize
    ensures { result ≡ nearest level seen.now }
{
    let mut best = NO_PARENT;
    for (i, above) in seen.iter().enumerate() {
        if usize::from(*above) < level {
            best = i;
        }
    }
    best
}

// The width of a box that fits a label of so many bytes.
pub fn natural(kind: u8, size: usize) -> usize
    requires { size ≤ 255 }
    ensures { result ≡ size + border kind }
{
    match about(kind) {
        Some(k) => size + usize::from(k.border),
        None => size,
    }
}

// The line of a cell whose level and label these are, after the cells whose levels were seen. The record's own label is not looked at.
pub fn put_cell(
    seen: &[u8],
    level: usize,
    cell: Record,
    text: &[u8],
    out: &mut [u8],
    at: usize,
) -> usize
    requires { Room seen.now level cell.parent (length text.now) (length out.old) at }
    ensures { Put out.old at (cell_line seen.now (record { cell = bare cell; text = text.now }) ++ (line_feed ∷ [])) out.new result }
{
    let blank = put_indent(level, out, at);
    let named = put_word(cell.kind, out, blank);
    let usual = natural(cell.kind, text.len()) as u64;
    let a = put_field(b" width ", usual, u64::from(cell.width), out, named);
    let b = put_field(b" depth ", 1, u64::from(cell.depth), out, a);
    let d = put_field(b" rank ", 0, u64::from(cell.rank), out, b);
    let above = nearest(seen, level) as u64;
    let e = put_field(b" under ", above, u64::from(cell.parent), out, d);
    let f = put_label(text, out, e);
    put_byte(LINE_FEED, out, f)
}
