// A PRINTED REASON: each line written into a buffer at a place, every byte by a definition; each function hands the next place back.
#![tactic(auto)]

ghost use Rattle.std.specs.Prelude.{◌≡◌, ◌∷◌, ◌+◌, ◌*◌, ◌^◌, ◌≤◌, ◌<◌, length, pos, ◌-ℤ◌};
ghost use Rattle.listing.specs.Printed.{space, decimal, signed};
ghost use Rattle.listing.specs.Put.{Put};
ghost use Rattle.why_lines.specs.Printed.{head_line, link_line, «last_line»};
ghost use Rattle.why_lines.specs.Steps.{link_size, head_size, last_size, x_of, «step_line», steps_text, «end_line», Few};

use decimals::{put_byte, put_decimal, put_text};
use plan::limits::MOST_CELLS;
use why_search::Chain;

const SPACE: u8 = 32;

const MINUS_SIGN: u8 = 45;

const LINE_FEED: u8 = 10;

// A space and a number.
fn put_field(n: u64, out: &mut [u8], at: usize) -> usize
    requires { at + 21 ≤ length out.old }
    ensures { Put out.old at (space ∷ decimal n) out.new result × (result ≤ at + 21) }
{
    let digits = put_byte(SPACE, out, at);
    put_decimal(n, out, digits)
}

// The whole number a − b.
fn put_less(a: u32, b: u32, out: &mut [u8], at: usize) -> usize
    requires { at + 21 ≤ length out.old }
    ensures { Put out.old at (signed (pos a -ℤ pos b)) out.new result × (result ≤ at + 21) }
{
    if a < b {
        let digits = put_byte(MINUS_SIGN, out, at);
        return put_decimal((b - a) as u64, out, digits);
    }
    put_decimal((a - b) as u64, out, at)
}

// A space and a − b.
fn put_apart(a: u32, b: u32, out: &mut [u8], at: usize) -> usize
    requires { at + 22 ≤ length out.old }
    ensures { Put out.old at (space ∷ signed (pos a -ℤ pos b)) out.new result × (result ≤ at + 22) }
{
    let digits = put_byte(SPACE, out, at);
    put_less(a, b, out, digits)
}

// The first line.
pub fn put_head(
    cells: u64,
    allowance: u64,
    width: u64,
    links: u64,
    out: &mut [u8],
    at: usize,
) -> usize
    requires { at + head_size ≤ length out.old }
    ensures { Put out.old at (head_line cells allowance width links) out.new result × (result ≤ at + head_size) }
{
    let a = put_text(b"why", out, at);
    let b = put_field(cells, out, a);
    let c = put_field(allowance, out, b);
    let d = put_field(width, out, c);
    let e = put_field(links, out, d);
    put_byte(LINE_FEED, out, e)
}

// The line of a link by a rule between two cells with these x, the chain's first cell having that of the last number.
pub fn put_link(
    from: u64,
    to: u64,
    rule: u32,
    x_from: u32,
    x_to: u32,
    x_first: u32,
    out: &mut [u8],
    at: usize,
) -> usize
    requires { at + link_size ≤ length out.old }
    ensures { Put out.old at (link_line (record { rule = rule; from = from; to = to; apart = pos x_to -ℤ pos x_from }) (pos x_to -ℤ pos x_first)) out.new result × (result ≤ at + link_size) }
{
    let a = put_decimal(from, out, at);
    let b = put_field(to, out, a);
    let c = put_text(b" S", out, b);
    let d = put_decimal(rule as u64, out, c);
    let e = put_apart(x_to, x_from, out, d);
    let f = put_apart(x_to, x_first, out, e);
    put_byte(LINE_FEED, out, f)
}

// The last line: the cell, its width, and how far its right edge lies from the chain's first x.
pub fn put_last(cell: u64, width: u32, x: u32, x_first: u32, out: &mut [u8], at: usize) -> usize
    requires { (at + last_size ≤ length out.old) × (x + width < 2 ^ 32) }
    ensures { Put out.old at (last_line cell width (pos (x + width) -ℤ pos x_first)) out.new result × (result ≤ at + last_size) }
{
    let a = put_decimal(cell, out, at);
    let b = put_text(b" W", out, a);
    let c = put_field(width as u64, out, b);
    let d = put_apart(x + width, x_first, out, c);
    put_byte(LINE_FEED, out, d)
}

// The x of cell number j of a chain.
fn x_of(chain: &Chain, xs: &[u32; MOST_CELLS], j: usize) -> u32
    requires { Few chain.now.cells chain.now.count × (j ≤ chain.now.count) }
    ensures { result ≡ x_of chain.now.cells xs.now j }
{
    xs[chain.cells[j]]
}

// The link from cell number j to the next.
fn put_step(chain: &Chain, xs: &[u32; MOST_CELLS], j: usize, out: &mut [u8], at: usize) -> usize
    requires { Few chain.now.cells chain.now.count × (j < chain.now.count) × (at + link_size ≤ length out.old) }
    ensures { Put out.old at (step_line chain.now.cells chain.now.rules xs.now j) out.new result × (result ≤ at + link_size) }
{
    let x_first = x_of(chain, xs, 0);
    let x_from = x_of(chain, xs, j);
    let x_to = x_of(chain, xs, j + 1);
    let from = chain.cells[j] as u64;
    let to = chain.cells[j + 1] as u64;
    let rule = u32::from(chain.rules[j]);
    put_link(from, to, rule, x_from, x_to, x_first, out, at)
}

// The lines of all links of a chain.
pub fn put_steps(chain: &Chain, xs: &[u32; MOST_CELLS], out: &mut [u8], at: usize) -> usize
    requires { Few chain.now.cells chain.now.count × (at + link_size * chain.now.count ≤ length out.old) }
    ensures { Put out.old at (steps_text chain.now.cells chain.now.rules xs.now chain.now.count) out.new result × (result ≤ at + link_size * chain.now.count) }
{
    let mut next = at;
    for j in 0..chain.count {
        next = put_step(chain, xs, j, out, next);
    }
    next
}

// The last line of a chain, whose last cell has this width.
pub fn put_end(
    chain: &Chain,
    xs: &[u32; MOST_CELLS],
    width: u32,
    out: &mut [u8],
    at: usize,
) -> usize
    requires { Few chain.now.cells chain.now.count × (at + last_size ≤ length out.old) × (x_of chain.now.cells xs.now chain.now.count + width < 2 ^ 32) }
    ensures { Put out.old at (end_line chain.now.cells xs.now chain.now.count width) out.new result × (result ≤ at + last_size) }
{
    let x_first = x_of(chain, xs, 0);
    let x = x_of(chain, xs, chain.count);
    let last = chain.cells[chain.count] as u64;
    put_last(last, width, x, x_first, out, at)
}
