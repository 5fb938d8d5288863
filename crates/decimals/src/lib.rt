// Texts, numbers and the line of a refusal written into a buffer at a place; each function hands the next place back. A float in millimetres is written to three digits after the point.
#![tactic(auto)]

ghost use Rattle.std.specs.Prelude.{◌≡◌, ◌+◌, ◌≤◌, length};
ghost use Rattle.listing.specs.Printed.{refused_line};
ghost use Rattle.listing.specs.Put.{Put};
ghost use Rattle.decimals.specs.Fixed.{scaled, thousandths, fixed, millimetres};

use listing::put::digit;
pub use listing::put::{put_byte, put_decimal, put_text};

const POINT: u8 = 46;

const SPACE: u8 = 32;

const LINE_FEED: u8 = 10;

// The line of a refusal, as a listing has it.
pub fn put_refused(number: u64, cell: u64, out: &mut [u8], at: usize) -> usize
    requires { at + 50 ≤ length out.old }
    ensures { Put out.old at (refused_line number cell) out.new result × (result ≤ at + 50) }
{
    let a = put_text(b"refused", out, at);
    let b = put_byte(SPACE, out, a);
    let c = put_decimal(number, out, b);
    let d = put_byte(SPACE, out, c);
    let e = put_decimal(cell, out, d);
    put_byte(LINE_FEED, out, e)
}

// So many thousandths: the whole ones, a point and three digits.
fn put_fixed(n: u64, out: &mut [u8], at: usize) -> usize
    requires { at + 24 ≤ length out.old }
    ensures { Put out.old at (fixed n) out.new result × (result ≤ at + 24) }
{
    let a = put_decimal(n / 1000, out, at);
    let b = put_byte(POINT, out, a);
    let c = put_byte(digit(n / 100 % 10), out, b);
    let d = put_byte(digit(n / 10 % 10), out, c);
    put_byte(digit(n % 10), out, d)
}

// x times 1000, and a half.
fn scaled(x: f64) -> f64
    ensures { result ≡ scaled x }
{
    x * 1000.0 + 0.5
}

// The thousandths of x that are printed: the whole part of x · 1000 + 1/2; 0 where 64 bits do not hold them.
fn thousandths(x: f64) -> u64
    ensures { result ≡ thousandths x }
{
    let y = scaled(x);
    if y > -1.0 {
        if y < 18446744073709551616.0 {
            return std::num::truncating_f64_to_u64(y);
        }
    }
    0
}

// A length in millimetres.
pub fn put_millimetres(x: f64, out: &mut [u8], at: usize) -> usize
    requires { at + 24 ≤ length out.old }
    ensures { Put out.old at (millimetres x) out.new result × (result ≤ at + 24) }
{
    put_fixed(thousandths(x), out, at)
}
