// What a test program prints of an answer, and of a sheet's positions.
#![tactic(auto)]

ghost use Rattle.std.specs.Prelude.{◌<◌};

use std::io;
use whole::{raise, within};

const FAR: u32 = 1000000;

fn print_number(rt: &impl Print, n: u32) -> io::Result<()> {
    print!(rt; " {n}")
}

fn print_signed(rt: &impl Print, x: i32) -> io::Result<()> {
    if !within(x, FAR) {
        return rt.write_all(b" far");
    }
    let up = raise(x, FAR);
    if up < FAR {
        let below = FAR - up;
        return print!(rt; " -{below}");
    }
    print_number(rt, up - FAR)
}

// A word and two numbers.
pub fn pair(rt: &impl Print, word: &[u8], a: u32, b: u32) -> io::Result<()> {
    rt.write_all(word)?;
    print_number(rt, a)?;
    print_number(rt, b)
}

// A word and three numbers.
pub fn triple(rt: &impl Print, word: &[u8], a: u32, b: u32, c: u32) -> io::Result<()> {
    pair(rt, word, a, b)?;
    print_number(rt, c)
}

// A word and two points.
pub fn points(rt: &impl Print, word: &[u8], x: i32, y: i32, u: i32, v: i32) -> io::Result<()> {
    rt.write_all(word)?;
    print_signed(rt, x)?;
    print_signed(rt, y)?;
    print_signed(rt, u)?;
    print_signed(rt, v)
}

// Writes a text where the test fails.
fn unless(rt: &impl Print, held: bool, text: &[u8]) -> io::Result<()> {
    if held { Ok(()) } else { rt.write_all(text) }
}

// Whether the scratch is cleared.
fn clear(scratch: &[u32]) -> bool {
    for x in scratch {
        if *x != 0 {
            return false;
        }
    }
    true
}

// Whether the numbers past those of n cells are as they were lent: all 9.
fn kept(positions: &[i32], n: usize) -> bool {
    for (i, x) in positions.iter().enumerate() {
        if n <= i / 2 && *x != 9 {
            return false;
        }
    }
    true
}

// The x's of the first n cells, the numbers at even places.
fn print_xs(rt: &impl Print, positions: &[i32], n: usize) -> io::Result<()> {
    for (i, x) in positions.iter().enumerate() {
        if i / 2 < n && i % 2 == 0 {
            print_signed(rt, *x)?;
        }
    }
    Ok(())
}

fn up(x: i32) -> u32 {
    if within(x, FAR) { raise(x, FAR) } else { 0 }
}

fn mixed(sum: u32, x: i32, i: usize, n: usize) -> u32
    requires { sum < 65537 }
    ensures { result < 65537 }
{
    if n <= i / 2 {
        return sum;
    }
    (sum * 31 + up(x) % 65537) % 65537
}

// All positions of n cells in one number.
fn checksum(positions: &[i32], n: usize) -> u32 {
    let mut sum: u32 = 0;
    for (i, x) in positions.iter().enumerate() {
        sum = mixed(sum, *x, i, n);
    }
    sum
}

fn print_positions(rt: &impl Print, n: usize, positions: &[i32]) -> io::Result<()> {
    if n < 16 {
        print_xs(rt, positions, n)
    } else {
        print_number(rt, checksum(positions, n))
    }
}

pub fn end_line(rt: &impl Print) -> io::Result<()> {
    rt.write_all(b"\n")
}

// The rest of a line of which n cells were placed: their positions, and what is amiss with the lent buffers. "unclear" tells of a scratch that is
// not cleared where a cell was placed, "beyond" of a number written past the positions, which were all 9.
pub fn print_placed(
    rt: &impl Print,
    n: usize,
    scratch: &[u32],
    positions: &[i32],
) -> io::Result<()> {
    unless(rt, n == 0, b",")?;
    print_positions(rt, n, positions)?;
    unless(rt, n == 0 || clear(scratch), b" unclear")?;
    unless(rt, kept(positions, n), b" beyond")?;
    end_line(rt)
}
