// The cases of a test program, a text of lines: each a word and its numbers, one space before each. A table is six lines: table (how many
// cells), parents, kinds, widths, depths, ranks. A case that follows it ends with a colon, a space and its name.
#![tactic(auto)]

mod scanned;

use plan::Columns;
pub use scanned::{after, byte_at};
use scanned::{find, number_at};
use std::io;
use whole::difference;

// The first number of a line, and the second.
pub fn first(text: &[u8], line: usize) -> u32 {
    number_at(text, after(text, line, b' '))
}

pub fn second(text: &[u8], line: usize) -> u32 {
    first(text, after(text, line, b' '))
}

// The line where the latest table begins: this one, or the one before.
pub fn latest(text: &[u8], line: usize, before: usize) -> usize {
    if byte_at(text, line) == b't' {
        line
    } else {
        before
    }
}

// The numbers of a line; what follows the last is of no cell.
fn column16(text: &[u8], line: usize) -> [u16; 256] {
    let mut column = [0u16; 256];
    let mut at = line;
    for c in 0..256 {
        at = after(text, at, b' ');
        column[c] = u16::try_from(number_at(text, at)).unwrap_or(0);
    }
    column
}

fn column8(text: &[u8], line: usize) -> [u8; 256] {
    let mut column = [0u8; 256];
    let mut at = line;
    for c in 0..256 {
        at = after(text, at, b' ');
        column[c] = u8::try_from(number_at(text, at)).unwrap_or(0);
    }
    column
}

// The table that begins at a line.
pub fn table(text: &[u8], line: usize) -> Columns {
    let parents = after(text, line, b'\n');
    let kinds = after(text, parents, b'\n');
    let widths = after(text, kinds, b'\n');
    let depths = after(text, widths, b'\n');
    let ranks = after(text, depths, b'\n');
    Columns {
        count: first(text, line) as usize,
        parent: column16(text, parents),
        kind: column8(text, kinds),
        width: column16(text, widths),
        depth: column8(text, depths),
        rank: column8(text, ranks),
    }
}

fn minus(n: u32) -> i32 {
    if n < 1000000 { difference(0, n) } else { 0 }
}

fn plus(n: u32) -> i32 {
    if n < 1000000 { difference(n, 0) } else { 0 }
}

// The number at a place, with its sign.
fn signed_at(text: &[u8], at: usize) -> i32 {
    if byte_at(text, at) == b'-' {
        return minus(number_at(text, after(text, at, b'-')));
    }
    plus(number_at(text, at))
}

// The positions in a line, x and y in turn.
pub fn positions(text: &[u8], line: usize) -> [i32; 512] {
    let mut xs = [0i32; 512];
    let mut at = line;
    for i in 0..512 {
        at = after(text, at, b' ');
        xs[i] = signed_at(text, at);
    }
    xs
}

// The name of the case at `at`: after the colon and a space, to the end of the line.
pub fn print_name(rt: &impl Print, text: &[u8], at: usize) -> io::Result<()> {
    let colon = find(text, at, b':');
    let end = find(text, colon, b'\n');
    if end <= text.len() {
        if 2 <= end {
            if colon <= end - 2 {
                return rt.write_all(&text[colon + 2..end]);
            }
        }
    }
    Ok(())
}
