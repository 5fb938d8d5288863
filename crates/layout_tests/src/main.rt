// Layout for the cases on standard input: a line for each, its name and the answer, then of a sheet the x's of a small plan or the checksum of all
// positions (crate outcomes). After a table (crate cases) a case is one line: `layout` with the allowance, and how many numbers of scratch and of
// positions are lent.
#![tactic(auto)]

use cases::{after, byte_at, first, latest, print_name, second, table};
use layout::layout;
use outcomes::{pair, print_placed};
use plan::{Columns, Measures, Refusal};
use std::io;

// Layout on the first s numbers of a scratch and p of positions.
fn lay(
    t: Columns,
    allowance: u32,
    xs: &mut [u32],
    s: usize,
    ps: &mut [i32],
    p: usize,
) -> Result<Measures, Refusal> {
    if xs.len() < s || ps.len() < p {
        return Err(Refusal { number: 0, cell: 0 });
    }
    layout(t, allowance, &mut xs[..s], &mut ps[..p])
}

// The answer, and how many cells were placed: all n or none.
fn print_answer(rt: &impl Print, answer: Result<Measures, Refusal>, n: usize) -> io::Result<usize> {
    match answer {
        Ok(sheet) => {
            pair(rt, b" sheet", sheet.width, sheet.rows)?;
            Ok(n)
        }
        Err(refusal) => {
            pair(
                rt,
                b" refused",
                u32::from(refusal.number),
                u32::from(refusal.cell),
            )?;
            Ok(0)
        }
    }
}

// The same on a scratch of nothing but 7 and positions of nothing but 9.
fn run(rt: &impl Print, t: Columns, allowance: u32, s: usize, p: usize) -> io::Result<()> {
    let mut scratch = [7u32; 16384];
    let mut positions = [9i32; 512];
    let n = t.count;
    let answer = lay(t, allowance, &mut scratch, s, &mut positions, p);
    let placed = print_answer(rt, answer, n)?;
    print_placed(rt, placed, &scratch, &positions)
}

// The case in a line, where it has one, of the table at another.
fn answer(rt: &impl Print, text: &[u8], line: usize, tabled: usize) -> io::Result<()> {
    if byte_at(text, line) != b'l' {
        return Ok(());
    }
    print_name(rt, text, line)?;
    let t = table(text, tabled);
    let sizes = after(text, line, b' ');
    run(
        rt,
        t,
        first(text, line),
        first(text, sizes) as usize,
        second(text, sizes) as usize,
    )
}

// Line by line.
fn run_all(rt: &impl Print, text: &[u8]) -> io::Result<()> {
    let mut line: usize = 0;
    let mut tabled: usize = 0;
    for _ in 0..1000 {
        tabled = latest(text, line, tabled);
        answer(rt, text, line, tabled)?;
        line = after(text, line, b'\n');
    }
    Ok(())
}

fn main(rt: HostRuntime) -> io::Result<()> {
    let mut from = rt.stdin();
    let mut text = [0u8; 32768];
    let n = match input::read_whole(&mut from, &mut text) {
        Ok(input) => input.length,
        Err(cut) => cut.length,
    };
    run_all(&rt, &text[..n])
}
