// Check and Ends for the cases on standard input: a line for each, its name and the answer. After a table (crate cases) a case is two lines:
// `check` with the allowance, or `ends` with a cell, and how many numbers of the positions are lent; then the positions.
#![tactic(auto)]

use cases::{after, byte_at, first, latest, positions, print_name, second, table};
use checker::{Verdict, check};
use ends::{Ended, ends};
use outcomes::{end_line, pair, points, triple};
use plan::{Columns, Refusal};
use std::io;

fn refused(rt: &impl Print, r: Refusal) -> io::Result<()> {
    pair(rt, b" refused", r.number as u32, r.cell as u32)
}

fn show(rt: &impl Print, r: Result<Verdict, Refusal>) -> io::Result<()> {
    match r {
        Ok(Verdict::Kept(m)) => pair(rt, b" kept", m.width, m.rows),
        Ok(Verdict::Broken(b)) => { triple(rt, b" broken", b.rule as u32, b.a as u32, b.b as u32) }
        Err(r) => refused(rt, r),
    }
}

fn show_ends(rt: &impl Print, r: Result<Ended, Refusal>) -> io::Result<()> {
    match r {
        Ok(e) => points(rt, b" joined", e.from_x, e.from_y, e.to_x, e.to_y),
        Err(r) => refused(rt, r),
    }
}

fn show_check(rt: &impl Print, t: Columns, xs: &[i32], allowance: u32) -> io::Result<()> {
    show(rt, check(t, xs, allowance))
}

fn show_joined(rt: &impl Print, t: Columns, xs: &[i32], cell: u32) -> io::Result<()> {
    show_ends(rt, ends(t, xs, cell as usize))
}

// The answer, with the first numbers of the positions lent.
fn answer(
    rt: &impl Print,
    word: u8,
    t: Columns,
    n: u32,
    xs: &[i32],
    lent: usize,
) -> io::Result<()> {
    if xs.len() < lent {
        return Ok(());
    }
    if word == b'c' {
        show_check(rt, t, &xs[0..lent], n)
    } else {
        show_joined(rt, t, &xs[0..lent], n)
    }
}

// The case in a line, where it has one, of the table at another.
fn run(rt: &impl Print, text: &[u8], line: usize, tabled: usize) -> io::Result<()> {
    let word = byte_at(text, line);
    if word != b'c' && word != b'e' {
        return Ok(());
    }
    let xs = positions(text, after(text, line, b'\n'));
    print_name(rt, text, line)?;
    answer(
        rt,
        word,
        table(text, tabled),
        first(text, line),
        &xs,
        second(text, line) as usize,
    )?;
    end_line(rt)
}

// Line by line.
fn run_all(rt: &impl Print, text: &[u8]) -> io::Result<()> {
    let mut line: usize = 0;
    let mut tabled: usize = 0;
    for _ in 0..1000 {
        tabled = latest(text, line, tabled);
        run(rt, text, line, tabled)?;
        line = after(text, line, b'\n');
    }
    Ok(())
}

fn main(rt: HostRuntime) -> io::Result<()> {
    let mut from = rt.stdin();
    let mut text = [0u8; 16384];
    let n = match input::read_whole(&mut from, &mut text) {
        Ok(input) => input.length,
        Err(cut) => cut.length,
    };
    run_all(&rt, &text[..n])
}
