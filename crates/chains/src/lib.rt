// The lines that the program turns prints. Each part of a line is tried, whatever became of the parts before it.
#![tactic(auto)]

use plan::Refusal;
use std::io;
use walk::{Chain, Turned};

// A blank and a number; whether both were written. A debugger can stop here at a given number (docs/WALK.md), which an answer of one register leaves in the first.
fn number(out: &impl Print, n: usize) -> bool {
    out.write_all(b" ").is_ok() && out.print(n).is_ok()
}

// What the numbers of a line make of it.
fn numbered(written: bool) -> io::Result<()> {
    if written {
        return Ok(());
    }
    Err(io::Error::from(io::ErrorKind::WriteZero))
}

// The open cells; whether all were written.
fn print_chain(out: &impl Print, chain: &Chain) -> bool {
    let mut told = true;
    for cell in chain.cells.iter().take(chain.count) {
        let more = number(out, usize::from(*cell));
        told = told & more;
    }
    told
}

// The child that is opened next, if there is one; whether it was written.
fn print_next(out: &impl Print, next: usize) -> bool {
    if next == 0 {
        return true;
    }
    let named = print!(out; ", next").is_ok();
    let told = number(out, next);
    named & told
}

// The line before a turn: the open cells, and the child that is opened next.
pub fn print_turn(out: &impl Print, at: &Turned) -> io::Result<()> {
    let named = print!(out; "open");
    let told = print_chain(out, &at.open_cells);
    let then = print_next(out, at.next);
    let ended = println!(out; "");
    named.and(numbered(told & then)).and(ended)
}

// The line of a refusal.
pub fn refuse(out: &impl Print, refusal: Refusal) -> io::Result<()> {
    let named = print!(out; "refused");
    let told = number(out, usize::from(refusal.number));
    let placed = number(out, usize::from(refusal.cell));
    let ended = println!(out; "");
    named.and(numbered(told & placed)).and(ended)
}
