// The line that is printed of a fault of an outline.
#![tactic(auto)]

ghost use Rattle.std.specs.Prelude.{◌+◌, ◌≤◌, length};
ghost use Rattle.listing.specs.Put.{Put};
ghost use Rattle.outline_spec.specs.Faults.{advice, fault_of, fault_line};

use decimals::{put_byte, put_decimal, put_text};
use outline_spec::Fault;

const LINE_FEED: u8 = 10;

// What to do about a fault.
fn put_advice(fault: Fault, out: &mut [u8], at: usize) -> usize
    requires { at + 136 ≤ length out.old }
    ensures { Put out.old at (advice fault) out.new result × (result ≤ at + 136) }
{
    match fault {
        Fault::EmptyText => put_text(
            b"the text is empty: begin with a line such as allowance 0",
            out,
            at,
        ),
        Fault::StrangeByte => put_text(
            b"a tab or another byte that is not printable: use blanks, and letters, digits and signs of ASCII",
            out,
            at,
        ),
        Fault::LongLine => put_text(b"more than 255 bytes: shorten the line", out, at),
        Fault::ManyCells => put_text(
            b"more than 256 cells: leave out this line and those below it",
            out,
            at,
        ),
        Fault::NoAllowance => put_text(
            b"the first line is not the allowance: write the word allowance, a blank and a number",
            out,
            at,
        ),
        Fault::OddBlanks => put_text(
            b"an odd number of blanks before the word: use two for each level",
            out,
            at,
        ),
        Fault::UnknownWord => put_text(
            b"the line does not begin with step, run, repeat, choice or wait: use one of them, and leave no line empty",
            out,
            at,
        ),
        Fault::UnknownField => put_text(
            b"what follows the word is not understood: write width, depth, rank, under, a number each, in this order, then the label in quotes",
            out,
            at,
        ),
        Fault::LargeNumber => put_text(
            b"a number is too large: allowance and width go up to 65535, depth, rank and under up to 255",
            out,
            at,
        ),
        Fault::OpenLabel => put_text(
            b"the label has no quote at its end: end the line with one",
            out,
            at,
        ),
        Fault::Misplaced => put_text(
            b"the line stands in no cell's place: put it two blanks right of the cell it is under, and only the first at the margin",
            out,
            at,
        ),
    }
}

// The line, from the buffer's first byte on: `line`, its number, and what to do about the fault of this number.
pub fn put_fault(line: usize, fault: u8, out: &mut [u8]) -> usize
    requires { 192 ≤ length out.old }
    ensures { Put out.old 0 (fault_line line (fault_of fault)) out.new result × (result ≤ 192) }
{
    let a = put_text(b"line ", out, 0);
    let b = put_decimal(line as u64, out, a);
    let c = put_text(b": ", out, b);
    let d = put_advice(Fault::from(fault), out, c);
    put_byte(LINE_FEED, out, d)
}
