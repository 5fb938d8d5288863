// THE PRINTED MARKS: the line of a drawing, with its name, and the counts of a sitting. Each function writes a text into a buffer and hands its length back.
#![tactic(auto)]

ghost use Rattle.std.specs.Prelude.{◌+◌, ◌≤◌, ◌++◌, length, ◌≡◌, Ok};
ghost use Rattle.listing.specs.Printed.{decimal};
ghost use Rattle.listing.specs.Put.{Put};
ghost use Rattle.mark_text.specs.Text.{long_part, mark_size, counts_size, pair, triple, marked_line, fault_line, unread_line, outcome_line, more, counted, first_counts, last_counts, counts_line};
ghost use Rattle.mark_spec.specs.declared.Marked.TheVariants.{Full, Wide, Broken};
ghost use Rattle.drawing_spec.specs.declared.Fault.TheVariants.{Twice, Missing};

use decimals::{put_byte, put_decimal, put_text};
use drawing_spec::{DrawError, Fault};
use mark_spec::Marked;
use plan::{Breach, Measures, Refusal};
use summary::write_named;

const SPACE: u8 = 32;

const LINE_FEED: u8 = 10;

// How many drawings there are, and of each kind.
#[derive(Clone, Copy, Drop)]
pub struct Counts {
    pub drawings: u64,
    pub full: u64,
    pub wide: u64,
    pub broken: u64,
    pub refused: u64,
    pub unread: u64,
}

// Two numbers.
fn put_pair(a: u64, b: u64, out: &mut [u8], at: usize) -> usize
    requires { at + 41 ≤ length out.old }
    ensures { Put out.old at (pair a b) out.new result × (result ≤ at + 41) }
{
    let i = put_decimal(a, out, at);
    let j = put_byte(SPACE, out, i);
    put_decimal(b, out, j)
}

// Three numbers.
fn put_triple(a: u64, b: u64, c: u64, out: &mut [u8], at: usize) -> usize
    requires { at + 62 ≤ length out.old }
    ensures { Put out.old at (triple a b c) out.new result × (result ≤ at + 62) }
{
    let i = put_pair(a, b, out, at);
    let j = put_byte(SPACE, out, i);
    put_decimal(c, out, j)
}

fn write_full(name: &[u8], sheet: Measures, out: &mut [u8]) -> usize
    requires { length name.now + mark_size ≤ length out.old }
    ensures { Put out.old 0 (marked_line name.now (Ok (Full sheet))) out.new result × (result ≤ length name.now + mark_size) }
{
    let a = put_text(name, out, 0);
    let b = put_text(b" full ", out, a);
    let c = put_pair(sheet.width as u64, sheet.rows as u64, out, b);
    put_byte(LINE_FEED, out, c)
}

fn write_wide(name: &[u8], sheet: Measures, least: u32, out: &mut [u8]) -> usize
    requires { length name.now + mark_size ≤ length out.old }
    ensures { Put out.old 0 (marked_line name.now (Ok (Wide sheet least))) out.new result × (result ≤ length name.now + mark_size) }
{
    let a = put_text(name, out, 0);
    let b = put_text(b" wide ", out, a);
    let c = put_triple(sheet.width as u64, least as u64, sheet.rows as u64, out, b);
    put_byte(LINE_FEED, out, c)
}

fn write_broken(name: &[u8], breach: Breach, out: &mut [u8]) -> usize
    requires { length name.now + mark_size ≤ length out.old }
    ensures { Put out.old 0 (marked_line name.now (Ok (Broken breach))) out.new result × (result ≤ length name.now + mark_size) }
{
    let i = put_text(name, out, 0);
    let j = put_text(b" broken S", out, i);
    let k = put_triple(breach.rule as u64, breach.a as u64, breach.b as u64, out, j);
    put_byte(LINE_FEED, out, k)
}

// The line of what Mark answers: the mark, or its refusal.
pub fn write_marked(name: &[u8], mark: Result<Marked, Refusal>, out: &mut [u8]) -> usize
    requires { length name.now + mark_size ≤ length out.old }
    ensures { Put out.old 0 (marked_line name.now mark) out.new result × (result ≤ length name.now + mark_size) }
{
    match mark {
        Ok(marked) => match marked {
            Marked::Full(sheet) => write_full(name, sheet, out),
            Marked::Wide(sheet, least) => write_wide(name, sheet, least, out),
            Marked::Broken(breach) => write_broken(name, breach, out),
        },
        Err(refusal) => write_named(name, refusal.number as u64, refusal.cell as u64, out),
    }
}

// A line of the text, and what is wrong there.
fn write_fault(name: &[u8], line: usize, what: &[u8], out: &mut [u8]) -> usize
    requires { (length what.now ≤ 26) × (length name.now + mark_size ≤ length out.old) }
    ensures { Put out.old 0 (fault_line name.now line what.now) out.new result × (result ≤ length name.now + 52) }
{
    let a = put_text(name, out, 0);
    let b = put_text(b" line ", out, a);
    let c = put_decimal(line as u64, out, b);
    put_text(what, out, c)
}

fn write_twice(name: &[u8], line: usize, cell: usize, out: &mut [u8]) -> usize
    requires { length name.now + mark_size ≤ length out.old }
    ensures { Put out.old 0 (unread_line name.now (Twice line cell)) out.new result × (result ≤ length name.now + mark_size) }
{
    let a = write_fault(name, line, b": cell ", out);
    let b = put_decimal(cell as u64, out, a);
    put_text(b" is given twice\n", out, b)
}

fn write_missing(name: &[u8], cell: usize, out: &mut [u8]) -> usize
    requires { length name.now + mark_size ≤ length out.old }
    ensures { Put out.old 0 (unread_line name.now (Missing cell)) out.new result × (result ≤ length name.now + mark_size) }
{
    let a = put_text(name, out, 0);
    let b = put_text(b" cell ", out, a);
    let c = put_decimal(cell as u64, out, b);
    put_text(b" is missing\n", out, c)
}

fn write_long(name: &[u8], out: &mut [u8]) -> usize
    requires { length name.now + mark_size ≤ length out.old }
    ensures { Put out.old 0 (name.now ++ long_part) out.new result × (result ≤ length name.now + mark_size) }
{
    let a = put_text(name, out, 0);
    put_text(b" more than 65536 bytes\n", out, a)
}

// The line of a text that is no drawing of the plan.
pub fn write_unread(name: &[u8], fault: Fault, out: &mut [u8]) -> usize
    requires { length name.now + mark_size ≤ length out.old }
    ensures { Put out.old 0 (unread_line name.now fault) out.new result × (result ≤ length name.now + mark_size) }
{
    match fault {
        Fault::NoNumber(line) => write_fault(name, line, b": not three numbers\n", out),
        Fault::NoCell(line) => write_fault(name, line, b": no such cell\n", out),
        Fault::Twice(line, cell) => write_twice(name, line, cell, out),
        Fault::Far(line) => write_fault(name, line, b": a number out of bounds\n", out),
        Fault::Missing(cell) => write_missing(name, cell, out),
        Fault::Long => write_long(name, out),
    }
}

// The line of a drawing: its mark, or why there is none.
pub fn write_outcome(name: &[u8], outcome: Result<Marked, DrawError>, out: &mut [u8]) -> usize
    requires { length name.now + mark_size ≤ length out.old }
    ensures { Put out.old 0 (outcome_line name.now outcome) out.new result × (result ≤ length name.now + mark_size) }
{
    match outcome {
        Ok(mark) => write_marked(name, Ok(mark), out),
        Err(error) => match error {
            DrawError::Wrong(fault) => write_unread(name, fault, out),
            DrawError::Refused(refusal) => write_marked(name, Err(refusal), out),
        },
    }
}

// One more, as long as there are fewer than 4,294,967,295.
fn more(n: u64) -> u64
    ensures { result ≡ more n }
{
    if n < 4294967295 {
        return n + 1;
    }
    n
}

// One drawing more.
pub fn counted(counts: Counts, outcome: Result<Marked, DrawError>) -> Counts
    ensures { result ≡ counted counts outcome }
{
    let mut next = counts;
    next.drawings = more(counts.drawings);
    match outcome {
        Ok(mark) => match mark {
            Marked::Full(_) => next.full = more(counts.full),
            Marked::Wide(_, _) => next.wide = more(counts.wide),
            Marked::Broken(_) => next.broken = more(counts.broken),
        },
        Err(error) => match error {
            DrawError::Refused(_) => next.refused = more(counts.refused),
            DrawError::Wrong(_) => next.unread = more(counts.unread),
        },
    }
    next
}

// A word and a count.
fn put_count(word: &[u8], n: u64, out: &mut [u8], at: usize) -> usize
    requires { (length word.now ≤ 9) × (at + 29 ≤ length out.old) }
    ensures { Put out.old at (word.now ++ decimal n) out.new result × (result ≤ at + 29) }
{
    let a = put_text(word, out, at);
    put_decimal(n, out, a)
}

fn put_first(counts: Counts, out: &mut [u8]) -> usize
    requires { counts_size ≤ length out.old }
    ensures { Put out.old 0 (first_counts counts) out.new result × (result ≤ 87) }
{
    let a = put_count(b"drawings ", counts.drawings, out, 0);
    let b = put_count(b" full ", counts.full, out, a);
    put_count(b" wide ", counts.wide, out, b)
}

fn put_last(counts: Counts, out: &mut [u8], at: usize) -> usize
    requires { at + 88 ≤ length out.old }
    ensures { Put out.old at (last_counts counts) out.new result × (result ≤ at + 88) }
{
    let a = put_count(b" broken ", counts.broken, out, at);
    let b = put_count(b" refused ", counts.refused, out, a);
    let c = put_count(b" unread ", counts.unread, out, b);
    put_byte(LINE_FEED, out, c)
}

// The counts of a sitting.
pub fn write_counts(counts: Counts, out: &mut [u8]) -> usize
    requires { counts_size ≤ length out.old }
    ensures { Put out.old 0 (counts_line counts) out.new result × (result ≤ counts_size) }
{
    let at = put_first(counts, out);
    put_last(counts, out, at)
}
