// THE PRINTED REPORT (document 02, E14): a line for each figure, a word and a number; and the line of a file that is refused, with its name.
// Each function writes a text into a buffer at a place, and hands the next place back.
#![tactic(auto)]

ghost use Rattle.std.specs.Prelude.{◌+◌, ◌≤◌, length};
ghost use Rattle.listing.specs.Put.{Put};
ghost use Rattle.summary.specs.Summary.{figure_size, report_size, named_size, figure_line, sums_lines, extremes_lines, report_lines, named_line};

use decimals::{put_byte, put_decimal, put_refused, put_text};
use season::Report;

const SPACE: u8 = 32;

const LINE_FEED: u8 = 10;

// The line of a figure: a word of at most 8 bytes, and a number.
fn put_figure(word: &[u8], n: u64, out: &mut [u8], at: usize) -> usize
    requires { (length word.now ≤ 8) × (at + figure_size ≤ length out.old) }
    ensures { Put out.old at (figure_line word.now n) out.new result × (result ≤ at + figure_size) }
{
    let a = put_text(word, out, at);
    let b = put_byte(SPACE, out, a);
    let c = put_decimal(n, out, b);
    put_byte(LINE_FEED, out, c)
}

// The first four lines of a report.
fn put_sums(r: Report, out: &mut [u8]) -> usize
    requires { report_size ≤ length out.old }
    ensures { Put out.old 0 (sums_lines r) out.new result × (result ≤ 120) }
{
    let a = put_figure(b"plans", r.plans as u64, out, 0);
    let b = put_figure(b"cells", r.cells as u64, out, a);
    let c = put_figure(b"widths", r.widths as u64, out, b);
    put_figure(b"areas", r.areas, out, c)
}

// The last four.
fn put_extremes(r: Report, out: &mut [u8], at: usize) -> usize
    requires { at + 120 ≤ length out.old }
    ensures { Put out.old at (extremes_lines r) out.new result × (result ≤ at + 120) }
{
    let a = put_figure(b"least", r.least as u64, out, at);
    let b = put_figure(b"greatest", r.greatest as u64, out, a);
    let c = put_figure(b"mean", r.mean as u64, out, b);
    put_figure(b"rest", r.rest as u64, out, c)
}

// The report: its length.
pub fn write_report(r: Report, out: &mut [u8]) -> usize
    requires { report_size ≤ length out.old }
    ensures { Put out.old 0 (report_lines r) out.new result × (result ≤ report_size) }
{
    let at = put_sums(r, out);
    put_extremes(r, out, at)
}

// The line of a refused file: its length.
pub fn write_named(name: &[u8], number: u64, cell: u64, out: &mut [u8]) -> usize
    requires { length name.now + named_size ≤ length out.old }
    ensures { Put out.old 0 (named_line name.now number cell) out.new result × (result ≤ length name.now + named_size) }
{
    let a = put_text(name, out, 0);
    let b = put_byte(SPACE, out, a);
    put_refused(number, cell, out, b)
}
