// The lines of a listing.
#![tactic(auto)]

pub mod put;

ghost use Rattle.std.specs.Prelude.{◌≡◌, ◌∷◌, [], ◌+◌, ◌≤◌, ◌<◌, length, pos, ◌<ℤ◌};
ghost use Rattle.whole.specs.Whole.{minus};
ghost use Rattle.plan.specs.Limits.{most_label};
ghost use Rattle.listing.specs.Printed.{space, decimal, signed, sheet_line, cell_line, refused_line, mended_line, «step_line», «end_line»};
ghost use Rattle.listing.specs.Printed.{bitmap_line};
ghost use Rattle.listing.specs.Line.{spaced, line_size, «line_of», text, Whole};
ghost use Rattle.listing.specs.Put.{Put};

use crate::put::{put_byte, put_decimal, put_text};

// Bytes of a line's buffer: no line has more than 98.
pub const LINE_SIZE: usize = 128;

const SPACE: u8 = 32;

const LINE_FEED: u8 = 10;

const MINUS_SIGN: u8 = 45;

// A line: its bytes, then zeros.
#[derive(Drop)]
pub struct Line {
    pub bytes: [u8; LINE_SIZE],
    pub length: usize,
}

// How far x lies below 0.
fn below_zero(x: i32) -> u32
    requires { x <ℤ pos 0 }
    ensures { result ≡ minus x }
{
    ((0 - (x + 1)) as u32) + 1
}

// The private methods write a field behind what the line has.
impl Line {
    fn byte(&mut self, b: u8)
        requires { self.old.length < line_size }
        ensures { Put self.old.bytes self.old.length (b ∷ []) self.new.bytes self.new.length }
    {
        self.length = put_byte(b, &mut self.bytes, self.length);
    }

    fn word(&mut self, text: &[u8])
        requires { self.old.length + length text.now ≤ line_size }
        ensures { Put self.old.bytes self.old.length text.now self.new.bytes self.new.length }
    {
        self.length = put_text(text, &mut self.bytes, self.length);
    }

    // A number in decimal.
    fn decimal(&mut self, n: u32)
        requires { self.old.length + 20 ≤ line_size }
        ensures { Put self.old.bytes self.old.length (decimal n) self.new.bytes self.new.length × (self.new.length ≤ self.old.length + 10) }
    {
        self.length = put_decimal(u64::from(n), &mut self.bytes, self.length);
    }

    // A whole number: a minus sign where it is negative, then decimal.
    fn signed(&mut self, x: i32)
        requires { self.old.length + 21 ≤ line_size }
        ensures { Put self.old.bytes self.old.length (signed x) self.new.bytes self.new.length × (self.new.length ≤ self.old.length + 11) }
    {
        if x < 0 {
            self.byte(MINUS_SIGN);
            self.decimal(below_zero(x));
        } else {
            self.decimal(x as u32);
        }
    }

    // A field after another: a space, and a number.
    fn field(&mut self, n: u32)
        requires { self.old.length + 21 ≤ line_size }
        ensures { Put self.old.bytes self.old.length (space ∷ decimal n) self.new.bytes self.new.length × (self.new.length ≤ self.old.length + 11) }
    {
        self.byte(SPACE);
        self.decimal(n);
    }

    // The same of a whole number.
    fn signed_field(&mut self, x: i32)
        requires { self.old.length + 22 ≤ line_size }
        ensures { Put self.old.bytes self.old.length (space ∷ signed x) self.new.bytes self.new.length × (self.new.length ≤ self.old.length + 12) }
    {
        self.byte(SPACE);
        self.signed(x);
    }

    // The same of a label; nothing where it is empty.
    fn label(&mut self, label: &[u8])
        requires { (length label.now ≤ most_label) × (self.old.length + 41 ≤ line_size) }
        ensures { Put self.old.bytes self.old.length (spaced label.now) self.new.bytes self.new.length × (self.new.length ≤ self.old.length + 41) }
    {
        if label.len() == 0 {
            return;
        }
        self.byte(SPACE);
        self.word(label);
    }
}

// A line with nothing in it.
fn empty() -> Line
    ensures { (result ≡ line_of []) × (result.length ≡ 0) }
{
    Line {
        bytes: [0u8; LINE_SIZE],
        length: 0,
    }
}

// The first line: cells, allowance, width and rows.
pub fn sheet_line(cells: u32, allowance: u32, width: u32, rows: u32) -> Line
    ensures { (result ≡ line_of (sheet_line cells allowance width rows)) × (result.length ≤ line_size) }
{
    let mut line = empty();
    line.word(b"sheet");
    line.field(cells);
    line.field(allowance);
    line.field(width);
    line.field(rows);
    line.byte(LINE_FEED);
    line
}

// A cell's line.
pub fn cell_line(cell: u32, x: i32, y: i32, width: u32, depth: u32, label: &[u8]) -> Line
    requires { length label.now ≤ most_label }
    ensures { (result ≡ line_of (cell_line cell x y width depth label.now)) × (result.length ≤ line_size) }
{
    let mut line = empty();
    line.decimal(cell);
    line.signed_field(x);
    line.signed_field(y);
    line.field(width);
    line.field(depth);
    line.label(label);
    line.byte(LINE_FEED);
    line
}

// The line of a refusal: its number and its cell.
pub fn refused_line(number: u32, cell: u32) -> Line
    ensures { (result ≡ line_of (refused_line number cell)) × (result.length ≤ line_size) }
{
    let mut line = empty();
    line.word(b"refused");
    line.field(number);
    line.field(cell);
    line.byte(LINE_FEED);
    line
}

// The line of a mended cell: its number, its width and depth before and after.
pub fn mended_line(
    cell: u32,
    old_width: u32,
    old_depth: u32,
    new_width: u32,
    new_depth: u32,
) -> Line
    ensures { (result ≡ line_of (mended_line cell old_width old_depth new_width new_depth)) × (result.length ≤ line_size) }
{
    let mut line = empty();
    line.decimal(cell);
    line.field(old_width);
    line.field(old_depth);
    line.field(new_width);
    line.field(new_depth);
    line.byte(LINE_FEED);
    line
}

// The first line of a bitmap: its columns and its rows.
pub fn bitmap_line(columns: u32, rows: u32) -> Line
    ensures { (result ≡ line_of (bitmap_line columns rows)) × (result.length ≤ line_size) }
{
    let mut line = empty();
    line.word(b"P4");
    line.field(columns);
    line.field(rows);
    line.byte(LINE_FEED);
    line
}

// A recorded step's line: its cell and its label.
pub fn step_line(cell: u32, label: &[u8]) -> Line
    requires { length label.now ≤ most_label }
    ensures { (result ≡ line_of (step_line cell label.now)) × (result.length ≤ 52) }
{
    let mut line = empty();
    line.decimal(cell);
    line.label(label);
    line.byte(LINE_FEED);
    line
}

// The last line of a drill: a word, the bytes used and the number of records.
pub fn end_line(word: &[u8], used: u32, records: u32) -> Line
    requires { length word.now ≤ most_label }
    ensures { (result ≡ line_of (end_line word.now used records)) × (result.length ≤ line_size) }
{
    let mut line = empty();
    line.word(word);
    line.field(used);
    line.field(records);
    line.byte(LINE_FEED);
    line
}

// Writes a line at a place, and hands the next place back.
pub fn put_line(line: Line, out: &mut [u8], at: usize) -> usize
    requires { Whole line × (at + line.length ≤ length out.old) }
    ensures { Put out.old at (text line) out.new result }
{
    let length = line.length;
    let bytes = line.bytes;
    put_text(&bytes[..length], out, at)
}
