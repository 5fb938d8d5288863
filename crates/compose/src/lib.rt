// WHAT A TEXT SAYS, and the plan file that it is the outline of, written into a lent output.
#![tactic(auto)]

ghost use Rattle.std.specs.Prelude.{◌≡◌, ◌+◌, ◌-◌, ◌≤◌, ◌<◌, length, take, drop};
ghost use Rattle.listing.specs.Put.{Put};
ghost use Rattle.outline_spec.specs.Faults.{fault_number};
ghost use Rattle.outline_spec.specs.Understood.{first};
ghost use Rattle.compose.specs.declared.ComposeError.TheVariants.{Refused, Wrong};
ghost use Rattle.compose.specs.Steps.{line_long, past_line, record_from, note};
ghost use Rattle.compose.specs.Meaning.{first_in};
ghost use Rattle.compose.specs.State.{start_at, Well, Turned, Reads, Understands};
ghost use Rattle.compose.specs.Composed.{Composes};

use compose_fields::{DigitsError, begins, number};
use compose_line::{Told, clear, read_line};
use decimals::put_text;
use outline_spec::Fault;
use plan::limits::{MOST_CELLS, MOST_FILE};
use plan::{Columns, Lettered, Refusal};

// Where the reader of lines is: the place in the text, how many label bytes are used, the levels of the cells so far, and the cells.
#[derive(Clone, Copy, Drop)]
pub struct State {
    pub at: usize,
    pub used: usize,
    pub levels: [u8; MOST_CELLS],
    pub table: Lettered,
}

// What a text says: the allowance, how many label bytes were written, and the cells.
#[derive(Clone, Copy, Drop)]
pub struct Understanding {
    pub allowance: u16,
    pub used: usize,
    pub table: Lettered,
}

// The line that is not understood, and what is wrong with it.
#[derive(Clone, Copy)]
pub struct Misread {
    pub line: usize,
    pub fault: Fault,
}

// Why no file is written: the output or the plan is refused; or a line is not understood, with the number of what is wrong with it.
#[derive(Clone, Copy, Drop)]
pub enum ComposeError {
    Refused(Refusal),
    Wrong { line: usize, fault: u8 },
}

impl From<Refusal> for ComposeError {
    ghost from_gives = { λ r e. e ≡ Refused r };

    fn from(r: Refusal) -> ComposeError {
        ComposeError::Refused(r)
    }
}

impl From<Misread> for ComposeError {
    ghost from_gives = { λ m e. e ≡ Wrong m.line (fault_number m.fault) };

    fn from(m: Misread) -> ComposeError {
        ComposeError::Wrong {
            line: m.line,
            fault: u8::from(m.fault),
        }
    }
}

// The end of the line that begins at a place: the next line feed, or the end of the text.
fn line_end(text: &[u8], at: usize) -> usize
    requires { at ≤ length text.now }
    ensures { (result ≡ at + line_long (drop at text.now)) × (result ≤ length text.now) }
{
    for i in at..text.len() {
        if text[i] == b'\n' {
            return i;
        }
    }
    text.len()
}

// The place after a line that ends here: behind its line feed, or the end of the text.
fn past_line(text: &[u8], end: usize) -> usize
    ensures { result ≡ past_line (length text.now) end }
{
    if end < text.len() {
        return end + 1;
    }
    text.len()
}

// The bytes of a line from start to end, put behind those that are used.
fn keep_label(line: &[u8], start: usize, end: usize, letters: &mut [u8], used: usize) -> usize
    requires { (start ≤ end) × (end ≤ length line.now) × (used + (end - start) ≤ length letters.old) }
    ensures { Put letters.old used (take (end - start) (drop start line.now)) letters.new result }
{
    put_text(&line[start..end], letters, used)
}

// A table with one cell more, whose label begins at a place.
fn noted(table: Lettered, c: usize, t: Told, start: usize) -> Lettered
    requires { (c < 256) × (t.start ≤ t.end) × (t.end ≤ 255) × (start ≤ 65535) }
    ensures { result ≡ note table c (record_from t start) }
{
    let mut table = table;
    table.columns.count = c + 1;
    table.columns.parent[c] = t.parent;
    table.columns.kind[c] = t.kind;
    table.columns.width[c] = t.width;
    table.columns.depth[c] = t.depth;
    table.columns.rank[c] = t.rank;
    table.label_length[c] = (t.end - t.start) as u8;
    table.label_start[c] = start as u16;
    table
}

// One line more.
fn turn(text: &[u8], s: State, letters: &mut [u8]) -> Result<State, Fault>
    requires { Well s × (s.at < length text.now) × (65536 ≤ length letters.old) }
    ensures { Turned text.now letters.old s letters.new result }
{
    let c = s.table.columns.count;
    if MOST_CELLS <= c {
        return Err(Fault::ManyCells);
    }
    let end = line_end(text, s.at);
    let line = &text[s.at..end];
    let told = read_line(&s.levels[..c], line)?;
    let used = keep_label(line, told.start, told.end, letters, s.used);
    let mut levels = s.levels;
    levels[c] = told.level as u8;
    Ok(State {
        at: past_line(text, end),
        used,
        levels,
        table: noted(s.table, c, told, s.used),
    })
}

// Nothing read yet.
fn begun(at: usize) -> State
    ensures { result ≡ start_at at }
{
    let columns = Columns {
        count: 0,
        parent: [0u16; MOST_CELLS],
        kind: [0u8; MOST_CELLS],
        width: [0u16; MOST_CELLS],
        depth: [0u8; MOST_CELLS],
        rank: [0u8; MOST_CELLS],
    };
    let table = Lettered {
        columns,
        label_length: [0u8; MOST_CELLS],
        label_start: [0u16; MOST_CELLS],
    };
    State {
        at,
        used: 0,
        levels: [0u8; MOST_CELLS],
        table,
    }
}

// The cells' lines, from a place on: the table, its label bytes written into the letters; or the fault, on the line after those of the cells before it.
fn read_cells(text: &[u8], from: usize, letters: &mut [u8]) -> Result<State, Misread>
    requires { 65536 ≤ length letters.old }
    ensures { Reads text.now from letters.new result }
{
    let mut s = begun(from);
    while s.at < text.len() {
        match turn(text, s, letters) {
            Ok(next) => s = next,
            Err(fault) => {
                return Err(Misread {
                    line: s.table.columns.count + 2,
                    fault,
                });
            }
        }
    }
    Ok(s)
}

// The line of the allowance.
fn first_line(line: &[u8]) -> Result<u16, Fault>
    ensures { first_in result ≡ first line.now }
{
    clear(line)?;
    if !begins(b"allowance ", line, 0) {
        return Err(Fault::NoAllowance);
    }
    match number(line, 10, 65535) {
        Err(DigitsError::Absent) => Err(Fault::NoAllowance),
        Err(DigitsError::Large) => Err(Fault::LargeNumber),
        Ok(n) => {
            if n.next < line.len() {
                return Err(Fault::NoAllowance);
            }
            Ok(n.value as u16)
        }
    }
}

// What a text says.
fn understand(text: &[u8], letters: &mut [u8]) -> Result<Understanding, Misread>
    requires { 65536 ≤ length letters.old }
    ensures { Understands text.now letters.new result }
{
    if text.len() == 0 {
        return Err(Misread {
            line: 1,
            fault: Fault::EmptyText,
        });
    }
    let end = line_end(text, 0);
    match first_line(&text[..end]) {
        Err(fault) => Err(Misread { line: 1, fault }),
        Ok(allowance) => {
            let s = read_cells(text, past_line(text, end), letters)?;
            Ok(Understanding {
                allowance,
                used: s.used,
                table: s.table,
            })
        }
    }
}

// The plan file of an outline, from the output's first byte on: its length. Beyond it the output stays as it was, and wholly where nothing is written.
pub fn compose(text: &[u8], out: &mut [u8]) -> Result<usize, ComposeError>
    ensures { Composes text.now out.old out.new result }
{
    if out.len() < MOST_FILE {
        return Err(ComposeError::Refused(Refusal { number: 1, cell: 0 }));
    }
    let mut letters = [0u8; 65536];
    let u = understand(text, &mut letters)?;
    let n = copying::copy(&u.table, &letters[..u.used], u32::from(u.allowance), out)?;
    Ok(n)
}
