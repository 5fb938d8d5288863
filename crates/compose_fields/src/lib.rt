// The parts of a line of an outline, each read from a place on: blanks, words, numbers, fields, a label.
#![tactic(auto)]

ghost use Rattle.std.specs.Prelude.{◌≡◌, ◌≢◌, ℕ, ◌≤◌, ◌<◌, length, drop, slice_index};
ghost use Rattle.outline_spec.specs.Understood.{number_from, number, indented, parted};
ghost use Rattle.compose_fields.specs.Steps.{begins, «word_at», Numbers, Levels, Options, Labels, Names};

use outline_spec::Fault;

const SPACE: u8 = 32;

// A number and the place after it.
#[derive(Clone, Copy)]
pub struct Digits {
    pub value: u64,
    pub next: usize,
}

// No digit, or a number that is too large.
#[derive(Clone, Copy)]
pub enum DigitsError {
    Absent,
    Large,
}

// The number behind a word, if both are there, and the place after them.
#[derive(Clone, Copy)]
pub struct Optional {
    pub value: Option<u64>,
    pub next: usize,
}

// Where a label starts and ends.
#[derive(Clone, Copy)]
pub struct Part {
    pub start: usize,
    pub end: usize,
}

// A kind and the place after its word.
#[derive(Clone, Copy)]
pub struct Named {
    pub kind: u8,
    pub next: usize,
}

const QUOTE: u8 = 34;

// Whether the line goes on with a word, from a place on.
pub fn begins(word: &[u8], line: &[u8], at: usize) -> bool
    requires { (length word.now ≤ 16) × (length line.now ≤ 255) × (at ≤ length line.now) }
    ensures { result ≡ begins word.now (drop at line.now) }
{
    line[at..].starts_with(word)
}

// The number that goes on from the digits that say 0.
fn number_from(line: &[u8], at: usize, most: u64) -> Result<Digits, DigitsError>
    requires { (length line.now ≤ 255) × (at ≤ length line.now) × (most ≤ 65535) }
    ensures { Numbers line.now most (number_from most 0 (drop at line.now)) result }
{
    let mut value: u64 = 0;
    for next in at..line.len() {
        let b = line[next];
        if !b.is_ascii_digit() {
            return Ok(Digits { value, next });
        }
        value = 10 * value + u64::from(b - b'0');
        if most < value {
            return Err(DigitsError::Large);
        }
    }
    Ok(Digits {
        value,
        next: line.len(),
    })
}

// A number that has a digit at least.
pub fn number(line: &[u8], at: usize, most: u64) -> Result<Digits, DigitsError>
    requires { (length line.now ≤ 255) × (at ≤ length line.now) × (most ≤ 65535) }
    ensures { Numbers line.now most (number most (drop at line.now)) result }
{
    if line.len() <= at {
        return Err(DigitsError::Absent);
    }
    if !line[at].is_ascii_digit() {
        return Err(DigitsError::Absent);
    }
    number_from(line, at, most)
}

// How many blanks the line begins with.
fn blanks(line: &[u8]) -> usize
    ensures within { result ≤ length line.now }
    ensures blank { (j : ℕ) → j < result → slice_index line.now j ≡ 32 }
    ensures other { result < length line.now → slice_index line.now result ≢ 32 }
{
    line.iter().position(|b| *b != SPACE).unwrap_or(line.len())
}

// How far right the word stands: the level, which has two blanks each, unless their number is odd.
pub fn indented(line: &[u8]) -> Option<usize>
    requires { length line.now ≤ 255 }
    ensures { Levels line.now (indented 0 line.now) result }
{
    let n = blanks(line);
    if n % 2 != 0 {
        return None;
    }
    Some(n / 2)
}

// Whether a word ends at a place: the line ends there, or goes on with a blank.
pub fn parted(line: &[u8], at: usize) -> bool
    requires { at ≤ length line.now }
    ensures { result ≡ parted (drop at line.now) }
{
    if line.len() <= at {
        return true;
    }
    line[at] == SPACE
}

// A word and its number, if the line goes on with the word.
pub fn field_at(word: &[u8], most: u64, line: &[u8], at: usize) -> Result<Optional, Fault>
    requires { (length word.now ≤ 16) × (length line.now ≤ 255) × (at ≤ length line.now) × (most ≤ 65535) }
    ensures { Options word.now most line.now at result }
{
    if !begins(word, line, at) {
        return Ok(Optional {
            value: None,
            next: at,
        });
    }
    match number(line, at + word.len(), most) {
        Ok(n) => Ok(Optional {
            value: Some(n.value),
            next: n.next,
        }),
        Err(DigitsError::Absent) => Err(Fault::UnknownField),
        Err(DigitsError::Large) => Err(Fault::LargeNumber),
    }
}

// The label, if the line goes on with one; then the line ends.
pub fn label_at(line: &[u8], at: usize) -> Result<Part, Fault>
    requires { (length line.now ≤ 255) × (at ≤ length line.now) }
    ensures { Labels line.now at result }
{
    if line.len() <= at {
        return Ok(Part { start: at, end: at });
    }
    if !begins(b" \"", line, at) {
        return Err(Fault::UnknownField);
    }
    let start = at + 2;
    if line.len() <= start {
        return Err(Fault::OpenLabel);
    }
    let end = line.len() - 1;
    if line[end] != QUOTE {
        return Err(Fault::OpenLabel);
    }
    Ok(Part { start, end })
}

// The place after a word that ends there, if the line goes on with it.
fn after_word(word: &[u8], line: &[u8], at: usize) -> Option<usize>
    requires { (length word.now ≤ 16) × (length line.now ≤ 255) × (at ≤ length line.now) }
    ensures { result ≡ word_at word.now line.now at }
{
    if !begins(word, line, at) {
        return None;
    }
    let next = at + word.len();
    if !parted(line, next) {
        return None;
    }
    Some(next)
}

// The kind whose word the line goes on with.
pub fn kind_at(line: &[u8], at: usize) -> Option<Named>
    requires { (length line.now ≤ 255) × (at ≤ length line.now) }
    ensures { Names line.now at result }
{
    if let Some(next) = after_word(b"step", line, at) {
        return Some(Named { kind: 1, next });
    }
    if let Some(next) = after_word(b"run", line, at) {
        return Some(Named { kind: 2, next });
    }
    if let Some(next) = after_word(b"repeat", line, at) {
        return Some(Named { kind: 3, next });
    }
    if let Some(next) = after_word(b"choice", line, at) {
        return Some(Named { kind: 4, next });
    }
    if let Some(next) = after_word(b"wait", line, at) {
        return Some(Named { kind: 5, next });
    }
    None
}
