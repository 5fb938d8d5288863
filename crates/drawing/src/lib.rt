// A DRAWING AS TEXT, READ: the corners of a plan's cells, or what is wrong with the text.
#![tactic(auto)]

ghost use Rattle.std.specs.Prelude.{◌≡◌, ◌+◌, ◌-◌, ◌*◌, ◌≤◌, ◌<◌, ◌-ℤ◌, pos, length, drop, get_or, set};
ghost use Rattle.rules.specs.Placement.{placed};
ghost use Rattle.positions.specs.Written.{written};
ghost use Rattle.drawing_spec.specs.Words.{blank, natural, begins_below, integer};
ghost use Rattle.drawing_spec.specs.Said.{begins, passes, line_said, moved};
ghost use Rattle.drawing.specs.Drawn.{most_text, Draws};
ghost use Rattle.drawing.specs.Steps.{until, feed, solid, capped, beyond, «number_told», IntegerTold, LineTold, CornerTold, Next, Grows, Held, Sized, Steps, Turned, Reads, missing};

use asking::asked;
use drawing_spec::{DrawError, Fault};
use plan::limits::{FARTHEST, MOST_CELLS};
use whole::{difference, raise_at, within};

// A word of a line.
#[derive(Clone, Copy, Drop)]
struct Span {
    start: usize,
    end: usize,
}

// The corner of a cell, as a line gives it. A number past the bound stands for any that is farther.
#[derive(Clone, Copy, Drop)]
struct Corner {
    cell: u32,
    x: i32,
    y: i32,
}

pub const TEXT_SIZE: usize = 65536;

const LINE_FEED: u8 = 10;

const HASH: u8 = 35;

const MINUS_SIGN: u8 = 45;

// One past the bound.
const BEYOND: u32 = 262144;

// The end of the line that begins at a place: the next line feed, or the end of the text.
fn line_end(text: &[u8], at: usize) -> usize
    requires { at ≤ length text.now }
    ensures { (result ≡ at + until feed (drop at text.now)) × (result ≤ length text.now) }
{
    for i in at..text.len() {
        if text[i] == LINE_FEED {
            return i;
        }
    }
    text.len()
}

// What parts words.
fn blank(b: u8) -> bool
    ensures { result ≡ blank b }
{
    if b == 32 {
        return true;
    }
    if b == 9 {
        return true;
    }
    b == 13
}

// The end of the blanks from a place on.
fn blanks_end(line: &[u8], at: usize) -> usize
    requires { at ≤ length line.now }
    ensures { (result ≡ at + until solid (drop at line.now)) × (result ≤ length line.now) }
{
    for i in at..line.len() {
        if !blank(line[i]) {
            return i;
        }
    }
    line.len()
}

// The end of the word from a place on.
fn word_end(line: &[u8], at: usize) -> usize
    requires { at ≤ length line.now }
    ensures { (result ≡ at + until blank (drop at line.now)) × (result ≤ length line.now) }
{
    for i in at..line.len() {
        if blank(line[i]) {
            return i;
        }
    }
    line.len()
}

// The next word from a place on; an empty one if there is none.
fn next_word(line: &[u8], at: usize) -> Span
    requires { at ≤ length line.now }
    ensures { Next line.now at result }
{
    let start = blanks_end(line, at);
    let end = word_end(line, start);
    Span { start, end }
}

// Whether a text begins with a word.
fn begins(word: &[u8], text: &[u8]) -> bool
    ensures { result ≡ begins word.now text.now }
{
    for i in 0..word.len() {
        if text.len() <= i {
            return false;
        }
        if text[i] != word[i] {
            return false;
        }
    }
    true
}

// Whether a line with this first word is passed over.
fn passes(first: bool, word: &[u8]) -> bool
    ensures { result ≡ passes first word.now }
{
    if word.len() == 0 {
        return true;
    }
    if word[0] == HASH {
        return true;
    }
    if !first {
        return false;
    }
    begins(b"sheet", word)
}

// A digit more.
fn grown(a: u32, b: u8) -> u32
    requires { Grows a b }
    ensures { (result ≡ capped (10 * a + (b - 48))) × (result ≤ beyond) }
{
    let next = 10 * a + ((b - 48) as u32);
    if FARTHEST < next {
        return BEYOND;
    }
    next
}

// The natural number that a word says, if it is one; one past the bound stands for any that is greater.
fn natural(word: &[u8]) -> Option<u32>
    ensures { result ≡ number_told (natural word.now) }
{
    if word.len() == 0 {
        return None;
    }
    let mut a: u32 = 0;
    for i in 0..word.len() {
        let b = word[i];
        if b < 48 {
            return None;
        }
        if 57 < b {
            return None;
        }
        a = grown(a, b);
    }
    Some(a)
}

// Whether a word begins with a minus sign.
fn begins_below(word: &[u8]) -> bool
    ensures { result ≡ begins_below word.now }
{
    if word.len() == 0 {
        return false;
    }
    word[0] == MINUS_SIGN
}

// The whole number that a word says, if it is one.
fn integer(word: &[u8]) -> Option<i32>
    ensures { IntegerTold (integer word.now) result }
{
    if begins_below(word) {
        return Some(difference(0, natural(&word[1..])?));
    }
    Some(difference(natural(word)?, 0))
}

// The corner that a line gives whose first word is this; none if the first three words are not three numbers.
fn three(line: &[u8], first: Span) -> Option<Corner>
    requires { (first.start ≤ first.end) × (first.end ≤ length line.now) }
    ensures { CornerTold line.now first result }
{
    let cell = natural(&line[first.start..first.end])?;
    let second = next_word(line, first.end);
    let x = integer(&line[second.start..second.end])?;
    let third = next_word(line, second.end);
    let y = integer(&line[third.start..third.end])?;
    Some(Corner { cell, x, y })
}

// What line number k says: nothing, or the corner of a cell.
fn read_line(line: &[u8], k: usize) -> Result<Option<Corner>, Fault>
    ensures { LineTold k (line_said k line.now) result }
{
    let first = next_word(line, 0);
    if passes(k == 1, &line[first.start..first.end]) {
        return Ok(None);
    }
    match three(line, first) {
        Some(corner) => Ok(Some(corner)),
        None => Err(Fault::NoNumber(k)),
    }
}

// The corner of a cell is noted.
fn put_corner(places: &mut [i32], c: usize, x: i32, y: i32)
    requires { 2 * c + 2 ≤ length places.old }
    ensures { places.new ≡ set (set places.old (2 * c) x) (2 * c + 1) y }
{
    places[2 * c] = x;
    places[2 * c + 1] = y;
}

// The corner that line number k gives is noted, if it is that of a cell of n, near, and the first of it.
fn put_cell(
    corner: Corner,
    k: usize,
    n: usize,
    given: &mut [u8],
    places: &mut [i32],
) -> Result<(), Fault>
    requires { Sized n given.old places.old × Held places.old }
    ensures { Steps n k corner given.old places.old given.new places.new result }
{
    let c = corner.cell as usize;
    if n <= c {
        return Err(Fault::NoCell(k));
    }
    if given[c] != 0 {
        return Err(Fault::Twice(k, c));
    }
    if !within(corner.x, FARTHEST) {
        return Err(Fault::Far(k));
    }
    if !within(corner.y, FARTHEST) {
        return Err(Fault::Far(k));
    }
    given[c] = 1;
    put_corner(places, c, corner.x, corner.y);
    Ok(())
}

// What line number k says is noted.
fn turn(line: &[u8], k: usize, n: usize, given: &mut [u8], places: &mut [i32]) -> Result<(), Fault>
    requires { Sized n given.old places.old × Held places.old }
    ensures { Turned n k line.now given.old places.old given.new places.new result }
{
    match read_line(line, k)? {
        Some(corner) => put_cell(corner, k, n, given, places),
        None => Ok(()),
    }
}

// All lines, from the first on, to the first that is wrong.
fn read_lines(text: &[u8], n: usize, given: &mut [u8], places: &mut [i32]) -> Result<(), Fault>
    requires { Sized n given.old places.old × Held places.old × (length text.now ≤ most_text) }
    ensures { Reads n text.now given.old places.old given.new places.new result }
{
    let mut at = 0;
    let mut k = 1;
    while at < text.len() {
        let end = line_end(text, at);
        turn(&text[at..end], k, n, given, places)?;
        at = end + 1;
        k += 1;
    }
    Ok(())
}

// The lowest cell that is not given, if one is not.
fn lowest(given: &[u8], n: usize) -> Option<usize>
    requires { n ≤ length given.now }
    ensures { result ≡ missing given.now n }
{
    for c in 0..n {
        if given[c] == 0 {
            return Some(c);
        }
    }
    None
}

// The number at a place less that at another.
fn apart(places: &[i32], i: usize, j: usize) -> i32
    requires { Held places.now × (i < length places.now) × (j < length places.now) }
    ensures { result ≡ get_or places.now i (pos 0) -ℤ get_or places.now j (pos 0) }
{
    difference(raise_at(places, i, FARTHEST), raise_at(places, j, FARTHEST))
}

// The corners, moved so that the root's is 0 0.
fn put_moved(places: &[i32], n: usize, positions: &mut [i32])
    requires { Held places.now × (2 * n ≤ length places.now) × (2 * n ≤ length positions.old) }
    ensures { positions.new ≡ written positions.old (moved (placed places.now)) n }
{
    for c in 0..n {
        put_corner(
            positions,
            c,
            apart(places, 2 * c, 0),
            apart(places, 2 * c + 1, 1),
        );
    }
}

// A TEXT READ as the drawing of a plan of n cells: if it says the corner of each cell, the positions hold them, the root's at 0 0, else they are as they were.
pub fn read_drawing(text: &[u8], n: usize, positions: &mut [i32]) -> Result<(), DrawError>
    ensures { Draws n text.now positions.old positions.new result }
{
    asked(4, n <= MOST_CELLS, 0)?;
    asked(1, 2 * n <= positions.len(), 0)?;
    if TEXT_SIZE < text.len() {
        return Err(DrawError::Wrong(Fault::Long));
    }
    let mut given = [0u8; MOST_CELLS];
    let mut places = [0i32; 2 * MOST_CELLS];
    read_lines(text, n, &mut given, &mut places)?;
    if let Some(c) = lowest(&given, n) {
        return Err(DrawError::Wrong(Fault::Missing(c)));
    }
    put_moved(&places, n, positions);
    Ok(())
}
