// A cell as its line in an outline tells it.
#![tactic(auto)]

ghost use Rattle.std.specs.Prelude.{◌≡◌, ◌*◌, ◌≤◌, length, drop};
ghost use Rattle.plan.specs.Questions.{lower};
ghost use Rattle.outline_spec.specs.Understood.{«fields_read», named, kinds};
ghost use Rattle.outline_spec.specs.Understood as understood;
ghost use Rattle.compose_line.specs.Steps.{cleared, «told_at», Tells};

use compose_fields::{field_at, indented, kind_at, label_at};
use outline_line::{level_under, natural, nearest};
use outline_spec::Fault;
use planfile_header::letters_printable;

// A cell as its line tells it: its level, its fields, and where its label starts and ends in the line.
#[derive(Clone, Copy)]
pub struct Told {
    pub level: usize,
    pub parent: u16,
    pub kind: u8,
    pub width: u16,
    pub depth: u8,
    pub rank: u8,
    pub start: usize,
    pub end: usize,
}

// Whether the parent is a lower cell, or none if the cell is the first.
fn lower(c: usize, parent: usize) -> bool
    ensures { result ≡ lower c parent }
{
    if c == 0 {
        return parent == 65535;
    }
    parent < c
}

// The cell, if it stands one level right of its parent.
fn placed(seen: &[u8], told: Told) -> Result<Told, Fault>
    ensures { result ≡ told_at seen.now told }
{
    let parent = usize::from(told.parent);
    if !lower(seen.len(), parent) {
        return Err(Fault::Misplaced);
    }
    if told.level != level_under(seen, parent) {
        return Err(Fault::Misplaced);
    }
    Ok(told)
}

// What follows the kind's word.
fn fields(seen: &[u8], level: usize, kind: u8, line: &[u8], at: usize) -> Result<Told, Fault>
    requires { (length seen.now ≤ 256) × (length line.now ≤ 255) × (at ≤ length line.now) × (level ≤ 255) }
    ensures { Tells line.now (fields_read (length seen.now) seen.now level kind (drop at line.now)) result }
{
    let width = field_at(b" width ", 65535, line, at)?;
    let depth = field_at(b" depth ", 255, line, width.next)?;
    let rank = field_at(b" rank ", 255, line, depth.next)?;
    let under = field_at(b" under ", 255, line, rank.next)?;
    let label = label_at(line, under.next)?;
    let above = nearest(seen, level);
    let usual = natural(kind, label.end - label.start);
    let told = Told {
        level,
        parent: under.value.unwrap_or(above as u64) as u16,
        kind,
        width: width.value.unwrap_or(usual as u64) as u16,
        depth: depth.value.unwrap_or(1) as u8,
        rank: rank.value.unwrap_or(0) as u8,
        start: label.start,
        end: label.end,
    };
    placed(seen, told)
}

// The kind's word, and what follows it.
fn worded(seen: &[u8], level: usize, line: &[u8]) -> Result<Told, Fault>
    requires { (length seen.now ≤ 256) × (length line.now ≤ 255) × (2 * level ≤ length line.now) }
    ensures { Tells line.now (named (length seen.now) seen.now level kinds (drop (2 * level) line.now)) result }
{
    let Some(word) = kind_at(line, 2 * level) else {
        return Err(Fault::UnknownWord);
    };
    fields(seen, level, word.kind, line, word.next)
}

// Whether a line can be read at all.
pub fn clear(line: &[u8]) -> Result<(), Fault>
    ensures { result ≡ cleared (understood.clear line.now) }
{
    if !letters_printable(line, line.len()) {
        return Err(Fault::StrangeByte);
    }
    if 255 < line.len() {
        return Err(Fault::LongLine);
    }
    Ok(())
}

// A cell's line, after cells whose levels were seen.
pub fn read_line(seen: &[u8], line: &[u8]) -> Result<Told, Fault>
    requires { length seen.now ≤ 256 }
    ensures { Tells line.now (understood.line (length seen.now) seen.now line.now) result }
{
    clear(line)?;
    match indented(line) {
        None => Err(Fault::OddBlanks),
        Some(level) => worded(seen, level, line),
    }
}
