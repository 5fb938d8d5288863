// Layout's walk, turn by turn, for the plan file on standard input: before each turn a line with the open cells from the root down and the child
// that is opened next. The turns are crate walk's own.
#![tactic(auto)]

ghost use Rattle.std.specs.Prelude.{replicate};
ghost use Rattle.plan.specs.Columns.{table_of};
ghost use Rattle.plan.specs.Fit.{Fit};
ghost use Rattle.plan.specs.Limits.{scratch_size};
ghost use Rattle.layout.specs.Laid.{Placeable};
ghost use Rattle.walk.specs.Machine.{chart_of};
ghost use Rattle.walk.specs.Walked.{Walking};

use asking::tree::survey;
use chains::{print_turn, refuse};
use layout::layout_refusal;
use links::links_of;
use marks::MARKS;
use plan::Columns;
use plan::limits::{MOST_CELLS, MOST_FILE, SCRATCH_SIZE};
use std::io;
use walk::{Board, begin, turn};

// Positions of a whole table, two numbers a cell.
const POSITIONS: usize = 2 * MOST_CELLS;

// The walk of crate walk, with a line before each turn. A line that cannot be written is told at the end: the others are written all the same.
fn watch(out: &impl Print, b: &Board, rows: &mut [u32], marks: &mut [u32]) -> io::Result<()>
    requires { Walking (chart_of b.now) rows.old marks.old }
{
    let mut at = begin(b.links);
    let mut told = Ok(());
    while 0 < at.open_cells.count {
        if let Err(error) = print_turn(out, &at) {
            told = Err(error);
        }
        at = turn(b, at, rows, marks);
    }
    println!(out; "none open")?;
    told
}

// The walk over a scratch and marks of zeros.
fn tour(out: &impl Print, t: Columns, tops: &[u16; MOST_CELLS], allowance: u32) -> io::Result<()>
    requires { Placeable t tops.now (replicate scratch_size 0) }
{
    let links = links_of(t);
    let mut rows = [0u32; SCRATCH_SIZE];
    let mut marks = [0u32; MARKS];
    let board = Board {
        links: &links,
        widths: &t.width,
        depths: &t.depth,
        tops,
        allowance,
    };
    watch(out, &board, &mut rows, &mut marks)
}

// The row of each cell, as Layout finds it.
fn survey_and_tour(out: &impl Print, t: Columns, allowance: u32) -> io::Result<()>
    requires { Fit (table_of t) }
{
    let found = survey(&t);
    tour(out, t, &found.rows, allowance)
}

fn show(out: &impl Print, t: Columns, allowance: u32) -> io::Result<()> {
    match layout_refusal(&t, allowance, SCRATCH_SIZE, POSITIONS) {
        Ok(()) => survey_and_tour(out, t, allowance),
        Err(refusal) => refuse(out, refusal),
    }
}

// The turns of a plan file, or its refusal.
fn show_file(out: &impl Print, file: &[u8]) -> io::Result<()> {
    match planfile::read(file, MOST_CELLS) {
        Ok(plan) => show(out, plan.cells.columns, u32::from(plan.allowance)),
        Err(refusal) => refuse(out, refusal),
    }
}

// One byte more than a plan file may have is read, so that a longer one is refused.
fn main(rt: HostRuntime) {
    let err = rt.stderr();
    let mut from = rt.stdin();
    let mut file = [0u8; MOST_FILE + 1];
    let Ok(input) = input::read_whole(&mut from, &mut file) else {
        err.write_all(b"turns: the plan cannot be read\n").is_ok();
        return;
    };
    let n = input.length;
    if show_file(&rt.stdout(), &file[..n]).is_err() {
        err.write_all(b"turns: the turns could not be written whole\n")
            .is_ok();
    }
}
