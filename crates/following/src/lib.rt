// THE DRILL (document 02, E12): a plan followed with a list of answers, as a loop over the chain of open cells.
#![tactic(auto)]

ghost use Rattle.std.specs.Prelude.{◌≡◌, ◌++◌, ◌&&◌, ◌≤◌, length, drop, ltb};
ghost use Rattle.plan.specs.Limits.{most_steps};
ghost use Rattle.plan.specs.Fit.{Fit};
ghost use Rattle.plan.specs.Columns.{«table_of»};
ghost use Rattle.plan.specs.Questions.{refusal, drill, drill_given, passed};
ghost use Rattle.links.specs.Links.{Links};
ghost use Rattle.moves.specs.Drill.{drill_of};
ghost use Rattle.following_turn.specs.Machine.{outcome_of, goes, «so_far»};
ghost use Rattle.following.specs.Drilled.{told_as, drill_told, Drills};
ghost use Rattle.following_turn.specs.Needed.{Wrote};

use asking::{asked, counted_refusal};
use following_cell::Halt;
use following_turn::{Open, Turned, entered, turn};
use links::links_of;
use plan::limits::{MOST_ANSWERS, MOST_STEPS};
use plan::{Columns, Refusal};

// How the drill ended, with the bytes used and the number of records.
#[derive(Drop)]
pub enum Drilled {
    Finished(usize, usize),
    Spent(usize, usize),
    Wrong(usize, usize),
    Full(usize, usize),
}

// Whether there is a further turn.
fn goes_on(halt: Halt, count: usize) -> bool
    ensures { result ≡ goes halt && ltb 0 count }
{
    halt == Halt::Going && 0 < count
}

// The whole drill of a table with its links.
fn followed(t: &Columns, links: &[u16], answers: &[u8], list: &mut [u16]) -> Turned
    requires { Fit (table_of t.now) × Links (table_of t.now) links.now × (most_steps ≤ length list.old) }
    ensures { (so_far result.halt result.used result.records list.new ≡ drill_of (table_of t.now) answers.now) × Wrote 0 result.records list.old list.new }
{
    let mut path = Open {
        cells: [0; 32],
        nexts: [0; 32],
        times: [0; 32],
    };
    let begin = Turned {
        count: 0,
        halt: Halt::Going,
        used: 0,
        records: 0,
    };
    let mut at = entered(links, &t.kind, answers, 0, &mut path, begin, list);
    while goes_on(at.halt, at.count) {
        at = turn(links, &t.kind, answers, &mut path, at, list);
    }
    at
}

fn told(halt: Halt, used: usize, records: usize) -> Drilled
    ensures { result ≡ told_as (outcome_of halt) used records }
{
    match halt {
        Halt::Going => Drilled::Finished(used, records),
        Halt::Spent => Drilled::Spent(used, records),
        Halt::Wrong => Drilled::Wrong(used, records),
        Halt::Full => Drilled::Full(used, records),
    }
}

// The drill of a table that no question refuses, over a list of at least 4,096 numbers.
fn follow(t: &Columns, answers: &[u8], list: &mut [u16]) -> Drilled
    requires { Fit (table_of t.now) × (most_steps ≤ length list.old) }
    ensures { (result ≡ drill_told (drill_of (table_of t.now) answers.now)) × (list.new ≡ (drill_of (table_of t.now) answers.now).steps ++ drop (length (drill_of (table_of t.now) answers.now).steps) list.old) }
{
    let links = links_of(*t);
    let e = followed(t, &links, answers, list);
    told(e.halt, e.used, e.records)
}

// The questions that the drill puts: 1 (the list), 4, 6 to 8, 11 to 13, 21.
fn drill_refusal(t: &Columns, answers: usize, list: usize) -> Result<(), Refusal>
    ensures { result ≡ passed (refusal drill (drill_given (table_of t.now) answers list)) }
{
    asked(1, MOST_STEPS <= list, 0)?;
    counted_refusal(t)?;
    asked(21, answers <= MOST_ANSWERS, 0)
}

// Drill: the questions, then the drill.
pub fn drill(t: &Columns, answers: &[u8], list: &mut [u16]) -> Result<Drilled, Refusal>
    ensures { Drills (table_of t.now) answers.now list.old list.new result }
{
    drill_refusal(t, answers.len(), list.len())?;
    Ok(follow(t, answers, list))
}
