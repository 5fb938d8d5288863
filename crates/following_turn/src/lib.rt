// ONE TURN OF THE DRILL (document 02, E12), over the chain of open cells: the next child of the latest one is opened, or that one is closed.
#![tactic(auto)]

ghost use Rattle.std.specs.Prelude.{◌≡◌, ◌∷◌, ◌+◌, ◌≤◌, ◌<◌, length, get_or, set};
ghost use Rattle.plan.specs.Limits.{most_steps};
ghost use Rattle.moves.specs.Drill.{recorded};
ghost use Rattle.following_cell.specs.Opening.{after};
ghost use Rattle.following_cell.specs.declared.Halt.TheVariants.{Going};
ghost use Rattle.following_turn.specs.Machine.{frame, frames, chain, enter, step, «so_far», state_of};
ghost use Rattle.following_turn.specs.Needed.{Arrays, Passing, Entering, Turning, Wrote};

use following_cell::{Halt, after, open_cell};
use plan::limits::MOST_STEPS;

// The chain of open cells, from the root down: the cell, its next child, how often that one. It is lent, not copied.
#[derive(Drop)]
pub struct Open {
    pub cells: [u16; 32],
    pub nexts: [u16; 32],
    pub times: [u8; 32],
}

// The drill after a turn: the number of open cells, whether it goes on, bytes used and records.
#[derive(Drop)]
pub struct Turned {
    pub count: usize,
    pub halt: Halt,
    pub used: usize,
    pub records: usize,
}

fn kind_of(kinds: &[u8], c: u16) -> u8
    requires { c < length kinds.now }
    ensures { result ≡ get_or kinds.now c 0 }
{
    kinds[usize::from(c)]
}

// One more open cell.
fn pushed(path: &mut Open, count: usize, s: u16, next: u16, often: u8)
    requires { (count < 32) × Arrays path.old }
    ensures arrays { Arrays path.new }
    ensures count_after { frames (chain path.new (count + 1)) ≡ frame s next often ∷ frames (chain path.old count) }
{
    path.cells[count] = s;
    path.nexts[count] = next;
    path.times[count] = often;
}

// The next child of the latest open cell, which is of this kind, is begun: what is to do after it.
fn passed(links: &[u16], kind: u8, path: &mut Open, k: usize)
    requires { Passing links.now path.old.nexts k }
    ensures cells_after { path.new.cells ≡ path.old.cells }
    ensures nexts_after { path.new.nexts ≡ set path.old.nexts k (after links.now kind (get_or path.old.nexts k 0) (get_or path.old.times k 0)).next }
    ensures times_after { path.new.times ≡ set path.old.times k (after links.now kind (get_or path.old.nexts k 0) (get_or path.old.times k 0)).times }
{
    let t = after(links, kind, path.nexts[k], path.times[k]);
    path.nexts[k] = t.next;
    path.times[k] = t.times;
}

// A step s, which is opened, is recorded, where there is room.
fn recorded(s: u16, at: Turned, list: &mut [u16]) -> Turned
    requires { (at.count < 32) × (at.records ≤ most_steps) × (most_steps ≤ length list.old) }
    ensures count_value { (result.count ≡ at.count + 1) × (so_far result.halt result.used result.records list.new ≡ recorded s (so_far Going at.used at.records list.old)) }
    ensures wrote { Wrote at.records result.records list.old list.new }
{
    let k = at.records;
    if k < MOST_STEPS {
        list[k] = s;
        return Turned {
            count: at.count + 1,
            halt: Halt::Going,
            used: at.used,
            records: k + 1,
        };
    }
    Turned {
        count: at.count + 1,
        halt: Halt::Full,
        used: at.used,
        records: k,
    }
}

// The cell s is opened.
pub fn entered(
    links: &[u16],
    kinds: &[u8],
    answers: &[u8],
    s: u16,
    path: &mut Open,
    at: Turned,
    list: &mut [u16],
) -> Turned
    requires { Entering links.now kinds.now s at.count at.records list.old × Arrays path.old }
    ensures list_after { state_of (chain path.new result.count) result.halt result.used result.records list.new ≡ enter links.now kinds.now answers.now s (frames (chain path.old at.count)) (so_far Going at.used at.records list.old) }
    ensures wrote { Wrote at.records result.records list.old list.new × Arrays path.new }
{
    let kind = kind_of(kinds, s);
    if kind == 1 {
        pushed(path, at.count, s, 0, 0);
        return recorded(s, at, list);
    }
    let o = open_cell(links, answers, s, kind, at.used);
    pushed(path, at.count, s, o.next, o.times);
    Turned {
        count: at.count + 1,
        halt: o.halt,
        used: o.used,
        records: at.records,
    }
}

// One turn: the next child of the latest open cell is opened; or, where it has none, that cell is closed.
pub fn turn(
    links: &[u16],
    kinds: &[u8],
    answers: &[u8],
    path: &mut Open,
    at: Turned,
    list: &mut [u16],
) -> Turned
    requires { Turning links.now kinds.now (chain path.old at.count) at.records list.old × Arrays path.old }
    ensures list_after { state_of (chain path.new result.count) result.halt result.used result.records list.new ≡ step links.now kinds.now answers.now (state_of (chain path.old at.count) Going at.used at.records list.old) }
    ensures wrote { Wrote at.records result.records list.old list.new × Arrays path.new }
{
    let k = at.count - 1;
    let n = path.nexts[k];
    if n == 0 {
        return Turned {
            count: k,
            halt: Halt::Going,
            used: at.used,
            records: at.records,
        };
    }
    passed(links, kind_of(kinds, path.cells[k]), path, k);
    entered(links, kinds, answers, n, path, at, list)
}
