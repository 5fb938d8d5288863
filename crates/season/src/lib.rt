// THE SEASON'S FOLDER (document 02, E14): the report of some plans, the pool of two reports, and a folder's report, file by file.
#![tactic(auto)]

ghost use Rattle.std.specs.Prelude.{◌≡◌, [], ◌∷◌, ◌≤◌};
ghost use Rattle.plan.specs.Questions.{passed};
ghost use Rattle.season.specs.Report.{width_each, rows_each, quotient, remainder, report, nothing};
ghost use Rattle.season.specs.Pool.{narrower, pooled, empty, sound, pool_refusal, pool, adds, Small};

use asking::asked;
use plan::Refusal;
use plan::limits::FARTHEST;

pub const MOST_PLANS: u32 = 1024;

// Of one plan, at most: cells, width, and width times rows.
pub const CELLS_EACH: u32 = 256;

pub const WIDTH_EACH: u32 = FARTHEST;

pub const AREA_EACH: u64 = 67108608;

// The figures of some plans, zeros throughout for none. Beside each field the most that 1,024 plans can make of it.
#[repr(C)]
#[derive(Clone, Copy, Drop)]
pub struct Report {
    // The number of plans: 1,024.
    pub plans: u32,
    // Their cells: 262,144.
    pub cells: u32,
    // The sum of their sheets' widths: 268,434,432.
    pub widths: u32,
    // The sum of width times rows: 68,719,214,592, which 32 bits do not hold.
    pub areas: u64,
    // The least and the greatest width: 262,143.
    pub least: u32,
    pub greatest: u32,
    // The mean width: the sum of widths divided by the plans, 262,143, and what is left over, 1,023.
    pub mean: u32,
    pub rest: u32,
}

// The mean of no plan is 0, and nothing is left over.
fn quotient(sum: u32, n: u32) -> u32
    ensures { result ≡ quotient sum n }
{
    sum.checked_div(n).unwrap_or(0)
}

fn remainder(sum: u32, n: u32) -> u32
    ensures { result ≡ remainder sum n }
{
    sum.checked_rem(n).unwrap_or(0)
}

// The report of one plan, of so many cells, whose sheet has this width and so many rows.
pub fn single(cells: u32, width: u32, rows: u32) -> Report
    requires { (width ≤ width_each) × (rows ≤ rows_each) }
    ensures { result ≡ report (record { cells = cells; width = width; rows = rows } ∷ []) }
{
    Report {
        plans: 1,
        cells,
        widths: width,
        areas: u64::from(width) * u64::from(rows),
        least: width,
        greatest: width,
        mean: width,
        rest: 0,
    }
}

// The report of no plan: zeros throughout.
pub fn nothing() -> Report
    ensures { result ≡ nothing }
{
    Report {
        plans: 0,
        cells: 0,
        widths: 0,
        areas: 0,
        least: 0,
        greatest: 0,
        mean: 0,
        rest: 0,
    }
}

// The lesser of two least widths, of which that of no plan does not count.
fn narrower(a: Report, b: Report) -> u32
    ensures { result ≡ narrower a.plans a.least b.plans b.least }
{
    if a.plans == 0 {
        return b.least;
    }
    if b.plans == 0 {
        return a.least;
    }
    a.least.min(b.least)
}

// The figures of both, where no sum passes its type. The mean is worked out afresh.
fn pooled(a: Report, b: Report) -> Report
    requires { Small a × Small b }
    ensures { result ≡ pooled a b }
{
    let plans = a.plans + b.plans;
    let widths = a.widths + b.widths;
    Report {
        plans,
        cells: a.cells + b.cells,
        widths,
        areas: a.areas + b.areas,
        least: narrower(a, b),
        greatest: a.greatest.max(b.greatest),
        mean: quotient(widths, plans),
        rest: remainder(widths, plans),
    }
}

// Question 22, of the figures that no bound per plan judges.
fn empty(r: Report) -> bool
    ensures { result ≡ empty r }
{
    if r.least != 0 {
        return false;
    }
    if r.greatest != 0 {
        return false;
    }
    if r.mean != 0 {
        return false;
    }
    r.rest == 0
}

// Question 22.
fn sound(r: Report) -> bool
    ensures { result ≡ sound r }
{
    if MOST_PLANS < r.plans {
        return false;
    }
    if CELLS_EACH * r.plans < r.cells {
        return false;
    }
    if WIDTH_EACH * r.plans < r.widths {
        return false;
    }
    if AREA_EACH * (r.plans as u64) < r.areas {
        return false;
    }
    if r.plans != 0 {
        return true;
    }
    empty(r)
}

// The questions of a pool: 22 of the first, 22 of the second, 4 of both together.
fn pool_refusal(a: Report, b: Report) -> Result<(), Refusal>
    ensures { result ≡ passed (pool_refusal a b) }
{
    asked(22, sound(a), 0)?;
    asked(22, sound(b), 0)?;
    asked(4, a.plans + b.plans <= MOST_PLANS, 0)
}

// Pool: the report of two folders together.
pub fn pool(a: Report, b: Report) -> Result<Report, Refusal>
    ensures { result ≡ pool a b }
{
    pool_refusal(a, b)?;
    Ok(pooled(a, b))
}

// A folder's report so far, and what was answered for the next file: a refused file adds nothing; once there are too many plans, that is the answer.
pub fn add(
    total: Result<Report, Refusal>,
    answer: Result<Report, Refusal>,
) -> Result<Report, Refusal>
    ensures { result ≡ adds total answer }
{
    let so_far = total?;
    match answer {
        Ok(more) => pool(so_far, more),
        Err(_) => total,
    }
}
