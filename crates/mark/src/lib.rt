// MARK: full marks exactly where nothing narrower was possible. Check's answer, and of a drawing that it keeps the least width there is.
#![tactic(auto)]

ghost use Rattle.std.specs.Prelude.{◌≡◌, length, replicate};
ghost use Rattle.plan.specs.Limits.{scratch_size};
ghost use Rattle.plan.specs.Fit.{Fit};
ghost use Rattle.plan.specs.Columns.{table_of};
ghost use Rattle.mark_spec.specs.Marked.{our_width, by_width, Marks};

use asking::asked;
use checker::{Verdict, check};
use fitting::{tops_of, width_at};
use mark_spec::Marked;
use plan::limits::SCRATCH_SIZE;
use plan::{Columns, Measures, Refusal};

// The width of our sheet, over a scratch of 16,384 numbers. No position is written.
fn least_width(t: Columns, allowance: u32, scratch: &mut [u32]) -> u32
    requires { Fit (table_of t) × (length scratch.old ≡ scratch_size) }
    ensures { (result ≡ our_width (table_of t) allowance) × (scratch.new ≡ replicate scratch_size 0) }
{
    scratch.fill(0);
    let tops = tops_of(&t);
    width_at(t, &tops, allowance, scratch)
}

// The mark of a drawing that keeps the rules, by its width and the least one.
fn by_width(least: u32, sheet: Measures) -> Marked
    ensures { result ≡ by_width least sheet.width sheet.rows }
{
    if sheet.width <= least {
        return Marked::Full(sheet);
    }
    Marked::Wide(sheet, least)
}

// The same, with our sheet laid out over a scratch of 16,384 numbers.
fn graded(t: Columns, allowance: u32, sheet: Measures, scratch: &mut [u32]) -> Marked
    requires { Fit (table_of t) × (length scratch.old ≡ scratch_size) }
    ensures { (result ≡ by_width (our_width (table_of t) allowance) sheet.width sheet.rows) × (scratch.new ≡ replicate scratch_size 0) }
{
    let least = least_width(t, allowance, scratch);
    by_width(least, sheet)
}

// Mark: 1 of the scratch, then Check's questions and its verdict. Our sheet is laid out only where that is "kept".
pub fn mark(
    t: Columns,
    positions: &[i32],
    allowance: u32,
    scratch: &mut [u32],
) -> Result<Marked, Refusal>
    ensures { Marks (table_of t) positions.now allowance scratch.old scratch.new result }
{
    asked(1, SCRATCH_SIZE <= scratch.len(), 0)?;
    match check(t, positions, allowance)? {
        Verdict::Kept(sheet) => Ok(graded(t, allowance, sheet, &mut scratch[..SCRATCH_SIZE])),
        Verdict::Broken(breach) => {
            scratch[..SCRATCH_SIZE].fill(0);
            Ok(Marked::Broken(breach))
        }
    }
}
