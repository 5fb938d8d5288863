// Check: "kept" with width and rows, or "broken" with the lowest rule, then the lowest a, then the lowest b; or a refusal.
#![tactic(auto)]

ghost use Rattle.std.specs.Prelude.{◌≡◌, ◌≤◌};
ghost use Rattle.plan.specs.Limits.{most_allowance};
ghost use Rattle.plan.specs.Columns.{«table_of»};
ghost use Rattle.plan.specs.Fit.{Fit};
ghost use Rattle.plan.specs.Near.{Near};
ghost use Rattle.plan.specs.Questions.{refusal, check, check_given, passed};
ghost use Rattle.rules.specs.Verdict.{answer};
ghost use Rattle.rules.specs.Placement.{placed};
ghost use Rattle.checker.specs.Checked.{«answered», checked_of};
ghost use Rattle.looking_sights.specs.Sights.{«view_in»};
ghost use Rattle.checker.specs.Spread.{Bounds, Spread};

use asking::{allowance_refusal, lent_refusal, near_refusal};
use looking_columns::SIGHTS;
use looking_sights::{look, see};
use plan::{Breach, Columns, Measures, Refusal};
use sweeping::find;

// The verdict on a sheet: its width and rows, or what it breaks.
#[derive(Clone, Copy, Drop)]
pub enum Verdict {
    Kept(Measures),
    Broken(Breach),
}

// The questions, in their sequence.
fn refuse(t: &Columns, positions: &[i32], allowance: u32) -> Result<(), Refusal>
    ensures { result ≡ passed (refusal check (check_given (table_of t.now) allowance positions.now)) }
{
    lent_refusal(t, positions.len())?;
    allowance_refusal(allowance)?;
    near_refusal(positions, t.count)
}

// The greatest right edge less the least x.
fn width_of(sights: &[u32; SIGHTS], n: usize) -> u32
    requires { Bounds (view_in sights.now) n }
    ensures { Spread (view_in sights.now) n result }
{
    let root = see(sights, 0);
    let mut high = root.right;
    let mut low = root.x;
    for c in 1..n {
        let v = see(sights, c);
        high = high.max(v.right);
        low = low.min(v.x);
    }
    high - low
}

// The verdict on a placement that no question refuses.
fn judge(t: Columns, positions: &[i32], allowance: u32) -> Verdict
    requires { Fit (table_of t) × Near positions.now t.count × (allowance ≤ most_allowance) }
    ensures { result ≡ answered (answer (table_of t) (placed positions.now) allowance) }
{
    let mut sights = [0u32; SIGHTS];
    look(t, positions, &mut sights);
    if let Err(breach) = find(&sights, t.count, allowance) {
        return Verdict::Broken(breach);
    }
    let width = width_of(&sights, t.count);
    let root = see(&sights, 0);
    Verdict::Kept(Measures {
        width,
        rows: root.bottom - root.y + 1,
    })
}

pub fn check(t: Columns, positions: &[i32], allowance: u32) -> Result<Verdict, Refusal>
    ensures { result ≡ checked_of (table_of t) positions.now allowance }
{
    refuse(&t, positions, allowance)?;
    Ok(judge(t, positions, allowance))
}
