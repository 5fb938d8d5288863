// WHY over columns: our sheet, as Layout writes it, with the reason for its width; and the reason for the width of anyone's placement.
#![tactic(auto)]

ghost use Rattle.plan.specs.Columns.{«table_of»};
ghost use Rattle.why.specs.Judges.{Judges};
ghost use Rattle.why.specs.Shows.{Shows};

use checker::{Verdict, check};
use layout::layout;
use plan::{Breach, Columns, Measures, Refusal};
use why_search::{Chain, explain};

// Our sheet's width and rows, and the chain that says why it is as wide as it is.
#[derive(Drop)]
pub struct Shown {
    pub measures: Measures,
    pub chain: Chain,
}

// What Layout answers, with the reason for the width of a sheet.
pub fn why(
    t: Columns,
    allowance: u32,
    scratch: &mut [u32],
    positions: &mut [i32],
) -> Result<Shown, Refusal>
    ensures { Shows (table_of t) allowance scratch.old scratch.new positions.old positions.new result }
{
    let measures = layout(t, allowance, scratch, positions)?;
    let chain = explain(t, &positions[..], allowance).unwrap();
    Ok(Shown { measures, chain })
}

// Kept, with the chain if there is one; or broken.
#[derive(Drop)]
pub enum Judged {
    Kept(Measures, Option<Chain>),
    Broken(Breach),
}

// What Check answers; where that is "kept", with the reason, if there is one.
pub fn judge(t: Columns, positions: &[i32], allowance: u32) -> Result<Judged, Refusal>
    ensures { Judges (table_of t) allowance positions.now result }
{
    let verdict = check(t, positions, allowance)?;
    match verdict {
        Verdict::Kept(measures) => {
            let chain = explain(t, positions, allowance);
            Ok(Judged::Kept(measures, chain))
        }
        Verdict::Broken(breach) => Ok(Judged::Broken(breach)),
    }
}
