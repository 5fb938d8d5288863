// A STEP (document 02, E9) for a table that no question refuses: one cell is finished and counted, and after the last the sheet is written.
#![tactic(auto)]

ghost use Rattle.std.specs.Prelude.{◌≡◌, ◌*◌, ◌≤◌, ◌<◌, length, get_or, set};
ghost use Rattle.plan.specs.Columns.{table_of};
ghost use Rattle.joining.specs.Joining.{memory_of};
ghost use Rattle.layout.specs.Laid.{Drawable};
ghost use Rattle.finishing_cell.specs.Taking.{Steppable};
ghost use Rattle.finishing_step.specs.Advancing.{Concluded, Advances};

use finishing_cell::take;
use finishing_guard::COUNT_AT;
use layout::draw;
use plan::Columns;

// The number of steps made.
pub fn count_of(scratch: &[u32]) -> usize
    requires { 63 < length scratch.now }
    ensures { result ≡ get_or scratch.now 63 0 }
{
    scratch[COUNT_AT] as usize
}

fn put_count(scratch: &mut [u32], v: u32)
    requires { 63 < length scratch.old }
    ensures { scratch.new ≡ set scratch.old 63 v }
{
    scratch[COUNT_AT] = v;
}

// After the last step the sheet is written.
fn conclude(t: &Columns, allowance: u32, last: bool, scratch: &mut [u32], positions: &mut [i32])
    requires { Drawable (table_of t.now) (length scratch.old) (length positions.old) }
    ensures { Concluded (table_of t.now) allowance last scratch.old scratch.new positions.old positions.new }
{
    if last {
        draw(*t, allowance, scratch, positions);
    }
}

// A step, for a table that no question refuses, over scratches of 16,384 and 1,024 numbers: the cell that it finished, or none if all are.
pub fn advance(
    t: &Columns,
    allowance: u32,
    scratch: &mut [u32],
    marks: &mut [u32],
    positions: &mut [i32],
) -> Option<u16>
    requires { Steppable (table_of t.now) (length scratch.old) (length marks.old) × (2 * length (table_of t.now) ≤ length positions.old) }
    ensures { Advances (table_of t.now) allowance (memory_of scratch.old marks.old) (memory_of scratch.new marks.new) positions.old positions.new result }
{
    let n = t.count;
    let k = count_of(scratch);
    if n <= k {
        return None;
    }
    match take(t, k, allowance, scratch, marks) {
        Ok(c) => {
            conclude(t, allowance, k + 1 == n, scratch, positions);
            put_count(scratch, (k + 1) as u32);
            Some(c as u16)
        }
        Err(_) => None,
    }
}
