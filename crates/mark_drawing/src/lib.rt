// THE MARK OF A DRAWING AS TEXT: read, and marked.
#![tactic(auto)]

ghost use Rattle.std.specs.Prelude.{◌≡◌};
ghost use Rattle.plan.specs.Columns.{«table_of»};
ghost use Rattle.mark_drawing.specs.Outcome.{outcome};

use drawing::read_drawing;
use drawing_spec::DrawError;
use mark::mark;
use mark_spec::Marked;
use plan::Columns;
use plan::limits::{MOST_CELLS, SCRATCH_SIZE};

// The mark of the drawing that a text says, of a plan under an allowance; or why there is none.
pub fn mark_drawing(t: Columns, allowance: u32, text: &[u8]) -> Result<Marked, DrawError>
    ensures { result ≡ outcome t.count (table_of t) allowance text.now }
{
    let mut scratch = [0u32; SCRATCH_SIZE];
    let mut positions = [0i32; 2 * MOST_CELLS];
    read_drawing(text, t.count, &mut positions)?;
    Ok(mark(t, &positions, allowance, &mut scratch)?)
}
