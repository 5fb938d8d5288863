// THE PEN PLOTTER'S CALL, over lent records: a library above the engine. It asks nothing of its caller.
#![tactic(auto)]

ghost use Rattle.std.specs.Prelude.{◌≡◌};
ghost use Rattle.plan.specs.Records.{«cells_of»};
ghost use Rattle.strokes.specs.Stroked.{stroked_of};

use pen::Stroke;
use plan::{Page, Record, Refusal};
use records::columns_of;

// Stroke number s, from 0, of a sheet that is drawn on a page; or the refusal.
pub fn stroke_at(
    table: &[Record],
    positions: &[i32],
    page: Page,
    s: usize,
) -> Result<Stroke, Refusal>
    ensures { result ≡ stroked_of (cells_of table.now) positions.now page s }
{
    strokes::stroke_at(&columns_of(table), positions, page, s)
}
