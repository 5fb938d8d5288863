// THE REASON for the width of a plan file's sheet, as bytes: its lines, or the line of a refusal.
#![tactic(auto)]

ghost use Rattle.std.specs.Prelude.{◌≤◌, length};
ghost use Rattle.plan.specs.Columns.{«table_of»};
ghost use Rattle.listing.specs.Printed.{lines_joined};
ghost use Rattle.listing.specs.Put.{Put};
ghost use Rattle.planfile_spec.specs.Read.{reading};
ghost use Rattle.printing.specs.Printing.{Taken};
ghost use Rattle.why_text.specs.Text.{sheet_reason, why_text, reason_size, Reasoned};

use decimals::put_refused;
use looking_columns::raised;
use plan::Columns;
use plan::limits::{MOST_CELLS, SCRATCH_SIZE};
use planfile_spec::PlanFile;
use why_lines::{put_end, put_head, put_steps};
use why_search::{Chain, explain};

// Bytes of an output that is long enough, whatever the file.
pub const REASON_SIZE: usize = 32768;

// The lines of a chain, from the positions of the sheet and its width.
fn write_chain(
    t: Columns,
    allowance: u32,
    width: u32,
    positions: &[i32],
    chain: &Chain,
    out: &mut [u8],
) -> usize
    requires { Reasoned t allowance width positions.now chain.now.count chain.now.cells chain.now.rules × (reason_size ≤ length out.old) }
    ensures { Put out.old 0 (lines_joined (sheet_reason (table_of t) allowance)) out.new result × (result ≤ reason_size) }
{
    let xs = raised(positions, t.count, 0);
    let last = chain.cells[chain.count];
    let wide = u32::from(t.width[last]);
    let a = put_head(
        t.count as u64,
        allowance as u64,
        width as u64,
        chain.count as u64,
        out,
        0,
    );
    let b = put_steps(chain, &xs, out, a);
    put_end(chain, &xs, wide, out, b)
}

// The reason of a plan that Read gave: Layout's questions have all been answered, and our sheet has a reason.
fn write_plan(plan: PlanFile, file: &[u8], out: &mut [u8]) -> usize
    requires { Taken (reading plan) file.now × (reason_size ≤ length out.old) }
    ensures { Put out.old 0 (why_text file.now) out.new result × (result ≤ reason_size) }
{
    let columns = plan.cells.columns;
    let allowance = plan.allowance as u32;
    let mut scratch = [0u32; SCRATCH_SIZE];
    let mut positions = [0i32; 2 * MOST_CELLS];
    let drawn = layout::draw_over_zeros(columns, allowance, &mut scratch, &mut positions);
    let chain = explain(columns, &positions, allowance).unwrap();
    write_chain(columns, allowance, drawn.width, &positions, &chain, out)
}

// The reason of a plan file, or the line of the refusal, into an output that is long enough: its length.
pub fn write_reason(file: &[u8], out: &mut [u8]) -> usize
    requires { reason_size ≤ length out.old }
    ensures { Put out.old 0 (why_text file.now) out.new result × (result ≤ reason_size) }
{
    match planfile::read(file, MOST_CELLS) {
        Ok(plan) => write_plan(plan, file, out),
        Err(refusal) => put_refused(refusal.number as u64, refusal.cell as u64, out, 0),
    }
}
