// REPORT (document 02, E14): the report of one plan file, with its sheet at its own allowance.
#![tactic(auto)]

ghost use Rattle.std.specs.Prelude.{◌≡◌, ◌&&◌, leb};
ghost use Rattle.plan.specs.Limits.{most_cells, scratch_size};
ghost use Rattle.plan.specs.Questions.{answered};
ghost use Rattle.reporting.specs.Reporting.{report_refusal, file_plan, Drafts};

use asking::asked;
use layout::draw;
use plan::Refusal;
use plan::limits::{MOST_CELLS, SCRATCH_SIZE};
use planfile_cursor::trailer;
use planfile_header::formed_refusal;
use planfile_spec::PlanFile;
use season::{Report, single};

// A file that was reported: the plan in it, to be written into a table, and the report of that one plan.
#[derive(Drop)]
pub struct Draft {
    pub plan: PlanFile,
    pub report: Report,
}

// Question 1, of the table and the scratch.
fn long_enough(room: usize, scratch: usize) -> bool
    ensures { result ≡ leb most_cells room && leb scratch_size scratch }
{
    if room < MOST_CELLS {
        return false;
    }
    SCRATCH_SIZE <= scratch
}

// The questions that Report puts: 1 (table, scratch), 2 to 4, 1 (positions), 5 to 14; and the plan where none refuses it.
fn read_for(file: &[u8], room: usize, scratch: usize, positions: usize) -> Result<PlanFile, Refusal>
    ensures { result ≡ answered (report_refusal file.now room scratch positions) (file_plan file.now) }
{
    asked(1, long_enough(room, scratch), 0)?;
    formed_refusal(file)?;
    let t = trailer(file);
    asked(1, 2 * usize::from(t.count) <= positions, 0)?;
    planfile::read(file, MOST_CELLS)
}

// Report: the questions, then our sheet, and its figures.
pub fn report(
    file: &[u8],
    room: usize,
    scratch: &mut [u32],
    positions: &mut [i32],
) -> Result<Draft, Refusal>
    ensures { Drafts file.now room scratch.old scratch.new positions.old positions.new result }
{
    let plan = read_for(file, room, scratch.len(), positions.len())?;
    let columns = plan.cells.columns;
    let allowance = u32::from(plan.allowance);
    let drawn = draw(columns, allowance, &mut scratch[..SCRATCH_SIZE], positions);
    let report = single(columns.count as u32, drawn.width, drawn.rows);
    Ok(Draft { plan, report })
}
