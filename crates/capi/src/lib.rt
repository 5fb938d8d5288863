// The calls for programs in C and Rust: include/kuzpalen.h documents each. A lent buffer is a pointer and a length; an answer is a struct of numbers.
#![tactic(auto)]

ghost use Rattle.std.specs.Prelude.{◌≡◌};
ghost use Rattle.plan.specs.Records.{«cells_of»};
ghost use Rattle.planfile_spec.specs.Reading.{label_refusal, label_part};
ghost use Rattle.checker.specs.Checked.{checked_of};
ghost use Rattle.ends.specs.Ended.{«ended_of»};
ghost use Rattle.strokes.specs.Stroked.{stroked_of};
ghost use Rattle.answers.specs.Answers.{check_answer, ends_answer, stroke_answer, Filling, Laying, ListFilling, Framing, Marking, CopyFilling, MendFilling, Stripping, Joining, Drilling, Starting, Stepping, Reaching, Reporting, report_answer};
ghost use Rattle.season.specs.Pool.{pool};

use answers::{
    CheckAnswer, CopyAnswer, DrillAnswer, EndsAnswer, FrameAnswer, JoinAnswer, LabelAnswer,
    LabelPart, LayoutAnswer, ListAnswer, MarkAnswer, MendAnswer, ReachAnswer, ReadAnswer,
    ReportAnswer, StartAnswer, StepAnswer, StripAnswer, StrokeAnswer,
};
use plan::{Page, Record};
use season::Report;

#[unsafe(no_mangle)]
pub extern "C" fn kuzpalen_read(file: &[u8], table: &mut [Record]) -> ReadAnswer
    ensures { Filling file.now table.old table.new result }
{
    read_entry::read(file, table).into()
}

// Label. An exported function cannot return a reference: the part is told by its two ends.
#[unsafe(no_mangle)]
pub extern "C" fn kuzpalen_label(file: &[u8], cell: usize) -> LabelPart
    ensures { (result.start ≡ (label_part file.now cell).start) × (result.end ≡ (label_part file.now cell).end) }
{
    let part = planfile::label_part(file, cell);
    LabelPart {
        start: part.start,
        end: part.end,
    }
}

#[unsafe(no_mangle)]
pub extern "C" fn kuzpalen_label_refusal(file: &[u8], cell: usize) -> LabelAnswer
    ensures { (result.number ≡ (label_refusal file.now cell).number) × (result.cell ≡ (label_refusal file.now cell).cell) }
{
    match label_entry::label_refusal(file, cell) {
        Ok(()) => LabelAnswer { number: 0, cell: 0 },
        Err(refusal) => LabelAnswer {
            number: refusal.number,
            cell: refusal.cell,
        },
    }
}

#[unsafe(no_mangle)]
pub extern "C" fn kuzpalen_layout(
    table: &[Record],
    allowance: u32,
    scratch: &mut [u32],
    positions: &mut [i32],
) -> LayoutAnswer
    ensures { Laying (cells_of table.now) allowance scratch.old scratch.new positions.old positions.new result }
{
    layout_entry::layout(table, allowance, scratch, positions).into()
}

#[unsafe(no_mangle)]
pub extern "C" fn kuzpalen_check(table: &[Record], positions: &[i32], allowance: u32) -> CheckAnswer
    ensures { result ≡ check_answer (checked_of (cells_of table.now) positions.now allowance) }
{
    sheet_entry::check(table, positions, allowance).into()
}

#[unsafe(no_mangle)]
pub extern "C" fn kuzpalen_ends(table: &[Record], positions: &[i32], cell: usize) -> EndsAnswer
    ensures { result ≡ ends_answer (ended_of (cells_of table.now) positions.now cell) }
{
    sheet_entry::ends(table, positions, cell).into()
}

#[unsafe(no_mangle)]
pub extern "C" fn kuzpalen_list(file: &[u8], out: &mut [u8]) -> ListAnswer
    ensures { ListFilling file.now out.old out.new result }
{
    printing::list(file, out).into()
}

#[unsafe(no_mangle)]
pub extern "C" fn kuzpalen_frame(table: &[Record], squares: u32, scratch: &mut [u32]) -> FrameAnswer
    ensures { Framing (cells_of table.now) squares scratch.old scratch.new result }
{
    frame_entry::frame(table, squares, scratch).into()
}

#[unsafe(no_mangle)]
pub extern "C" fn kuzpalen_mark(
    table: &[Record],
    positions: &[i32],
    allowance: u32,
    scratch: &mut [u32],
) -> MarkAnswer
    ensures { Marking (cells_of table.now) positions.now allowance scratch.old scratch.new result }
{
    mark_entry::mark(table, positions, allowance, scratch).into()
}

#[unsafe(no_mangle)]
pub extern "C" fn kuzpalen_copy(
    table: &[Record],
    labels: &[u8],
    allowance: u32,
    out: &mut [u8],
) -> CopyAnswer
    ensures { CopyFilling table.now labels.now allowance out.old out.new result }
{
    copy_entry::copy(table, labels, allowance, out).into()
}

#[unsafe(no_mangle)]
pub extern "C" fn kuzpalen_mend(file: &[u8], out: &mut [u8], lines: &mut [u8]) -> MendAnswer
    ensures { MendFilling file.now out.old out.new lines.old lines.new result }
{
    mending::mend(file, out, lines).into()
}

#[unsafe(no_mangle)]
pub extern "C" fn kuzpalen_stroke(
    table: &[Record],
    positions: &[i32],
    page: Page,
    s: usize,
) -> StrokeAnswer
    ensures { result ≡ stroke_answer (stroked_of (cells_of table.now) positions.now page s) }
{
    plotting::stroke_at(table, positions, page, s).into()
}

#[unsafe(no_mangle)]
pub extern "C" fn kuzpalen_strip(
    table: &[Record],
    positions: &[i32],
    row: u32,
    first: u32,
    bytes: &mut [u8],
) -> StripAnswer
    ensures { Stripping (cells_of table.now) positions.now row first bytes.old bytes.new result }
{
    strip_entry::strip(table, positions, row, first, bytes).into()
}

#[unsafe(no_mangle)]
pub extern "C" fn kuzpalen_join(
    first: &[Record],
    second: &[Record],
    cell: usize,
    table: &mut [Record],
) -> JoinAnswer
    ensures { Joining first.now second.now cell table.old table.new result }
{
    join_entry::join(first, second, cell, table).into()
}

#[unsafe(no_mangle)]
pub extern "C" fn kuzpalen_drill(table: &[Record], answers: &[u8], list: &mut [u16]) -> DrillAnswer
    ensures { Drilling (cells_of table.now) answers.now list.old list.new result }
{
    drill_entry::drill(table, answers, list).into()
}

#[unsafe(no_mangle)]
pub extern "C" fn kuzpalen_start(
    table: &[Record],
    allowance: u32,
    scratch: &mut [u32],
    second: &mut [u32],
) -> StartAnswer
    ensures { Starting (cells_of table.now) allowance scratch.old scratch.new second.old second.new result }
{
    making::start(table, allowance, scratch, second).into()
}

#[unsafe(no_mangle)]
pub extern "C" fn kuzpalen_step(
    table: &[Record],
    allowance: u32,
    scratch: &mut [u32],
    second: &mut [u32],
    positions: &mut [i32],
) -> StepAnswer
    ensures { Stepping (cells_of table.now) allowance scratch.old scratch.new second.old second.new positions.old positions.new result }
{
    making::step(table, allowance, scratch, second, positions).into()
}

#[unsafe(no_mangle)]
pub extern "C" fn kuzpalen_reach(
    table: &[Record],
    allowance: u32,
    scratch: &[u32],
    second: &[u32],
    cell: usize,
) -> ReachAnswer
    ensures { Reaching (cells_of table.now) allowance scratch.now second.now cell result }
{
    making::reach(table, allowance, scratch, second, cell).into()
}

#[unsafe(no_mangle)]
pub extern "C" fn kuzpalen_report(
    file: &[u8],
    table: &mut [Record],
    scratch: &mut [u32],
    positions: &mut [i32],
) -> ReportAnswer
    ensures { Reporting file.now table.old table.new scratch.old scratch.new positions.old positions.new result }
{
    tallying::report(file, table, scratch, positions).into()
}

#[unsafe(no_mangle)]
pub extern "C" fn kuzpalen_pool(a: Report, b: Report) -> ReportAnswer
    ensures { result ≡ report_answer (pool a b) }
{
    tallying::pool(a, b).into()
}
