// THE TRANSCRIPT of a drill, as bytes: the recorded steps with their labels, a line each, then the outcome, the bytes used and the number of records; or the line of a refusal.
#![tactic(auto)]

ghost use Rattle.std.specs.Prelude.{◌≡◌, ◌++◌, ◌*◌, ◌≤◌, ◌<◌, length, take};
ghost use Rattle.plan.specs.Limits.{most_label, most_answers};
ghost use Rattle.planfile_spec.specs.Read.{reading};
ghost use Rattle.listing.specs.Printed.{step_line, end_line, refused_line};
ghost use Rattle.listing.specs.Line.{line_of};
ghost use Rattle.listing.specs.Put.{Put};
ghost use Rattle.printing.specs.Printing.{Taken, label_bytes};
ghost use Rattle.transcript.specs.Transcript.{steps_text, told_lines, records_in, transcript_of, transcript_size, Recorded, Tellable};

use following::Drilled;
use listing::{Line, end_line, put_line, refused_line, step_line};
use plan::Refusal;
use plan::limits::{MOST_CELLS, MOST_STEPS};
use planfile_spec::PlanFile;
use printing::label_at;

// Bytes of an output that holds every transcript.
pub const TRANSCRIPT_SIZE: usize = 213120;

// The line of a recorded step.
fn line_at(plan: &PlanFile, file: &[u8], c: usize) -> Line
    requires { (c < plan.now.cells.columns.count) × Taken (reading plan.now) file.now }
    ensures { (result ≡ line_of (step_line c (label_bytes file.now c))) × (result.length ≤ 52) }
{
    step_line(c as u32, label_at(plan, file, c))
}

// The lines of the first n numbers of the list.
fn put_steps(plan: &PlanFile, file: &[u8], list: &[u16], n: usize, out: &mut [u8]) -> usize
    requires { Taken (reading plan.now) file.now × Recorded (reading plan.now) n list.now × (transcript_size ≤ length out.old) }
    ensures { Put out.old 0 (steps_text file.now (take n list.now)) out.new result × (result ≤ 52 * n) }
{
    let mut next: usize = 0;
    for i in 0..n {
        let line = line_at(plan, file, usize::from(list[i]));
        next = put_line(line, out, next);
    }
    next
}

// The same, and the last line.
fn put_drill(
    plan: &PlanFile,
    file: &[u8],
    list: &[u16],
    word: &[u8],
    used: usize,
    n: usize,
    out: &mut [u8],
) -> usize
    requires { Taken (reading plan.now) file.now × Recorded (reading plan.now) n list.now × (transcript_size ≤ length out.old) × (length word.now ≤ most_label) × (used ≤ most_answers) }
    ensures { Put out.old 0 (steps_text file.now (take n list.now) ++ end_line word.now used n) out.new result × (result ≤ transcript_size) }
{
    let next = put_steps(plan, file, list, n, out);
    let last = end_line(word, used as u32, n as u32);
    put_line(last, out, next)
}

// The lines of an answer, with the recorded steps in the list.
fn tell(
    plan: &PlanFile,
    file: &[u8],
    list: &[u16],
    answer: Result<Drilled, Refusal>,
    out: &mut [u8],
) -> usize
    requires { Taken (reading plan.now) file.now × Tellable (reading plan.now) list.now answer × (transcript_size ≤ length out.old) }
    ensures { Put out.old 0 (told_lines file.now (take (records_in answer) list.now) answer) out.new result × (result ≤ transcript_size) }
{
    match answer {
        Ok(Drilled::Finished(used, n)) => put_drill(plan, file, list, b"finished", used, n, out),
        Ok(Drilled::Spent(used, n)) => put_drill(plan, file, list, b"spent", used, n, out),
        Ok(Drilled::Wrong(used, n)) => put_drill(plan, file, list, b"wrong", used, n, out),
        Ok(Drilled::Full(used, n)) => put_drill(plan, file, list, b"full", used, n, out),
        Err(refusal) => put_refusal(refusal, out),
    }
}

// The line of a refusal.
fn put_refusal(refusal: Refusal, out: &mut [u8]) -> usize
    requires { transcript_size ≤ length out.old }
    ensures { Put out.old 0 (refused_line refusal.number refusal.cell) out.new result × (result ≤ transcript_size) }
{
    let line = refused_line(u32::from(refusal.number), u32::from(refusal.cell));
    put_line(line, out, 0)
}

// The drill of a plan that Read gave.
fn write_drill(plan: PlanFile, file: &[u8], answers: &[u8], out: &mut [u8]) -> usize
    requires { Taken (reading plan) file.now × (transcript_size ≤ length out.old) }
    ensures { Put out.old 0 (transcript_of file.now answers.now) out.new result × (result ≤ transcript_size) }
{
    let mut list = [0u16; MOST_STEPS];
    let answer = following::drill(&plan.cells.columns, answers, &mut list);
    tell(&plan, file, &list, answer, out)
}

// The transcript of a plan file and answer bytes into an output that is long enough: its length.
pub fn write_transcript(file: &[u8], answers: &[u8], out: &mut [u8]) -> usize
    requires { transcript_size ≤ length out.old }
    ensures { Put out.old 0 (transcript_of file.now answers.now) out.new result × (result ≤ transcript_size) }
{
    match planfile::read(file, MOST_CELLS) {
        Ok(plan) => write_drill(plan, file, answers, out),
        Err(refusal) => put_refusal(refusal, out),
    }
}
