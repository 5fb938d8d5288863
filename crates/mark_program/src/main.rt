// mark_program PLAN DRAWING..: a line for each drawing, its name and its mark, or what is wrong with its text; of several drawings a last line with the counts.
// A plan that is refused: its name and the refusal, and no more. A file that cannot be read is told on standard error; then there are no counts, since they would not be those of the sitting.
#![tactic(auto)]

ghost use Rattle.std.specs.Prelude.{◌≤◌, length, IfOk};

use mark_drawing::mark_drawing;
use mark_text::{Counts, counted, write_counts, write_outcome};
use plan::Refusal;
use plan::limits::{MOST_CELLS, MOST_FILE};
use planfile_spec::PlanFile;
use progress::tell_progress;
use std::io;
use std::io::{IsTerminal, Read};
use std::rt::{Env, Files};
use summary::write_named;

// Bytes of a drawing that are read: one more than it may have, as of the plan, so that a longer one is told apart.
const DRAWING_SIZE: usize = 65537;

// Bytes of a line's buffer: a path of 4,096 and a mark.
const TEXT_SIZE: usize = 4352;

// The sitting so far: whether each file could be read and each line written, and the counts.
#[derive(Drop)]
struct Sitting {
    read: bool,
    written: bool,
    counts: Counts,
}

// A file by its name, into a buffer.
fn get<R: Files>(rt: &R, path: &[u8], buffer: &mut [u8]) -> io::Result<usize>
    ensures { IfOk result (λ n. n ≤ length buffer.old) }
{
    let opened = input::open(rt, path)?;
    get_from(opened, buffer)
}

// The same from an open file, which is closed.
fn get_from<F: Read + Drop>(opened: F, buffer: &mut [u8]) -> io::Result<usize>
    ensures { IfOk result (λ n. n ≤ length buffer.old) }
{
    let mut from = opened;
    let input = input::read_whole(&mut from, buffer).map_err(|cut| cut.error)?;
    Ok(input.length)
}

// The line of a refused plan.
fn tell_refused(out: &impl Print, path: &[u8], refusal: Refusal) -> bool
    requires { length path.now ≤ 4096 }
{
    let mut text = [0u8; TEXT_SIZE];
    let n = write_named(path, refusal.number as u64, refusal.cell as u64, &mut text);
    out.write_all(&text[..n]).is_ok()
}

// The line of a drawing, and the counts with it.
fn tell(out: &impl Print, path: &[u8], plan: &PlanFile, drawing: &[u8], sum: &mut Sitting)
    requires { length path.now ≤ 4096 }
{
    let outcome = mark_drawing(plan.cells.columns, u32::from(plan.allowance), drawing);
    let mut text = [0u8; TEXT_SIZE];
    let n = write_outcome(path, outcome, &mut text);
    let written = out.write_all(&text[..n]).is_ok();
    sum.written = sum.written & written;
    sum.counts = counted(sum.counts, outcome);
}

// Argument number i is marked.
fn marked<R: Env + Files>(
    rt: &R,
    out: &impl Print,
    err: &impl Print,
    plan: &PlanFile,
    i: usize,
    sum: &mut Sitting,
) {
    let mut path = [0u8; 4096];
    let n = input::argument(rt, i, &mut path);
    let mut drawing = [0u8; DRAWING_SIZE];
    match get(rt, &path[..n], &mut drawing) {
        Ok(size) => tell(out, &path[..n], plan, &drawing[..size], sum),
        Err(e) => {
            input::tell_unread(err, &path[..n], e).is_ok();
            sum.read = false;
        }
    }
}

// The counts.
fn tell_counts(out: &impl Print, counts: Counts) -> bool {
    let mut text = [0u8; TEXT_SIZE];
    let n = write_counts(counts, &mut text);
    out.write_all(&text[..n]).is_ok()
}

fn nobody() -> Counts {
    Counts {
        drawings: 0,
        full: 0,
        wide: 0,
        broken: 0,
        refused: 0,
        unread: 0,
    }
}

// The drawings from argument 2 on.
fn sit<R: Env + Files>(
    rt: &R,
    out: &impl Print,
    err: &(impl Print + IsTerminal),
    plan: &PlanFile,
    count: usize,
) -> bool {
    let mut sum = Sitting {
        read: true,
        written: true,
        counts: nobody(),
    };
    for i in 2..count {
        marked(rt, out, err, plan, i, &mut sum);
        tell_progress(err, b"mark", i - 1, count - 2);
    }
    if !sum.read || count < 4 {
        return sum.written;
    }
    let written = tell_counts(out, sum.counts);
    sum.written & written
}

// The plan in these bytes and the drawings; whether each line was written.
fn mark_all<R: Env + Files>(
    rt: &R,
    out: &impl Print,
    err: &(impl Print + IsTerminal),
    path: &[u8],
    file: &[u8],
    count: usize,
) -> bool
    requires { length path.now ≤ 4096 }
{
    match planfile::read(file, MOST_CELLS) {
        Ok(plan) => sit(rt, out, err, &plan, count),
        Err(refusal) => tell_refused(out, path, refusal),
    }
}

fn main(rt: HostRuntime) {
    let out = rt.stdout();
    let err = rt.stderr();
    let count = input::argument_count(&rt);
    if count < 3 {
        err.write_all(b"mark: it takes the plan's file and at least one drawing\n")
            .is_ok();
        return;
    }
    let mut path = [0u8; 4096];
    let n = input::argument(&rt, 1, &mut path);
    let mut file = [0u8; MOST_FILE + 1];
    match get(&rt, &path[..n], &mut file) {
        Ok(size) => {
            if !mark_all(&rt, &out, &err, &path[..n], &file[..size], count) {
                err.write_all(b"mark: the marks could not be written whole\n")
                    .is_ok();
            }
        }
        Err(e) => {
            input::tell_unread(&err, &path[..n], e).is_ok();
        }
    }
}
