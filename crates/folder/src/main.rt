// folder FILE..: the report of the plans in these files together, `word number` a line, on standard output; before it a line for each file that is refused, its name and `refused N C`.
// One byte more than a plan file may have is read, so that a longer one is refused. More than 1,024 plans: `refused 4 0` in the report's place. A file that cannot be read is told on standard error, and then there is no report, since it would not be that of the folder.
#![tactic(auto)]

ghost use Rattle.std.specs.Prelude.{◌≤◌, length};

use decimals::put_refused;
use plan::Refusal;
use plan::limits::{MOST_CELLS, MOST_FILE, SCRATCH_SIZE};
use progress::tell_progress;
use season::Report;
use std::io;
use std::rt::{Env, Files};
use summary::{write_named, write_report};

// Bytes of a line's or a report's buffer: a path of 4,096 and a refusal; a report has at most 240.
const TEXT_SIZE: usize = 4352;

// The folder so far: whether each file could be read and each line written, and its report.
#[derive(Drop)]
struct Sum {
    read: bool,
    written: bool,
    total: Result<Report, Refusal>,
}

// The report of the plan in these bytes.
fn reported(file: &[u8]) -> Result<Report, Refusal> {
    let mut scratch = [0u32; SCRATCH_SIZE];
    let mut positions = [0i32; 2 * MOST_CELLS];
    let draft = reporting::report(file, MOST_CELLS, &mut scratch, &mut positions)?;
    Ok(draft.report)
}

// What is answered for a file. For one that cannot be read it is nothing.
fn answered<R: Files>(rt: &R, path: &[u8]) -> io::Result<Result<Report, Refusal>> {
    let mut from = input::open(rt, path)?;
    let mut file = [0u8; MOST_FILE + 1];
    let input = input::read_whole(&mut from, &mut file).map_err(|cut| cut.error)?;
    Ok(reported(&file[..input.length]))
}

// The line of a file that is refused.
fn tell_refused(out: &impl Print, path: &[u8], no: Refusal) -> io::Result<()>
    requires { length path.now ≤ 4096 }
{
    let mut text = [0u8; TEXT_SIZE];
    let n = write_named(path, u64::from(no.number), u64::from(no.cell), &mut text);
    out.write_all(&text[..n])
}

// That there are too many plans.
fn tell_many(out: &impl Print, no: Refusal) -> io::Result<()> {
    let mut text = [0u8; TEXT_SIZE];
    let n = put_refused(u64::from(no.number), u64::from(no.cell), &mut text, 0);
    out.write_all(&text[..n])
}

// The report of all, or that they are too many.
fn tell_report(out: &impl Print, total: Result<Report, Refusal>) -> io::Result<()> {
    match total {
        Ok(report) => {
            let mut text = [0u8; TEXT_SIZE];
            let n = write_report(report, &mut text);
            out.write_all(&text[..n])
        }
        Err(no) => tell_many(out, no),
    }
}

// Argument number i is added.
fn add<R: Env + Files>(rt: &R, out: &impl Print, err: &impl Print, sum: &mut Sum, i: usize) {
    let mut path = [0u8; 4096];
    let n = input::argument(rt, i, &mut path);
    let path = &path[..n];
    match answered(rt, path) {
        Ok(answer) => {
            if let Err(no) = answer {
                sum.written &= tell_refused(out, path, no).is_ok();
            }
            sum.total = season::add(sum.total, answer);
        }
        Err(error) => {
            input::tell_unread(err, path, error).is_ok();
            sum.read = false;
        }
    }
}

fn main(rt: HostRuntime) {
    let out = rt.stdout();
    let err = rt.stderr();
    let count = input::argument_count(&rt);
    let mut sum = Sum {
        read: true,
        written: true,
        total: Ok(season::nothing()),
    };
    for i in 1..count {
        add(&rt, &out, &err, &mut sum, i);
        tell_progress(&err, b"folder", i, count - 1);
    }
    if !sum.read {
        return;
    }
    let written = tell_report(&out, sum.total).is_ok();
    if !(sum.written & written) {
        err.write_all(b"folder: the report could not be written whole\n")
            .is_ok();
    }
}
