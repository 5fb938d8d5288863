// What Read and Label answer for each case on standard input. A case is three numbers of two bytes, low byte first, and a file:
// the file's length, the length of the table to fill, and the cell whose label is asked for.
#![tactic(auto)]

ghost use Rattle.std.specs.Prelude.{◌<◌};

use planfile_spec::PlanFile;
use std::io;
use std::io::Read;

fn number(low: u8, high: u8) -> usize {
    usize::from(low) + 256 * usize::from(high)
}

// The number of two bytes of a case's head.
fn field(head: &[u8; 6], i: usize) -> usize
    requires { i < 5 }
{
    number(head[i], head[i + 1])
}

// A number, and the byte after it.
fn print(rt: &impl Print, n: u64, after: u8) -> io::Result<()> {
    rt.print(n)?;
    rt.write_all(&[after])
}

// A word, the number and the cell of a refusal, and the byte after them.
fn print_refusal(rt: &impl Print, word: &[u8], number: u8, cell: u16, after: u8) -> io::Result<()> {
    rt.write_all(word)?;
    print(rt, u64::from(number), b' ')?;
    print(rt, u64::from(cell), after)
}

// The numbers of a cell, parent, kind, rank, W, D, its label's length and start, and the label itself.
fn print_record(rt: &impl Print, plan: &PlanFile, file: &[u8], c: usize) -> io::Result<()>
    requires { c < 256 }
{
    let t = &plan.cells.columns;
    print(rt, u64::from(t.parent[c]), b' ')?;
    print(rt, u64::from(t.kind[c]), b' ')?;
    print(rt, u64::from(t.rank[c]), b' ')?;
    print(rt, u64::from(t.width[c]), b' ')?;
    print(rt, u64::from(t.depth[c]), b' ')?;
    print(rt, u64::from(plan.cells.label_length[c]), b' ')?;
    print(rt, u64::from(plan.cells.label_start[c]), b' ')?;
    rt.write_all(planfile::label(file, c))?;
    rt.write_all(b"\n")
}

// The first four records and the one after the last, which is blank.
fn print_plan(rt: &impl Print, plan: &PlanFile, file: &[u8]) -> io::Result<()> {
    let n = plan.cells.columns.count;
    rt.write_all(b"plan ")?;
    print(rt, n as u64, b' ')?;
    print(rt, u64::from(plan.allowance), b'\n')?;
    for c in 0..4 {
        if c <= n {
            print_record(rt, plan, file, c)?;
        }
    }
    Ok(())
}

fn print_reading(rt: &impl Print, file: &[u8], room: usize) -> io::Result<()> {
    match planfile::read(file, room) {
        Ok(plan) => print_plan(rt, &plan, file),
        Err(refusal) => print_refusal(rt, b"refused ", refusal.number, refusal.cell, b'\n'),
    }
}

// The refusal's number and cell, 0 and 0 where there is none, and the label.
fn print_label(rt: &impl Print, file: &[u8], cell: usize) -> io::Result<()> {
    match planfile::label_refusal(file, cell) {
        Ok(()) => print_refusal(rt, b"label ", 0, 0, b' ')?,
        Err(refusal) => print_refusal(rt, b"label ", refusal.number, refusal.cell, b' ')?,
    }
    rt.write_all(planfile::label(file, cell))?;
    rt.write_all(b"\n")
}

// Reads so many bytes; false where the input ends before.
fn filled<F: Read>(from: &mut F, space: &mut [u8], size: usize) -> bool {
    if space.len() < size {
        return false;
    }
    from.read_exact(&mut space[..size]).is_ok()
}

fn print_case(
    rt: &impl Print,
    space: &[u8],
    size: usize,
    room: usize,
    cell: usize,
) -> io::Result<()> {
    if space.len() < size {
        return Ok(());
    }
    let file = &space[..size];
    print_reading(rt, file, room)?;
    print_label(rt, file, cell)
}

// The case with this head; false where the input ends before.
fn answer_to<F: Read>(
    rt: &impl Print,
    from: &mut F,
    head: &[u8; 6],
    space: &mut [u8],
) -> io::Result<bool> {
    let size = field(head, 0);
    if !filled(from, space, size) {
        return Ok(false);
    }
    print_case(rt, space, size, field(head, 2), field(head, 4))?;
    Ok(true)
}

// One case; false where the input has ended.
fn answer<F: Read>(rt: &impl Print, from: &mut F, space: &mut [u8]) -> io::Result<bool> {
    let mut head = [0u8; 6];
    if from.read_exact(&mut head).is_err() {
        return Ok(false);
    }
    answer_to(rt, from, &head, space)
}

fn main(rt: HostRuntime) -> io::Result<()> {
    let mut from = rt.stdin();
    let mut space = [0u8; 16400];
    for _ in 0..500 {
        if !answer(&rt, &mut from, &mut space)? {
            return Ok(());
        }
    }
    Ok(())
}
