// TWO PLAN FILES JOINED (document 02, E10): the second plan hung under a cell of the first, written as a clean copy into a lent output.
#![tactic(auto)]

ghost use Rattle.std.specs.Prelude.{◌≡◌, ◌++◌, ◌+◌, ◌≤◌, length, get_or};
ghost use Rattle.plan.specs.Limits.{most_file};
ghost use Rattle.planfile_spec.specs.Read.{reading};
ghost use Rattle.planfile_spec.specs.Reading.{column};
ghost use Rattle.content.specs.Content.{letters_of};
ghost use Rattle.join_file_spec.specs.Joined.{JoinsFiles};
ghost use Rattle.join_file.specs.Steps.{Ended, Read, Movable, Shiftable, shifted, Writes};

use asking::asked;
use copying::copy;
use decimals::put_text;
use join_file_spec::JoinError;
use plan::Lettered;
use plan::limits::{MOST_CELLS, MOST_FILE};
use planfile_cursor::trailer;
use planfile_spec::PlanFile;

// Label bytes of two files, at most.
const LETTERS_SIZE: usize = 2 * MOST_FILE;

// The label bytes of a file that Read accepts.
fn letters(file: &[u8]) -> &[u8]
    requires { Ended file.now }
    ensures { result.now ≡ letters_of file.now }
{
    let end = trailer(file);
    let begin = end.begin as usize;
    &file[..begin]
}

// Where the first n labels of the second plan stand, behind those of the first.
fn moved_starts(starts: &[u16; MOST_CELLS], by: usize, n: usize) -> [u16; MOST_CELLS]
    requires { Movable starts.now by n }
    ensures { result ≡ column (λ i. by + get_or starts.now i 0) n }
{
    let mut all = [0u16; MOST_CELLS];
    for i in 0..n {
        all[i] = (by as u16) + starts[i];
    }
    all
}

// The columns of a plan that was read, each label so many bytes on.
fn shift(plan: &PlanFile, by: usize) -> Lettered
    requires { Shiftable (reading plan.now) by }
    ensures { result ≡ shifted by (reading plan.now) }
{
    let t = plan.cells;
    Lettered {
        columns: t.columns,
        label_length: t.label_length,
        label_start: moved_starts(&t.label_start, by, t.columns.count),
    }
}

// The clean copy of a joined plan, with the label bytes of both.
fn write(
    t: &Lettered,
    allowance: u16,
    first: &[u8],
    second: &[u8],
    out: &mut [u8],
) -> Result<usize, JoinError>
    requires { (length first.now ≤ most_file) × (length second.now ≤ most_file) }
    ensures { Writes t.now (first.now ++ second.now) allowance out.old out.new result }
{
    let mut both = [0u8; LETTERS_SIZE];
    let at = put_text(first, &mut both, 0);
    let end = put_text(second, &mut both, at);
    let length = copy(t, &both[..end], u32::from(allowance), out)?;
    Ok(length)
}

// Two plans that Read gave, joined and written.
fn hang(
    a: &PlanFile,
    first: &[u8],
    cell: usize,
    b: &PlanFile,
    second: &[u8],
    out: &mut [u8],
) -> Result<usize, JoinError>
    requires { Read (reading a.now) first.now × Read (reading b.now) second.now × (most_file ≤ length out.old) }
    ensures { JoinsFiles first.now cell second.now out.old out.new result }
{
    let top = letters(first);
    let below = letters(second);
    let moved = shift(b, top.len());
    let joined = grafting::join(&a.cells, &moved, cell, MOST_CELLS)?;
    write(&joined, a.allowance, top, below, out)
}

// The join of two plan files: the length of the joined file, which stands in the output; or a refusal, and the output is as it was.
pub fn join_files(
    first: &[u8],
    cell: usize,
    second: &[u8],
    out: &mut [u8],
) -> Result<usize, JoinError>
    ensures { JoinsFiles first.now cell second.now out.old out.new result }
{
    asked(1, MOST_FILE <= out.len(), 0)?;
    let a = match planfile::read(first, MOST_CELLS) {
        Ok(plan) => plan,
        Err(refusal) => return Err(JoinError::FirstRefused(refusal)),
    };
    let b = match planfile::read(second, MOST_CELLS) {
        Ok(plan) => plan,
        Err(refusal) => return Err(JoinError::SecondRefused(refusal)),
    };
    hang(&a, first, cell, &b, second, out)
}
