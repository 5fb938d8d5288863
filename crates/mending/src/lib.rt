// MENDING (document 02, E11): boxes too narrow for their labels are widened, boxes of depth 0 get depth 1, and a line tells of each cell altered.
#![tactic(auto)]

ghost use Rattle.std.specs.Prelude.{◌≡◌, false, ◌++◌, ◌-◌, ◌≤◌, length, drop, replicate};
ghost use Rattle.plan.specs.Limits.{between, most_file, lines_size};
ghost use Rattle.mending.specs.Mended.{would_get, mended};
ghost use Rattle.mending.specs.Mending.{Mends};

use asking::asked;
use mending_boxes::mend_records;
use mending_lines::put_lines;
use plan::Refusal;
use plan::forms::form_of;
use plan::limits::{LINES_SIZE, MOST_CELLS, MOST_FILE};
use planfile_cursor::trailer;
use planfile_header::formed_refusal;

// The lengths of the mended file and of its lines.
#[derive(Drop)]
pub struct Mended {
    pub file: usize,
    pub lines: usize,
}

// The bytes of a file at the beginning of an output.
fn copy(file: &[u8], out: &mut [u8])
    requires { length file.now ≤ length out.old }
    ensures { out.new ≡ file.now ++ drop (length file.now) out.old }
{
    out[..file.len()].copy_from_slice(file);
}

// The mended file, and zeros after it.
fn mended_copy(file: &[u8]) -> [u8; MOST_FILE]
    requires { between 2 4 (would_get file.now).number ≡ false }
    ensures { result ≡ mended file.now ++ replicate (most_file - length file.now) 0 }
{
    let t = trailer(file);
    let form = form_of(t.mark);
    let size = file.len();
    let mut out = [0u8; MOST_FILE];
    copy(file, &mut out);
    mend_records(
        form,
        file,
        t.begin as usize,
        t.count as usize,
        &mut out[..size],
    );
    out
}

// The mended file and its lines, where Read accepts it; else the refusal that it gets.
fn mend_file(file: &[u8], out: &mut [u8], lines: &mut [u8]) -> Result<Mended, Refusal>
    requires { (between 2 4 (would_get file.now).number ≡ false) × (most_file ≤ length out.old) × (lines_size ≤ length lines.old) }
    ensures { Mends file.now out.old out.new lines.old lines.new result }
{
    let size = file.len();
    let bytes = mended_copy(file);
    planfile::read(&bytes[..size], MOST_CELLS)?;
    copy(&bytes[..size], out);
    let t = trailer(file);
    let form = form_of(t.mark);
    let length = put_lines(form, file, t.begin as usize, t.count as usize, lines);
    Ok(Mended {
        file: size,
        lines: length,
    })
}

// Mend: the mended file and its lines into two outputs, and their lengths; or the refusal. A file that 2 to 4 refuse is not altered.
pub fn mend(file: &[u8], out: &mut [u8], lines: &mut [u8]) -> Result<Mended, Refusal>
    ensures { Mends file.now out.old out.new lines.old lines.new result }
{
    let long = (MOST_FILE <= out.len()) & (LINES_SIZE <= lines.len());
    asked(1, long, 0)?;
    formed_refusal(file)?;
    mend_file(file, out, lines)
}
