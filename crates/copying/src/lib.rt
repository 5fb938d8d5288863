// THE CLEAN COPY (document 02, E4): a plan file written from columns and label bytes into a lent output.
#![tactic(auto)]

ghost use Rattle.std.specs.Prelude.{◌≡◌, ◌≤◌, ◌<◌, length};
ghost use Rattle.plan.specs.Limits.{most_file};
ghost use Rattle.plan.specs.Questions.{passed};
ghost use Rattle.records.specs.Apart.{records_in};
ghost use Rattle.content.specs.Clean.{copy};
ghost use Rattle.copying_records.specs.Parts.{Put};
ghost use Rattle.copying.specs.Copied.{Copies, Cleans};
ghost use Rattle.copying.specs.Steps.{Ready, lettered_steps};

use asking::{allowance_refusal, asked, counted, tree_refusal};
use copying_parts::{form_for, mark_of, put_labels, put_trailer};
use copying_records::put_records;
use plan::forms::Form;
use plan::limits::{MOST_CELLS, MOST_FILE};
use plan::{Lettered, Refusal};
use planfile_body::records_refusal;
use planfile_cursor::trailer;
use planfile_header::letters_printable;
use planfile_spec::Trailer;

// The file, from the output's first byte on.
fn write(t: &Lettered, letters: &[u8], allowance: u32, out: &mut [u8]) -> usize
    requires { Ready t.now (length letters.now) × (allowance < 65536) × (most_file ≤ length out.old) }
    ensures { Put out.old 0 (copy (records_in t.now) letters.now allowance) out.new result }
{
    let form = form_for(&t.columns);
    let begin = put_labels(t, letters, out);
    let end = put_records(form, t, out, begin);
    let last = Trailer {
        begin: begin as u16,
        count: t.columns.count as u16,
        allowance: allowance as u16,
        mark: mark_of(form),
    };
    put_trailer(last, out, end)
}

// The questions that the writer puts: 1 (output), 4 (n), 5 to 10 (the lent label bytes), 11 to 14.
fn copy_refusal(t: &Lettered, letters: &[u8], allowance: u32, room: usize) -> Result<(), Refusal>
    ensures { result ≡ passed (lettered_steps t.now letters.now allowance room) }
{
    asked(1, MOST_FILE <= room, 0)?;
    asked(4, counted(t.columns.count), 0)?;
    let size = letters.len();
    asked(5, letters_printable(letters, size), 0)?;
    records_refusal(Form::Wide, size, t)?;
    tree_refusal(&t.columns)?;
    allowance_refusal(allowance)
}

// Copy: the questions, then the file; its length. Beyond the file the output stays as it was, and wholly where the plan is refused.
pub fn copy(t: &Lettered, letters: &[u8], allowance: u32, out: &mut [u8]) -> Result<usize, Refusal>
    ensures { Copies (records_in t.now) letters.now allowance out.old out.new result }
{
    copy_refusal(t, letters, allowance, out.len())?;
    Ok(write(t, letters, allowance, out))
}

// The clean copy of a plan file, into an output that is long enough: its length, or the refusal that Read gives.
pub fn clean(file: &[u8], out: &mut [u8]) -> Result<usize, Refusal>
    requires { most_file ≤ length out.old }
    ensures { Cleans file.now out.old out.new result }
{
    let plan = planfile::read(file, MOST_CELLS)?;
    let end = trailer(file);
    let begin = end.begin as usize;
    copy(&plan.cells, &file[..begin], u32::from(plan.allowance), out)
}
