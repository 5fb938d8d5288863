// The labels and the trailer of a plan file, written at a place, with the next place handed back; and the form that a plan takes.
#![tactic(auto)]

ghost use Rattle.std.specs.Prelude.{◌≡◌, [], ◌&&◌, ◌+◌, ◌*◌, ◌≤◌, leb, eqb, length};
ghost use Rattle.plan.specs.Limits.{most_cells, most_label, old_width};
ghost use Rattle.content.specs.Clean.{«mark_of», two};
ghost use Rattle.copying_records.specs.Parts.{Put, Texts, form_to, labels_to};

use copying_records::put_pair;
use listing::put::put_text;
use plan::forms::Form;
use plan::limits::{OLD_MARK, OLD_WIDTH, WIDE_MARK};
use plan::{Columns, Lettered};
use planfile_spec::Trailer;

// The labels, in cell order, back to back.
pub fn put_labels(t: &Lettered, letters: &[u8], out: &mut [u8]) -> usize
    requires { Texts t.now.label_length t.now.label_start t.now.columns.count (length letters.now) × (most_label * 256 ≤ length out.old) }
    ensures { Put out.old 0 (labels_to t.now.label_length t.now.label_start letters.now t.now.columns.count) out.new result }
{
    let mut at = 0;
    for c in 0..t.columns.count {
        let start = usize::from(t.label_start[c]);
        let size = usize::from(t.label_length[c]);
        let label = &letters[start..start + size];
        at = put_text(label, out, at);
    }
    at
}

// The trailer.
pub fn put_trailer(t: Trailer, out: &mut [u8], at: usize) -> usize
    requires { at + 8 ≤ length out.old }
    ensures { Put out.old at (two t.begin (two t.count (two t.allowance (two t.mark [])))) out.new result }
{
    let a = put_pair(t.begin, out, at);
    let b = put_pair(t.count, out, a);
    let c = put_pair(t.allowance, out, b);
    put_pair(t.mark, out, c)
}

// Whether the old form can hold a box of this width and rank.
fn narrow(width: u16, rank: u8) -> bool
    ensures { result ≡ leb width old_width && eqb rank 0 }
{
    (width <= OLD_WIDTH) & (rank == 0)
}

// The form that a plan takes.
pub fn form_for(t: &Columns) -> Form
    requires { t.now.count ≤ most_cells }
    ensures { result ≡ form_to t.now.width t.now.rank t.now.count }
{
    let mut good = true;
    for c in 0..t.count {
        good = good & narrow(t.width[c], t.rank[c]);
    }
    if good { Form::Old } else { Form::Wide }
}

pub fn mark_of(form: Form) -> u16
    ensures { result ≡ mark_of form }
{
    match form {
        Form::Old => OLD_MARK,
        Form::Wide => WIDE_MARK,
    }
}
