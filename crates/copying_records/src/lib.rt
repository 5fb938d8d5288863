// The records of a plan file, written from columns: each at a place, and the next place handed back.
#![tactic(auto)]

ghost use Rattle.std.specs.Prelude.{◌∷◌, [], ◌+◌, ◌*◌, ◌≤◌, length};
ghost use Rattle.plan.specs.Limits.{old_width};
ghost use Rattle.plan.specs.Forms.{record_size};
ghost use Rattle.content.specs.Clean.{record_bytes, two};
ghost use Rattle.copying_records.specs.Parts.{Put, Holds, Rows, records_to};

use listing::put::put_byte;
use plan::forms::Form;
use plan::{Lettered, Record};

// A number of two bytes, the low one first.
pub fn put_pair(n: u16, out: &mut [u8], at: usize) -> usize
    requires { at + 2 ≤ length out.old }
    ensures { Put out.old at (two n []) out.new result }
{
    let high = put_byte((n % 256) as u8, out, at);
    put_byte((n / 256) as u8, out, high)
}

// A record of the old form.
fn put_old(r: Record, out: &mut [u8], at: usize) -> usize
    requires { (r.width ≤ old_width) × (at + 8 ≤ length out.old) }
    ensures { Put out.old at (two r.parent (r.kind ∷ r.width ∷ r.depth ∷ r.label_length ∷ two r.label_start [])) out.new result }
{
    let a = put_pair(r.parent, out, at);
    let b = put_byte(r.kind, out, a);
    let c = put_byte(r.width as u8, out, b);
    let d = put_byte(r.depth, out, c);
    let e = put_byte(r.label_length, out, d);
    put_pair(r.label_start, out, e)
}

// A record of the wide form.
fn put_wide(r: Record, out: &mut [u8], at: usize) -> usize
    requires { at + 10 ≤ length out.old }
    ensures { Put out.old at (two r.parent (r.kind ∷ r.depth ∷ two r.width (r.label_length ∷ r.rank ∷ two r.label_start []))) out.new result }
{
    let a = put_pair(r.parent, out, at);
    let b = put_byte(r.kind, out, a);
    let c = put_byte(r.depth, out, b);
    let d = put_pair(r.width, out, c);
    let e = put_byte(r.label_length, out, d);
    let f = put_byte(r.rank, out, e);
    put_pair(r.label_start, out, f)
}

// A record of either form.
fn put_record(form: Form, r: Record, out: &mut [u8], at: usize) -> usize
    requires { Holds form r.width × (at + record_size form ≤ length out.old) }
    ensures { Put out.old at (record_bytes form r) out.new result }
{
    match form {
        Form::Old => put_old(r, out, at),
        Form::Wide => put_wide(r, out, at),
    }
}

// The records, each label beginning where the one before ends.
pub fn put_records(form: Form, t: &Lettered, out: &mut [u8], begin: usize) -> usize
    requires { Rows form t.now.columns.width t.now.label_length t.now.columns.count × (begin + 10 * 256 ≤ length out.old) }
    ensures { Put out.old begin (records_to form t.now.columns.parent t.now.columns.kind t.now.columns.width t.now.columns.depth t.now.columns.rank t.now.label_length t.now.columns.count) out.new result }
{
    let mut at = begin;
    let mut start: usize = 0;
    for c in 0..t.columns.count {
        let r = Record {
            parent: t.columns.parent[c],
            kind: t.columns.kind[c],
            rank: t.columns.rank[c],
            width: t.columns.width[c],
            depth: t.columns.depth[c],
            label_length: t.label_length[c],
            label_start: start as u16,
        };
        at = put_record(form, r, out, at);
        start = start + usize::from(t.label_length[c]);
    }
    at
}
