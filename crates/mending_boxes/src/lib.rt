// One record's box: whether it is mended, and to what; the bytes of its width and depth; and those of all records.
#![tactic(auto)]

ghost use Rattle.std.specs.Prelude.{◌≡◌, ◌+◌, ◌*◌, ◌≤◌, ◌<◌, length};
ghost use Rattle.plan.specs.Limits.{most_cells};
ghost use Rattle.plan.specs.Forms.{record_size};
ghost use Rattle.planfile_spec.specs.Fields.{«set_pair», set_number, width_place, depth_place};
ghost use Rattle.planfile_spec.specs.Format.{record_at};
ghost use Rattle.mending_boxes.specs.Boxes.{least_width, mendable, cramped, shallow, changed, new_width, new_depth};
ghost use Rattle.mending_boxes.specs.Raised.{raise_width, raise_depth, mend_record, mend_records};

use plan::Record;
use plan::forms::Form;
use plan::kinds::{about, known};
use plan::limits::MOST_LABEL;
use planfile_cursor::{Cursor, place};

// A cell whose kind is unknown or whose label is over 40 bytes is not altered.
fn mendable(kind: u8, size: u8) -> bool
    ensures { result ≡ mendable kind size }
{
    known(kind) & (size <= MOST_LABEL)
}

// Label length plus border; 0 of an unknown kind.
fn least_width(kind: u8, size: u8) -> u16
    ensures { result ≡ least_width kind size }
{
    match about(kind) {
        Some(k) => u16::from(size) + u16::from(k.border),
        None => 0,
    }
}

// A box too narrow for its label.
pub fn cramped(kind: u8, size: u8, width: u16) -> bool
    ensures { result ≡ cramped kind size width }
{
    mendable(kind, size) & (width < least_width(kind, size))
}

// A box of depth 0.
pub fn shallow(kind: u8, size: u8, depth: u8) -> bool
    ensures { result ≡ shallow kind size depth }
{
    mendable(kind, size) & (depth == 0)
}

// Whether a record's box is altered.
pub fn changed(r: Record) -> bool
    ensures { result ≡ changed r }
{
    cramped(r.kind, r.label_length, r.width) | shallow(r.kind, r.label_length, r.depth)
}

// The width of a box after mending.
pub fn new_width(r: Record) -> u16
    ensures { result ≡ new_width r }
{
    if cramped(r.kind, r.label_length, r.width) {
        return least_width(r.kind, r.label_length);
    }
    r.width
}

// Its depth.
pub fn new_depth(r: Record) -> u8
    ensures { result ≡ new_depth r }
{
    if shallow(r.kind, r.label_length, r.depth) {
        return 1;
    }
    r.depth
}

// A number of two bytes, the low one first.
fn put_pair(out: &mut [u8], at: usize, value: u16)
    requires { at + 2 ≤ length out.old }
    ensures { out.new ≡ set_pair out.old at value }
{
    out[at] = (value % 256) as u8;
    out[at + 1] = (value / 256) as u8;
}

// The width of the record at a place.
fn put_width(form: Form, out: &mut [u8], at: usize, width: u16)
    requires { (width < 256) × (at + record_size form ≤ length out.old) }
    ensures { out.new ≡ set_number (width_place form) out.old at width }
{
    match form {
        Form::Old => out[at + 3] = width as u8,
        Form::Wide => put_pair(out, at + 4, width),
    }
}

// Its depth.
fn put_depth(form: Form, out: &mut [u8], at: usize, depth: u8)
    requires { at + record_size form ≤ length out.old }
    ensures { out.new ≡ set_number (depth_place form) out.old at depth }
{
    match form {
        Form::Old => out[at + 4] = depth,
        Form::Wide => out[at + 3] = depth,
    }
}

// A width that is too narrow is raised; no other byte is written.
pub fn raise_width(form: Form, r: Record, out: &mut [u8], at: usize)
    requires { at + record_size form ≤ length out.old }
    ensures { out.new ≡ raise_width form at r out.old }
{
    if cramped(r.kind, r.label_length, r.width) {
        put_width(form, out, at, least_width(r.kind, r.label_length));
    }
}

// A depth of 0 is raised to 1.
pub fn raise_depth(form: Form, r: Record, out: &mut [u8], at: usize)
    requires { at + record_size form ≤ length out.old }
    ensures { out.new ≡ raise_depth form at r out.old }
{
    if shallow(r.kind, r.label_length, r.depth) {
        put_depth(form, out, at, 1);
    }
}

// The record of the file at a place, mended in the output there.
fn mend_record(form: Form, file: &[u8], out: &mut [u8], at: usize)
    requires { (at + record_size form ≤ length file.now) × (at + record_size form ≤ length out.old) }
    ensures { out.new ≡ mend_record form at (record_at form file.now at) out.old }
{
    let cursor = Cursor { at };
    let entry = cursor.entry(file, form);
    let r = entry.fields;
    raise_width(form, r, out, at);
    raise_depth(form, r, out, at);
}

// The n records from begin on.
pub fn mend_records(form: Form, file: &[u8], begin: usize, n: usize, out: &mut [u8])
    requires { (n ≤ most_cells) × (begin + record_size form * n ≤ length file.now) × (length out.old ≡ length file.now) }
    ensures { out.new ≡ mend_records form begin (λ c. record_at form file.now (begin + record_size form * c)) out.old n }
{
    for c in 0..n {
        mend_record(form, file, out, place(form, begin, c));
    }
}
