// The bytes of a plan file: a number, a record, the trailer. The reading place: each field that is read moves it on and hands it back.
#![tactic(auto)]

ghost use Rattle.std.specs.Prelude.{◌≡◌, ◌+◌, ◌*◌, ◌^◌, ◌≤◌, ◌<◌, length, get_or};
ghost use Rattle.plan.specs.Limits.{most_cells, old_size, wide_size, trailer_size};
ghost use Rattle.plan.specs.Forms.{record_size};
ghost use Rattle.planfile_spec.specs.Fields.{pair};
ghost use Rattle.planfile_spec.specs.Format.{trailer_of, record_at};

use plan::Record;
use plan::forms::{Form, record_size};
use plan::limits::TRAILER_SIZE;
use planfile_spec::Trailer;

#[derive(Drop)]
pub struct Cursor {
    pub at: usize,
}

// A number that was read, and the place after it.
#[derive(Drop)]
pub struct Byte {
    pub value: u8,
    pub next: Cursor,
}

#[derive(Drop)]
pub struct Pair {
    pub value: u16,
    pub next: Cursor,
}

// A record that was read, and the place after it.
#[derive(Drop)]
pub struct Entry {
    pub fields: Record,
    pub next: Cursor,
}

// A number of two bytes.
fn joined(low: u8, high: u8) -> u16
    ensures { result ≡ low + 256 * high }
{
    (low as u16) + 256 * (high as u16)
}

impl Cursor {
    pub fn byte(self, file: &[u8]) -> Byte
        requires { self.at < length file.now }
        ensures { (result.value ≡ get_or file.now self.at 0) × (result.next.at ≡ self.at + 1) }
    {
        let at = self.at;
        Byte {
            value: file[at],
            next: Cursor { at: at + 1 },
        }
    }

    pub fn pair(self, file: &[u8]) -> Pair
        requires { self.at + 2 ≤ length file.now }
        ensures { (result.value ≡ pair file.now self.at) × (result.next.at ≡ self.at + 2) }
    {
        let low = self.byte(file);
        let between = low.next;
        let high = between.byte(file);
        let next = high.next;
        Pair {
            value: joined(low.value, high.value),
            next,
        }
    }

    // A record of the old form.
    fn old_entry(self, file: &[u8]) -> Entry
        requires { self.at + old_size ≤ length file.now }
        ensures { (result.fields ≡ record_at Form.Old file.now self.at) × (result.next.at ≡ self.at + old_size) }
    {
        let parent = self.pair(file);
        let after_parent = parent.next;
        let kind = after_parent.byte(file);
        let after_kind = kind.next;
        let width = after_kind.byte(file);
        let after_width = width.next;
        let depth = after_width.byte(file);
        let after_depth = depth.next;
        let label_length = after_depth.byte(file);
        let after_length = label_length.next;
        let label_start = after_length.pair(file);
        let next = label_start.next;
        let fields = Record {
            parent: parent.value,
            kind: kind.value,
            width: u16::from(width.value),
            depth: depth.value,
            rank: 0,
            label_length: label_length.value,
            label_start: label_start.value,
        };
        Entry { fields, next }
    }

    // A record of the wide form.
    fn wide_entry(self, file: &[u8]) -> Entry
        requires { self.at + wide_size ≤ length file.now }
        ensures { (result.fields ≡ record_at Form.Wide file.now self.at) × (result.next.at ≡ self.at + wide_size) }
    {
        let parent = self.pair(file);
        let after_parent = parent.next;
        let kind = after_parent.byte(file);
        let after_kind = kind.next;
        let depth = after_kind.byte(file);
        let after_depth = depth.next;
        let width = after_depth.pair(file);
        let after_width = width.next;
        let label_length = after_width.byte(file);
        let after_length = label_length.next;
        let rank = after_length.byte(file);
        let after_rank = rank.next;
        let label_start = after_rank.pair(file);
        let next = label_start.next;
        let fields = Record {
            parent: parent.value,
            kind: kind.value,
            width: width.value,
            depth: depth.value,
            rank: rank.value,
            label_length: label_length.value,
            label_start: label_start.value,
        };
        Entry { fields, next }
    }

    // A record of either form.
    pub fn entry(self, file: &[u8], form: Form) -> Entry
        requires { self.at + record_size form ≤ length file.now }
        ensures { (result.fields ≡ record_at form file.now self.at) × (result.next.at ≡ self.at + record_size form) }
    {
        match form {
            Form::Old => self.old_entry(file),
            Form::Wide => self.wide_entry(file),
        }
    }
}

// What the last 8 bytes say.
pub fn trailer(file: &[u8]) -> Trailer
    requires { trailer_size ≤ length file.now }
    ensures { result ≡ trailer_of file.now }
{
    let start = Cursor {
        at: file.len() - TRAILER_SIZE,
    };
    let begin = start.pair(file);
    let after_begin = begin.next;
    let count = after_begin.pair(file);
    let after_count = count.next;
    let allowance = after_count.pair(file);
    let after_allowance = allowance.next;
    let mark = after_allowance.pair(file);
    Trailer {
        begin: begin.value,
        count: count.value,
        allowance: allowance.value,
        mark: mark.value,
    }
}

// Where the record of a cell stands.
pub fn place(form: Form, begin: usize, cell: usize) -> usize
    requires { (cell < most_cells) × (begin + record_size form * cell < 2 ^ 64) }
    ensures { result ≡ begin + record_size form * cell }
{
    begin + record_size(form) * cell
}
