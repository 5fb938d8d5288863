// WHAT THE PROGRAM `join` PRINTS: nothing where the joined file is written, else one line, the refusal, and before it which of the two plans was refused.
#![tactic(auto)]

ghost use Rattle.std.specs.Prelude.{◌++◌, ◌≤◌, length, Err};
ghost use Rattle.listing.specs.Printed.{refused_line};
ghost use Rattle.listing.specs.Put.{Put};
ghost use Rattle.join_text.specs.JoinText.{join_text, join_size};

use decimals::{put_refused, put_text};
use join_file_spec::JoinError;
use plan::Refusal;

// Bytes of an output that holds every text.
pub const JOIN_SIZE: usize = 64;

// A word and a space, and the line of a refusal.
fn put_named(word: &[u8], refusal: Refusal, out: &mut [u8]) -> usize
    requires { (length word.now ≤ 8) × (join_size ≤ length out.old) }
    ensures { Put out.old 0 (word.now ++ refused_line refusal.number refusal.cell) out.new result × (result ≤ join_size) }
{
    let at = put_text(word, out, 0);
    put_refused(u64::from(refusal.number), u64::from(refusal.cell), out, at)
}

// The text of a refusal.
fn put_error(error: JoinError, out: &mut [u8]) -> usize
    requires { join_size ≤ length out.old }
    ensures { Put out.old 0 (join_text (Err error)) out.new result × (result ≤ join_size) }
{
    match error {
        JoinError::FirstRefused(refusal) => put_named(b"first ", refusal, out),
        JoinError::SecondRefused(refusal) => put_named(b"second ", refusal, out),
        JoinError::Refused(refusal) => put_named(b"", refusal, out),
    }
}

// The text of an answer, into an output that is long enough: its length.
pub fn write_join(answer: Result<usize, JoinError>, out: &mut [u8]) -> usize
    requires { join_size ≤ length out.old }
    ensures { Put out.old 0 (join_text answer) out.new result × (result ≤ join_size) }
{
    match answer {
        Ok(_) => 0,
        Err(error) => put_error(error, out),
    }
}
