// Questions 2 to 5, put to a file's size, trailer and letters, each answered: nothing, or the refusal.
#![tactic(auto)]

ghost use Rattle.std.specs.Prelude.{◌≡◌, true, false, ◌+◌, ◌*◌, ◌^◌, ◌≤◌, ◌<◌, length, take};
ghost use Rattle.plan.specs.Limits.{between, first_letter, «last_letter», least_file, most_file};
ghost use Rattle.plan.specs.Questions.{every, passed};
ghost use Rattle.planfile_spec.specs.FileSteps.{counted, formed_refusal, header_refusal};

use asking::asked;
use plan::Refusal;
use plan::forms::{Form, form_of, marked, record_size};
use plan::limits::{FIRST_LETTER, LAST_LETTER, LEAST_FILE, MOST_CELLS, MOST_FILE, TRAILER_SIZE};
use planfile_cursor::trailer;

// Question 2.
fn file_sized(size: usize) -> bool
    ensures { result ≡ between least_file most_file size }
{
    (LEAST_FILE <= size) & (size <= MOST_FILE)
}

// Question 4.
fn counted(form: Form, size: usize, begin: usize, n: usize) -> bool
    requires { begin < 2 ^ 16 }
    ensures { result ≡ counted form size begin n }
{
    if n < 1 {
        return false;
    }
    if MOST_CELLS < n {
        return false;
    }
    begin + record_size(form) * n + TRAILER_SIZE == size
}

// Question 5, for one byte.
fn printable(letter: u8) -> bool
    ensures { result ≡ between first_letter last_letter letter }
{
    (FIRST_LETTER <= letter) & (letter <= LAST_LETTER)
}

// Question 5. No way out of the loop, so that the compiler tests many bytes at once.
pub fn letters_printable(file: &[u8], begin: usize) -> bool
    requires { begin ≤ length file.now }
    ensures { result ≡ every (between first_letter last_letter) (take begin file.now) }
{
    let mut good = true;
    for i in 0..begin {
        good = good & printable(file[i]);
    }
    good
}

// Questions 2 to 4.
pub fn formed_refusal(file: &[u8]) -> Result<(), Refusal>
    ensures { result ≡ passed (formed_refusal file.now) }
{
    let size = file.len();
    asked(2, file_sized(size), 0)?;
    let t = trailer(file);
    asked(3, marked(t.mark), 0)?;
    asked(
        4,
        counted(form_of(t.mark), size, t.begin as usize, t.count as usize),
        0,
    )
}

// Questions 2 to 5.
pub fn header_refusal(file: &[u8]) -> Result<(), Refusal>
    ensures { result ≡ passed (header_refusal file.now) }
{
    formed_refusal(file)?;
    let t = trailer(file);
    asked(5, letters_printable(file, t.begin as usize), 0)
}
