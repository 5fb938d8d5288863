// The two forms of a plan file, told apart by its mark.
ghost use Rattle.std.specs.Prelude.{◌≡◌};
ghost use Rattle.plan.specs.Forms.{marked, «form_of», record_size, widest};

use crate::limits::{MOST_WIDTH, OLD_MARK, OLD_SIZE, OLD_WIDTH, WIDE_MARK, WIDE_SIZE};

#[derive(Clone, Copy, Drop)]
pub enum Form {
    Old,
    Wide,
}

// Question 3.
pub fn marked(mark: u16) -> bool
    ensures { result ≡ marked mark }
{
    if mark == OLD_MARK {
        return true;
    }
    mark == WIDE_MARK
}

pub fn form_of(mark: u16) -> Form
    ensures { result ≡ form_of mark }
{
    if mark == WIDE_MARK {
        return Form::Wide;
    }
    Form::Old
}

// Bytes of a record (question 4).
pub fn record_size(form: Form) -> usize
    ensures { result ≡ record_size form }
{
    match form {
        Form::Old => OLD_SIZE,
        Form::Wide => WIDE_SIZE,
    }
}

// The greatest W (question 8).
pub fn widest(form: Form) -> u16
    ensures { result ≡ widest form }
{
    match form {
        Form::Old => OLD_WIDTH,
        Form::Wide => MOST_WIDTH,
    }
}
