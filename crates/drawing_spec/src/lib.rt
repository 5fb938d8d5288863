// What a drawing as text says, as definitions; of code only the faults that they speak of, and the error of a reader.
#![tactic(auto)]

ghost use Rattle.std.specs.Prelude.{◌≡◌};
ghost use Rattle.drawing_spec.specs.declared.DrawError.TheVariants.{Wrong, Refused};

use plan::Refusal;

// What is wrong with a text. In a line, counted from 1: no three numbers; a number of no cell; a cell that an earlier line gives; an x or y out of bounds. No line for a cell. More than 65,536 bytes.
#[derive(Clone, Copy, Drop)]
pub enum Fault {
    NoNumber(usize),
    NoCell(usize),
    Twice(usize, usize),
    Far(usize),
    Missing(usize),
    Long,
}

// Why a text gives no drawing: what is wrong with it; or a refusal, of more than 256 cells (4) or of not room enough for their positions (1).
#[derive(Clone, Copy, Drop)]
pub enum DrawError {
    Wrong(Fault),
    Refused(Refusal),
}

impl From<Fault> for DrawError {
    ghost from_gives = { λ f e. e ≡ Wrong f };

    fn from(fault: Fault) -> DrawError {
        DrawError::Wrong(fault)
    }
}

impl From<Refusal> for DrawError {
    ghost from_gives = { λ r e. e ≡ Refused r };

    fn from(refusal: Refusal) -> DrawError {
        DrawError::Refused(refusal)
    }
}
