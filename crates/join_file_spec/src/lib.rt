// The failure of which the definitions of a joined plan file speak.
#![tactic(auto)]

ghost use Rattle.std.specs.Prelude.{◌≡◌};
ghost use Rattle.join_file_spec.specs.declared.JoinError.TheVariants.{Refused};

use plan::Refusal;

// Why two plan files are not joined: Read refuses the first file, or the second, or the join is refused.
#[derive(Clone, Copy, Drop)]
pub enum JoinError {
    FirstRefused(Refusal),
    SecondRefused(Refusal),
    Refused(Refusal),
}

impl From<Refusal> for JoinError {
    ghost from_gives = { λ r e. e ≡ Refused r };

    fn from(refusal: Refusal) -> JoinError {
        JoinError::Refused(refusal)
    }
}
