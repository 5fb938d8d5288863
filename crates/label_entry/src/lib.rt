// LABEL, over a lent file. It asks nothing of its caller.
#![tactic(auto)]

ghost use Rattle.std.specs.Prelude.{◌≡◌};
ghost use Rattle.plan.specs.Questions.{passed};
ghost use Rattle.planfile_spec.specs.Reading.{label_refusal};
ghost use Rattle.label_entry.specs.Label.{Labels};

use plan::Refusal;

// Label: a cell's label, as that part of the file's own bytes; refused, the empty part at byte 0.
pub fn label(file: &[u8], cell: usize) -> &[u8]
    ensures { Labels file.entry cell result }
{
    planfile::label(file, cell)
}

// Why Label refuses.
pub fn label_refusal(file: &[u8], cell: usize) -> Result<(), Refusal>
    ensures { result ≡ passed (label_refusal file.now cell) }
{
    planfile::label_refusal(file, cell)
}
