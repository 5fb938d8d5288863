// All the questions put to a file, and the plan.
ghost use Rattle.std.specs.Prelude.{◌≡◌};
ghost use Rattle.planfile_spec.specs.Read.{answer_of};
ghost use Rattle.planfile_spec.specs.FileSteps.{examined};

use plan::Refusal;
use plan::forms::form_of;
use planfile_body::{body_refusal, records};
use planfile_cursor::trailer;
use planfile_header::header_refusal;
use planfile_spec::PlanFile;

// Questions 2 to 14, and the plan where none refuses it.
pub fn examined(file: &[u8]) -> Result<PlanFile, Refusal>
    ensures { result ≡ answer_of (examined file.now) }
{
    header_refusal(file)?;
    let t = trailer(file);
    let begin = t.begin as usize;
    let form = form_of(t.mark);
    let plan = records(file, form, begin, t.count as usize, t.allowance);
    body_refusal(&plan, form, begin)?;
    Ok(plan)
}
