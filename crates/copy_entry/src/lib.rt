// COPY, over lent records and label bytes. It asks nothing of its caller.
#![tactic(auto)]

ghost use Rattle.copying.specs.Copied.{Copies};

use plan::{Record, Refusal};
use records::lettered_of;

// Copy: the clean copy of a table with its label bytes, at an allowance, is written into the output; its length, or the refusal.
pub fn copy(
    table: &[Record],
    labels: &[u8],
    allowance: u32,
    out: &mut [u8],
) -> Result<usize, Refusal>
    ensures { Copies table.now labels.now allowance out.old out.new result }
{
    let t = lettered_of(table);
    copying::copy(&t, labels, allowance, out)
}
