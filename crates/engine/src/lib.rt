// THE CALLS, over lent memory, each from the crate that proves it: no call asks anything of its caller.
#![tactic(auto)]

pub use copy_entry::copy;
pub use drill_entry::drill;
pub use frame_entry::frame;
pub use join_entry::join;
pub use label_entry::{label, label_refusal};
pub use layout_entry::layout;
pub use mark_entry::mark;
pub use mending::mend;
pub use printing::list;
pub use read_entry::{ReadPlan, read};
pub use sheet_entry::{check, ends};
pub use strip_entry::strip;
