// What Mark answers of a drawing.
#![tactic(auto)]

use plan::{Breach, Measures};

// Full marks; or wide, with the least width that there is; or broken.
#[derive(Clone, Copy, Drop)]
pub enum Marked {
    Full(Measures),
    Wide(Measures, u32),
    Broken(Breach),
}
