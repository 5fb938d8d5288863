// The structs of which the definitions of a plan file speak.
#![tactic(auto)]

use plan::Lettered;

// What the last 8 bytes of a file say.
#[derive(Clone, Copy, Drop)]
pub struct Trailer {
    pub begin: u16,
    pub count: u16,
    pub allowance: u16,
    pub mark: u16,
}

// A plan that was read: the allowance, and the records in columns, zeros after them.
#[derive(Clone, Copy, Drop)]
pub struct PlanFile {
    pub allowance: u16,
    pub cells: Lettered,
}

// The bytes of a file from start to end.
#[derive(Clone, Copy, Drop)]
pub struct Part {
    pub start: usize,
    pub end: usize,
}
