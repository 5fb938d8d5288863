// The table of a plan as the code has it, and the questions put to it.
#![tactic(auto)]

use crate::limits::MOST_CELLS;

pub mod forms;
pub mod kinds;
pub mod limits;

// Document 01: "a run of records, one for each cell". The root's parent is 65,535. The rank stands where a byte was unused.
#[repr(C)]
#[derive(Clone, Copy, Drop)]
pub struct Record {
    pub parent: u16,
    pub kind: u8,
    pub rank: u8,
    pub width: u16,
    pub depth: u8,
    pub label_length: u8,
    pub label_start: u16,
}

// The numbers of a table of `count` cells, a column for each field that layout, check and connectors read.
// A table of more than 256 records has its count here, and no numbers: question 4 refuses it.
#[derive(Clone, Copy, Drop)]
pub struct Columns {
    pub count: usize,
    pub parent: [u16; MOST_CELLS],
    pub kind: [u8; MOST_CELLS],
    pub width: [u16; MOST_CELLS],
    pub depth: [u8; MOST_CELLS],
    pub rank: [u8; MOST_CELLS],
}

// The same numbers, with the columns of the two label fields, for calls that take labels along.
#[derive(Clone, Copy, Drop)]
pub struct Lettered {
    pub columns: Columns,
    pub label_length: [u8; MOST_CELLS],
    pub label_start: [u16; MOST_CELLS],
}

// A question's number and the lowest cell at fault. (In the definitions, number 0 says that nothing is refused.)
#[derive(Clone, Copy, Drop)]
pub struct Refusal {
    pub number: u8,
    pub cell: u16,
}

// Width and rows of a sheet.
#[derive(Clone, Copy, Drop)]
pub struct Measures {
    pub width: u32,
    pub rows: u32,
}

// The lowest rule that a placement breaks, and the lowest two boxes at which it does.
#[derive(Clone, Copy, Drop)]
pub struct Breach {
    pub rule: u8,
    pub a: u16,
    pub b: u16,
}

// The page of a plotter, in millimetres: the pitch of the lattice, and both margins.
#[repr(C)]
#[derive(Clone, Copy, Drop)]
pub struct Page {
    pub pitch: f64,
    pub margin_x: f64,
    pub margin_y: f64,
}
