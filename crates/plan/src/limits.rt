// The limits of document 01, each named once.
ghost use Rattle.std.specs.Prelude.{◌≡◌};
ghost use Rattle.plan.specs.Limits.{between};

// Cells of a table (question 4).
pub const MOST_CELLS: usize = 256;

// W and D of a box (question 8): W in the old form of the file, and in the wide one and in tables.
pub const OLD_WIDTH: u16 = 255;

pub const MOST_WIDTH: u16 = 1023;

pub const MOST_DEPTH: u16 = 15;

// Children of a parent (question 11).
pub const MOST_CHILDREN: u8 = 16;

// Edges to the root (question 12), and the last row that a box may reach (13).
pub const MOST_LEVEL: u16 = 31;

pub const LAST_ROW: u16 = 255;

// The allowance (14), and a coordinate, either way (15).
pub const MOST_ALLOWANCE: u32 = 65535;

pub const FARTHEST: u32 = 262143;

// Numbers of 32 bits in Layout's scratch (1).
pub const SCRATCH_SIZE: usize = 16384;

// Bytes of an output for a listing (1): more than the longest has.
pub const LISTING_SIZE: usize = 17408;

// Bytes of an output for the lines of a mended file (1): 24 a cell, more than the longest line has.
pub const LINES_SIZE: usize = 6144;

// The parent of the root (6).
pub const NO_PARENT: u16 = 65535;

// Bytes of a file (2), of a record in either form and of the trailer (4), and the marks, low byte first (3).
pub const LEAST_FILE: usize = 16;

pub const MOST_FILE: usize = 16384;

pub const OLD_SIZE: usize = 8;

pub const WIDE_SIZE: usize = 10;

pub const TRAILER_SIZE: usize = 8;

pub const OLD_MARK: u16 = 0x5453;

pub const WIDE_MARK: u16 = 0x5553;

// A label's bytes (5) and length (9).
pub const FIRST_LETTER: u8 = 32;

pub const LAST_LETTER: u8 = 126;

pub const MOST_LABEL: u8 = 40;

// Steps that a drill records (1), and its answer bytes (21).
pub const MOST_STEPS: usize = 4096;

pub const MOST_ANSWERS: usize = 4096;

// Numbers of 32 bits in the second scratch of a sheet that is being made (1).
pub const SECOND_SIZE: usize = 1024;

// From low to high, both included.
pub fn between(low: u16, high: u16, n: u16) -> bool
    ensures { result ≡ between low high n }
{
    if n < low {
        return false;
    }
    n <= high
}
