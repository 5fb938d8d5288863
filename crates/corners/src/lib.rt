// Where the boxes of a drawn sheet stand: the numbers of lent positions moved up by 262,143, so that none is negative, and the least x among them.
#![tactic(auto)]

ghost use Rattle.std.specs.Prelude.{◌≡◌, ◌+◌, ◌≤◌};
ghost use Rattle.plan.specs.Limits.{farthest, most_cells};
ghost use Rattle.plan.specs.Near.{Near};
ghost use Rattle.corners.specs.Corners.{Spot, x_up, y_up, Leftmost};

use plan::limits::FARTHEST;
use whole::raise_at;

// x of a cell, moved up.
pub fn x_of(positions: &[i32], c: usize) -> u32
    requires { Spot positions.now c }
    ensures { (result ≡ x_up positions.now c) × (result ≤ farthest + farthest) }
{
    raise_at(positions, 2 * c, FARTHEST)
}

// y of a cell, moved up.
pub fn y_of(positions: &[i32], c: usize) -> u32
    requires { Spot positions.now c }
    ensures { (result ≡ y_up positions.now c) × (result ≤ farthest + farthest) }
{
    raise_at(positions, 2 * c + 1, FARTHEST)
}

// The least x of n cells, moved up.
pub fn least_x(positions: &[i32], n: usize) -> u32
    requires { (1 ≤ n) × (n ≤ most_cells) × Near positions.now n }
    ensures { Leftmost positions.now n result }
{
    let mut low = raise_at(positions, 0, FARTHEST);
    for c in 0..n {
        low = low.min(x_of(positions, c));
    }
    low
}
