// Whole numbers become natural ones here, moved up so that none is negative, and differences of natural numbers whole ones.
#![tactic(auto)]

ghost use Rattle.std.specs.Prelude.{◌≡◌, ◌<◌, ◌^◌, length, get_or, pos, ◌-ℤ◌};
ghost use Rattle.whole.specs.Bias.{bias};
ghost use Rattle.whole.specs.Range.{in_range, InRange};

// Whether x lies from −far to far.
pub fn within(x: i32, far: u32) -> bool
    requires { far < 2 ^ 30 }
    ensures { result ≡ in_range far x }
{
    let high = far as i32;
    if x < 0 - high {
        return false;
    }
    if high < x {
        return false;
    }
    true
}

// x + by, for an x from −by to by.
pub fn raise(x: i32, by: u32) -> u32
    requires { (by < 2 ^ 30) × InRange by x }
    ensures { result ≡ bias by x }
{
    (x + (by as i32)) as u32
}

// The same of the number at a place of a slice.
pub fn raise_at(xs: &[i32], i: usize, by: u32) -> u32
    requires { (i < length xs.now) × (by < 2 ^ 30) × InRange by (get_or xs.now i (pos 0)) }
    ensures { result ≡ bias by (get_or xs.now i (pos 0)) }
{
    raise(xs[i], by)
}

// a − b.
pub fn difference(a: u32, b: u32) -> i32
    requires { (a < 2 ^ 31) × (b < 2 ^ 31) }
    ensures { result ≡ pos a -ℤ pos b }
{
    (a as i32) - (b as i32)
}
