// The links that two cells just keep: each rule's distance against the one that they have.
#![tactic(auto)]

ghost use Rattle.std.specs.Prelude.{◌≡◌, ◌^◌, ◌<◌};
ghost use Rattle.plan.specs.Limits.{most_cells};
ghost use Rattle.why_ties.specs.Ties.{appoints, tie2, tie3_ends, tie3_starts, tie4_box, tie4_stem, tie5, rule_of, named, Ready};

use looking_sights::View;

// w's cell is the appointed child of v's cell a.
fn appoints(a: usize, v: View, w: View) -> bool
    requires { a < most_cells }
    ensures { result ≡ appoints a v w }
{
    if w.parent != (a as u32) {
        return false;
    }
    w.nth == v.middle
}

fn tied2(a: usize, b: usize, v: View, w: View) -> bool
    requires { (a < most_cells) × (b < most_cells) }
    ensures { result ≡ tie2 a b v w }
{
    if v.x != w.x {
        return false;
    }
    if appoints(a, v, w) {
        return true;
    }
    appoints(b, w, v)
}

// S3: v ends right before the sibling w, which stands right after one that v is at or below; w, which is at or below the sibling after v, begins right after v.
fn tied3_ends(v: View, w: View) -> bool
    requires { v.right < 2 ^ 31 }
    ensures { result ≡ tie3_ends v w }
{
    if v.right + 1 != w.x {
        return false;
    }
    if v.first < w.from {
        return false;
    }
    v.first < w.first
}

fn tied3_starts(v: View, w: View) -> bool
    requires { v.x < 2 ^ 31 }
    ensures { result ≡ tie3_starts v w }
{
    if v.x + 1 != w.x {
        return false;
    }
    if w.first < v.end {
        return false;
    }
    w.first < v.to
}

// S4: v's box, v's stem, in a row of w's.
fn tied4_box(v: View, w: View) -> bool
    requires { v.right < 2 ^ 31 }
    ensures { result ≡ tie4_box v w }
{
    if v.right + 1 != w.x {
        return false;
    }
    if w.first < v.end {
        return false;
    }
    if w.bottom < v.y {
        return false;
    }
    w.y <= v.base
}

fn tied4_stem(v: View, w: View) -> bool
    requires { v.x < 2 ^ 31 }
    ensures { result ≡ tie4_stem v w }
{
    if v.x + 1 != w.x {
        return false;
    }
    if w.first < v.end {
        return false;
    }
    if v.bottom <= v.base {
        return false;
    }
    if w.bottom <= v.base {
        return false;
    }
    w.y <= v.bottom
}

// S5.
fn tied5(v: View, w: View, allowance: u32) -> bool
    requires { (v.right < 2 ^ 31) × (w.x < 2 ^ 31) × (allowance < 2 ^ 31) }
    ensures { result ≡ tie5 allowance v w }
{
    if v.right + 1 != w.x + allowance {
        return false;
    }
    v.end <= w.first
}

// The lowest rule that asks of a and b just the distance that they have; none where no rule does.
pub fn rule_of(a: usize, b: usize, v: View, w: View, allowance: u32) -> Option<u8>
    requires { Ready a b v w allowance }
    ensures { result ≡ named (rule_of allowance a b v w) }
{
    if tied2(a, b, v, w) {
        return Some(2);
    }
    if tied3_ends(v, w) {
        return Some(3);
    }
    if tied3_starts(v, w) {
        return Some(3);
    }
    if tied4_box(v, w) {
        return Some(4);
    }
    if tied4_stem(v, w) {
        return Some(4);
    }
    if tied5(v, w, allowance) {
        return Some(5);
    }
    None
}
