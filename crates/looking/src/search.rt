// The search: each rule in turn, at each pair of cells in turn.
ghost use Rattle.std.specs.Prelude.{◌≡◌, ◌^◌, ◌<◌};
ghost use Rattle.plan.specs.Limits.{most_cells};
ghost use Rattle.looking_sights.specs.Sights.{Sighted, «view_in»};
ghost use Rattle.looking.specs.Passes.{pass1, pass2, pass3, pass3_ends, pass3_starts, pass4, pass4_box, pass4_stem, pass5, passes, «found_of», row_found, «rule_found», «all_found»};

use looking_columns::SIGHTS;
use looking_sights::{View, see};
use plan::Breach;
use plan::limits::FARTHEST;

// S1 at a cell: it is as far down as is due, and the root in column 0.
pub fn pass1(a: usize, b: usize, v: View) -> bool
    ensures { result ≡ pass1 a b v }
{
    if a != b {
        return true;
    }
    if v.y != v.due {
        return false;
    }
    if a != 0 {
        return true;
    }
    v.x == FARTHEST
}

// S2: where w is the appointed child of v's cell a, both are in one column.
pub fn pass2(a: usize, v: View, w: View) -> bool
    requires { a < most_cells }
    ensures { result ≡ pass2 a v w }
{
    if w.parent != (a as u32) {
        return true;
    }
    if w.nth != v.middle {
        return true;
    }
    v.x == w.x
}

// S3: where w is right after a sibling that v is at or below; where v is right before one that w is at or below.
fn ends_before(v: View, w: View) -> bool
    ensures { result ≡ pass3_ends v w }
{
    if v.first < w.from {
        return true;
    }
    if w.first <= v.first {
        return true;
    }
    v.right < w.x
}

fn starts_after(v: View, w: View) -> bool
    ensures { result ≡ pass3_starts v w }
{
    if w.first < v.end {
        return true;
    }
    if v.to <= w.first {
        return true;
    }
    v.x < w.x
}

// S4: v's box, v's stem, in a row of w's.
fn box_apart(v: View, w: View) -> bool
    ensures { result ≡ pass4_box v w }
{
    if w.bottom < v.y {
        return true;
    }
    if v.base < w.y {
        return true;
    }
    v.right < w.x
}

fn stem_apart(v: View, w: View) -> bool
    ensures { result ≡ pass4_stem v w }
{
    if v.bottom <= v.base {
        return true;
    }
    if w.bottom <= v.base {
        return true;
    }
    if v.bottom < w.y {
        return true;
    }
    v.x < w.x
}

fn pass4(v: View, w: View) -> bool
    ensures { result ≡ pass4 v w }
{
    if w.first < v.end {
        return true;
    }
    if !box_apart(v, w) {
        return false;
    }
    stem_apart(v, w)
}

// S5.
fn pass5(v: View, w: View, allowance: u32) -> bool
    requires { (v.right < 2 ^ 31) × (w.x < 2 ^ 31) × (allowance < 2 ^ 31) }
    ensures { result ≡ pass5 allowance v w }
{
    if w.first < v.end {
        return true;
    }
    v.right + 1 <= w.x + allowance
}

fn pass3(v: View, w: View) -> bool
    ensures { result ≡ pass3 v w }
{
    if !ends_before(v, w) {
        return false;
    }
    starts_after(v, w)
}

// A rule at the cells a and b. A chain of tests, which the compiler folds where the rule is a number; a `match` it leaves.
fn passes(rule: u8, a: usize, b: usize, v: View, w: View, allowance: u32) -> bool
    requires { (a < most_cells) × (v.right < 2 ^ 31) × (w.x < 2 ^ 31) × (allowance < 2 ^ 31) }
    ensures { result ≡ passes allowance rule a b v w }
{
    if rule == 1 {
        return pass1(a, b, v);
    }
    if rule == 2 {
        return pass2(a, v, w);
    }
    if rule == 3 {
        return pass3(v, w);
    }
    if rule == 4 {
        return pass4(v, w);
    }
    if rule == 5 {
        return pass5(v, w, allowance);
    }
    true
}

// A rule at a and each b in turn.
fn search_row(
    sights: &[u32; SIGHTS],
    n: usize,
    rule: u8,
    a: usize,
    allowance: u32,
) -> Result<(), Breach>
    requires { Sighted (view_in sights.now) n × (a < n) × (allowance < 2 ^ 31) }
    ensures { result ≡ found_of (row_found (view_in sights.now) allowance n rule a) }
{
    let v = see(sights, a);
    for b in 0..n {
        let w = see(sights, b);
        if !passes(rule, a, b, v, w, allowance) {
            return Err(Breach {
                rule,
                a: a as u16,
                b: b as u16,
            });
        }
    }
    Ok(())
}

// A rule at each a in turn.
fn search_rule(sights: &[u32; SIGHTS], n: usize, rule: u8, allowance: u32) -> Result<(), Breach>
    requires { Sighted (view_in sights.now) n × (allowance < 2 ^ 31) }
    ensures { result ≡ found_of (rule_found (view_in sights.now) allowance n rule) }
{
    for a in 0..n {
        search_row(sights, n, rule, a, allowance)?;
    }
    Ok(())
}

// Each rule in turn, to the lowest rule with the lowest a and b at which it is broken: a call for each, so that the compiler makes a loop for each, with no test of the rule at a pair.
pub fn search(sights: &[u32; SIGHTS], n: usize, allowance: u32) -> Result<(), Breach>
    requires { Sighted (view_in sights.now) n × (allowance < 2 ^ 31) }
    ensures { result ≡ found_of (all_found (view_in sights.now) allowance n) }
{
    search_rule(sights, n, 1, allowance)?;
    search_rule(sights, n, 2, allowance)?;
    search_rule(sights, n, 3, allowance)?;
    search_rule(sights, n, 4, allowance)?;
    search_rule(sights, n, 5, allowance)
}
