// Row operations on the scratch: a box is drawn, extents are read, a child's rows join its parent's.
#![tactic(auto)]

ghost use Rattle.std.specs.Prelude.{◌≡◌, ◌+◌, ◌-◌, ◌*◌, ◌≤◌, ◌<◌, length, get_or};
ghost use Rattle.plan.specs.Limits.{farthest};
ghost use Rattle.rows.specs.Rows.{row_size, Low, box_to, max_to, clash_to, shifted_of, put_one, upto_rows, beyond_rows};

// Numbers in a row of the scratch: a left and a right extent for each of 32 levels.
pub const ROW: usize = 64;

// A number of the scratch.
pub fn extent_at(rows: &[u32], row: usize, column: usize) -> u32
    requires { row_size * row + column < length rows.now }
    ensures { result ≡ get_or rows.now (row_size * row + column) 0 }
{
    rows[ROW * row + column]
}

// The first n rows of the column k become 0, w.
pub fn box_rows(rows: &mut [u32], k: usize, n: usize, w: u32)
    requires { (k ≤ 62) × (row_size * n ≤ length rows.old) }
    ensures { rows.new ≡ box_to rows.old k w n }
{
    for j in 0..n {
        let b = ROW * j + k;
        rows[b] = 0;
        rows[b + 1] = w;
    }
}

// The greatest of the first n rows in the column k.
pub fn column_max(rows: &[u32], k: usize, n: usize) -> u32
    requires { (k ≤ 63) × (row_size * n ≤ length rows.now) }
    ensures { result ≡ max_to rows.now k n }
{
    let mut g: u32 = 0;
    for j in 0..n {
        g = g.max(extent_at(rows, j, k));
    }
    g
}

// What a row asks: its extents r, less x, and l stay apart.
fn needed(r: u32, x: u32, l: u32) -> u32
    requires { (r ≤ farthest) × (l ≤ farthest) }
    ensures { result ≡ (r - x) + l + 1 }
{
    r.saturating_sub(x) + l + 1
}

// The least distance at which the first n rows of the column k + 2 clear those of the column k, seen from x.
pub fn clash(rows: &[u32], k: usize, x: u32, n: usize) -> u32
    requires { (k ≤ 60) × (row_size * n ≤ length rows.now) × Low rows.now }
    ensures { result ≡ clash_to rows.now k x n }
{
    let mut g: u32 = 0;
    for j in 0..n {
        g = g.max(needed(extent_at(rows, j, k + 1), x, extent_at(rows, j, k + 2)));
    }
    g
}

// Row j of the column at becomes l, r, and that of the column at + 2 is cleared.
pub fn put_row(rows: &mut [u32], at: usize, j: usize, l: u32, r: u32)
    requires { (at ≤ 60) × (row_size * j + row_size ≤ length rows.old) }
    ensures { rows.new ≡ put_one rows.old at j l r }
{
    let b = ROW * j + at;
    rows[b] = l;
    rows[b + 1] = r;
    rows[b + 2] = 0;
    rows[b + 3] = 0;
}

// A left extent after the next child is placed g to the right: what was there, if anything, is g further left.
fn shifted(there: bool, old: u32, g: u32, new: u32) -> u32
    requires { (old ≤ farthest) × (g ≤ 4 * farthest) }
    ensures { result ≡ shifted_of there old g new }
{
    if there {
        return (old + g).max(new);
    }
    new
}

// The next child's column joins its parent's, of which h rows are there. The child, at or before the appointed one, stands g to the right of the latest.
pub fn join_upto(rows: &mut [u32], at: usize, h: usize, g: u32, n: usize)
    requires { (at ≤ 60) × (row_size * n ≤ length rows.old) × Low rows.old × (g ≤ 4 * farthest) }
    ensures { rows.new ≡ upto_rows rows.old at h g n }
{
    for j in 0..n {
        let old = extent_at(rows, j, at);
        let l = shifted(j < h, old, g, extent_at(rows, j, at + 2));
        let r = extent_at(rows, j, at + 3);
        put_row(rows, at, j, l, r);
    }
}

// The next child's column joins its parent's. The child stands x to the right of the appointed one.
pub fn join_beyond(rows: &mut [u32], at: usize, x: u32, n: usize)
    requires { (at ≤ 60) × (row_size * n ≤ length rows.old) × Low rows.old × (x ≤ 4 * farthest) }
    ensures { rows.new ≡ beyond_rows rows.old at x n }
{
    for j in 0..n {
        let l = extent_at(rows, j, at);
        let r = x + extent_at(rows, j, at + 3);
        put_row(rows, at, j, l, r);
    }
}
