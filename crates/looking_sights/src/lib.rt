// What the rules read of each cell, made of a table and a placement, and read back.
#![tactic(auto)]

ghost use Rattle.std.specs.Prelude.{◌≡◌, ◌+◌, ◌*◌, ◌<◌, length, get_or};
ghost use Rattle.plan.specs.Limits.{most_cells};
ghost use Rattle.plan.specs.Columns.{«table_of»};
ghost use Rattle.plan.specs.Fit.{Fit};
ghost use Rattle.plan.specs.Near.{Near};
ghost use Rattle.rules.specs.Placement.{placed};
ghost use Rattle.looking_columns.specs.Columns.{sight};
ghost use Rattle.looking_sights.specs.Sights.{Sighted, «view_in»};
ghost use Rattle.looking_sights.specs.Sees.{Looked, TreeSeen, PlacementSeen};

use links::links_of;
use looking_columns::{SIGHT, SIGHTS, dues, edges_of, heads_of, raised, scatter};
use plan::Columns;
use spans::{lay, measure, number, sink};

// The numbers of one cell, coordinates moved up so that none is negative.
#[derive(Clone, Copy)]
pub struct View {
    pub parent: u32,
    pub nth: u32,
    pub middle: u32,
    pub first: u32,
    pub end: u32,
    pub from: u32,
    pub to: u32,
    pub x: u32,
    pub right: u32,
    pub y: u32,
    pub due: u32,
    pub base: u32,
    pub bottom: u32,
}

// Number k of the cell c.
fn number_at(sights: &[u32; SIGHTS], c: usize, k: usize) -> u32
    requires { (c < most_cells) × (k < sight) }
    ensures { result ≡ get_or sights.now (sight * c + k) 0 }
{
    sights[SIGHT * c + k]
}

pub fn see(sights: &[u32; SIGHTS], c: usize) -> View
    requires { c < most_cells }
    ensures { result ≡ view_in sights.now c }
{
    View {
        parent: number_at(sights, c, 0),
        nth: number_at(sights, c, 1),
        middle: number_at(sights, c, 2),
        first: number_at(sights, c, 3),
        end: number_at(sights, c, 4),
        from: number_at(sights, c, 5),
        to: number_at(sights, c, 6),
        x: number_at(sights, c, 7),
        right: number_at(sights, c, 8),
        y: number_at(sights, c, 9),
        due: number_at(sights, c, 10),
        base: number_at(sights, c, 11),
        bottom: number_at(sights, c, 12),
    }
}

// What the rules read of the table.
fn look_at_tree(t: Columns, out: &mut [u32; SIGHTS])
    requires { Fit (table_of t) × (length out.old ≡ most_cells * sight) }
    ensures { TreeSeen (table_of t) t.count out.old out.new }
{
    let links = links_of(t);
    let numbers = number(t, &links);
    let head = heads_of(t, numbers.many);
    let span = lay(t, &links, measure(t));
    scatter(&head.parent, t.count, 0, out);
    scatter(&numbers.nth, t.count, 1, out);
    scatter(&head.middle, t.count, 2, out);
    scatter(&span.first, t.count, 3, out);
    scatter(&span.end, t.count, 4, out);
    scatter(&span.from, t.count, 5, out);
    scatter(&span.to, t.count, 6, out);
}

// What they read of the placement.
fn look_at_placement(t: Columns, positions: &[i32], out: &mut [u32; SIGHTS])
    requires { Fit (table_of t) × Near positions.now t.count × (length out.old ≡ most_cells * sight) }
    ensures { PlacementSeen (table_of t) positions.now t.count out.old out.new }
{
    let x = raised(positions, t.count, 0);
    let y = raised(positions, t.count, 1);
    let edge = edges_of(t, x, y);
    let due = dues(t, edge.base);
    let bottom = sink(t, edge.base);
    scatter(&x, t.count, 7, out);
    scatter(&edge.right, t.count, 8, out);
    scatter(&y, t.count, 9, out);
    scatter(&due, t.count, 10, out);
    scatter(&edge.base, t.count, 11, out);
    scatter(&bottom, t.count, 12, out);
}

pub fn look(t: Columns, positions: &[i32], out: &mut [u32; SIGHTS])
    requires { Fit (table_of t) × Near positions.now t.count × (length out.old ≡ most_cells * sight) }
    ensures { Looked (table_of t) (placed positions.now) (view_in out.new) × Sighted (view_in out.new) t.count }
{
    look_at_tree(t, out);
    look_at_placement(t, positions, out);
}
