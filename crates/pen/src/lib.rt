// What the pen of a plotter does: a move to a point, a line to a point, or a lift.
#![tactic(auto)]

#[derive(Drop)]
pub enum Stroke {
    Move(f64, f64),
    Line(f64, f64),
    Lift,
}
