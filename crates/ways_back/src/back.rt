// Backward edges, and the points that are targets.
ghost use Rattle.std.specs.Prelude.{◌≡◌, ◌∷◌, [], ℕ, ◌<◌};
ghost use Rattle.model.specs.Limits.{greatest_points};
ghost use Rattle.model.specs.Instructions.{targets};
ghost use Rattle.model.specs.Bound.{goes_back, any_goes_back};
ghost use Rattle.decoded.specs.Decoded.{instruction_from};
ghost use Rattle.rows_and_places.specs.Points.{points_in, AllPlaced, Holds};
ghost use Rattle.ways_back.specs.Covering.{with_targets, NoneMarked, Marked};

use decoded::target_from;
use line_rows::rows::Row;
use model::limits::GREATEST_POINTS;
use rows_and_places::places::{Places, instruction_row};

// Whether the instruction of a row goes back from point p: its target is p or an earlier one.
#[tactic(auto, unfolding(model::specs::Lists::some))]
pub(crate) fn goes_back(p: usize, r: &Row) -> bool
    ensures { result ≡ goes_back p (instruction_from r.now) }
{
    match target_from(r) {
        Some(t) => t <= p,
        None => false,
    }
}

// Whether one of n points goes back.
pub(crate) fn any_goes_back(rows: &[Row], at: &Places, n: usize) -> bool
    requires { AllPlaced rows.now at.now n }
    ensures { result ≡ any_goes_back (points_in rows.now at.now n) n }
{
    for p in 0..n {
        if goes_back(p, instruction_row(rows, at, p)) {
            return true;
        }
    }
    false
}

// Marks the target of a row, where it has one.
fn mark(marks: &mut [bool; GREATEST_POINTS], r: &Row)
    requires { (t : ℕ) → targets (instruction_from r.now) ≡ t ∷ [] → t < greatest_points }
    ensures { marks.new ≡ with_targets marks.old (targets (instruction_from r.now)) }
{
    if let Some(t) = target_from(r) {
        marks[t] = true;
    }
}

// Marks the targets of n points.
pub(crate) fn mark_targets(rows: &[Row], at: &Places, n: usize, marks: &mut [bool; GREATEST_POINTS])
    requires holds { Holds rows.now at.now n }
    requires none_marked { NoneMarked marks.old }
    ensures { Marked marks.new (points_in rows.now at.now n) }
{
    for p in 0..n {
        mark(marks, instruction_row(rows, at, p));
    }
}
