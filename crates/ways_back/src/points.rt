// The bound of a listing's points.
ghost use Rattle.std.specs.Prelude.{◌≡◌, true};
ghost use Rattle.model.specs.Bound.{any_goes_back, edges_covered, bound_from};
ghost use Rattle.rows_and_places.specs.Points.{points_in, Holds};

use crate::back::{any_goes_back, mark_targets};
use crate::covered::edges_covered;
use line_rows::rows::Row;
use model::answers::StepBound;
use model::limits::GREATEST_POINTS;
use register_claims::turn::{rounds_of, turn_of};
use register_writes::writers::only_taken;
use rows_and_places::places::Places;

// The bound of n points, one of which goes back.
fn rounds_bound(rows: &[Row], at: &Places, n: usize) -> StepBound
    requires holds { Holds rows.now at.now n }
    requires n_value { any_goes_back (points_in rows.now at.now n) n ≡ true }
    ensures { result ≡ bound_from (points_in rows.now at.now n) (edges_covered (points_in rows.now at.now n) n) }
{
    let mut marks = [false; GREATEST_POINTS];
    mark_targets(rows, at, n, &mut marks);
    let t = turn_of(rows, at);
    edges_covered(rows, at, n, &marks, only_taken(rows, at, n, t))?;
    Ok(n as u64 * rounds_of(rows, at, t))
}

// The bound of n points: 20, then so many steps.
pub fn points_bound(rows: &[Row], at: &Places, n: usize) -> StepBound
    requires { Holds rows.now at.now n }
    ensures { result ≡ bound_from (points_in rows.now at.now n) (edges_covered (points_in rows.now at.now n) n) }
{
    if any_goes_back(rows, at, n) {
        return rounds_bound(rows, at, n);
    }
    Ok(n as u64)
}
