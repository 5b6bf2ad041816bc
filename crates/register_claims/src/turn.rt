// The TURN register of a listing, and the rounds that its high end at point 0 allows.
ghost use Rattle.std.specs.Prelude.{◌≡◌, [], ◌∷◌, ◌+◌, ◌≤◌, ◌<◌, IfSome};
ghost use Rattle.model.specs.Limits.{registers, MAX};
ghost use Rattle.model.specs.Facts.{hi, facts_of};
ghost use Rattle.model.specs.Bound.{turn_among, turn_of, rounds_of};
ghost use Rattle.rows_and_places.specs.Points.{point_in, Placed};

use crate::range::range_at;
use decoded::claim_at;
use line_rows::rows::Row;
use model::claims::Claim;
use rows_and_places::places::{Places, claims_of, first_of};

// The register of a claim that is a TURN.
fn turn_in(c: Claim) -> Option<usize>
    ensures { result ≡ turn_among (c ∷ []) }
{
    match c {
        Claim::Turn { register } => Some(register),
        _ => None,
    }
}

// The TURN register: that of the first claim of point 0.
pub fn turn_of(rows: &[Row], at: &Places) -> Option<usize>
    requires { Placed rows.now at.now 0 }
    ensures value { result ≡ turn_of (point_in rows.now at.now 0 ∷ []) }
    ensures result_bound { IfSome result (λ r. r < registers) }
{
    if claims_of(at, 0) == 0 {
        return None;
    }
    turn_in(claim_at(rows, first_of(at, 0)))
}

// One more than the high end of a register at point 0.
fn rounds_at(rows: &[Row], at: &Places, r: usize) -> u64
    requires { Placed rows.now at.now 0 × (r < registers) }
    ensures { (result ≡ hi (facts_of (point_in rows.now at.now 0).claims).ranges r + 1) × (result ≤ MAX + 1) }
{
    let range = range_at(rows, at, 0, r);
    range.hi + 1
}

// The rounds that the TURN register allows; 1 where there is none.
pub fn rounds_of(rows: &[Row], at: &Places, t: Option<usize>) -> u64
    requires { Placed rows.now at.now 0 × IfSome t (λ r. r < registers) }
    ensures { (result ≡ rounds_of (point_in rows.now at.now 0 ∷ []) t) × (result ≤ MAX + 1) }
{
    match t {
        None => 1,
        Some(r) => rounds_at(rows, at, r),
    }
}
