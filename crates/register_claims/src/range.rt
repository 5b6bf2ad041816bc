// The range of one register at a point, without the facts of all the others.
ghost use Rattle.std.specs.Prelude.{◌≡◌, ◌≤◌, ◌<◌};
ghost use Rattle.model.specs.Limits.{registers, MAX};
ghost use Rattle.model.specs.Facts.{lo, hi, facts_of};
ghost use Rattle.rows_and_places.specs.Points.{point_in, Placed};
ghost use Rattle.register_claims.specs.Claimed.{range_after};

use decoded::claim_at;
use line_rows::rows::Row;
use model::claims::{Claim, Range};
use rows_and_places::places::{Places, claims_of, first_of};

// The range of the variable v after one claim more.
fn range_after(c: Claim, v: usize, r: Range) -> Range
    ensures { result ≡ range_after c v r }
{
    match c {
        Claim::Leas { v: u, least } if u == v => Range::between(least, r.hi),
        Claim::Most { v: u, most } if u == v => Range::between(r.lo, most),
        _ => r,
    }
}

// The range of the register v at point p.
pub fn range_at(rows: &[Row], at: &Places, p: usize, v: usize) -> Range
    requires { Placed rows.now at.now p × (v < registers) }
    ensures { (result.lo ≡ lo (facts_of (point_in rows.now at.now p).claims).ranges v) × (result.hi ≡ hi (facts_of (point_in rows.now at.now p).claims).ranges v) × (result.hi ≤ MAX) }
{
    let from = first_of(at, p);
    let n = claims_of(at, p);
    let mut r = Range::unclaimed(v);
    for j in 0..n {
        r = range_after(claim_at(rows, from + j), v, r);
    }
    r
}
