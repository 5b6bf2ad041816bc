// The facts that the claims of a point state.
ghost use Rattle.std.specs.Prelude.{◌≡◌};
ghost use Rattle.model.specs.Facts.{facts_of};
ghost use Rattle.decoded.specs.Decoded.{claims_from};
ghost use Rattle.rows_and_places.specs.Points.{ClaimRows, Placed, point_in};

use decoded::claim_at;
use facts::point::PointFacts;
use line_rows::rows::Row;
use rows_and_places::places::{Places, claims_of, first_of};

// Writes the facts that n rows from row from on state.
fn facts_of(rows: &[Row], from: usize, n: usize, facts: &mut PointFacts)
    requires { ClaimRows rows.now from n }
    ensures { facts.new ≡ facts_of (claims_from rows.now from n) }
{
    facts.clear();
    for j in 0..n {
        facts.claim(claim_at(rows, from + j));
    }
}

// Writes the facts of point p.
pub fn facts_at(rows: &[Row], at: &Places, p: usize, facts: &mut PointFacts)
    requires { Placed rows.now at.now p }
    ensures { facts.new ≡ facts_of (point_in rows.now at.now p).claims }
{
    facts_of(rows, first_of(at, p), claims_of(at, p), facts);
}
