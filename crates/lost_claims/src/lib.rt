// Refusal 14: the claims of a point that do not follow along an edge to it.
#![tactic(auto)]

ghost use Rattle.std.specs.Prelude.{◌≡◌, true, cond, ◌+◌, ◌≤◌};
ghost use Rattle.model.specs.Types.{accepted};
ghost use Rattle.model.specs.Limits.{greatest_lines, today};
ghost use Rattle.model.specs.Transfer.{facts_along};
ghost use Rattle.model.specs.Follows.{first_lost};
ghost use Rattle.model.specs.Check.{claims_judged};
ghost use Rattle.model.specs.Limited.{Limited};
ghost use Rattle.facts.specs.Bounds.{LowWords};
ghost use Rattle.decoded.specs.Decoded.{claims_from};
ghost use Rattle.rows_and_places.specs.Points.{ClaimRows, Placed, point_in};
ghost use Rattle.lost_claims.specs.Lost.{lost_judged};

use decoded::claim_at;
use domain::along;
use facts::known::Known;
use facts::point::PointFacts;
use goals::follows::claim_follows_with_low_words;
use line_rows::rows::Row;
use model::answers::{Judgement, Refusal};
use model::machine::{Edge, Instruction};
use rows_and_places::places::{Places, claims_of, first_of};

// The judgement by the first of n claims, from row from on, that does not follow.
fn lost_judged(line: usize, rows: &[Row], from: usize, n: usize, known: &Known) -> Judgement
    requires claim_rows { ClaimRows rows.now from n × (from + n ≤ greatest_lines) }
    requires lows { LowWords known.now.ranges }
    ensures { result ≡ lost_judged line (first_lost known.now (from + 1) (claims_from rows.now from n)) }
{
    for j in 0..n {
        let k = from + j;
        if !claim_follows_with_low_words(known, claim_at(rows, k)) {
            return Err(Refusal::ClaimMayFail { line, claim: k + 1 });
        }
    }
    Ok(())
}

// The judgement of an edge to point t, by the claims of that point. What is known along the edge is written only where there are any.
pub fn claims_judged(
    rows: &[Row],
    at: &Places,
    t: usize,
    line: usize,
    e: Edge,
    i: Instruction,
    f: &PointFacts,
    edge: &mut Known,
) -> Judgement
    requires placed { Placed rows.now at.now t }
    requires limited { Limited i }
    ensures { result ≡ claims_judged line (facts_along today e i f.now) (point_in rows.now at.now t) }
{
    let n = claims_of(at, t);
    if n == 0 {
        return Ok(());
    }
    along(e, i, f, edge);
    if !edge.ranges.is_possible() {
        return Ok(());
    }
    lost_judged(line, rows, first_of(at, t), n, edge)
}

// The same of an edge that may not be there: then nothing is owed.
pub fn edge_judged(
    rows: &[Row],
    at: &Places,
    there: bool,
    t: usize,
    line: usize,
    e: Edge,
    i: Instruction,
    f: &PointFacts,
    edge: &mut Known,
) -> Judgement
    requires placed { there ≡ true → Placed rows.now at.now t }
    requires limited { Limited i }
    ensures { result ≡ cond there (claims_judged line (facts_along today e i f.now) (point_in rows.now at.now t)) accepted }
{
    if there {
        claims_judged(rows, at, t, line, e, i, f, edge)
    } else {
        Ok(())
    }
}
