// What each point owes: its own safety, then the claims of the points that its edges lead to.
ghost use Rattle.std.specs.Prelude.{◌≡◌, ◌<◌, length};
ghost use Rattle.model.specs.Limits.{today};
ghost use Rattle.model.specs.Facts.{facts_of};
ghost use Rattle.model.specs.Listing.{Point, is_empty};
ghost use Rattle.model.specs.Check;
ghost use Rattle.rows_and_places.specs.Points.{point_in, points_in, Holds};

use decoded::{instruction_from, target_from};
use facts::known::Known;
use facts::point::PointFacts;
use line_rows::rows::Row;
use lost_claims::{claims_judged, edge_judged};
use model::answers::Judgement;
use model::machine::Edge;
use reader::point_facts::facts_at;
use reader::whole::goes_on;
use rows_and_places::places::{Places, claims_of, instruction_row, line_of};
use safety::safety_judged;

// What point p of n, with these facts, owes if it is not empty, in order. What is known along an edge is written in the struct that is lent.
fn owed_judged(
    rows: &[Row],
    at: &Places,
    n: usize,
    p: usize,
    f: &PointFacts,
    edge: &mut Known,
) -> Judgement
    requires holds { Holds rows.now at.now n × (p < n) }
    requires facts { f.now ≡ facts_of (point_in rows.now at.now p).claims }
    ensures { result ≡ Check.owed_judged today (points_in rows.now at.now n) p (point_in rows.now at.now p) }
{
    let r = instruction_row(rows, at, p);
    let i = instruction_from(r);
    let line = line_of(at, p);
    safety_judged(line, f, i)?;
    edge_judged(rows, at, goes_on(i), p + 1, line, Edge::Next, i, f, edge)?;
    match target_from(r) {
        None => Ok(()),
        Some(t) => claims_judged(rows, at, t, line, Edge::Target(t), i, f, edge),
    }
}

// Whether a point with these facts, which has n claims, is empty. Stripes change no range: where all claims are stripes, none is looked at.
fn is_empty(f: &PointFacts, n: usize) -> bool
    ensures { (q : Point) → n ≡ length q.claims → f.now ≡ facts_of q.claims → result ≡ is_empty q }
{
    if f.stripes().len() == n {
        return false;
    }
    !f.is_possible()
}

// Everything that point p of n owes. An empty point owes nothing, and only its claims are read. Both structs are lent to be written in.
fn point_judged(
    rows: &[Row],
    at: &Places,
    n: usize,
    p: usize,
    facts: &mut PointFacts,
    edge: &mut Known,
) -> Judgement
    requires { Holds rows.now at.now n × (p < n) }
    ensures { result ≡ Check.point_judged today (points_in rows.now at.now n) p (point_in rows.now at.now p) }
{
    facts_at(rows, at, p, facts);
    if is_empty(facts, claims_of(at, p)) {
        return Ok(());
    }
    owed_judged(rows, at, n, p, facts, edge)
}

// 12 to 14 over n points, in order.
pub fn points_judged(rows: &[Row], at: &Places, n: usize) -> Judgement
    requires { Holds rows.now at.now n }
    ensures { result ≡ Check.points_judged today (points_in rows.now at.now n) n }
{
    let mut facts = PointFacts::new();
    let mut edge = Known::new();
    for p in 0..n {
        point_judged(rows, at, n, p, &mut facts, &mut edge)?;
    }
    Ok(())
}
