// The tests over the whole listing: refusals 7 to 11.
ghost use Rattle.std.specs.Prelude.{◌≡◌, List, ◌≤◌};
ghost use Rattle.model.specs.declared.claims.Claim.{Claim};
ghost use Rattle.model.specs.Instructions.{goes_on, targets};
ghost use Rattle.model.specs.Listing.{Point, targets_exist, all_targets_exist, ends_in_place, starts_non_empty, whole_judged};
ghost use Rattle.decoded.specs.Decoded.{instruction_from};
ghost use Rattle.scan.specs.Scan.{scan_of};
ghost use Rattle.rows_and_places.specs.Points.{points_in, AllPlaced};
ghost use Rattle.rows_and_places.specs.Read.{Scanned, AllRead};

use crate::point_facts::facts_at;
use decoded::{instruction_from, target_from};
use facts::point::PointFacts;
use line_rows::rows::Row;
use model::answers::{Judgement, Refusal};
use model::limits::GREATEST_POINTS;
use model::machine::Instruction;
use rows_and_places::places::{Places, instruction_row, line_of};
use scan::Scan;

// Whether an instruction may go on to the next point.
pub fn goes_on(i: Instruction) -> bool
    ensures { result ≡ goes_on i }
{
    !matches!(i, Instruction::Stop | Instruction::Jump { t: _ })
}

// 9 for the instruction of a row on this line, of n points.
fn own_target_exists(n: usize, line: usize, r: &Row) -> Judgement
    ensures { result ≡ targets_exist n line (targets (instruction_from r.now)) }
{
    match target_from(r) {
        Some(t) if n <= t => Err(Refusal::NoSuchTarget { line }),
        _ => Ok(()),
    }
}

// 9 for n points, of n.
fn targets_exist(rows: &[Row], at: &Places, n: usize) -> Judgement
    requires { AllPlaced rows.now at.now n }
    ensures { result ≡ all_targets_exist n (points_in rows.now at.now n) }
{
    for p in 0..n {
        own_target_exists(n, line_of(at, p), instruction_row(rows, at, p))?;
    }
    Ok(())
}

// 10: the last of n instructions neither stops nor jumps.
fn last_judged(rows: &[Row], at: &Places, lines: usize, n: usize) -> Judgement
    requires { AllPlaced rows.now at.now n × (1 ≤ n) }
    ensures { result ≡ ends_in_place lines (points_in rows.now at.now n) }
{
    if goes_on(instruction_from(instruction_row(rows, at, n - 1))) {
        return Err(Refusal::NoEnd { line: lines });
    }
    Ok(())
}

// 11 for n points: no range of the first is empty.
fn start_judged(rows: &[Row], at: &Places, n: usize) -> Judgement
    requires { AllPlaced rows.now at.now n × (1 ≤ n) }
    ensures { result ≡ starts_non_empty (points_in rows.now at.now n) }
{
    let mut facts = PointFacts::new();
    facts_at(rows, at, 0, &mut facts);
    if facts.is_possible() {
        return Ok(());
    }
    Err(Refusal::EmptyStart {
        line: line_of(at, 0),
    })
}

// 7 to 11 of a listing with so many lines, all read.
pub(crate) fn whole_judged(rows: &[Row], at: &Places, lines: usize, q: Scan) -> Judgement
    requires { AllRead rows.now at.now q }
    ensures { (ps : List Point) (cs : List Claim) → Scanned rows.now at.now lines ps cs → q ≡ scan_of ps cs → result ≡ whole_judged lines ps cs }
{
    if q.claims != 0 {
        return Err(Refusal::LastLineClaim { line: lines });
    }
    let n = q.points;
    if GREATEST_POINTS < n {
        return Err(Refusal::TooManyPoints {
            line: line_of(at, GREATEST_POINTS),
        });
    }
    targets_exist(rows, at, n)?;
    last_judged(rows, at, lines, n)?;
    start_judged(rows, at, n)
}
