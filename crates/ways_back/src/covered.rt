// Refusal 20: a backward edge that is not covered.
ghost use Rattle.std.specs.Prelude.{◌≡◌, ◌<◌};
ghost use Rattle.model.specs.Instructions.{is_jump};
ghost use Rattle.model.specs.Bound.{turn_of, written_before, covered, edge_covered, edges_covered};
ghost use Rattle.decoded.specs.Decoded.{instruction_from};
ghost use Rattle.rows_and_places.specs.Points.{point_in, points_in, AllPlaced};
ghost use Rattle.ways_back.specs.Covering.{Covering};

use crate::back::goes_back;
use line_rows::rows::Row;
use model::answers::{Judgement, Refusal};
use model::limits::GREATEST_POINTS;
use model::text::Word;
use register_writes::writers::point_writes;
use rows_and_places::places::{Places, instruction_row, line_of};

// Whether the instruction of a row is a JUMP.
fn is_jump(r: &Row) -> bool
    ensures { result ≡ is_jump (instruction_from r.now) }
{
    matches!(r.word, Word::Jump)
}

// Whether the point just before point p, of n, writes the register.
fn written_before(rows: &[Row], at: &Places, n: usize, p: usize, register: usize) -> bool
    requires { AllPlaced rows.now at.now n × (p < n) }
    ensures { result ≡ written_before (points_in rows.now at.now n) register p }
{
    if p == 0 {
        return false;
    }
    point_writes(rows, at, p - 1, register)
}

// Whether a backward edge of point p, of n, is covered, where the marks say which points are targets. The TURN register is there if it is only taken from.
fn is_covered(
    rows: &[Row],
    at: &Places,
    n: usize,
    marks: &[bool; GREATEST_POINTS],
    register: Option<usize>,
    p: usize,
) -> bool
    requires all_placed { AllPlaced rows.now at.now n × (p < n) }
    requires covering { Covering (points_in rows.now at.now n) marks.now register }
    ensures { result ≡ covered (points_in rows.now at.now n) (turn_of (points_in rows.now at.now n)) p }
{
    match register {
        None => false,
        Some(r) => {
            if !is_jump(instruction_row(rows, at, p)) {
                return false;
            }
            if marks[p] {
                return false;
            }
            written_before(rows, at, n, p, r)
        }
    }
}

// 20 for point p, of n.
fn edge_covered(
    rows: &[Row],
    at: &Places,
    n: usize,
    marks: &[bool; GREATEST_POINTS],
    register: Option<usize>,
    p: usize,
) -> Judgement
    requires all_placed { AllPlaced rows.now at.now n × (p < n) }
    requires covering { Covering (points_in rows.now at.now n) marks.now register }
    ensures { result ≡ edge_covered (points_in rows.now at.now n) p (point_in rows.now at.now p) }
{
    if !goes_back(p, instruction_row(rows, at, p)) {
        return Ok(());
    }
    if is_covered(rows, at, n, marks, register, p) {
        return Ok(());
    }
    Err(Refusal::UncoveredEdge {
        line: line_of(at, p),
    })
}

// 20 for n points, in order.
pub(crate) fn edges_covered(
    rows: &[Row],
    at: &Places,
    n: usize,
    marks: &[bool; GREATEST_POINTS],
    register: Option<usize>,
) -> Judgement
    requires all_placed { AllPlaced rows.now at.now n }
    requires covering { Covering (points_in rows.now at.now n) marks.now register }
    ensures { result ≡ edges_covered (points_in rows.now at.now n) n }
{
    for p in 0..n {
        edge_covered(rows, at, n, marks, register, p)?;
    }
    Ok(())
}
