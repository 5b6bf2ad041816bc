// The places of the points: the line of its instruction, and how many claims stand before it.
// Everything about a point is looked up by its number.
ghost use Rattle.std.specs.Prelude.{◌≡◌, ◌-◌, ◌≤◌, ◌<◌, length};
ghost use Rattle.model.specs.Limits.{greatest_points, greatest_lines};
ghost use Rattle.line_rows.specs.Rows.{row_at};
ghost use Rattle.rows_and_places.specs.Points.{line_in, number_in, first_in, Placed};
ghost use Rattle.rows_and_places.specs.Read.{point_noted, noted};

use crate::sizes::PLACES;
use line_rows::rows::Row;
use scan::{Order, Scan};

// The line of a point's instruction, and how many claims stand before it.
#[derive(Clone, Copy)]
pub struct Place {
    pub line: u16,
    pub claims: u16,
}

impl Place {
    // What an array of places is filled with before the lines are read.
    pub const NONE: Place = Place { line: 0, claims: 0 };
}

// The places of all points, and one for the point that is one too many.
pub type Places = [Place; PLACES];

// Notes a point on the k-th line in its place. None has one past the point that is one too many.
fn note_point(at: &mut Places, q: Scan, k: usize)
    requires { (k < greatest_lines) × (q.claims ≤ k) }
    ensures { at.new ≡ point_noted at.old q k }
{
    if q.points < PLACES {
        at[q.points] = Place {
            line: (k + 1) as u16,
            claims: q.claims as u16,
        };
    }
}

// Notes the k-th line, where it is an instruction.
pub(crate) fn note(at: &mut Places, q: Scan, k: usize, order: Option<Order>)
    requires { (k < greatest_lines) × (q.claims ≤ k) }
    ensures { at.new ≡ noted at.old q k order }
{
    if order.is_none() {
        note_point(at, q, k);
    }
}

// The line of point p.
pub fn line_of(at: &Places, p: usize) -> usize
    requires { p ≤ greatest_points }
    ensures { result ≡ line_in at.now p }
{
    usize::from(at[p].line)
}

// How many claims point p has.
pub fn claims_of(at: &Places, p: usize) -> usize
    requires { p ≤ greatest_points }
    ensures { result ≡ number_in at.now p }
{
    usize::from(at[p].claims)
}

// The row of point p's first claim.
pub fn first_of(at: &Places, p: usize) -> usize
    requires { (p ≤ greatest_points) × (number_in at.now p < line_in at.now p) }
    ensures { result ≡ first_in at.now p }
{
    line_of(at, p) - claims_of(at, p) - 1
}

// The row of point p's instruction.
pub fn instruction_row<'a>(rows: &'a [Row], at: &Places, p: usize) -> &'a Row
    requires { Placed rows.now at.now p }
    ensures { result.now ≡ row_at rows.now (line_in at.now p - 1) }
{
    &rows[line_of(at, p) - 1]
}
