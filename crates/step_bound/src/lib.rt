// How many steps a passed listing needs at most from point 0: the calls on a listing, and the proof that its runs stop within the bound.
#![tactic(auto)]

ghost use Rattle.std.specs.Prelude.{◌≡◌, ◌/◌, ◌≤◌, length};
ghost use Rattle.model.specs.Limits.{line_bytes, greatest_listing, greatest_lines};
ghost use Rattle.model.specs.Bound.{step_bound};
ghost use Rattle.output.specs.BoundLine.{bound_line};

use checker::judged_listing;
use line_rows::rows::Row;
use model::answers::StepBound;
use model::limits::GREATEST_LINES;
use output::bound_line::bound_line;
use rows_and_places::places::Place;
use rows_and_places::sizes::{
    FEW_LINES, FEW_LISTING, LONG_LINES, LONG_LISTING, PLACES, SHORT_LINES, SHORT_LISTING,
};
use ways_back::points::points_bound;

// The bound of a listing of at most so many lines. It stays a function of its own for each number of lines: the rows of many take a large
// part of the stack, which a call for few lines does not touch.
#[inline(never)]
fn bound_within<const LINES: usize>(listing: &[u8]) -> StepBound
    requires lines_bound { LINES ≤ greatest_lines }
    requires listing_fits { length listing.now ≤ greatest_listing → length listing.now / line_bytes ≤ LINES }
    ensures { result ≡ step_bound listing.now }
{
    let mut rows = [Row::BLANK; LINES];
    let mut at = [Place::NONE; PLACES];
    let count = judged_listing(listing, &mut rows, &mut at)?;
    points_bound(&rows, &at, count)
}

// How many steps a listing needs at most: 1 to 14 and 19 as the checker, then 20, and the bound. Nothing that is lent changes.
pub fn step_bound(listing: &[u8]) -> StepBound
    ensures { result ≡ step_bound listing.now }
{
    match listing.len() {
        0..=FEW_LISTING => bound_within::<FEW_LINES>(listing),
        0..=SHORT_LISTING => bound_within::<SHORT_LINES>(listing),
        0..=LONG_LISTING => bound_within::<LONG_LINES>(listing),
        _ => bound_within::<GREATEST_LINES>(listing),
    }
}

// The line of 40 bytes that the program prints for the steps of a listing.
pub fn report(listing: &[u8]) -> [u8; 40]
    ensures { result ≡ bound_line (step_bound listing.now) }
{
    bound_line(step_bound(listing))
}
