// The checker: its answer, and the printed line.
#![tactic(auto)]

ghost use Rattle.std.specs.Prelude.{◌≡◌, ◌/◌, ◌≤◌, length};
ghost use Rattle.model.specs.Limits.{line_bytes, greatest_listing, greatest_lines};
ghost use Rattle.model.specs.Check;
ghost use Rattle.model.specs.Output;
ghost use Rattle.reader.specs.Listing.{Room};
ghost use Rattle.checker.specs.Judged.{Judged};

use line_rows::rows::Row;
use model::answers::Verdict;
use model::limits::GREATEST_LINES;
use obligations::points::points_judged;
use output::printed::printed;
use reader::listing::read_listing;
use rows_and_places::places::{Place, Places};
use rows_and_places::sizes::{
    FEW_LINES, FEW_LISTING, LONG_LINES, LONG_LISTING, PLACES, SHORT_LINES, SHORT_LISTING,
};

// A listing read once and judged by 1 to 14 and 19. Its lines are kept in the rows, its points in their places.
pub fn judged_listing(listing: &[u8], rows: &mut [Row], at: &mut Places) -> Verdict
    requires { Room listing.now rows.old }
    ensures { Judged listing.now result rows.new at.new }
{
    let count = read_listing(listing, rows, at)?;
    points_judged(rows, at, count)?;
    Ok(count)
}

// The checker's answer for a listing of at most so many lines. It stays a function of its own for each number of lines: the rows of many
// take a large part of the stack, which a call for few lines does not touch.
#[inline(never)]
fn check_within<const LINES: usize>(listing: &[u8]) -> Verdict
    requires lines_bound { LINES ≤ greatest_lines }
    requires listing_fits { length listing.now ≤ greatest_listing → length listing.now / line_bytes ≤ LINES }
    ensures { result ≡ Check.check listing.now }
{
    let mut rows = [Row::BLANK; LINES];
    let mut at = [Place::NONE; PLACES];
    judged_listing(listing, &mut rows, &mut at)
}

// The checker's answer: the number of points of a passed listing, or the first refusal. Nothing that is lent changes.
pub fn check(listing: &[u8]) -> Verdict
    ensures { result ≡ Check.check listing.now }
{
    match listing.len() {
        0..=FEW_LISTING => check_within::<FEW_LINES>(listing),
        0..=SHORT_LISTING => check_within::<SHORT_LINES>(listing),
        0..=LONG_LISTING => check_within::<LONG_LINES>(listing),
        _ => check_within::<GREATEST_LINES>(listing),
    }
}

// The line of 40 bytes that the program prints for a listing.
pub fn report(listing: &[u8]) -> [u8; 40]
    ensures { result ≡ Output.printed (Check.check listing.now) }
{
    printed(check(listing))
}
