// The claim lines of a point as a part of the lent listing, and what turns the call for them back.
#![tactic(auto)]

ghost use Rattle.std.specs.Prelude.{◌≡◌, List, ◌≤◌, ◌<◌, Ok};
ghost use Rattle.model.specs.Types.{accepted};
ghost use Rattle.model.specs.Limits.{greatest_points, greatest_lines};
ghost use Rattle.model.specs.Listing.{Point, listing_of, claim_lines_judged, claim_lines, part_judged, claim_part};
ghost use Rattle.line_rows.specs.declared.rows.Row.{Row};
ghost use Rattle.rows_and_places.specs.Points.{line_in, number_in, point_in};

use line_rows::rows::Row;
use model::answers::{ClaimPart, Judgement, Refusal};
use model::limits::{GREATEST_LINES, LINE_BYTES};
use reader::listing::read_listing;
use rows_and_places::places::{Place, Places, claims_of, first_of};
use rows_and_places::sizes::PLACES;

// The part of a point that is read.
fn part_of(at: &Places, p: usize) -> ClaimPart
    requires { (p ≤ greatest_points) × (number_in at.now p < line_in at.now p) × (line_in at.now p ≤ greatest_lines) }
    ensures { (rows : List Row) → Ok result ≡ part_judged accepted (point_in rows at.now p) }
{
    ClaimPart {
        offset: first_of(at, p) * LINE_BYTES,
        length: claims_of(at, p) * LINE_BYTES,
    }
}

// The claim lines of a point by their offset in the listing and their length in bytes, with what turns the call back: 1 to 11 and 19, then 16.
pub fn claim_part(listing: &[u8], point: usize) -> Result<ClaimPart, Refusal>
    ensures { result ≡ claim_part listing.now point }
{
    let mut rows = [Row::BLANK; GREATEST_LINES];
    let mut at = [Place::NONE; PLACES];
    let count = read_listing(listing, &mut rows, &mut at)?;
    if point < count {
        return Ok(part_of(&at, point));
    }
    Err(Refusal::NoSuchPoint)
}

// What turns the call for claim lines back, if anything does.
pub fn claim_lines_judged(listing: &[u8], point: usize) -> Judgement
    ensures { result ≡ claim_lines_judged (listing_of listing.now) point }
{
    claim_part(listing, point)?;
    Ok(())
}

// The claim lines of a point: a part of the listing, empty where there are none and where the listing or the point is turned back.
pub fn claim_lines(listing: &[u8], point: usize) -> &[u8]
    ensures { result.now ≡ claim_lines listing.now point }
{
    match claim_part(listing, point) {
        Ok(part) => &listing[part.offset..part.offset + part.length],
        Err(_) => &listing[0..0],
    }
}
