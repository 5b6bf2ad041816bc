// A whole listing, read: its points, or the refusal.
ghost use Rattle.std.specs.Prelude.{◌≡◌};
ghost use Rattle.model.specs.Listing.{listing_of, good_length};
ghost use Rattle.reader.specs.Listing.{Room, Stands};

use crate::whole::whole_judged;
use line_rows::rows::Row;
use model::answers::Refusal;
use model::limits::{GREATEST_LISTING, LINE_BYTES};
use rows_and_places::places::Places;
use rows_and_places::read::read_lines;

// 1: at least one line, whole lines, and not too many.
fn is_good_length(n: usize) -> bool
    ensures { result ≡ good_length n }
{
    (1 <= n) & (n <= GREATEST_LISTING) & (n % LINE_BYTES == 0)
}

// A listing, read: its lines are kept in the rows and its points in their places. The answer is the number of points, or the refusal.
pub fn read_listing(listing: &[u8], rows: &mut [Row], at: &mut Places) -> Result<usize, Refusal>
    requires { Room listing.now rows.old }
    ensures { Stands (listing_of listing.now) result rows.new at.new }
{
    let n = listing.len();
    if !is_good_length(n) {
        return Err(Refusal::ListingLength);
    }
    let lines = n / LINE_BYTES;
    let q = read_lines(listing, lines, rows, at)?;
    whole_judged(rows, at, lines, q)?;
    Ok(q.points)
}
