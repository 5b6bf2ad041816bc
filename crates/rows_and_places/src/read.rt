// The lines of a listing, read in order: each is kept as a row, each point has its place.
ghost use Rattle.std.specs.Prelude.{◌≡◌, ◌*◌, ◌≤◌, length};
ghost use Rattle.model.specs.Limits.{line_bytes, greatest_lines, today};
ghost use Rattle.model.specs.Lines.{read_line};
ghost use Rattle.model.specs.Listing.{read_to};
ghost use Rattle.decoded.specs.Decoded.{line_of_row};
ghost use Rattle.scan.specs.Scan.{order_on, progress_of};
ghost use Rattle.rows_and_places.specs.Read.{ReadAs, ScannedSo};

use crate::places::{Places, note};
use encoded::row_of;
use line_rows::rows::Row;
use lines::line::{is_well_spelled, read_fields};
use lines::words::find_word;
use model::answers::Refusal;
use model::limits::LINE_BYTES;
use model::text::Word;
use scan::{Order, Scan};
use word_table::judge_known;

// What the order of the lines depends on: the order of a claim, none of an instruction.
fn order_of(r: &Row) -> Option<Order>
    ensures { result ≡ order_on (line_of_row r.now) }
{
    match r.word {
        Word::Leas => Some(Order::Leas(r.first)),
        Word::Most => Some(Order::Most(r.first)),
        Word::Strp => Some(Order::Strp),
        Word::Turn => Some(Order::Turn),
        _ => None,
    }
}

// A line with its number: what it holds, or what turns it back. The word is found last, right before its row of the table is chosen.
fn read_bytes(place: usize, l: &[u8]) -> Result<Row, Refusal>
    requires { length l.now ≡ line_bytes }
    ensures { ReadAs (read_line today place l.now) result }
{
    if !is_well_spelled(l) {
        return Err(Refusal::LineBytes { line: place });
    }
    let fields = read_fields(l);
    let word = find_word(l).ok_or(Refusal::UnknownWord { line: place })?;
    judge_known(place, word, fields)?;
    Ok(row_of(word, fields))
}

// The first n lines: what was read, or the first refusal, after which no line is looked at.
pub fn read_lines(
    listing: &[u8],
    n: usize,
    rows: &mut [Row],
    at: &mut Places,
) -> Result<Scan, Refusal>
    requires n_le_greatest_lines { (n ≤ greatest_lines) × (n * line_bytes ≤ length listing.now) }
    requires n_in_bounds { n ≤ length rows.old }
    ensures value { result ≡ progress_of (read_to today listing.now n) }
    ensures scanned_so { ScannedSo rows.new at.new n (read_to today listing.now n) }
{
    let mut scan = Scan::new();
    for k in 0..n {
        let start = k * LINE_BYTES;
        let row = read_bytes(k + 1, &listing[start..start + LINE_BYTES])?;
        let order = order_of(&row);
        let next = scan.after(k, order)?;
        note(at, scan, k, order);
        rows[k] = row;
        scan = next;
    }
    Ok(scan)
}
