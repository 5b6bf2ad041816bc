// A line of a listing as it is shown, and the length of a text without the spaces at its right.
ghost use Rattle.std.specs.Prelude.{◌≡◌, map, ◌+◌, ◌≤◌, length, take, drop};
ghost use Rattle.explained.specs.Explanation.{padded, shown_byte, shown_line, trimmed_length};

// What is cut off at the right of a text.
const SPACE: u8 = b' ';

// A byte as it is shown.
#[tactic(auto, unfolding(crate::specs::Explanation::shown_byte, model::specs::Lines::printable))]
fn shown(b: u8) -> u8
    ensures { result ≡ shown_byte b }
{
    match b {
        b' '..=b'~' => b,
        _ => b'?',
    }
}

// The 39 bytes from a place on, as they are shown.
fn shown_from(listing: &[u8], at: usize) -> [u8; 39]
    requires { at + 39 ≤ length listing.now }
    ensures { result ≡ map shown_byte (take 39 (drop at listing.now)) }
{
    let mut text = [b' '; 39];
    for j in 0..39 {
        text[j] = shown(listing[at + j]);
    }
    text
}

// A line, counted from 1, as it is shown, without its end. Of a line that the listing does not have nothing is shown.
pub fn shown_line(listing: &[u8], line: usize) -> [u8; 39]
    ensures { result ≡ padded 39 (shown_line listing.now line) }
{
    if line == 0 {
        return [b' '; 39];
    }
    if listing.len() / 40 < line {
        return [b' '; 39];
    }
    shown_from(listing, (line - 1) * 40)
}

// The length of a text without the spaces at its right.
pub fn trimmed(text: &[u8]) -> usize
    ensures upper_bound { (result ≤ length text.now) × (result ≡ length (take result text.now)) }
    ensures value { result ≡ trimmed_length text.now }
{
    for n in (0..text.len()).rev() {
        if text[n] != SPACE {
            return n + 1;
        }
    }
    0
}
