// One line of a lent listing, set from a word, six fields and the line's number.
#![tactic(auto)]

pub mod kinds;

ghost use Rattle.std.specs.Prelude.{◌≡◌, ◌+◌, ◌*◌, ◌-◌, ◌≤◌, length, Some};
ghost use Rattle.model.specs.Limits.{line_bytes, today};
ghost use Rattle.model.specs.Answers.{◌and_then◌};
ghost use Rattle.model.specs.Words.{text_of};
ghost use Rattle.model.specs.Lines.{judged};
ghost use Rattle.model.specs.Writing.{word_of, room_for, line_judged, with_line, listing_if, listing_set};

use columns::field::kept_fields;
use lines::judge::judge;
use lines::words;
use model::answers::{Judgement, Refusal};
use model::limits::{GREATEST_LINES, LINE_BYTES};
use model::text::{Field, Word};

// The bytes of a word.
const WORD_BYTES: usize = 4;

// The word that some bytes are.
fn word_of(t: &[u8]) -> Option<Word>
    ensures { result ≡ word_of t.now }
{
    if t.len() != WORD_BYTES {
        return None;
    }
    words::find_word(t)
}

// Refusal 18 for line n, counted from 1, of a listing of so many bytes.
fn room_for(n: usize, size: usize) -> Judgement
    ensures { result ≡ room_for n size }
{
    if (1 <= n) & (n <= GREATEST_LINES) {
        if n * LINE_BYTES <= size {
            return Ok(());
        }
    }
    Err(Refusal::NoRoom)
}

// Writes line k, counted from 0, from the bytes of the word that the reader compares with.
pub fn write_line(s: &mut [u8], k: usize, w: Word, fs: [Field; 6])
    requires { k * line_bytes + line_bytes ≤ length s.old }
    ensures { s.new ≡ with_line s.old k (text_of w) fs }
{
    let a = k * LINE_BYTES;
    let e = a + LINE_BYTES;
    let t = words::text(w);
    written_line::set_line(&mut s[a..e], &t, fs);
}

// Sets line n to a word and its fields, where nothing turns them back.
fn set_known(w: Word, fs: [Field; 6], n: usize, s: &mut [u8]) -> Judgement
    ensures value { result ≡ (judged today n (Some w) fs and_then room_for n (length s.old)) }
    ensures s_after { s.new ≡ listing_if (judged today n (Some w) fs and_then room_for n (length s.old)) (with_line s.old (n - 1) (text_of w) fs) s.old }
{
    judge(n, Some(w), kept_fields(fs))?;
    room_for(n, s.len())?;
    write_line(s, n - 1, w, fs);
    Ok(())
}

// Sets line n of a listing, counted from 1, to a word and six fields, or turns the call back and changes no byte.
pub fn set_line(word: &[u8], fields: [Field; 6], n: usize, listing: &mut [u8]) -> Judgement
    ensures value { result ≡ line_judged word.now fields n listing.old }
    ensures listing_after { listing.new ≡ listing_set word.now fields n listing.old }
{
    match word_of(word) {
        None => Err(Refusal::UnknownWord { line: n }),
        Some(w) => set_known(w, fields, n, listing),
    }
}
