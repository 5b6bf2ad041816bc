// The system's words for an error.
use crate::text::Text;
use std::fmt::Write;
use std::io::Error;

// What stands behind the words in the library's text of an error, with the error's number.
const NUMBER: &[u8] = b" (os error ";

// The words for an error, as much of them as 256 bytes have room for.
pub fn words_of(error: Error) -> Text<256> {
    let mut words = Text::empty();
    let _ = write!(words, "{error}");
    let end = words
        .as_bytes()
        .windows(NUMBER.len())
        .position(|part| part == NUMBER);
    if let Some(n) = end {
        words.length = n;
    }
    words
}
