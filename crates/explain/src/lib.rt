// Writes a refusal in words to standard error.
#![tactic(auto)]

use answer_numbers::refusal::numbers;
use explained::shown::{shown_line, trimmed};
use explained::words::words;
use model::answers::Refusal;
use std::io::Stderr;
use streams::{write_all, write_number};

// Writes a line of the listing as it is shown, behind its number. A line 0 is none, and nothing is written.
fn write_line(to: Stderr, name: &[u8], kind: &[u8], listing: &[u8], line: u64) {
    if line == 0 {
        return;
    }
    write_all(to, &[name, kind]);
    write_number(to, line);
    let text = shown_line(listing, line as usize);
    write_all(to, &[b": ", &text[..trimmed(&text)], b"\n"]);
}

// Writes the lines that a refusal names, where it names any, and then its number, what it means and what to do, each behind the name
// of the file.
pub fn write_explanation(to: Stderr, name: &[u8], listing: &[u8], r: Refusal) {
    let told = numbers(r);
    write_line(to, name, b", line ", listing, told.place);
    write_line(to, name, b", claim line ", listing, told.second);
    write_all(to, &[name, b": "]);
    write_number(to, told.number);
    let text = words(r);
    write_all(to, &[b": ", text.meaning, b"; ", text.advice, b"\n"]);
}
