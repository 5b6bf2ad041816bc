// What the programs read, what they write to standard error, and the arguments that they were given.
#![tactic(auto)]

ghost use Rattle.std.specs.Prelude.{◌≡◌, ◌<◌, Ok, Err, MatchResult, nat_lt};

mod system_words;
pub mod text;

use std::env::{Env, FillError};
use std::io;
use std::io::{Error, Read, Stderr};
use system_words::words_of;
use text::Text;

// Writes a text to standard error. Where that fails there is nowhere to say it.
pub fn write(to: Stderr, text: &[u8]) {
    let _ = to.write_all(text);
}

// Writes texts to standard error, one after another.
pub fn write_all(to: Stderr, texts: &[&[u8]]) {
    for text in texts {
        write(to, text);
    }
}

// Writes a number in decimal to standard error.
pub fn write_number(to: Stderr, number: u64) {
    let _ = to.print(number);
}

// Writes to standard error what failed, a colon and the system's words for it.
pub fn write_failure(to: Stderr, what: &[u8], error: Error) {
    write_all(to, &[what, b": ", words_of(error).as_bytes(), b"\n"]);
}

// Whether there is more, by what a read of one byte answered.
pub fn is_more(read: io::Result<usize>) -> io::Result<bool>
    ensures { MatchResult read (λ n. result ≡ Ok (nat_lt 0 n)) (λ e. result ≡ Err e) }
{
    read.map(|n| 0 < n)
}

// Puts behind a text what a reader gives, until the text is full, the input ends or a read fails.
pub fn read_full<const N: usize, R: Read>(from: &mut R, text: &mut Text<N>) {
    while text.length < N {
        let done = text.length;
        let bytes = &mut text.bytes[..];
        match from.read(&mut bytes[done..]) {
            Ok(0) | Err(_) => break,
            Ok(n) => text.length = done + n,
        }
    }
}

// An argument; a text without bytes where it is missing or longer than N.
pub fn argument<const N: usize>(rt: HostRuntime, i: usize) -> Text<N> {
    let mut text = Text::empty();
    if let Ok(n) = rt.arg(i, &mut text.bytes) {
        text.length = n;
    }
    text
}

// How many arguments the program was started with, its own name among them.
pub fn argument_count(rt: HostRuntime) -> usize {
    let mut buffer = [0; 1];
    for i in 0..usize::MAX {
        if let Err(FillError::NotPresent) = rt.arg(i, &mut buffer) {
            return i;
        }
    }
    usize::MAX
}
