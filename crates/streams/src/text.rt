// Texts of a length that is only known as the program runs, with no heap.
ghost use Rattle.std.specs.Prelude.{◌≡◌, ◌+◌, ◌≤◌, ◌++◌, length, take};

use std::fmt;
use std::fmt::Write;

// At most N bytes, at the front of an array.
#[derive(Clone, Copy)]
pub struct Text<const N: usize> {
    pub bytes: [u8; N],
    pub length: usize,
    ghost within: { length ≤ N },
}

// A path, as an argument or made from one.
pub type Path = Text<4096>;

impl<const N: usize> Text<N> {
    // A text without bytes.
    pub fn empty() -> Self
        ensures { result.length ≡ 0 }
    {
        Text {
            bytes: [0; N],
            length: 0,
        }
    }

    // The bytes of the text.
    pub fn as_bytes(&self) -> &[u8]
        ensures { result.now ≡ take self.now.length self.now.bytes }
    {
        &self.bytes[..self.length]
    }

    // Puts bytes behind the text, which has room for them.
    pub fn push(&mut self, part: &[u8])
        requires { self.old.length + length part.now ≤ N }
        ensures longer { self.new.length ≡ self.old.length + length part.now }
        ensures behind { take self.new.length self.new.bytes ≡ take self.old.length self.old.bytes ++ part.now }
    {
        let start = self.length;
        let end = start + part.len();
        let bytes = &mut self.bytes[..];
        bytes[start..end].copy_from_slice(part);
        self.length = end;
    }
}

// What is written goes behind the text, as far as there is room.
impl<const N: usize> fmt::Write for Text<N> {
    fn write_str(&mut self, text: &str) -> fmt::Result {
        let bytes = text.as_bytes();
        let n = bytes.len().min(N - self.length);
        self.push(&bytes[..n]);
        if n < bytes.len() {
            return Err(fmt::Error);
        }
        Ok(())
    }
}
