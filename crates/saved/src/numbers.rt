// A number of up to 32 bits as an argument.
ghost use Rattle.std.specs.Prelude.{◌≡◌};
ghost use Rattle.saved.specs.Numbers.{with_digit, number_in};

// A number with one digit more, where the byte is a digit and the number fits 32 bits.
fn with_digit(n: u32, b: u8) -> Option<u32>
    ensures { result ≡ with_digit n b }
{
    if !b.is_ascii_digit() {
        return None;
    }
    n.checked_mul(10)?.checked_add(u32::from(b - b'0'))
}

// A decimal number from 0 to 4,294,967,295, of digits alone. The library's parse takes a sign too.
#[tactic(auto, unfolding(crate::specs::Numbers::number_in, crate::specs::Numbers::digits_to))]
pub fn parse(text: &[u8]) -> Option<u32>
    ensures { result ≡ number_in text.now }
{
    if text.is_empty() {
        return None;
    }
    let mut n = 0;
    for b in text {
        n = with_digit(n, *b)?;
    }
    Some(n)
}
