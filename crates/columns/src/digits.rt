// Digits, as bytes.
ghost use Rattle.std.specs.Prelude.{◌≡◌, true, ◌&&◌, leb};
ghost use Rattle.model.specs.Text.{is_digit, digit_of};

// A decimal digit.
pub fn is_digit(b: u8) -> bool
    ensures { result ≡ is_digit b }
{
    (b'0' <= b) & (b <= b'9')
}

// A digit that a number of several digits may begin with.
pub fn is_leading(b: u8) -> bool
    ensures { result ≡ (leb 49 b && leb b 57) }
{
    (b'1' <= b) & (b <= b'9')
}

// The value of a digit.
pub fn digit(b: u8) -> u8
    requires { is_digit b ≡ true }
    ensures { result ≡ digit_of b }
{
    b - b'0'
}
