// The fields of a line: F1 to F5, and F6. What n columns give is less than 10^n, so no overflow is tested.
#![tactic(auto)]

ghost use Rattle.std.specs.Prelude.{◌≡◌, ℕ, Bool, true, false, cond, ◌+◌, ◌*◌, ◌-◌, ◌^◌, ◌≤◌, ◌<◌, length, get_or, eqb};
ghost use Rattle.model.specs.declared.text.Shape.TheVariants.{Spaces, Digits, Sign, Signed};
ghost use Rattle.model.specs.Text.{space, shape_of, digits_of, field_of};
ghost use Rattle.columns.specs.Kept.{kept};

use columns::digits::{digit, is_digit, is_leading};
use columns::field::{KeptField, leading_zero};
use columns::spaces::skip_spaces;

// A kind of field.
pub trait FieldKind {
    // What its digits are gathered in.
    type Number: Copy;

    // How many columns it has.
    const COLUMNS: usize;

    // Whether a minus may stand in it.
    const SIGNED: bool;

    ghost COLUMNS: { ℕ };

    ghost SIGNED: { Bool };

    // The number that was gathered.
    ghost value: { Self.Number → ℕ };

    // A number of one digit.
    fn first(d: u8) -> Self::Number
        ensures { value result ≡ d };

    // A number with one digit more, which leaves room for as many digits as there are columns.
    fn with_digit(v: Self::Number, d: u8) -> Self::Number
        requires { value v * 10 + d < 10 ^ COLUMNS }
        ensures { value result ≡ value v * 10 + d };

    // The number in 64 bits.
    fn number(v: Self::Number) -> u64
        ensures { result ≡ value v };
}

// F1 to F5, gathered in 16 bits. No word asks for a minus there.
pub struct Short;

impl FieldKind for Short {
    type Number = u16;

    const COLUMNS: usize = 4;

    const SIGNED: bool = false;

    ghost COLUMNS = { 4 };

    ghost SIGNED = { false };

    ghost value = { λ v. v };

    fn first(d: u8) -> u16 {
        u16::from(d)
    }

    fn with_digit(v: u16, d: u8) -> u16 {
        v * 10 + u16::from(d)
    }

    fn number(v: u16) -> u64 {
        u64::from(v)
    }
}

// F6, gathered in 64 bits. A minus may stand there.
pub struct Long;

impl FieldKind for Long {
    type Number = u64;

    const COLUMNS: usize = 15;

    const SIGNED: bool = true;

    ghost COLUMNS = { 15 };

    ghost SIGNED = { true };

    ghost value = { λ v. v };

    fn first(d: u8) -> u64 {
        u64::from(d)
    }

    fn with_digit(v: u64, d: u8) -> u64 {
        v * 10 + u64::from(d)
    }

    fn number(v: u64) -> u64 {
        v
    }
}

// A field whose first i columns end in digits of the number first, after a minus or not.
fn gather<K: FieldKind>(
    l: &[u8],
    at: usize,
    i: usize,
    first: K::Number,
    negative: bool,
) -> KeptField
    requires in_bounds { (at + K.COLUMNS ≤ length l.now) × (i ≤ K.COLUMNS) }
    requires i_value { (shape_of l.now at i ≡ cond negative Signed Digits) × (K.value first ≡ digits_of l.now at i) }
    requires may { negative ≡ true → K.SIGNED ≡ true }
    ensures { result ≡ kept K.SIGNED (field_of l.now at K.COLUMNS) }
{
    let mut v = first;
    for j in i..K::COLUMNS {
        let b = l[at + j];
        if !is_digit(b) {
            return KeptField::MISSHAPEN;
        }
        v = K::with_digit(v, digit(b));
    }
    KeptField::signed(negative, K::number(v))
}

// A field whose first i columns end in a minus.
fn read_negative<K: FieldKind>(l: &[u8], at: usize, i: usize) -> KeptField
    requires in_bounds { (at + K.COLUMNS ≤ length l.now) × (i ≤ K.COLUMNS) }
    requires i_value { (shape_of l.now at i ≡ Sign) × (digits_of l.now at i ≡ 0) }
    requires may { K.SIGNED ≡ true }
    ensures { result ≡ kept K.SIGNED (field_of l.now at K.COLUMNS) }
{
    if i < K::COLUMNS {
        let b = l[at + i];
        if is_leading(b) {
            return gather::<K>(l, at, i + 1, K::first(digit(b)), true);
        }
    }
    KeptField::MISSHAPEN
}

// A field whose column i is the first that is no space.
fn read_number<K: FieldKind>(l: &[u8], at: usize, i: usize) -> KeptField
    requires in_bounds { (at + K.COLUMNS ≤ length l.now) × (i < K.COLUMNS) }
    requires i_value { (shape_of l.now at i ≡ Spaces) × (digits_of l.now at i ≡ 0) × (eqb (get_or l.now (at + i) 0) space ≡ false) }
    ensures { result ≡ kept K.SIGNED (field_of l.now at K.COLUMNS) }
{
    let b = l[at + i];
    let next = i + 1;
    if is_leading(b) {
        return gather::<K>(l, at, next, K::first(digit(b)), false);
    }
    if K::SIGNED & (b == b'-') {
        return read_negative::<K>(l, at, next);
    }
    if b == b'0' {
        return leading_zero(next == K::COLUMNS);
    }
    KeptField::MISSHAPEN
}

// What is kept of a field from column at on.
pub fn read_field<K: FieldKind>(l: &[u8], at: usize) -> KeptField
    requires { at + K.COLUMNS ≤ length l.now }
    ensures { result ≡ kept K.SIGNED (field_of l.now at K.COLUMNS) }
{
    let i = skip_spaces(l, at, K::COLUMNS);
    if i == K::COLUMNS {
        return KeptField::BLANK;
    }
    read_number::<K>(l, at, i)
}
