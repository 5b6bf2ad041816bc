// A whole line written: a word, six fields and the end of the line. The line is cleared first, so that only what is no space is set.
#![tactic(auto)]

ghost use Rattle.std.specs.Prelude.{◌≡◌, Bool, ◌+◌, ◌≤◌, ◌<◌, length};
ghost use Rattle.model.specs.declared.text.Shape.TheVariants.{Sign};
ghost use Rattle.model.specs.declared.text.Field.TheVariants.{Negative};
ghost use Rattle.model.specs.Text.{columns_set, field_set};
ghost use Rattle.model.specs.Lines.{column_of, width_of, word_set, fields_set, line_set};
ghost use Rattle.written_line.specs.Cleared.{digit_shape, left_shape, SameBefore, Cleared, ClearedFrom};

use columns::field::width;
use model::text::Field;

// Sets the digits of a number in n columns from column at on, from the last to the first. The result is how many columns are left before them.
fn set_digits(s: &mut [u8], at: usize, n: usize, v: u64) -> usize
    requires { at + n ≤ length s.old }
    ensures upper_bound { result ≤ n }
    ensures negative_after { (negative : Bool) → columns_set s.new at result (left_shape negative) 0 ≡ columns_set s.old at n (digit_shape negative v) v }
    ensures same_before { SameBefore (at + result) s.new s.old }
{
    let mut u = v;
    for i in (0..n).rev() {
        s[at + i] = b'0' + (u % 10) as u8;
        u /= 10;
        if u == 0 {
            return i;
        }
    }
    0
}

// Sets a minus in the last of n columns that are spaces.
fn set_minus(s: &mut [u8], at: usize, n: usize)
    requires { (at + n ≤ length s.old) × Cleared s.old at n }
    ensures { s.new ≡ columns_set s.old at n Sign 0 }
{
    if 0 < n {
        let i = n - 1;
        s[at + i] = b'-';
    }
}

// Sets n columns that are spaces to a negative number.
fn set_negative(s: &mut [u8], at: usize, n: usize, v: u64)
    requires { (at + n ≤ length s.old) × Cleared s.old at n }
    ensures { s.new ≡ field_set s.old at n (Negative v) }
{
    if v != 0 {
        let i = set_digits(s, at, n, v);
        set_minus(s, at, i);
    }
}

// Sets n columns that are spaces to a field.
fn set_field(s: &mut [u8], at: usize, n: usize, f: Field)
    requires { (at + n ≤ length s.old) × Cleared s.old at n }
    ensures { s.new ≡ field_set s.old at n f }
{
    match f {
        Field::Blank => {}
        Field::Number(v) => {
            set_digits(s, at, n, v);
        }
        Field::Negative(v) => set_negative(s, at, n, v),
        Field::Misshapen => {}
    }
}

// Sets field j, counted from 0, in a line that is spaces from there on.
fn set_at(l: &mut [u8], j: usize, f: Field)
    requires { (length l.old ≡ 40) × (j < 6) × ClearedFrom (column_of j) l.old }
    ensures l_after { l.new ≡ field_set l.old (column_of j) (width_of j) f }
    ensures cleared_from { ClearedFrom (column_of j + width_of j) l.new }
{
    let n = width(j);
    set_field(l, 4 + j * 4, n, f);
}

// Sets the six fields of a line that is spaces from the first of them on: six calls, since in a loop setting a line took a seventh longer.
fn set_fields(l: &mut [u8], fs: [Field; 6])
    requires { (length l.old ≡ 40) × ClearedFrom 4 l.old }
    ensures { l.new ≡ fields_set l.old fs 6 }
{
    set_at(l, 0, fs[0]);
    set_at(l, 1, fs[1]);
    set_at(l, 2, fs[2]);
    set_at(l, 3, fs[3]);
    set_at(l, 4, fs[4]);
    set_at(l, 5, fs[5]);
}

// Sets a line to spaces.
fn clear(l: &mut [u8])
    requires { length l.old ≡ 40 }
    ensures { ClearedFrom 0 l.new }
{
    l.fill(b' ');
}

// Sets the four bytes of a word.
fn set_word(l: &mut [u8], t: &[u8; 4])
    requires { 4 ≤ length l.old }
    ensures { l.new ≡ word_set l.old t.now }
{
    l[..4].copy_from_slice(t);
}

// Sets a whole line, whatever stood there.
pub fn set_line(l: &mut [u8], t: &[u8; 4], fs: [Field; 6])
    requires { length l.old ≡ 40 }
    ensures { l.new ≡ line_set l.old t.now fs }
{
    clear(l);
    set_word(l, t);
    set_fields(l, fs);
    l[39] = b'\n';
}
