// The spaces that a field begins with.
ghost use Rattle.std.specs.Prelude.{◌≡◌, false, ◌+◌, ◌≤◌, ◌<◌, length, get_or, eqb};
ghost use Rattle.model.specs.declared.text.Shape.TheVariants.{Spaces};
ghost use Rattle.model.specs.Text.{space, shape_of, digits_of};

use crate::fours::same;

// How many of n columns are spaces, counted by fours.
fn skip_fours(l: &[u8], at: usize, n: usize) -> usize
    requires { at + n ≤ length l.now }
    ensures { (result ≤ n) × (shape_of l.now at result ≡ Spaces) × (digits_of l.now at result ≡ 0) }
{
    for k in 0..n / 4 {
        let a = at + 4 * k;
        if !same([l[a], l[a + 1], l[a + 2], l[a + 3]], *b"    ") {
            return 4 * k;
        }
    }
    n / 4 * 4
}

// The first of n columns that is no space, or n.
pub fn skip_spaces(l: &[u8], at: usize, n: usize) -> usize
    requires { at + n ≤ length l.now }
    ensures upper_bound { (result ≤ n) × (shape_of l.now at result ≡ Spaces) × (digits_of l.now at result ≡ 0) }
    ensures space_value { result < n → eqb (get_or l.now (at + result) 0) space ≡ false }
{
    for i in skip_fours(l, at, n)..n {
        if l[at + i] != b' ' {
            return i;
        }
    }
    n
}
