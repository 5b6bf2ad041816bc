// A line of 40 bytes: its spelling and its six fields.
ghost use Rattle.std.specs.Prelude.{◌≡◌, ℕ, length, slice_index};
ghost use Rattle.model.specs.Lists.{every_below};
ghost use Rattle.model.specs.Lines.{printable, well_spelled, fields_in};
ghost use Rattle.columns.specs.Kept.{kept_fields};

use columns::field::{KeptFields, six};
use fields::{Long, Short, read_field};

// A byte that may stand in columns 1 to 39: counted from the space on, one comparison tells both limits.
fn is_printable(b: u8) -> bool
    ensures { result ≡ printable b }
{
    std::num::wrapping_sub_u8(b, b' ') <= b'~' - b' '
}

// Columns 1 to 39 are printable.
fn all_printable(l: &[u8]) -> bool
    requires { length l.now ≡ 40 }
    ensures { result ≡ every_below (λ (j : ℕ). printable (slice_index l.now j)) 39 }
{
    let mut ok = true;
    for b in &l[..39] {
        ok = ok & is_printable(*b);
    }
    ok
}

// Columns 1 to 39 are printable and column 40 ends the line.
pub fn is_well_spelled(l: &[u8]) -> bool
    requires { length l.now ≡ 40 }
    ensures { result ≡ well_spelled l.now }
{
    all_printable(l) & (l[39] == b'\n')
}

// What is kept of the six fields of a line.
pub fn read_fields(l: &[u8]) -> KeptFields
    requires { length l.now ≡ 40 }
    ensures { result ≡ kept_fields (fields_in l.now) }
{
    let a = read_field::<Short>(l, 4);
    let b = read_field::<Short>(l, 8);
    let c = read_field::<Short>(l, 12);
    let d = read_field::<Short>(l, 16);
    let e = read_field::<Short>(l, 20);
    let f = read_field::<Long>(l, 24);
    six(a, b, c, d, e, f)
}
