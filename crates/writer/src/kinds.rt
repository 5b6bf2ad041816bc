// The fields of a line as kinds and numbers, for C and Rust.
ghost use Rattle.std.specs.Prelude.{◌≡◌};
ghost use Rattle.writer.specs.Kinds.{field_of_kind, fields_of_kinds};

use model::text::Field;
use std::array;

// The field of a kind and a number: blank, a number, a negative number; every other kind is misshapen.
#[tactic(auto, unfolding(crate::specs::Kinds::field_of_kind))]
fn field_of_kind(kind: u8, number: u64) -> Field
    ensures { result ≡ field_of_kind kind number }
{
    match kind {
        0 => Field::Blank,
        1 => Field::Number(number),
        2 => Field::Negative(number),
        _ => Field::Misshapen,
    }
}

// The six fields of kinds and numbers.
#[tactic(auto, unfolding(crate::specs::Kinds::fields_of_kinds))]
pub fn fields_of_kinds(kinds: &[u8; 6], numbers: &[u64; 6]) -> [Field; 6]
    ensures { result ≡ fields_of_kinds kinds.now numbers.now }
{
    array::from_fn(|j| field_of_kind(kinds[j], numbers[j]))
}
