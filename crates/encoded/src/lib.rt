// What a line holds, as a row.
#![tactic(auto)]

ghost use Rattle.std.specs.Prelude.{◌≡◌, true, cond, List};
ghost use Rattle.model.specs.declared.text.Field.{Field};
ghost use Rattle.model.specs.Limits.{blank_variable};
ghost use Rattle.model.specs.Lines.{in_shape};
ghost use Rattle.columns.specs.Kept.{is_blank, is_negative, kept_fields};
ghost use Rattle.encoded.specs.Encoded.{row_of};

use columns::field::{KeptFields, KeptShape};
use line_rows::rows::Row;
use model::limits::BLANK_VARIABLE;
use model::text::Word;

// The variable z, of a field of this shape and number.
fn variable_or_blank(shape: KeptShape, v: u64) -> u64
    ensures { result ≡ cond (is_blank shape) blank_variable v }
{
    if shape.is_blank() {
        BLANK_VARIABLE as u64
    } else {
        v
    }
}

// What a bound of this shape and number adds.
fn plus_in(shape: KeptShape, v: u64) -> u64
    ensures { result ≡ cond (is_negative shape) 0 v }
{
    if shape.is_negative() { 0 } else { v }
}

// What a bound of this shape and number takes away.
fn minus_in(shape: KeptShape, v: u64) -> u64
    ensures { result ≡ cond (is_negative shape) v 0 }
{
    if shape.is_negative() { v } else { 0 }
}

// The row of a word whose fields are in shape.
pub fn row_of(w: Word, x: KeptFields) -> Row
    ensures { (fs : List Field) → x ≡ kept_fields fs → in_shape w fs ≡ true → result ≡ row_of w fs }
{
    let fourth = x.shape(3);
    let sixth = x.shape(5);
    Row {
        word: w,
        first: x.first,
        second: x.second,
        third: x.third,
        fourth: variable_or_blank(fourth, x.fourth),
        fifth: x.fifth,
        sixth: plus_in(sixth, x.sixth),
        seventh: minus_in(sixth, x.sixth),
    }
}
