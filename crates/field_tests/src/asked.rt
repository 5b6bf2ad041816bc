// What is asked of a field, by what it is due to hold: the shape, and the limits of its number. The functions are named after the kinds and contents of the model.
#![tactic(auto, unfolding(crate::specs::Asked::asked_of, model::specs::Words::within))]

ghost use Rattle.std.specs.Prelude.{◌≡◌, true};
ghost use Rattle.model.specs.declared.text.Content.TheVariants.{Register, Variable, Target, Width, Table, Scale, Offset, Number, Choice, Operand, Claimed, Bound};
ghost use Rattle.model.specs.declared.text.Kind.TheVariants.{Optional, Signed};
ghost use Rattle.model.specs.Limits.{today};
ghost use Rattle.model.specs.Words.{within};
ghost use Rattle.columns.specs.declared.field.KeptShape.TheVariants as Shape;
ghost use Rattle.columns.specs.Kept.{side_by_side};
ghost use Rattle.field_tests.specs.Asked.{ask, asked_of, number_as, row as asked_row, signed_shape};

use columns::field::{KeptShape, packed};
use model::limits;
use model::limits::{GREATEST_BOUND, GREATEST_OFFSET, GREATEST_SCALE, GREATEST_SIZE, MAX};

// The limits that count places, as numbers of a field.
const REGISTERS: u64 = limits::REGISTERS as u64;

const VARIABLES: u64 = limits::VARIABLES as u64;

const TABLES: u64 = limits::TABLES as u64;

const GREATEST_POINTS: u64 = limits::GREATEST_POINTS as u64;

// The shape that is due, and whether the number is allowed.
#[derive(Clone, Copy)]
pub struct Asked {
    pub shape: KeptShape,
    pub allowed: bool,
}

impl Asked {
    // Nothing but spaces.
    const BLANK: Asked = Asked {
        shape: KeptShape::Blank,
        allowed: true,
    };
}

// The same of six fields, and whether the registers that are written differ.
#[derive(Clone, Copy)]
pub struct AskedRow {
    pub shapes: u32,
    pub allowed: bool,
    pub differ: bool,
}

// What six fields are asked, as one, where no two registers are written.
pub fn row(a: Asked, b: Asked, c: Asked, d: Asked, e: Asked, f: Asked) -> AskedRow
    ensures { result ≡ asked_row a b c d e f }
{
    AskedRow {
        shapes: packed(a.shape, b.shape, c.shape, d.shape, e.shape, f.shape),
        allowed: a.allowed & b.allowed & c.allowed & d.allowed & e.allowed & f.allowed,
        differ: true,
    }
}

// A number, which is allowed or not.
fn number_if(allowed: bool) -> Asked
    ensures { result ≡ ask Shape.Number allowed }
{
    Asked {
        shape: KeptShape::Number,
        allowed,
    }
}

// A field that the word does not name.
pub fn empty() -> Asked
    ensures { result ≡ ask Shape.Blank true }
{
    Asked::BLANK
}

// A register.
pub fn reg(v: u64) -> Asked
    ensures { result ≡ number_as Register v }
{
    number_if(v < REGISTERS)
}

// A variable.
pub fn var(v: u64) -> Asked
    ensures { result ≡ number_as Variable v }
{
    number_if(v < VARIABLES)
}

// A variable, or nothing.
pub fn var_or_empty(shape: KeptShape, v: u64) -> Asked
    ensures { result ≡ asked_of (Optional Variable) 0 0 (side_by_side shape v) }
{
    if shape.is_blank() {
        return Asked::BLANK;
    }
    number_if(v < VARIABLES)
}

// The point that a jump or a branch goes to.
pub fn target(v: u64) -> Asked
    ensures { result ≡ number_as Target v }
{
    number_if(v < GREATEST_POINTS)
}

// A width: 1, 2 or 4 bytes.
pub fn width(v: u64) -> Asked
    ensures { result ≡ number_as Width v }
{
    number_if((v == 1) | (v == 2) | (v == 4))
}

// A table that is read.
pub fn table(v: u64) -> Asked
    ensures { result ≡ number_as Table v }
{
    number_if(v < TABLES)
}

// A scale, from 1 on.
pub fn scale(v: u64) -> Asked
    ensures { result ≡ number_as Scale v }
{
    number_if((1 <= v) & (v <= GREATEST_SCALE))
}

// The offset of an access.
pub fn offset(v: u64) -> Asked
    ensures { result ≡ number_as Offset v }
{
    number_if(v <= GREATEST_OFFSET)
}

// Any number that a register holds.
pub fn number(v: u64) -> Asked
    ensures { result ≡ number_as Number v }
{
    number_if(v <= MAX)
}

// Whether the operand is a variable or a number.
pub fn choice(v: u64) -> Asked
    ensures { result ≡ number_as Choice v }
{
    number_if(v <= 1)
}

// A variable where the number of the choice is 0, and else a number.
pub fn operand(v: u64, choice: u64) -> Asked
    ensures { result ≡ ask Shape.Number (within today Operand 0 choice v) }
{
    if choice == 0 {
        return number_if(v < VARIABLES);
    }
    number_if(v <= MAX)
}

// The number of a claim on a variable, a register or a size.
pub fn claimed(v: u64, variable: u64) -> Asked
    ensures { result ≡ ask Shape.Number (within today Claimed variable 0 v) }
{
    if variable < REGISTERS {
        return number_if(v <= MAX);
    }
    number_if(v <= GREATEST_SIZE)
}

// The shape of a number that may have a minus, but not on 0.
fn signed_shape(shape: KeptShape, v: u64) -> KeptShape
    ensures { result ≡ signed_shape shape v }
{
    if shape.is_negative() & (v != 0) {
        return KeptShape::Negative;
    }
    KeptShape::Number
}

// The bound of a stripe, with a minus or without.
pub fn bound(shape: KeptShape, v: u64) -> Asked
    ensures { result ≡ asked_of (Signed Bound) 0 0 (side_by_side shape v) }
{
    Asked {
        shape: signed_shape(shape, v),
        allowed: v <= GREATEST_BOUND,
    }
}
