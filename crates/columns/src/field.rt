// A field: how many columns it has, and what is kept of it.
ghost use Rattle.std.specs.Prelude.{◌≡◌, false, cond, ◌<◌};
ghost use Rattle.model.specs.Lines.{width_of};
ghost use Rattle.columns.specs.Kept as Kept;
ghost use Rattle.columns.specs.Kept.{is_blank, is_negative, kept, kept_fields, shape_at, shape_in};

use model::text::Field;

// The shape that is kept of a field: nothing but spaces, a number, a number after a minus, or anything else.
#[derive(Clone, Copy, PartialEq, Eq)]
pub enum KeptShape {
    Blank,
    Number,
    Negative,
    Misshapen,
}

impl KeptShape {
    // Nothing but spaces.
    pub fn is_blank(self) -> bool
        ensures { result ≡ is_blank self }
    {
        self == KeptShape::Blank
    }

    // A number after a minus.
    pub fn is_negative(self) -> bool
        ensures { result ≡ is_negative self }
    {
        self == KeptShape::Negative
    }
}

// A field as its shape and its number side by side. The number is 0 where there is none, so that no use of it looks at the shape: with the number in the enum reading took a third longer.
#[derive(Clone, Copy)]
pub struct KeptField {
    pub shape: KeptShape,
    pub number: u64,
}

impl KeptField {
    // A field of spaces.
    pub const BLANK: KeptField = KeptField {
        shape: KeptShape::Blank,
        number: 0,
    };

    // Columns that are neither spaces nor a number.
    pub const MISSHAPEN: KeptField = KeptField {
        shape: KeptShape::Misshapen,
        number: 0,
    };

    // A number, after a minus or not.
    pub fn signed(negative: bool, number: u64) -> KeptField
        ensures { result ≡ Kept.signed negative number }
    {
        let shape = if negative {
            KeptShape::Negative
        } else {
            KeptShape::Number
        };
        KeptField { shape, number }
    }

    // A number without a minus.
    pub fn number(number: u64) -> KeptField
        ensures { result ≡ Kept.signed false number }
    {
        KeptField::signed(false, number)
    }
}

// The six fields of a line: their shapes in one number, F6 in its last two binary digits, and the number of each.
#[derive(Clone, Copy)]
pub struct KeptFields {
    pub shapes: u32,
    pub first: u64,
    pub second: u64,
    pub third: u64,
    pub fourth: u64,
    pub fifth: u64,
    pub sixth: u64,
}

impl KeptFields {
    // The shape of field j, counted from 0.
    pub fn shape(&self, j: usize) -> KeptShape
        requires { j < 6 }
        ensures { result ≡ shape_in self.now.shapes j }
    {
        shape_at((self.shapes >> 2 * (5 - j)) % 4)
    }
}

// The number of columns of field j, counted from 0.
pub fn width(j: usize) -> usize
    ensures { result ≡ width_of j }
{
    if j == 5 { 15 } else { 4 }
}

// What is kept of a field whose number begins with 0: 0 leads only alone, in the last column.
pub fn leading_zero(last: bool) -> KeptField
    ensures { result ≡ cond last (Kept.signed false 0) Kept.misshapen }
{
    if last {
        KeptField::number(0)
    } else {
        KeptField::MISSHAPEN
    }
}

// What is kept of a field, where a minus may stand or not.
fn kept<const SIGNED: bool>(f: Field) -> KeptField
    ensures { result ≡ kept SIGNED f }
{
    match f {
        Field::Blank => KeptField::BLANK,
        Field::Number(v) => KeptField::number(v),
        Field::Negative(v) => {
            if SIGNED {
                KeptField::signed(true, v)
            } else {
                KeptField::MISSHAPEN
            }
        }
        Field::Misshapen => KeptField::MISSHAPEN,
    }
}

// Six shapes in one number.
pub fn packed(
    a: KeptShape,
    b: KeptShape,
    c: KeptShape,
    d: KeptShape,
    e: KeptShape,
    f: KeptShape,
) -> u32
    ensures { result ≡ Kept.packed a b c d e f }
{
    ((((a as u32 * 4 + b as u32) * 4 + c as u32) * 4 + d as u32) * 4 + e as u32) * 4 + f as u32
}

// The shape of a number.
fn shape_at(n: u32) -> KeptShape
    ensures { result ≡ shape_at n }
{
    match n {
        0 => KeptShape::Blank,
        1 => KeptShape::Number,
        2 => KeptShape::Negative,
        _ => KeptShape::Misshapen,
    }
}

// Six fields, each kept by itself, as those of a line.
pub fn six(
    a: KeptField,
    b: KeptField,
    c: KeptField,
    d: KeptField,
    e: KeptField,
    f: KeptField,
) -> KeptFields
    ensures { result ≡ Kept.six a b c d e f }
{
    KeptFields {
        shapes: packed(a.shape, b.shape, c.shape, d.shape, e.shape, f.shape),
        first: a.number,
        second: b.number,
        third: c.number,
        fourth: d.number,
        fifth: e.number,
        sixth: f.number,
    }
}

// What is kept of six fields.
pub fn kept_fields(fs: [Field; 6]) -> KeptFields
    ensures { result ≡ kept_fields fs }
{
    let a = kept::<false>(fs[0]);
    let b = kept::<false>(fs[1]);
    let c = kept::<false>(fs[2]);
    let d = kept::<false>(fs[3]);
    let e = kept::<false>(fs[4]);
    let f = kept::<true>(fs[5]);
    six(a, b, c, d, e, f)
}
