// The text of a listing: a field's columns, the words, what a field holds.
// The columns of a field so far, without the number that they give.
#[derive(Clone, Copy)]
pub enum Shape {
    Spaces,
    Zero,
    Digits,
    Sign,
    Signed,
    Wrong,
}

// A field as it is read: blank, a number, a minus and a number, or misshapen.
#[derive(Clone, Copy)]
pub enum Field {
    Blank,
    Number(u64),
    Negative(u64),
    Misshapen,
}

// The words that begin a line.
#[derive(Clone, Copy)]
pub enum Word {
    Stop,
    Setc,
    Copy,
    Addw,
    Subw,
    Mulw,
    Divf,
    Load,
    Stor,
    Jump,
    Bltu,
    Bequ,
    Leas,
    Most,
    Strp,
    Divm,
    Turn,
}

// What the number of a field stands for.
#[derive(Clone, Copy)]
pub enum Content {
    Register,
    Variable,
    Target,
    Width,
    Table,
    Scale,
    Offset,
    Number,
    Choice,
    Operand,
    Claimed,
    Bound,
}

// What a word asks of a field: nothing but spaces, a number, a number or spaces, a number that may have a minus.
#[derive(Clone, Copy)]
pub enum Kind {
    Empty,
    Plain(Content),
    Optional(Content),
    Signed(Content),
}
