// The two ranges that an instruction of a variable and an operand reads.
use model::claims::Range;

// The range r of the variable and the range q of the operand.
#[derive(Clone, Copy)]
pub struct Pair {
    pub r: Range,
    pub q: Range,
}
