// A row for each line: its word and the numbers of its fields.
use model::text::Word;

// A word and the numbers of F1 to F6; F6 takes two, what a bound adds and what it takes away.
#[derive(Clone, Copy)]
pub struct Row {
    pub word: Word,
    pub first: u64,
    pub second: u64,
    pub third: u64,
    pub fourth: u64,
    pub fifth: u64,
    pub sixth: u64,
    pub seventh: u64,
}

impl Row {
    // What an array of rows is filled with before the lines are read.
    pub const BLANK: Row = Row {
        word: Word::Stop,
        first: 0,
        second: 0,
        third: 0,
        fourth: 0,
        fifth: 0,
        sixth: 0,
        seventh: 0,
    };
}
