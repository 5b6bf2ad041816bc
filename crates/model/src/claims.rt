// Claims: ranges, stripes, and the lines that write them.
ghost use Rattle.std.specs.Prelude.{◌≡◌};
ghost use Rattle.model.specs.Facts;
ghost use Rattle.model.specs.Facts.{unclaimed_range};
ghost use Rattle.model.specs.Transfer;

use crate::answers::Refusal;
use crate::limits::{GREATEST_SIZE, MAX, REGISTERS};
use crate::machine::Instruction;

// The values from lo to hi; empty where lo is above hi.
#[derive(Clone, Copy)]
pub struct Range {
    pub lo: u64,
    pub hi: u64,
}

impl Range {
    // The unclaimed range of a register.
    pub const REGISTER: Range = Range { lo: 0, hi: MAX };
    // The unclaimed range of a size.
    pub const SIZE: Range = Range {
        lo: 0,
        hi: GREATEST_SIZE,
    };

    // The range from one number to another.
    pub fn between(lo: u64, hi: u64) -> Range
        ensures { result ≡ Facts.between lo hi }
    {
        Range { lo, hi }
    }

    // The range of one number.
    pub fn exactly(c: u64) -> Range
        ensures { result ≡ Facts.exactly c }
    {
        Range::between(c, c)
    }

    // A range that holds nothing.
    pub fn nothing() -> Range
        ensures { result ≡ Transfer.nothing }
    {
        Range::between(1, 0)
    }

    // The unclaimed range of a variable.
    pub fn unclaimed(v: usize) -> Range
        ensures { result ≡ unclaimed_range v }
    {
        if v < REGISTERS {
            Range::REGISTER
        } else {
            Range::SIZE
        }
    }
}

// The claim x - a * (y + z) >= plus - minus. A blank z is the number of variables, one past the last.
#[derive(Clone, Copy)]
pub struct Stripe {
    pub x: u8,
    pub a: u16,
    pub y: u8,
    pub z: u8,
    pub plus: u64,
    pub minus: u64,
}

// A claim as a line writes it. TURN names a register and claims nothing of it.
#[derive(Clone, Copy)]
pub enum Claim {
    Leas { v: usize, least: u64 },
    Most { v: usize, most: u64 },
    Strp(Stripe),
    Turn { register: usize },
}

// A line of a listing as it is read.
#[derive(Clone, Copy)]
pub enum Line {
    Refused(Refusal),
    Claim(Claim),
    Instruction(Instruction),
}
