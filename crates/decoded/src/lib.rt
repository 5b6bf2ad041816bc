// What a row holds.
#![tactic(auto)]

ghost use Rattle.std.specs.Prelude.{◌≡◌, ◌%◌, ◌<◌, [], ◌∷◌, length, MatchOption};
ghost use Rattle.model.specs.Limits.{modulus};
ghost use Rattle.model.specs.Instructions.{targets, is_stop};
ghost use Rattle.model.specs.Lines.{width_from, table_from};
ghost use Rattle.line_rows.specs.Rows.{row_at};
ghost use Rattle.decoded.specs.Decoded.{operand_in, instruction_from, stripe_from, claim_from};

use line_rows::rows::Row;
use model::claims::{Claim, Stripe};
use model::limits::MODULUS;
use model::machine::{Instruction, Operand, Table, Width};
use model::text::Word;

// The low 32 bits: every number that a register can hold is kept whole.
fn word(n: u64) -> u32
    ensures { result ≡ n % modulus }
{
    (n % MODULUS) as u32
}

// The low 16 bits: every scale is kept whole.
fn scale(n: u64) -> u16
    ensures { result ≡ n % 65536 }
{
    (n % 65_536) as u16
}

// The low 8 bits: every variable is kept whole, and the blank one.
fn byte(n: u64) -> u8
    ensures { result ≡ n % 256 }
{
    (n % 256) as u8
}

// The width of so many bytes.
fn width_from(n: u64) -> Width
    ensures { result ≡ width_from n }
{
    match n {
        1 => Width::One,
        2 => Width::Two,
        _ => Width::Four,
    }
}

// The table of a number.
fn table_from(n: u64) -> Table
    ensures { result ≡ table_from n }
{
    match n {
        0 => Table::Trays,
        _ => Table::Results,
    }
}

// The operand of a choice and a number.
fn operand_in(chosen: u64, n: u64) -> Operand
    ensures { result ≡ operand_in chosen n }
{
    match chosen {
        0 => Operand::Variable(n as usize),
        _ => Operand::Number(word(n)),
    }
}

// The instruction of a row.
pub fn instruction_from(r: &Row) -> Instruction
    ensures { result ≡ instruction_from r.now }
{
    match r.word {
        Word::Stop => Instruction::Stop,
        Word::Setc => Instruction::Setc {
            d: r.first as usize,
            c: word(r.sixth),
        },
        Word::Copy => Instruction::Copy {
            d: r.first as usize,
            i: r.second as usize,
        },
        Word::Addw => Instruction::Addw {
            d: r.first as usize,
            i: r.second as usize,
            o: operand_in(r.fifth, r.sixth),
        },
        Word::Subw => Instruction::Subw {
            d: r.first as usize,
            i: r.second as usize,
            o: operand_in(r.fifth, r.sixth),
        },
        Word::Mulw => Instruction::Mulw {
            d: r.first as usize,
            i: r.second as usize,
            o: operand_in(r.fifth, r.sixth),
        },
        Word::Divf => Instruction::Divf {
            d: r.first as usize,
            i: r.second as usize,
            o: operand_in(r.fifth, r.sixth),
        },
        Word::Load => Instruction::Load {
            d: r.first as usize,
            w: width_from(r.second),
            table: table_from(r.third),
            a: r.fourth as usize,
            i: r.fifth as usize,
            k: r.sixth as usize,
        },
        Word::Stor => Instruction::Stor {
            v: r.first as usize,
            w: width_from(r.second),
            a: r.fourth as usize,
            i: r.fifth as usize,
            k: r.sixth as usize,
        },
        Word::Jump => Instruction::Jump {
            t: r.fourth as usize,
        },
        Word::Bltu => Instruction::Bltu {
            i: r.second as usize,
            t: r.fourth as usize,
            o: operand_in(r.fifth, r.sixth),
        },
        Word::Divm => Instruction::Divm {
            q: r.first as usize,
            i: r.second as usize,
            r: r.third as usize,
            o: operand_in(r.fifth, r.sixth),
        },
        // A row of a claim is never asked for an instruction.
        Word::Bequ | Word::Leas | Word::Most | Word::Strp | Word::Turn => Instruction::Bequ {
            i: r.second as usize,
            t: r.fourth as usize,
            o: operand_in(r.fifth, r.sixth),
        },
    }
}

// The stripe of a row.
fn stripe_from(r: &Row) -> Stripe
    ensures { result ≡ stripe_from r.now }
{
    Stripe {
        x: byte(r.first),
        a: scale(r.second),
        y: byte(r.third),
        z: byte(r.fourth),
        plus: r.sixth,
        minus: r.seventh,
    }
}

// The claim of a row that holds one.
fn claim_from(r: &Row) -> Claim
    ensures { result ≡ claim_from r.now }
{
    match r.word {
        Word::Strp => Claim::Strp(stripe_from(r)),
        Word::Leas => Claim::Leas {
            v: r.first as usize,
            least: r.sixth,
        },
        Word::Most => Claim::Most {
            v: r.first as usize,
            most: r.sixth,
        },
        _ => Claim::Turn {
            register: r.first as usize,
        },
    }
}

// The claim of the k-th row.
pub fn claim_at(rows: &[Row], k: usize) -> Claim
    requires { k < length rows.now }
    ensures { result ≡ claim_from (row_at rows.now k) }
{
    claim_from(&rows[k])
}

// Whether the instruction of a row is STOP.
pub fn is_stop(r: &Row) -> bool
    ensures { result ≡ is_stop (instruction_from r.now) }
{
    matches!(r.word, Word::Stop)
}

// The target of the instruction of a row, which stands in F4; None for the words that name none.
pub fn target_from(r: &Row) -> Option<usize>
    ensures { MatchOption result (targets (instruction_from r.now) ≡ []) (λ t. targets (instruction_from r.now) ≡ t ∷ []) }
{
    match r.word {
        Word::Stop
        | Word::Setc
        | Word::Copy
        | Word::Addw
        | Word::Subw
        | Word::Mulw
        | Word::Divf
        | Word::Load
        | Word::Stor
        | Word::Divm => None,
        _ => Some(r.fourth as usize),
    }
}
