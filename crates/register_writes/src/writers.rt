// What writes the TURN register: every instruction that does takes a number from it, and no more than it holds.
ghost use Rattle.std.specs.Prelude.{◌≡◌, ◌<◌, IfSome};
ghost use Rattle.model.specs.Limits.{registers};
ghost use Rattle.model.specs.Lists.{every, among};
ghost use Rattle.model.specs.Instructions.{writes};
ghost use Rattle.model.specs.Facts.{Facts, lo};
ghost use Rattle.model.specs.Bound.{takes_at_most, takes_from, writes_to, only_takes};
ghost use Rattle.rows_and_places.specs.Points.{point_in, points_in, Placed, AllPlaced};
ghost use Rattle.register_writes.specs.Taken.{only_taken};

use decoded::instruction_from;
use line_rows::rows::Row;
use model::machine::{Instruction, Operand};
use register_claims::range::range_at;
use rows_and_places::places::{Places, instruction_row};

// Whether an instruction writes the register r.
#[tactic(auto, unfolding(model::specs::Lists::some))]
fn writes_to(r: usize, i: Instruction) -> bool
    ensures { result ≡ among r (writes i) }
{
    match i {
        Instruction::Setc { d, .. }
        | Instruction::Copy { d, .. }
        | Instruction::Addw { d, .. }
        | Instruction::Subw { d, .. }
        | Instruction::Mulw { d, .. }
        | Instruction::Divf { d, .. }
        | Instruction::Load { d, .. } => r == d,
        Instruction::Divm { q, r: left, .. } => r == q || r == left,
        _ => false,
    }
}

// Whether an operand is a number from 1 to n.
fn takes_at_most(n: u64, o: Operand) -> bool
    ensures { result ≡ takes_at_most n o }
{
    match o {
        Operand::Variable(_) => false,
        Operand::Number(c) => 1 <= c && u64::from(c) <= n,
    }
}

// Whether an instruction takes from the register r a number of at least 1 and at most low, its low end there.
fn takes_from(r: usize, low: u64, i: Instruction) -> bool
    ensures { (f : Facts) → low ≡ lo f.ranges r → result ≡ takes_from r f i }
{
    match i {
        Instruction::Subw { d, i, o } => d == r && i == r && takes_at_most(low, o),
        _ => false,
    }
}

// Whether point p writes the register r. Where neither F1 nor F3 of its row is r, no instruction that it may hold does.
pub fn point_writes(rows: &[Row], at: &Places, p: usize, r: usize) -> bool
    requires { Placed rows.now at.now p }
    ensures { result ≡ writes_to r (point_in rows.now at.now p) }
{
    let row = instruction_row(rows, at, p);
    let n = r as u64;
    (row.first == n || row.third == n) && writes_to(r, instruction_from(row))
}

// Whether point p, if it writes the register r, only takes from it.
fn only_takes(rows: &[Row], at: &Places, p: usize, r: usize) -> bool
    requires { Placed rows.now at.now p × (r < registers) }
    ensures { result ≡ only_takes r (point_in rows.now at.now p) }
{
    if point_writes(rows, at, p, r) {
        let range = range_at(rows, at, p, r);
        let i = instruction_from(instruction_row(rows, at, p));
        return takes_from(r, range.lo, i);
    }
    true
}

// The same for n points.
fn all_take(rows: &[Row], at: &Places, n: usize, r: usize) -> bool
    requires { AllPlaced rows.now at.now n × (r < registers) }
    ensures { result ≡ every (only_takes r) (points_in rows.now at.now n) }
{
    for p in 0..n {
        if !only_takes(rows, at, p, r) {
            return false;
        }
    }
    true
}

// The TURN register, where there is one and every instruction that writes it only takes from it.
pub fn only_taken(rows: &[Row], at: &Places, n: usize, t: Option<usize>) -> Option<usize>
    requires { AllPlaced rows.now at.now n × IfSome t (λ r. r < registers) }
    ensures { result ≡ only_taken (points_in rows.now at.now n) t }
{
    match t {
        Some(r) if all_take(rows, at, n, r) => Some(r),
        _ => None,
    }
}
