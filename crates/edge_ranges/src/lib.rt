// What an edge does to the ranges.
#![tactic(auto)]

ghost use Rattle.std.specs.Prelude.{◌≡◌, ◌<◌, ◌≤◌, set};
ghost use Rattle.model.specs.Limits.{variables, MAX};
ghost use Rattle.model.specs.Transfer as Model;
ghost use Rattle.model.specs.Facts.{range_of};
ghost use Rattle.model.specs.Transfer.{operand_range, less_ranges, not_less_ranges, equal_ranges, unequal_ranges, ranges_along};
ghost use Rattle.model.specs.Limited.{OperandLimited, Limited};

use facts::point::PointFacts;
use facts::ranges::Ranges;
use model::claims::Range;
use model::machine::{Edge, Instruction, Operand};
use quotient_ranges::{nearest_range, quotient_range, remainder_range};
use range_ends::{at_least, at_most, below, overlap, without};
use range_rules::{difference, loaded, product, sum};

// No range changed.
fn unchanged(f: &PointFacts, new: &mut Ranges)
    ensures { new.new ≡ f.now.ranges }
{
    new.copy_from(f.ranges());
}

// The range of one variable changed.
fn one(v: usize, r: Range, f: &PointFacts, new: &mut Ranges)
    requires { (v < variables) × (r.hi ≤ MAX) }
    ensures { new.new ≡ set f.now.ranges v r }
{
    new.copy_from(f.ranges());
    new.set(v, r);
}

// BLTU taken: hi(i) below hi(o), lo(o) above lo(i).
fn less_ranges(i: usize, o: Operand, f: &PointFacts, new: &mut Ranges)
    requires { (i < variables) × OperandLimited o }
    ensures { new.new ≡ less_ranges i o f.now.ranges }
{
    let p = f.pair(i, o);
    one(i, below(p.q.hi, p.r), f, new);
    if let Operand::Variable(v) = o {
        new.set(v, at_least(p.r.lo + 1, new.get(v)));
    }
}

// BLTU not taken: lo(i) at least lo(o), hi(o) at most hi(i).
fn not_less_ranges(i: usize, o: Operand, f: &PointFacts, new: &mut Ranges)
    requires { (i < variables) × OperandLimited o }
    ensures { new.new ≡ not_less_ranges i o f.now.ranges }
{
    let p = f.pair(i, o);
    one(i, at_least(p.q.lo, p.r), f, new);
    if let Operand::Variable(v) = o {
        new.set(v, at_most(p.r.hi, new.get(v)));
    }
}

// BEQU taken: both ranges become their overlap.
fn equal_ranges(i: usize, o: Operand, f: &PointFacts, new: &mut Ranges)
    requires { (i < variables) × OperandLimited o }
    ensures { new.new ≡ equal_ranges i o f.now.ranges }
{
    let p = f.pair(i, o);
    one(i, overlap(p.q, p.r), f, new);
    if let Operand::Variable(v) = o {
        new.set(v, overlap(p.r, new.get(v)));
    }
}

// BEQU not taken: an end of i equal to the one value of o moves inward.
fn unequal_ranges(i: usize, o: Operand, f: &PointFacts, new: &mut Ranges)
    requires { i < variables }
    ensures { new.new ≡ unequal_ranges i o f.now.ranges }
{
    let p = f.pair(i, o);
    if p.q.lo == p.q.hi {
        one(i, without(p.q.lo, p.r), f, new);
    } else {
        unchanged(f, new);
    }
}

// DIVM: the range of the quotient and that of the remainder, both from the ends before the step.
fn division_ranges(q: usize, i: usize, r: usize, o: Operand, f: &PointFacts, new: &mut Ranges)
    requires { (q < variables) × (r < variables) }
    ensures { new.new ≡ set (set f.now.ranges q (Model.quotient_range (range_of f.now.ranges i) (operand_range f.now.ranges o))) r (Model.remainder_range (range_of f.now.ranges i) (operand_range f.now.ranges o)) }
{
    let p = f.pair(i, o);
    one(q, quotient_range(p), f, new);
    new.set(r, remainder_range(p));
}

// The ranges along an edge of an instruction.
#[tactic(auto, unfolding(model::specs::Transfer::ranges_along))]
pub fn ranges_along(e: Edge, i: Instruction, f: &PointFacts, new: &mut Ranges)
    requires { Limited i }
    ensures { new.new ≡ ranges_along e i f.now.ranges }
{
    match i {
        Instruction::Stop => unchanged(f, new),
        Instruction::Setc { d, c } => one(d, Range::exactly(u64::from(c)), f, new),
        Instruction::Copy { d, i } => one(d, f.range(i), f, new),
        Instruction::Addw { d, i, o } => one(d, sum(f.pair(i, o)), f, new),
        Instruction::Subw { d, i, o } => one(d, difference(f.pair(i, o)), f, new),
        Instruction::Mulw { d, i, o } => one(d, product(f.pair(i, o)), f, new),
        Instruction::Divf { d, i, o } => one(d, nearest_range(f.pair(i, o)), f, new),
        Instruction::Load { d, w, .. } => one(d, loaded(w), f, new),
        Instruction::Stor { .. } => unchanged(f, new),
        Instruction::Jump { .. } => unchanged(f, new),
        Instruction::Bltu { i, o, .. } => match e {
            Edge::Next => not_less_ranges(i, o, f, new),
            Edge::Target(_) => less_ranges(i, o, f, new),
        },
        Instruction::Bequ { i, o, .. } => match e {
            Edge::Next => unequal_ranges(i, o, f, new),
            Edge::Target(_) => equal_ranges(i, o, f, new),
        },
        Instruction::Divm { q, i, r, o } => division_ranges(q, i, r, o, f, new),
    }
}
