// What an edge does to the stripes, a function for each rule.
#![tactic(auto)]

ghost use Rattle.std.specs.Prelude.{◌≡◌, cond, ◌∷◌, ◌<◌, ◌≤◌, eqb};
ghost use Rattle.model.specs.declared.machine.Operand.TheVariants.{Number};
ghost use Rattle.model.specs.Limits.{variables, MAX, today};
ghost use Rattle.model.specs.Transfer as Model;
ghost use Rattle.model.specs.Transfer.{by_number, sum_stripes, difference_stripes, product_stripes, less_stripes, not_less_stripes, equal_stripes, stripes_along};
ghost use Rattle.model.specs.Limited.{OperandLimited, ArithmeticLimited, Limited};

use facts::point::PointFacts;
use facts::stripes::StripeList;
use kept_stripes::{
    all, all_shifted, both_dropped, dropped, one_and_all, one_and_dropped, two_and_all,
    two_and_dropped,
};
use model::claims::Stripe;
use model::limits::{BLANK_VARIABLE, GREATEST_SCALE};
use model::machine::{Edge, Instruction, Operand};
use range_rules::{difference_fits, product_fits, sum_fits};

// The stripe x - a * (y + z) >= 0.
fn stripe(x: usize, a: u16, y: usize, z: usize) -> Stripe
    requires { (x < variables) × (y < variables) × (z ≤ variables) }
    ensures { result ≡ Model.stripe x a y z 0 0 }
{
    Stripe {
        x: x as u8,
        a,
        y: y as u8,
        z: z as u8,
        plus: 0,
        minus: 0,
    }
}

// The stripe u - v >= plus - minus.
fn apart(u: usize, v: usize, plus: u64, minus: u64) -> Stripe
    requires { (u < variables) × (v < variables) }
    ensures { result ≡ Model.apart u v plus minus }
{
    Stripe {
        plus,
        minus,
        ..stripe(u, 1, v, BLANK_VARIABLE)
    }
}

// d = i + up - down for a number: both ways round, or all stripes shifted where d is i.
fn by_number(d: usize, i: usize, up: u64, down: u64, f: &PointFacts, new: &mut StripeList)
    requires d_lt_variables { (d < variables) × (i < variables) }
    requires up_bound { (up ≤ MAX) × (down ≤ MAX) }
    ensures { new.new ≡ by_number today d i up down f.now.stripes }
{
    if d == i {
        all_shifted(d, up, down, f, new);
    } else {
        two_and_dropped(apart(d, i, up, down), apart(i, d, down, up), d, f, new);
    }
}

// The stripes after COPY: d and i both ways round, or all where d is i.
fn copy_stripes(d: usize, i: usize, f: &PointFacts, new: &mut StripeList)
    requires { (d < variables) × (i < variables) }
    ensures { new.new ≡ cond (eqb d i) f.now.stripes (Model.apart d i 0 0 ∷ Model.apart i d 0 0 ∷ Model.dropped d f.now.stripes) }
{
    if d == i {
        all(f, new);
    } else {
        two_and_dropped(apart(d, i, 0, 0), apart(i, d, 0, 0), d, f, new);
    }
}

// ADDW where nothing wraps: by a number, or d - (i + o) >= 0.
fn sum_stripes(d: usize, i: usize, o: Operand, f: &PointFacts, new: &mut StripeList)
    requires { ArithmeticLimited d i o }
    ensures { new.new ≡ sum_stripes today d i o f.now.stripes }
{
    match o {
        Operand::Variable(v) => {
            if (d == i) | (d == v) {
                dropped(d, f, new);
            } else {
                one_and_dropped(stripe(d, 1, i, v), d, f, new);
            }
        }
        Operand::Number(c) => by_number(d, i, u64::from(c), 0, f, new),
    }
}

// SUBW where nothing wraps: by a number, or i - (d + o) >= 0.
fn difference_stripes(d: usize, i: usize, o: Operand, f: &PointFacts, new: &mut StripeList)
    requires { ArithmeticLimited d i o }
    ensures { new.new ≡ difference_stripes today d i o f.now.stripes }
{
    match o {
        Operand::Variable(v) => {
            if (d == i) | (d == v) {
                dropped(d, f, new);
            } else {
                one_and_dropped(stripe(i, 1, d, v), d, f, new);
            }
        }
        Operand::Number(c) => by_number(d, i, 0, u64::from(c), f, new),
    }
}

// MULW by a number where nothing wraps: d - c * i >= 0, if c can be a scale.
fn scaled_stripes(d: usize, i: usize, c: u32, f: &PointFacts, new: &mut StripeList)
    requires { (d < variables) × (i < variables) }
    ensures { new.new ≡ product_stripes today d i (Number c) f.now.stripes }
{
    if (1 <= c) & (c <= GREATEST_SCALE as u32) & (d != i) {
        one_and_dropped(stripe(d, c as u16, i, BLANK_VARIABLE), d, f, new);
    } else {
        dropped(d, f, new);
    }
}

// MULW where nothing wraps.
fn product_stripes(d: usize, i: usize, o: Operand, f: &PointFacts, new: &mut StripeList)
    requires { ArithmeticLimited d i o }
    ensures { new.new ≡ product_stripes today d i o f.now.stripes }
{
    match o {
        Operand::Variable(_) => dropped(d, f, new),
        Operand::Number(c) => scaled_stripes(d, i, c, f, new),
    }
}

// BLTU taken: o - i >= 1.
fn less_stripes(i: usize, o: Operand, f: &PointFacts, new: &mut StripeList)
    requires { (i < variables) × OperandLimited o }
    ensures { new.new ≡ less_stripes i o f.now.stripes }
{
    match o {
        Operand::Variable(v) => one_and_all(apart(v, i, 1, 0), f, new),
        Operand::Number(_) => all(f, new),
    }
}

// BLTU not taken: i - o >= 0.
fn not_less_stripes(i: usize, o: Operand, f: &PointFacts, new: &mut StripeList)
    requires { (i < variables) × OperandLimited o }
    ensures { new.new ≡ not_less_stripes i o f.now.stripes }
{
    match o {
        Operand::Variable(v) => one_and_all(apart(i, v, 0, 0), f, new),
        Operand::Number(_) => all(f, new),
    }
}

// BEQU taken: o - i >= 0 and i - o >= 0.
fn equal_stripes(i: usize, o: Operand, f: &PointFacts, new: &mut StripeList)
    requires { (i < variables) × OperandLimited o }
    ensures { new.new ≡ equal_stripes i o f.now.stripes }
{
    match o {
        Operand::Variable(v) => two_and_all(apart(v, i, 0, 0), apart(i, v, 0, 0), f, new),
        Operand::Number(_) => all(f, new),
    }
}

// The stripes along an edge of an instruction.
#[tactic(auto, unfolding(model::specs::Transfer::stripes_along))]
pub fn stripes_along(e: Edge, i: Instruction, f: &PointFacts, new: &mut StripeList)
    requires { Limited i }
    ensures { new.new ≡ stripes_along today e i f.now.ranges f.now.stripes }
{
    match i {
        Instruction::Stop => all(f, new),
        Instruction::Setc { d, .. } => dropped(d, f, new),
        Instruction::Copy { d, i } => copy_stripes(d, i, f, new),
        Instruction::Addw { d, i, o } => {
            if sum_fits(f.pair(i, o)) {
                sum_stripes(d, i, o, f, new);
            } else {
                dropped(d, f, new);
            }
        }
        Instruction::Subw { d, i, o } => {
            if difference_fits(f.pair(i, o)) {
                difference_stripes(d, i, o, f, new);
            } else {
                dropped(d, f, new);
            }
        }
        Instruction::Mulw { d, i, o } => {
            if product_fits(f.pair(i, o)) {
                product_stripes(d, i, o, f, new);
            } else {
                dropped(d, f, new);
            }
        }
        Instruction::Divf { d, .. } => dropped(d, f, new),
        Instruction::Load { d, .. } => dropped(d, f, new),
        Instruction::Stor { .. } => all(f, new),
        Instruction::Jump { .. } => all(f, new),
        Instruction::Bltu { i, o, .. } => match e {
            Edge::Next => not_less_stripes(i, o, f, new),
            Edge::Target(_) => less_stripes(i, o, f, new),
        },
        Instruction::Bequ { i, o, .. } => match e {
            Edge::Next => all(f, new),
            Edge::Target(_) => equal_stripes(i, o, f, new),
        },
        Instruction::Divm { q, r, .. } => both_dropped(q, r, f, new),
    }
}
