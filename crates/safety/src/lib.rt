// Refusals 12 and 13: whether the divisor or the access of a point is safe by what is known at the point itself.
#![tactic(auto)]

ghost use Rattle.std.specs.Prelude.{◌≡◌, cond, ◌+◌, ◌*◌, ◌≤◌, ◌<◌, leb, Err};
ghost use Rattle.model.specs.Types.{accepted};
ghost use Rattle.model.specs.declared.answers.Refusal.TheVariants.{DivisorMayBeZero, AccessMayLeave};
ghost use Rattle.model.specs.Limits.{blank_variable, greatest_links, variables};
ghost use Rattle.model.specs.Facts.{lo, hi};
ghost use Rattle.model.specs.Machine.{bytes_of, size_variable};
ghost use Rattle.model.specs.Transfer.{stripe};
ghost use Rattle.model.specs.Follows.{follows};
ghost use Rattle.model.specs.Check.{divisor_safe, access_safe, safety_judged};
ghost use Rattle.model.specs.Limited.{AccessLimited, Limited};

use facts::point::PointFacts;
use facts::sizes::scaled;
use goals::follows::goal_follows_with_low_words;
use model::answers::{Judgement, Refusal};
use model::claims::Stripe;
use model::limits::{BLANK_VARIABLE, RESULTS_SIZE, TRAYS_SIZE};
use model::machine::{Access, Instruction, Operand, Table, Width};

// The bytes of an access.
fn bytes(w: Width) -> u64
    ensures { (result ≡ bytes_of w) × (result ≤ 4) }
{
    match w {
        Width::One => 1,
        Width::Two => 2,
        Width::Four => 4,
    }
}

// The variable that holds the size of a table.
fn size_variable(b: Table) -> u8
    ensures { (result ≡ size_variable b) × (result < variables) }
{
    match b {
        Table::Trays => TRAYS_SIZE as u8,
        Table::Results => RESULTS_SIZE as u8,
    }
}

// Whether the divisor is never 0.
fn divisor_safe(f: &PointFacts, o: Operand) -> bool
    ensures { result ≡ divisor_safe f.now o }
{
    1 <= f.operand_range(o).lo
}

// Whether the ranges alone keep the access inside its table.
fn safe_by_ranges(f: &PointFacts, access: Access) -> bool
    requires { AccessLimited access.a access.i access.k }
    ensures { result ≡ leb (access.a * hi f.now.ranges access.i + access.k + bytes_of access.w) (lo f.now.ranges (size_variable access.table)) }
{
    let Access { table, w, a, i, k } = access;
    let size = f.range(usize::from(size_variable(table)));
    scaled(a as u16, f.range(i).hi) + k as u64 + bytes(w) <= size.lo
}

// Whether size - a * i >= k + w follows.
fn safe_by_goal(f: &PointFacts, access: Access) -> bool
    requires { AccessLimited access.a access.i access.k }
    ensures { result ≡ follows f.now greatest_links (stripe (size_variable access.table) access.a access.i blank_variable (access.k + bytes_of access.w) 0) }
{
    let Access { table, w, a, i, k } = access;
    let g = Stripe {
        x: size_variable(table),
        a: a as u16,
        y: i as u8,
        z: BLANK_VARIABLE as u8,
        plus: k as u64 + bytes(w),
        minus: 0,
    };
    goal_follows_with_low_words(f.known(), g)
}

// Whether the access lies inside its table.
fn access_safe(f: &PointFacts, access: Access) -> bool
    requires { AccessLimited access.a access.i access.k }
    ensures { result ≡ access_safe f.now access.table access.w access.a access.i access.k }
{
    safe_by_ranges(f, access) || safe_by_goal(f, access)
}

// The judgement of a divisor.
fn divisor_judged(line: usize, f: &PointFacts, o: Operand) -> Judgement
    ensures { result ≡ cond (divisor_safe f.now o) accepted (Err (DivisorMayBeZero line)) }
{
    if divisor_safe(f, o) {
        Ok(())
    } else {
        Err(Refusal::DivisorMayBeZero { line })
    }
}

// The judgement of an access.
fn access_judged(line: usize, f: &PointFacts, access: Access) -> Judgement
    requires { AccessLimited access.a access.i access.k }
    ensures { result ≡ cond (access_safe f.now access.table access.w access.a access.i access.k) accepted (Err (AccessMayLeave line)) }
{
    if access_safe(f, access) {
        Ok(())
    } else {
        Err(Refusal::AccessMayLeave { line })
    }
}

// The judgement of a point's own safety.
#[tactic(auto, unfolding(model::specs::Check::safety_judged))]
pub fn safety_judged(line: usize, f: &PointFacts, i: Instruction) -> Judgement
    requires { Limited i }
    ensures { result ≡ safety_judged line f.now i }
{
    match i {
        Instruction::Stop => Ok(()),
        Instruction::Setc { .. } => Ok(()),
        Instruction::Copy { .. } => Ok(()),
        Instruction::Addw { .. } => Ok(()),
        Instruction::Subw { .. } => Ok(()),
        Instruction::Mulw { .. } => Ok(()),
        Instruction::Divf { o, .. } => divisor_judged(line, f, o),
        Instruction::Load {
            w,
            table,
            a,
            i,
            k,
            ..
        } => access_judged(line, f, Access { table, w, a, i, k }),
        Instruction::Stor { w, a, i, k, .. } => {
            let table = Table::Results;
            access_judged(line, f, Access { table, w, a, i, k })
        }
        Instruction::Jump { .. } => Ok(()),
        Instruction::Bltu { .. } => Ok(()),
        Instruction::Bequ { .. } => Ok(()),
        Instruction::Divm { o, .. } => divisor_judged(line, f, o),
    }
}
