// The ends of a range moved: at least, at most or below a number, away from one, or to what two ranges share.
#![tactic(auto)]

ghost use Rattle.std.specs.Prelude.{◌≡◌, cond, ◌+◌, ◌-◌, ◌≤◌, min, max, eqb};
ghost use Rattle.model.specs.Limits.{MAX};
ghost use Rattle.model.specs.Transfer as Model;
ghost use Rattle.model.specs.Transfer.{at_least, at_most};

use model::claims::Range;

// The high end at most one less than e; nothing where that falls below 0.
pub fn below(e: u64, r: Range) -> Range
    ensures { result ≡ Model.below e r }
{
    if e == 0 {
        return Range::nothing();
    }
    let hi = r.hi.min(e - 1);
    Range::between(r.lo, hi)
}

// The low end at least e.
pub fn at_least(e: u64, r: Range) -> Range
    ensures { result ≡ at_least e r }
{
    let lo = r.lo.max(e);
    Range::between(lo, r.hi)
}

// The high end at most e.
pub fn at_most(e: u64, r: Range) -> Range
    ensures { result ≡ at_most e r }
{
    let hi = r.hi.min(e);
    Range::between(r.lo, hi)
}

// What two ranges share.
pub fn overlap(r: Range, q: Range) -> Range
    ensures { result ≡ Model.overlap r q }
{
    let lo = r.lo.max(q.lo);
    let hi = r.hi.min(q.hi);
    Range::between(lo, hi)
}

// A low end equal to c moved up by 1.
fn low_without(c: u64, lo: u64) -> u64
    requires { c ≤ MAX }
    ensures { result ≡ cond (eqb lo c) (c + 1) lo }
{
    if lo == c { c + 1 } else { lo }
}

// A high end equal to c moved down by 1; 0 stays, since the low end is then at least 1.
fn high_without(c: u64, hi: u64) -> u64
    ensures { result ≡ cond (eqb hi c) (c - 1) hi }
{
    if hi == c { c.saturating_sub(1) } else { hi }
}

// An end equal to c moved inward by 1.
pub fn without(c: u64, r: Range) -> Range
    requires { c ≤ MAX }
    ensures { result ≡ Model.without c r }
{
    let lo = low_without(c, r.lo);
    let hi = high_without(c, r.hi);
    Range::between(lo, hi)
}
