// The ranges of quotients and of a remainder.
#![tactic(auto)]

ghost use Rattle.std.specs.Prelude.{◌≡◌, ◌≤◌};
ghost use Rattle.model.specs.Limits.{MAX};
ghost use Rattle.model.specs.Transfer.{nearest_range, quotient_range, remainder_range};
ghost use Rattle.facts.specs.Bounds.{Word};

use facts::pair::Pair;
use model::claims::Range;
use operations::arithmetic::nearest_quotient;
use range_ends::below;

// The range of a nearest quotient; nothing where the divisor is 0.
pub fn nearest_range(p: Pair) -> Range
    requires { Word p.r × Word p.q }
    ensures { (result ≡ nearest_range p.r p.q) × (result.hi ≤ MAX) }
{
    if p.q.hi == 0 {
        return Range::nothing();
    }
    let least = p.q.lo.max(1);
    let lo = nearest_quotient(p.r.lo, p.q.hi);
    let hi = nearest_quotient(p.r.hi, least);
    Range::between(lo, hi)
}

// The range of a quotient rounded down; nothing where the divisor is 0.
pub fn quotient_range(p: Pair) -> Range
    ensures { (result ≡ quotient_range p.r p.q) × (p.r.hi ≤ MAX → result.hi ≤ MAX) }
{
    if p.q.hi == 0 {
        return Range::nothing();
    }
    let least = p.q.lo.max(1);
    Range::between(p.r.lo / p.q.hi, p.r.hi / least)
}

// The range of a remainder, from 0 on: below the divisor, and at most what is divided.
pub fn remainder_range(p: Pair) -> Range
    ensures { (result ≡ remainder_range p.r p.q) × (p.r.hi ≤ MAX → result.hi ≤ MAX) }
{
    below(p.q.hi, Range::between(0, p.r.hi))
}
