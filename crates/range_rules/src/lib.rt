// The ranges of a sum, a difference, a product and a loaded value.
#![tactic(auto)]

ghost use Rattle.std.specs.Prelude.{◌≡◌, ◌≤◌, cond, ◌-◌, ◌^◌};
ghost use Rattle.model.specs.Limits.{MAX};
ghost use Rattle.model.specs.Facts.{between, register_range};
ghost use Rattle.model.specs.Machine.{bytes_of};
ghost use Rattle.model.specs.Transfer.{sum_fits, sum_range, difference_fits, difference_range, product_fits, product_range};
ghost use Rattle.facts.specs.Bounds.{Word};

use facts::pair::Pair;
use model::claims::Range;
use model::limits::MAX;
use model::machine::Width;

// Whether no sum of the two ranges wraps.
pub fn sum_fits(p: Pair) -> bool
    requires { Word p.r × Word p.q }
    ensures { result ≡ sum_fits p.r p.q }
{
    p.r.hi + p.q.hi <= MAX
}

// The range of a sum.
pub fn sum(p: Pair) -> Range
    requires { Word p.r × Word p.q }
    ensures { (result ≡ cond (sum_fits p.r p.q) (sum_range p.r p.q) register_range) × (result.hi ≤ MAX) }
{
    if sum_fits(p) {
        Range::between(p.r.lo + p.q.lo, p.r.hi + p.q.hi)
    } else {
        Range::REGISTER
    }
}

// Whether no difference of the two ranges wraps.
pub fn difference_fits(p: Pair) -> bool
    ensures { result ≡ difference_fits p.r p.q }
{
    p.q.hi <= p.r.lo
}

// The range of a difference that does not wrap; nothing where its high end falls below 0.
fn whole_difference(p: Pair) -> Range
    requires { p.q.hi ≤ p.r.lo }
    ensures { (result ≡ difference_range p.r p.q) × (p.r.hi ≤ MAX → result.hi ≤ MAX) }
{
    if p.r.hi < p.q.lo {
        return Range::nothing();
    }
    Range::between(p.r.lo - p.q.hi, p.r.hi - p.q.lo)
}

// The range of a difference.
pub fn difference(p: Pair) -> Range
    ensures { (result ≡ cond (difference_fits p.r p.q) (difference_range p.r p.q) register_range) × (p.r.hi ≤ MAX → result.hi ≤ MAX) }
{
    if difference_fits(p) {
        whole_difference(p)
    } else {
        Range::REGISTER
    }
}

// Whether no product of the two ranges wraps.
pub fn product_fits(p: Pair) -> bool
    requires { Word p.r × Word p.q }
    ensures { result ≡ product_fits p.r p.q }
{
    p.r.hi * p.q.hi <= MAX
}

// The range of a product.
pub fn product(p: Pair) -> Range
    requires { Word p.r × Word p.q }
    ensures { (result ≡ cond (product_fits p.r p.q) (product_range p.r p.q) register_range) × (result.hi ≤ MAX) }
{
    if product_fits(p) {
        Range::between(p.r.lo * p.q.lo, p.r.hi * p.q.hi)
    } else {
        Range::REGISTER
    }
}

// The values of so many bytes.
pub fn loaded(w: Width) -> Range
    ensures { (result ≡ between 0 (256 ^ bytes_of w - 1)) × (result.hi ≤ MAX) }
{
    match w {
        Width::One => Range::between(0, 255),
        Width::Two => Range::between(0, 65_535),
        Width::Four => Range::REGISTER,
    }
}
