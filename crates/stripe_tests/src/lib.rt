// Tests of one stripe: whether it names a variable, and whether its bound lies within its limits.
#![tactic(auto)]

ghost use Rattle.std.specs.Prelude.{◌≡◌, ◌||◌};
ghost use Rattle.model.specs.Limits.{today};
ghost use Rattle.model.specs.Transfer as Model;
ghost use Rattle.model.specs.Transfer.{bound_in_limits};
ghost use Rattle.facts.specs.Sizes.{Small};

use model::claims::Stripe;
use model::limits::GREATEST_BOUND;

// Whether the stripe names d.
pub fn names(s: &Stripe, d: usize) -> bool
    ensures { result ≡ Model.names d s.now }
{
    (usize::from(s.x) == d) | (usize::from(s.y) == d) | (usize::from(s.z) == d)
}

// Whether a stripe names one of two variables at least.
pub fn names_either(s: &Stripe, d: usize, e: usize) -> bool
    ensures { result ≡ (Model.names d s.now || Model.names e s.now) }
{
    names(s, d) | names(s, e)
}

// Whether the bound lies within its limits.
pub fn bound_in_limits(s: &Stripe) -> bool
    requires { Small s.now }
    ensures { result ≡ bound_in_limits today s.now }
{
    (s.plus <= s.minus + GREATEST_BOUND) & (s.minus <= s.plus + GREATEST_BOUND)
}
