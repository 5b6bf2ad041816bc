// Refusal 17: whether the values of all variables meet the facts of a point.
ghost use Rattle.std.specs.Prelude.{◌≡◌, ◌≤◌};
ghost use Rattle.std.specs.List.{list_all};
ghost use Rattle.model.specs.Limits.{MAX};
ghost use Rattle.model.specs.Facts as Model;
ghost use Rattle.model.specs.Facts.{value_at, stripe_holds};
ghost use Rattle.model.specs.Limited.{StripeLimited};
ghost use Rattle.state_tests.specs.Meets.{in_ranges};

use facts::point::PointFacts;
use facts::sizes::scaled;
use model::claims::Stripe;
use model::limits::VARIABLES;

// Whether every variable lies in its range.
fn in_ranges(values: &[u32; VARIABLES], f: &PointFacts) -> bool
    ensures { result ≡ in_ranges values.now f.now.ranges }
{
    let mut all = true;
    for (v, n) in values.iter().enumerate() {
        let r = f.range(v);
        let n = u64::from(*n);
        all &= (r.lo <= n) & (n <= r.hi);
    }
    all
}

// The value of a variable; of a blank one, 0.
fn value_at(values: &[u32; VARIABLES], v: u8) -> u64
    ensures { (result ≡ value_at values.now v) × (result ≤ MAX) }
{
    match values.get(usize::from(v)) {
        Some(n) => u64::from(*n),
        None => 0,
    }
}

// Whether a stripe holds.
fn stripe_holds(values: &[u32; VARIABLES], s: &Stripe) -> bool
    requires { StripeLimited s.now }
    ensures { result ≡ stripe_holds values.now s.now }
{
    let x = value_at(values, s.x);
    let y = value_at(values, s.y);
    let z = value_at(values, s.z);
    scaled(s.a, y + z) + s.plus <= x + s.minus
}

// Whether every stripe holds.
fn all_hold(values: &[u32; VARIABLES], f: &PointFacts) -> bool
    ensures { result ≡ list_all (stripe_holds values.now) f.now.stripes }
{
    f.stripes().iter().all(|s| stripe_holds(values, s))
}

// Whether the values meet the facts.
pub(crate) fn meets(values: &[u32; VARIABLES], f: &PointFacts) -> bool
    ensures { result ≡ Model.meets values.now f.now }
{
    in_ranges(values, f) && all_hold(values, f)
}
