// Whether a goal follows with no link. With ANY_LOW the low end of its x may be any number, else it is a value of a register.
ghost use Rattle.std.specs.Prelude.{◌≡◌, false, ◌≤◌};
ghost use Rattle.std.specs.List.{list_any};
ghost use Rattle.model.specs.declared.claims.Stripe.{Stripe};
ghost use Rattle.model.specs.Limits.{MAX};
ghost use Rattle.model.specs.Facts.{lo};
ghost use Rattle.model.specs.Transfer.{stripe};
ghost use Rattle.model.specs.Follows as Model;
ghost use Rattle.facts.specs.Sizes.{Room, Small};

use facts::known::Known;
use facts::sizes::scaled;
use model::claims::Stripe;

// Whether the ranges alone show the goal. No sum is tested: both stay below 2^61.
fn by_ranges(known: &Known, x: u64, a: u16, y: u64, z: u64, plus: u64, minus: u64) -> bool
    requires low { lo known.now.ranges x ≤ MAX }
    requires room { Room 0 (stripe x a y z plus minus) }
    ensures { result ≡ Model.by_ranges known.now.ranges (stripe x a y z plus minus) }
{
    let top = known.ranges.get(y as usize).hi + known.ranges.get(z as usize).hi;
    scaled(a, top) + plus <= known.ranges.get(x as usize).lo + minus
}

// Whether the ranges alone show the goal, with any low end. A sum with it could leave 64 bits, so minus is taken off the other side.
fn by_ranges_from_any_low(
    known: &Known,
    x: u64,
    a: u16,
    y: u64,
    z: u64,
    plus: u64,
    minus: u64,
) -> bool
    requires { Room 0 (stripe x a y z plus minus) }
    ensures { result ≡ Model.by_ranges known.now.ranges (stripe x a y z plus minus) }
{
    let top = known.ranges.get(y as usize).hi + known.ranges.get(z as usize).hi;
    let most = scaled(a, top) + plus;
    most.saturating_sub(minus) <= known.ranges.get(x as usize).lo
}

// Whether the ranges alone show the goal, by the one of the two tests that the low end of its x allows.
fn ranges_show<const ANY_LOW: bool>(
    known: &Known,
    x: u64,
    a: u16,
    y: u64,
    z: u64,
    plus: u64,
    minus: u64,
) -> bool
    requires low { ANY_LOW ≡ false → lo known.now.ranges x ≤ MAX }
    requires room { Room 0 (stripe x a y z plus minus) }
    ensures { result ≡ Model.by_ranges known.now.ranges (stripe x a y z plus minus) }
{
    if ANY_LOW {
        by_ranges_from_any_low(known, x, a, y, z, plus, minus)
    } else {
        by_ranges(known, x, a, y, z, plus, minus)
    }
}

// Whether the stripe stands for the goal.
fn covers(s: &Stripe, x: u64, a: u16, y: u64, z: u64, plus: u64, minus: u64) -> bool
    requires small { Small s.now }
    requires room { Room 0 (stripe x a y z plus minus) }
    ensures { result ≡ Model.covers s.now (stripe x a y z plus minus) }
{
    if s.x as u64 != x {
        return false;
    }
    let v = s.y as u64;
    let u = s.z as u64;
    let bound = plus + s.minus <= s.plus + minus;
    (s.a == a) & ((v == y) & (u == z) | (v == z) & (u == y)) & bound
}

// Whether one of the stripes stands for the goal.
fn stands(known: &Known, x: u64, a: u16, y: u64, z: u64, plus: u64, minus: u64) -> bool
    requires { Room 0 (stripe x a y z plus minus) }
    ensures { result ≡ list_any (λ (s : Stripe). Model.covers s (stripe x a y z plus minus)) known.now.stripes }
{
    known
        .stripes
        .as_slice()
        .iter()
        .any(|s| covers(s, x, a, y, z, plus, minus))
}

// Whether the goal follows with no link.
pub(crate) fn shown<const ANY_LOW: bool>(
    known: &Known,
    x: u64,
    a: u16,
    y: u64,
    z: u64,
    plus: u64,
    minus: u64,
) -> bool
    requires low { ANY_LOW ≡ false → lo known.now.ranges x ≤ MAX }
    requires room { Room 0 (stripe x a y z plus minus) }
    ensures { result ≡ Model.at_once known.now (stripe x a y z plus minus) }
{
    if ranges_show::<ANY_LOW>(known, x, a, y, z, plus, minus) {
        return true;
    }
    stands(known, x, a, y, z, plus, minus)
}

// Whether the goal follows with no link, where the low end of its x is a value of a register.
pub fn at_once_with_low_word(
    known: &Known,
    x: u64,
    a: u16,
    y: u64,
    z: u64,
    plus: u64,
    minus: u64,
) -> bool
    requires low { lo known.now.ranges x ≤ MAX }
    requires room { Room 0 (stripe x a y z plus minus) }
    ensures { result ≡ Model.at_once known.now (stripe x a y z plus minus) }
{
    shown::<false>(known, x, a, y, z, plus, minus)
}

// Whether the goal follows with no link, with any low end.
pub fn at_once(known: &Known, x: u64, a: u16, y: u64, z: u64, plus: u64, minus: u64) -> bool
    requires { Room 0 (stripe x a y z plus minus) }
    ensures { result ≡ Model.at_once known.now (stripe x a y z plus minus) }
{
    shown::<true>(known, x, a, y, z, plus, minus)
}
