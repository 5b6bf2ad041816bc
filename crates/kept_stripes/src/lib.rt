// The stripes along an edge: what its instruction adds, and behind it what is kept of those of the point.
#![tactic(auto)]

ghost use Rattle.std.specs.Prelude.{◌≡◌, [], ◌∷◌, ◌++◌, ◌≤◌, length};
ghost use Rattle.model.specs.Limits.{MAX, today};
ghost use Rattle.model.specs.Transfer as Model;
ghost use Rattle.model.specs.Transfer.{if_is};
ghost use Rattle.model.specs.Limited.{StripeLimited};
ghost use Rattle.facts.specs.Sizes.{Small};

use facts::point::PointFacts;
use facts::sizes::scaled;
use facts::stripes::StripeList;
use model::claims::Stripe;
use stripe_tests::{bound_in_limits, names, names_either};

// n if v is d, else 0.
fn if_is(d: usize, v: u8, n: u64) -> u64
    ensures { (result ≡ if_is d v n) × (result ≤ n) }
{
    if usize::from(v) == d { n } else { 0 }
}

// The stripe once d has become d + up - down.
fn shifted(s: &Stripe, d: usize, up: u64, down: u64) -> Stripe
    requires limited { StripeLimited s.now }
    requires up_bound { (up ≤ MAX) × (down ≤ MAX) }
    ensures { (result ≡ Model.shifted d up down s.now) × Small result }
{
    let more = if_is(d, s.x, up);
    let less = if_is(d, s.x, down);
    let plus = s.plus + more + scaled(s.a, if_is(d, s.y, down) + if_is(d, s.z, down));
    let minus = s.minus + less + scaled(s.a, if_is(d, s.y, up) + if_is(d, s.z, up));
    Stripe { plus, minus, ..*s }
}

// One stripe alone.
fn only(s: Stripe, new: &mut StripeList)
    requires { Small s }
    ensures { new.new ≡ s ∷ [] }
{
    new.clear();
    new.push(s);
}

// Adds all stripes of the point.
fn keep_all(p: &PointFacts, new: &mut StripeList)
    requires { length new.old ≤ 2 }
    ensures { new.new ≡ new.old ++ p.now.stripes }
{
    for s in p.stripes() {
        new.push(*s);
    }
}

// Adds those that do not name d.
fn keep_without(d: usize, p: &PointFacts, new: &mut StripeList)
    requires { length new.old ≤ 2 }
    ensures { new.new ≡ new.old ++ Model.dropped d p.now.stripes }
{
    for s in p.stripes() {
        if !names(s, d) {
            new.push(*s);
        }
    }
}

// All stripes.
pub fn all(p: &PointFacts, new: &mut StripeList)
    ensures { new.new ≡ p.now.stripes }
{
    new.clear();
    keep_all(p, new);
}

// One stripe in front of all.
pub fn one_and_all(s: Stripe, p: &PointFacts, new: &mut StripeList)
    requires { Small s }
    ensures { new.new ≡ s ∷ p.now.stripes }
{
    only(s, new);
    keep_all(p, new);
}

// Two stripes in front of all.
pub fn two_and_all(s: Stripe, t: Stripe, p: &PointFacts, new: &mut StripeList)
    requires { Small s × Small t }
    ensures { new.new ≡ s ∷ t ∷ p.now.stripes }
{
    only(s, new);
    new.push(t);
    keep_all(p, new);
}

// The stripes that do not name d.
pub fn dropped(d: usize, p: &PointFacts, new: &mut StripeList)
    ensures { new.new ≡ Model.dropped d p.now.stripes }
{
    new.clear();
    keep_without(d, p, new);
}

// One stripe in front of those that do not name d.
pub fn one_and_dropped(s: Stripe, d: usize, p: &PointFacts, new: &mut StripeList)
    requires { Small s }
    ensures { new.new ≡ s ∷ Model.dropped d p.now.stripes }
{
    only(s, new);
    keep_without(d, p, new);
}

// Two stripes in front of those that do not name d.
pub fn two_and_dropped(s: Stripe, t: Stripe, d: usize, p: &PointFacts, new: &mut StripeList)
    requires { Small s × Small t }
    ensures { new.new ≡ s ∷ t ∷ Model.dropped d p.now.stripes }
{
    only(s, new);
    new.push(t);
    keep_without(d, p, new);
}

// The stripes that name neither d nor e.
pub fn both_dropped(d: usize, e: usize, p: &PointFacts, new: &mut StripeList)
    ensures { new.new ≡ Model.dropped e (Model.dropped d p.now.stripes) }
{
    new.clear();
    for s in p.stripes() {
        if !names_either(s, d, e) {
            new.push(*s);
        }
    }
}

// All stripes once d has become d + up - down.
pub fn all_shifted(d: usize, up: u64, down: u64, p: &PointFacts, new: &mut StripeList)
    requires { (up ≤ MAX) × (down ≤ MAX) }
    ensures { new.new ≡ Model.all_shifted today d up down p.now.stripes }
{
    new.clear();
    for s in p.stripes() {
        let t = shifted(s, d, up, down);
        if bound_in_limits(&t) {
            new.push(t);
        }
    }
}
