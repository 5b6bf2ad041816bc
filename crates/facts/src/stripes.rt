// Stripes in order, in a buffer of their own.
ghost use Rattle.std.specs.Prelude.{◌≡◌, [], ◌∷◌, ◌++◌, ◌<◌, ◌≤◌, length, slice_set};
ghost use Rattle.std.specs.List.{All};
ghost use Rattle.facts.specs.Sizes.{edge_stripes, Small};

use crate::sizes::EDGE_STRIPES;
use model::claims::Stripe;
use std::marker::Model;

// Fills the places behind the last stripe.
const UNUSED: Stripe = Stripe {
    x: 0,
    a: 0,
    y: 0,
    z: 0,
    plus: 0,
    minus: 0,
};

// At most as many stripes as stand along an edge, in order. The parts of their bounds are small enough to be added up.
#[derive(Drop)]
pub struct StripeList {
    stripes: [Stripe; EDGE_STRIPES],
    count: usize,
}

impl Model for StripeList {
    ghost use Rattle.std.specs.Prelude.{List, ◌≤◌, take};
    ghost use Rattle.std.specs.List.{All};
    ghost use Rattle.model.specs.declared.claims.Stripe.{Stripe};
    ghost use Rattle.facts.specs.Sizes.{edge_stripes, Small};

    ghost Value = { List Stripe };

    ghost view = { λ l. take l.count l.stripes };

    ghost invariant = { λ l. (l.count ≤ edge_stripes) × All Small (take l.count l.stripes) };
}

impl StripeList {
    // No stripe.
    pub fn new() -> StripeList
        ensures { result ≡ [] }
    {
        StripeList {
            stripes: [UNUSED; EDGE_STRIPES],
            count: 0,
        }
    }

    // No stripe any more.
    pub fn clear(&mut self)
        ensures { self.new ≡ [] }
    {
        self.count = 0;
    }

    // One stripe more.
    pub fn push(&mut self, s: Stripe)
        requires room { length self.old < edge_stripes }
        requires small { Small s }
        ensures { self.new ≡ self.old ++ (s ∷ []) }
    {
        self.stripes[self.count] = s;
        self.count += 1;
    }

    // Another stripe in the place of the i-th.
    pub fn set(&mut self, i: usize, s: Stripe)
        requires in_list { i < length self.old }
        requires small { Small s }
        ensures { self.new ≡ slice_set self.old i s }
    {
        let stripes = &mut self.stripes;
        stripes[i] = s;
    }

    // All of them.
    pub fn as_slice(&self) -> &[Stripe]
        ensures same { result.now ≡ self.now }
        ensures small { All Small self.now }
        ensures few { length self.now ≤ edge_stripes }
    {
        &self.stripes[..self.count]
    }
}
