// What is known along an edge.
ghost use Rattle.std.specs.Prelude.{◌≡◌};
ghost use Rattle.facts.specs.Bounds.{unwritten};

use crate::ranges::Ranges;
use crate::stripes::StripeList;
use std::marker::Model;

// A range for each variable, and stripes.
#[derive(Drop)]
pub struct Known {
    pub ranges: Ranges,
    pub stripes: StripeList,
}

impl Model for Known {
    ghost use Rattle.model.specs.Facts.{Facts};

    ghost Value = { Facts };

    ghost view = { λ k. record { ranges = k.ranges; stripes = k.stripes } };
}

impl Known {
    // What it holds before it is written: every variable exactly 0, and no stripe.
    pub fn new() -> Known
        ensures { result ≡ unwritten }
    {
        Known {
            ranges: Ranges::new(),
            stripes: StripeList::new(),
        }
    }
}
