// What is known at a point.
ghost use Rattle.std.specs.Prelude.{◌≡◌, [], ◌∷◌, ◌+◌, ◌≤◌, length};
ghost use Rattle.std.specs.List.{All};
ghost use Rattle.model.specs.Limits.{greatest_stripes};
ghost use Rattle.model.specs.Facts as Model;
ghost use Rattle.model.specs.Facts.{with_claim, range_of, non_empty};
ghost use Rattle.model.specs.Listing.{stripes_among};
ghost use Rattle.model.specs.Transfer.{operand_range};
ghost use Rattle.model.specs.Limited.{StripeLimited, ClaimLimited};
ghost use Rattle.facts.specs.Bounds.{Word, LowWords, unwritten};

use crate::known::Known;
use crate::pair::Pair;
use crate::ranges::Ranges;
use model::claims::{Claim, Range, Stripe};
use model::machine::Operand;
use std::marker::Model;

// What the claims of a point state: all ends are values of a register, and the stripes are within the limits of a line.
#[derive(Drop)]
pub struct PointFacts {
    known: Known,
}

impl Model for PointFacts {
    ghost use Rattle.model.specs.Facts.{Facts};
    ghost use Rattle.facts.specs.Bounds.{AtPoint};

    ghost Value = { Facts };

    ghost view = { λ p. p.known };

    ghost invariant = { λ p. AtPoint p.known };
}

impl PointFacts {
    // What it holds before it is written: every variable exactly 0, and no stripe.
    pub fn new() -> PointFacts
        ensures { result ≡ unwritten }
    {
        PointFacts {
            known: Known::new(),
        }
    }

    // Nothing claimed.
    pub fn clear(&mut self)
        ensures { self.new ≡ Model.unclaimed }
    {
        let known = &mut self.known;
        known.ranges.clear();
        known.stripes.clear();
    }

    // One claim more: an end, a stripe, or TURN, which claims nothing.
    pub fn claim(&mut self, c: Claim)
        requires limited { ClaimLimited c }
        requires room { length self.old.stripes + stripes_among (c ∷ []) ≤ greatest_stripes }
        ensures { self.new ≡ with_claim self.old c }
    {
        let known = &mut self.known;
        match c {
            Claim::Leas { v, least } => {
                let r = known.ranges.get(v);
                known.ranges.set(v, Range::between(least, r.hi));
            }
            Claim::Most { v, most } => {
                let r = known.ranges.get(v);
                known.ranges.set(v, Range::between(r.lo, most));
            }
            Claim::Strp(s) => known.stripes.push(s),
            Claim::Turn { register: _ } => {}
        }
    }

    // The same, within the wider bounds of an edge.
    pub fn known(&self) -> &Known
        ensures { (result.now ≡ self.now) × LowWords result.now.ranges }
    {
        &self.known
    }

    // The ranges.
    pub fn ranges(&self) -> &Ranges
        ensures { result.now ≡ self.now.ranges }
    {
        let known = &self.known;
        &known.ranges
    }

    // Whether no range is empty.
    pub fn is_possible(&self) -> bool
        ensures { result ≡ non_empty self.now.ranges }
    {
        self.ranges().is_possible()
    }

    // The stripes.
    pub fn stripes(&self) -> &[Stripe]
        ensures same { result.now ≡ self.now.stripes }
        ensures limited { All StripeLimited self.now.stripes }
        ensures few { length self.now.stripes ≤ greatest_stripes }
    {
        let known = &self.known;
        known.stripes.as_slice()
    }

    // The range of a variable; the blank one is exactly 0.
    pub fn range(&self, v: usize) -> Range
        ensures { (result ≡ range_of self.now.ranges v) × Word result }
    {
        let known = &self.known;
        known.ranges.get(v)
    }

    // The range of an operand.
    pub fn operand_range(&self, o: Operand) -> Range
        ensures { (result ≡ operand_range self.now.ranges o) × Word result }
    {
        match o {
            Operand::Variable(v) => self.range(v),
            Operand::Number(c) => Range::exactly(u64::from(c)),
        }
    }

    // The ranges of a variable and of an operand.
    pub fn pair(&self, i: usize, o: Operand) -> Pair
        ensures same { (result.r ≡ range_of self.now.ranges i) × (result.q ≡ operand_range self.now.ranges o) }
        ensures words { Word result.r × Word result.q }
    {
        Pair {
            r: self.range(i),
            q: self.operand_range(o),
        }
    }
}
