// Goals and claims of a variable whose low end lies above every value of a register, as along an edge that is not possible.
ghost use Rattle.std.specs.Prelude.{◌≡◌};
ghost use Rattle.model.specs.Limits.{blank_variable};
ghost use Rattle.model.specs.Transfer.{stripe};

use crate::follows::{claim_follows, goal_follows};
use facts::known::Known;
use model::claims::{Claim, Range, Stripe};
use model::limits::{BLANK_VARIABLE, MAX};

// That variable x is at least variable y and so much.
fn above(x: u8, y: u8, plus: u64) -> Stripe
    ensures { result ≡ stripe x 1 y blank_variable plus 0 }
{
    Stripe {
        x,
        a: 1,
        y,
        z: BLANK_VARIABLE as u8,
        plus,
        minus: 0,
    }
}

#[test]
fn goal_follows_from_any_low_end(rt: HostRuntime) {
    let mut known = Known::new();
    known.ranges.set(0, Range::between(MAX + 10, 0));
    known.ranges.set(1, Range::between(0, 3));
    known.ranges.set(2, Range::between(0, 10));
    assert!(rt; goal_follows(&known, above(0, 2, MAX)));
    assert!(rt; !goal_follows(&known, above(0, 2, MAX + 1)));
    known.stripes.push(above(1, 2, 0));
    assert!(rt; goal_follows(&known, above(0, 2, MAX + 7)));
    assert!(rt; !goal_follows(&known, above(0, 2, MAX + 8)));
}

#[test]
fn claims_follow_from_any_low_end(rt: HostRuntime) {
    let mut known = Known::new();
    known.ranges.set(0, Range::between(MAX + 10, 7));
    known.ranges.set(2, Range::between(0, 10));
    assert!(rt; claim_follows(&known, Claim::Leas { v: 0, least: MAX }));
    assert!(rt; !claim_follows(&known, Claim::Leas { v: 2, least: 1 }));
    assert!(rt; claim_follows(&known, Claim::Most { v: 0, most: 7 }));
    assert!(rt; !claim_follows(&known, Claim::Most { v: 0, most: 6 }));
    assert!(rt; claim_follows(&known, Claim::Strp(above(0, 2, MAX))));
    assert!(rt; !claim_follows(&known, Claim::Strp(above(0, 2, MAX + 1))));
    assert!(rt; claim_follows(&known, Claim::Turn { register: 0 }));
}
