// Goals whose x has a low end above every value of a register, as along an edge that is not possible.
use crate::at_once::at_once;
use crate::within::follows;
use edge_links::links::Linked;
use facts::known::Known;
use facts::stripes::StripeList;
use model::claims::{Range, Stripe};
use model::limits::{BLANK_VARIABLE, MAX};

// The blank variable, whose value is 0.
const BLANK: u64 = BLANK_VARIABLE as u64;

#[test]
fn ranges_show_a_goal_from_any_low_end(rt: HostRuntime) {
    let mut known = Known::new();
    known.ranges.set(0, Range::between(MAX + 10, 0));
    assert!(rt; at_once(&known, 0, 1, BLANK, BLANK, MAX + 10, 0));
    assert!(rt; !at_once(&known, 0, 1, BLANK, BLANK, MAX + 11, 0));
    assert!(rt; at_once(&known, 0, 1, BLANK, BLANK, MAX + 11, 1));
}

#[test]
fn greatest_low_end_shows_a_goal(rt: HostRuntime) {
    let mut known = Known::new();
    known.ranges.set(0, Range::between(u64::MAX, 0));
    assert!(rt; at_once(&known, 0, 1, BLANK, BLANK, 2, 1));
}

#[test]
fn link_shows_a_goal_from_any_low_end(rt: HostRuntime) {
    let mut known = Known::new();
    known.ranges.set(0, Range::between(MAX + 10, 0));
    known.ranges.set(1, Range::between(0, 3));
    known.ranges.set(2, Range::between(0, 10));
    let mut links = StripeList::new();
    links.push(Stripe {
        x: 1,
        a: 1,
        y: 2,
        z: BLANK_VARIABLE as u8,
        plus: 0,
        minus: 0,
    });
    let edge = Linked {
        known: &known,
        links: &links,
    };
    assert!(rt; !follows(&edge, 0, 1, 2, BLANK, MAX + 7, 0, 0));
    assert!(rt; follows(&edge, 0, 1, 2, BLANK, MAX + 7, 0, 1));
    assert!(rt; !follows(&edge, 0, 1, 2, BLANK, MAX + 8, 0, 1));
}
