// Whether a goal, or a claim, follows from what is known along an edge.
ghost use Rattle.std.specs.Prelude.{◌≡◌};
ghost use Rattle.model.specs.Limits.{greatest_links};
ghost use Rattle.model.specs.Follows;
ghost use Rattle.model.specs.Follows.{claim_follows};
ghost use Rattle.model.specs.Limited.{ClaimLimited};
ghost use Rattle.facts.specs.Bounds.{LowWords};
ghost use Rattle.facts.specs.Sizes.{Room};

use edge_links::links::{Linked, gather};
use facts::known::Known;
use facts::stripes::StripeList;
use goal_search::at_once::{at_once, at_once_with_low_word};
use goal_search::within::{follows, follows_with_low_word};
use model::claims::{Claim, Stripe};
use model::limits::GREATEST_LINKS;

// Whether the goal follows within three links, where low ends are values of registers. The links are gathered only for a goal that does not
// follow at once.
pub fn goal_follows_with_low_words(known: &Known, g: Stripe) -> bool
    requires lows { LowWords known.now.ranges }
    requires room { Room greatest_links g }
    ensures { result ≡ Follows.follows known.now greatest_links g }
{
    let x = g.x as u64;
    let y = g.y as u64;
    let z = g.z as u64;
    if at_once_with_low_word(known, x, g.a, y, z, g.plus, g.minus) {
        return true;
    }
    let mut links = StripeList::new();
    gather(known, &mut links);
    let edge = Linked {
        known,
        links: &links,
    };
    follows_with_low_word(&edge, x, g.a, y, z, g.plus, g.minus, GREATEST_LINKS)
}

// Whether the goal follows within three links, with any low ends.
pub fn goal_follows(known: &Known, g: Stripe) -> bool
    requires { Room greatest_links g }
    ensures { result ≡ Follows.follows known.now greatest_links g }
{
    let x = g.x as u64;
    let y = g.y as u64;
    let z = g.z as u64;
    if at_once(known, x, g.a, y, z, g.plus, g.minus) {
        return true;
    }
    let mut links = StripeList::new();
    gather(known, &mut links);
    let edge = Linked {
        known,
        links: &links,
    };
    let left = GREATEST_LINKS;
    follows(&edge, x, g.a, y, z, g.plus, g.minus, left)
}

// Whether a claim follows, where low ends are values of registers.
#[tactic(auto, unfolding(model::specs::Follows::claim_follows))]
pub fn claim_follows_with_low_words(known: &Known, c: Claim) -> bool
    requires lows { LowWords known.now.ranges }
    requires limited { ClaimLimited c }
    ensures { result ≡ claim_follows known.now c }
{
    match c {
        Claim::Leas { v, least } => least <= known.ranges.get(v).lo,
        Claim::Most { v, most } => known.ranges.get(v).hi <= most,
        Claim::Strp(g) => goal_follows_with_low_words(known, g),
        Claim::Turn { register: _ } => true,
    }
}

// Whether a claim follows, with any low ends.
#[tactic(auto, unfolding(model::specs::Follows::claim_follows))]
pub fn claim_follows(known: &Known, c: Claim) -> bool
    requires { ClaimLimited c }
    ensures { result ≡ claim_follows known.now c }
{
    match c {
        Claim::Leas { v, least } => known.ranges.get(v).lo >= least,
        Claim::Most { v, most } => most >= known.ranges.get(v).hi,
        Claim::Strp(g) => goal_follows(known, g),
        Claim::Turn { register: _ } => true,
    }
}
