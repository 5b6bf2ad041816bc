// Whether a goal follows within so many links. A goal is passed as six numbers, which stay in registers: as a struct it took 67 µs and not 58.
// With ANY_LOW the low end of its x may be any number, else it is a value of a register.
ghost use Rattle.std.specs.Prelude.{◌≡◌, false, ◌+◌, ◌≤◌};
ghost use Rattle.model.specs.Limits.{MAX};
ghost use Rattle.model.specs.Facts.{lo};
ghost use Rattle.model.specs.Transfer.{stripe};
ghost use Rattle.model.specs.Follows as Model;
ghost use Rattle.facts.specs.Sizes.{Room, Small};
ghost use Rattle.edge_links.specs.Links.{Gathered};
ghost use Rattle.goal_search.specs.Goal;
ghost use Rattle.goal_search.specs.Goal.{by_link, by_some_link};

use crate::at_once::shown;
use edge_links::links::Linked;
use facts::sizes::scaled;
use model::claims::Stripe;

// Whether the goal follows within `left` uses of the links that are lent; their number falls at each use of one.
#[cycle(search_linked_through)]
fn search<const ANY_LOW: bool>(
    edge: &Linked,
    x: u64,
    a: u16,
    y: u64,
    z: u64,
    plus: u64,
    minus: u64,
    left: usize,
) -> bool
    requires low { ANY_LOW ≡ false → lo edge.now.known.now.ranges x ≤ MAX }
    requires room { Room left (stripe x a y z plus minus) }
    ensures { result ≡ Goal.follows (Model.at_once edge.now.known.now) edge.now.links.now left (stripe x a y z plus minus) }
{
    if shown::<ANY_LOW>(edge.known, x, a, y, z, plus, minus) {
        return true;
    }
    if left == 0 {
        return false;
    }
    linked::<ANY_LOW>(edge, x, a, y, z, plus, minus, left - 1)
}

// Whether the goal follows by a link and at most `left` more.
#[cycle(search_linked_through)]
fn linked<const ANY_LOW: bool>(
    edge: &Linked,
    x: u64,
    a: u16,
    y: u64,
    z: u64,
    plus: u64,
    minus: u64,
    left: usize,
) -> bool
    requires low { ANY_LOW ≡ false → lo edge.now.known.now.ranges x ≤ MAX }
    requires room { Room (left + 1) (stripe x a y z plus minus) }
    ensures { result ≡ by_some_link (Goal.follows (Model.at_once edge.now.known.now) edge.now.links.now left) edge.now.links.now (stripe x a y z plus minus) }
{
    for l in edge.links.as_slice() {
        let v = l.y as u64;
        if (v == y) | (v == z) {
            if through::<ANY_LOW>(edge, l, x, a, y, z, plus, minus, left) {
                return true;
            }
        }
    }
    false
}

// Whether the goal follows by this link, in the place of y or of z, and at most `left` more. Where y is z one of the two is enough.
#[cycle(search_linked_through)]
fn through<const ANY_LOW: bool>(
    edge: &Linked,
    l: &Stripe,
    x: u64,
    a: u16,
    y: u64,
    z: u64,
    plus: u64,
    minus: u64,
    left: usize,
) -> bool
    requires low { ANY_LOW ≡ false → lo edge.now.known.now.ranges x ≤ MAX }
    requires small { Small l.now }
    requires room { Room (left + 1) (stripe x a y z plus minus) }
    ensures { result ≡ by_link (Goal.follows (Model.at_once edge.now.known.now) edge.now.links.now left) (stripe x a y z plus minus) l.now }
{
    let more = plus + scaled(a, l.minus);
    let less = minus + scaled(a, l.plus);
    let v = l.y as u64;
    let u = l.x as u64;
    if v == y {
        return search::<ANY_LOW>(edge, x, a, u, z, more, less, left);
    }
    if v == z {
        return search::<ANY_LOW>(edge, x, a, y, u, more, less, left);
    }
    false
}

// Whether the goal follows within `left` uses of the links that are lent, where the low end of its x is a value of a register. Where these
// are the links among the stripes, that is whether it follows from what is known.
pub fn follows_with_low_word(
    edge: &Linked,
    x: u64,
    a: u16,
    y: u64,
    z: u64,
    plus: u64,
    minus: u64,
    left: usize,
) -> bool
    requires low { lo edge.now.known.now.ranges x ≤ MAX }
    requires room { Room left (stripe x a y z plus minus) }
    ensures by_links { result ≡ Goal.follows (Model.at_once edge.now.known.now) edge.now.links.now left (stripe x a y z plus minus) }
    ensures gathered { Gathered edge.now.links.now edge.now.known.now.stripes → result ≡ Model.follows edge.now.known.now left (stripe x a y z plus minus) }
{
    search::<false>(edge, x, a, y, z, plus, minus, left)
}

// Whether the goal follows within `left` uses of the links that are lent, with any low end. Where these are the links among the stripes, that
// is whether it follows from what is known.
pub fn follows(
    edge: &Linked,
    x: u64,
    a: u16,
    y: u64,
    z: u64,
    plus: u64,
    minus: u64,
    left: usize,
) -> bool
    requires { Room left (stripe x a y z plus minus) }
    ensures by_links { result ≡ Goal.follows (Model.at_once edge.now.known.now) edge.now.links.now left (stripe x a y z plus minus) }
    ensures gathered { Gathered edge.now.links.now edge.now.known.now.stripes → result ≡ Model.follows edge.now.known.now left (stripe x a y z plus minus) }
{
    search::<true>(edge, x, a, y, z, plus, minus, left)
}
