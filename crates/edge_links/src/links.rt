// The links among the stripes along an edge, of two between the same variables the better one.
ghost use Rattle.std.specs.Prelude.{◌≡◌, ◌+◌, ◌<◌, ◌≤◌, leb, length, position};
ghost use Rattle.std.specs.List.{All};
ghost use Rattle.model.specs.Follows as Model;
ghost use Rattle.facts.specs.Sizes.{edge_stripes, Small};
ghost use Rattle.edge_links.specs.Links.{between, Added, Gathered};

use facts::known::Known;
use facts::stripes::StripeList;
use model::claims::Stripe;
use model::limits::BLANK_VARIABLE;

// What is known along an edge, and the links that are tried there.
#[derive(Clone, Copy)]
pub struct Linked<'a> {
    pub known: &'a Known,
    pub links: &'a StripeList,
}

// Whether the stripe is a link: its y can be replaced by its x.
fn is_link(s: &Stripe) -> bool
    ensures { result ≡ Model.is_link s.now }
{
    (s.a == 1) & (usize::from(s.z) == BLANK_VARIABLE)
}

// Whether t has a bound of at least that of s.
fn enough(t: &Stripe, s: &Stripe) -> bool
    requires { Small t.now × Small s.now }
    ensures { result ≡ leb (s.now.plus + t.now.minus) (t.now.plus + s.now.minus) }
{
    s.plus + t.minus <= t.plus + s.minus
}

// The place of the link between the same variables as s.
fn place(links: &[Stripe], s: &Stripe) -> Option<usize>
    ensures { result ≡ position (between s.now) links.now }
{
    links.iter().position(|l| (l.x == s.x) & (l.y == s.y))
}

// Adds a link; where one stands between the same variables, the better of the two takes its place.
fn add(links: &mut StripeList, s: &Stripe)
    requires room { length links.old < edge_stripes }
    requires small { Small s.now }
    ensures added { Added links.new links.old s.now }
    ensures few { length links.new ≤ length links.old + 1 }
{
    match place(links.as_slice(), s) {
        Some(i) => {
            if !enough(&links.as_slice()[i], s) {
                links.set(i, *s);
            }
        }
        None => links.push(*s),
    }
}

// Writes the links along an edge.
pub fn gather(known: &Known, links: &mut StripeList)
    ensures { Gathered links.new known.now.stripes }
{
    links.clear();
    for s in known.stripes.as_slice() {
        if is_link(s) {
            add(links, s);
        }
    }
}
