// What is known along an edge of an instruction, from what is known at its point.
#![tactic(auto)]

ghost use Rattle.std.specs.Prelude.{◌≡◌};
ghost use Rattle.model.specs.Limits.{today};
ghost use Rattle.model.specs.Transfer.{facts_along};
ghost use Rattle.model.specs.Limited.{Limited};

use edge_ranges::ranges_along;
use edge_stripes::stripes_along;
use facts::known::Known;
use facts::point::PointFacts;
use model::machine::{Edge, Instruction};

// Writes what is known along an edge.
#[tactic(auto, unfolding(model::specs::Transfer::facts_along))]
pub fn along(e: Edge, i: Instruction, f: &PointFacts, edge: &mut Known)
    requires { Limited i }
    ensures { edge.new ≡ facts_along today e i f.now }
{
    ranges_along(e, i, f, &mut edge.ranges);
    stripes_along(e, i, f, &mut edge.stripes);
}
