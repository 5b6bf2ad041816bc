// How many stripes there are along an edge, and a scale times a number that they are tested with.
ghost use Rattle.std.specs.Prelude.{◌≡◌, ◌*◌, ◌≤◌};
ghost use Rattle.model.specs.Limits.{greatest_scale};
ghost use Rattle.facts.specs.Sizes.{greatest_part, greatest_step};

use model::limits::GREATEST_STRIPES;

// The stripes along an edge: those of a point, and the two that its instruction may add.
pub const EDGE_STRIPES: usize = GREATEST_STRIPES + 2;

// A scale times a number that is small enough.
pub fn scaled(a: u16, n: u64) -> u64
    requires { (a ≤ greatest_scale) × (n ≤ greatest_part) }
    ensures { (result ≡ a * n) × (result ≤ greatest_scale * n) × (result ≤ greatest_step) }
{
    u64::from(a) * n
}
