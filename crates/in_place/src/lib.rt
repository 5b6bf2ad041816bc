// The runner's second entry: a state is lent to it and holds the new one afterwards. It is proved by a walk of its code by hand, and so
// has a crate of its own.
#![tactic(auto)]

ghost use Rattle.model.specs.Machine.{lent};
ghost use Rattle.model.specs.Run as Run;
ghost use Rattle.runner.specs.Runs.{RunInPlace};

use model::machine::State;
use runner::{Ending, run};

// The same run on a lent state, which it changes in place.
pub fn run_in_place(
    listing: &[u8],
    state: &mut State,
    trays: &[u8],
    results: &mut [u8],
    budget: u32,
) -> Ending
    ensures { RunInPlace (Run.run listing.now state.old (lent trays.now results.old) budget) result state.new results.new }
{
    let o = run(listing, *state, trays, results, budget);
    *state = o.state;
    Ending {
        report: o.report,
        steps: o.steps,
    }
}
