// The run of the bytes of four files, with what it prints and saves.
#![tactic(auto)]

ghost use Rattle.std.specs.Prelude.{IsSome};
ghost use Rattle.saved.specs.Numbers.{number_in};
ghost use Rattle.saved.specs.States.{saved_in};
ghost use Rattle.run_parts.specs.FileRun.{run_of, Leaves};

use model::answers::Report;
use output::run_line::answer_line;
use saved::numbers::parse;
use saved::states::{read_state, write_state};

// What a run hands back besides the results: its report, the line to print, and the text of the state to save.
#[derive(Clone, Copy)]
pub struct Made {
    pub report: Report,
    pub line: [u8; 40],
    pub state: [u8; 680],
}

// The run of the bytes that were read, where the text is a state and the budget a number. It changes the results where they lie.
pub fn run_of(listing: &[u8], trays: &[u8], results: &mut [u8], text: &[u8], budget: &[u8]) -> Made
    requires state_given { IsSome (saved_in text.now) }
    requires budget_given { IsSome (number_in budget.now) }
    ensures { Leaves (run_of listing.now trays.now results.old text.now budget.now) result.report results.new result.state result.line }
{
    let state = read_state(text).unwrap();
    let steps = parse(budget).unwrap();
    let o = runner::run(listing, state, trays, results, steps);
    let end = o.state;
    Made {
        report: o.report,
        line: answer_line(o.report, end.point, o.steps),
        state: write_state(end),
    }
}
