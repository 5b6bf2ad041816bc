// What a run over files hands back: saved, printed, or explained.
#![tactic(auto)]

ghost use Rattle.std.specs.Prelude.{◌≡◌};
ghost use Rattle.run_parts.specs.FileRun.{line_of, Saves};
ghost use Rattle.run_parts.specs.OverInputs.{run_over};

use answer_numbers::refusal::numbers;
use explain::write_explanation;
use files::{Replacement, replace_both, say};
use model::answers::Report;
use recovery::left::Left;
use recovery::names::beside;
use run_parts::{Inputs, file_of};
use streams::text::Path;
use streams::{argument, argument_count};

// How many arguments the wrapper gives, the program's own name among them.
pub const WRAPPED: usize = 9;

// Replaces the results and the state by what a run handed back. The prover refuses a caller that has anything else to save.
pub fn save(rt: HostRuntime, inputs: &Inputs, results: &[u8], state: &[u8; 680]) -> Left
    requires { Saves (run_over inputs.now) results.now state.now }
{
    let results_name: Path = argument(rt, 3);
    let results_new = beside(results_name.as_bytes());
    let state_name: Path = argument(rt, 4);
    let state_new = beside(state_name.as_bytes());
    replace_both(
        rt,
        Replacement {
            name: results_name.as_bytes(),
            new: results_new.as_bytes(),
            bytes: results,
        },
        Replacement {
            name: state_name.as_bytes(),
            new: state_new.as_bytes(),
            bytes: state,
        },
    )
}

// Prints the line of a run, and says where it could not be printed what became of the files. The prover refuses a caller that has
// another line.
pub fn print(rt: HostRuntime, inputs: &Inputs, line: &[u8; 40], files: &[u8])
    requires { line.now ≡ line_of (run_over inputs.now) }
{
    if rt.stdout().write_all(line).is_err() {
        say(rt.stderr(), b"the line could not be written", files);
    }
}

// The argument with the name that the user gave a file: the wrapper follows links in the paths of the results and the state, and hands
// on the names that it was given as its last two arguments.
fn name_of(rt: HostRuntime, file: usize) -> usize {
    if argument_count(rt) != WRAPPED {
        return file;
    }
    match file {
        3 => 7,
        4 => 8,
        _ => file,
    }
}

// Explains the report of a run, where it is a refusal. The prover refuses a caller that has another report.
pub fn explain_report(rt: HostRuntime, inputs: &Inputs, report: Report)
    requires { report ≡ (run_over inputs.now).outcome.report }
{
    if let Report::Refused(r) = report {
        let file = file_of(numbers(r).number, inputs.trays.len());
        let name: Path = argument(rt, name_of(rt, file));
        write_explanation(rt.stderr(), name.as_bytes(), inputs.listing, r);
    }
}
