// The loop of a run: a listing that passes is run by the code of its points, and no step is tested.
#![tactic(auto)]

ghost use Rattle.std.specs.Prelude.{◌≡◌, take, if◌then◌else◌};
ghost use Rattle.model.specs.Types.{accepted};
ghost use Rattle.model.specs.declared.answers.Report.TheVariants.{Stopped, Paused};
ghost use Rattle.model.specs.Limits.{registers};
ghost use Rattle.model.specs.Listing.{listing_of, points_of};
ghost use Rattle.model.specs.Check.{listing_judged};
ghost use Rattle.model.specs.Machine.{lent, sizes_of};
ghost use Rattle.model.specs.Run as Run;
ghost use Rattle.state_tests.specs.States.{state};
ghost use Rattle.model.specs.Instructions.{is_stop};
ghost use Rattle.run_loop.specs.Runs.{outcome, Coded, RunByValue};

use model::answers::{Outcome, Report};
use model::limits::VARIABLES;
use model::machine::{Instruction, State};
use state_tests::words;
use steps::step::step;
use steps::values::{registers_of, values_of};

// What is handed back at a point with these values after so many steps.
fn ended(report: Report, point: usize, values: [u32; VARIABLES], steps: u32) -> Outcome
    ensures { result ≡ outcome report (state point (take registers values)) steps }
{
    let registers = registers_of(values);
    Outcome {
        report,
        state: State { point, registers },
        steps,
    }
}

// Whether an instruction is STOP.
fn is_stop(instruction: &Instruction) -> bool
    ensures { result ≡ is_stop instruction.now }
{
    matches!(*instruction, Instruction::Stop)
}

// How a run ends at an instruction where its budget is spent: STOP needs no step.
fn report_at_budget(instruction: &Instruction) -> Report
    ensures { result ≡ (if is_stop instruction.now then Stopped else Paused) }
{
    if is_stop(instruction) {
        Report::Stopped
    } else {
        Report::Paused
    }
}

// The run of a listing that passes, by the code of its points, from a state that nothing turns back.
pub fn run_code(
    listing: &[u8],
    code: &[Instruction],
    start: State,
    trays: &[u8],
    results: &mut [u8],
    budget: u32,
) -> Outcome
    requires listing_value { listing_judged (listing_of listing.now) ≡ accepted }
    requires coded { Coded (points_of (listing_of listing.now)) code.now }
    requires results_value { Run.state_judged (points_of (listing_of listing.now)) start (sizes_of (lent trays.now results.old)) ≡ accepted }
    ensures { RunByValue (Run.run listing.now start (lent trays.now results.old) budget) result results.new }
{
    let sizes = [trays.len(), results.len()];
    let mut values = values_of(start.registers, words(sizes));
    let mut point = start.point;
    for made in 0..budget {
        let instruction = &code[point];
        // Right before the step, so that the compiled loop finds out with one jump whether it is STOP and which step to make.
        if is_stop(instruction) {
            return ended(Report::Stopped, point, values, made);
        }
        point = step(instruction, point, &mut values, trays, results);
    }
    ended(report_at_budget(&code[point]), point, values, budget)
}
