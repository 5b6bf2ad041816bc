// The runner: a run of a listing with a budget of steps.
#![tactic(auto)]

ghost use Rattle.std.specs.Prelude.{◌≡◌, ◌/◌, ◌≤◌, length};
ghost use Rattle.model.specs.Limits.{line_bytes, greatest_listing, greatest_lines};
ghost use Rattle.model.specs.Machine.{lent};
ghost use Rattle.model.specs.Run as Run;
ghost use Rattle.rows_and_places.specs.Points.{AllPlaced, points_in};
ghost use Rattle.state_tests.specs.States.{state};
ghost use Rattle.run_loop.specs.Runs.{Coded, RunByValue};
ghost use Rattle.runner.specs.Runs.{CodeRoom, outcome_of};

use checker::judged_listing;
use decoded::instruction_from;
use line_rows::rows::Row;
use model::answers::{Outcome, Refusal, Report};
use model::limits::{GREATEST_LINES, GREATEST_POINTS, REGISTERS};
use model::machine::{Instruction, State};
use rows_and_places::places::{Place, Places, instruction_row};
use rows_and_places::sizes::{
    FEW_LINES, FEW_LISTING, LONG_LINES, LONG_LISTING, PLACES, SHORT_LINES, SHORT_LISTING,
};
use run_loop::run_code;
use state_tests::state_judged;

// What a run in place hands back besides the state.
#[derive(Clone, Copy)]
pub struct Ending {
    pub report: Report,
    pub steps: u32,
}

// Gathers the instructions of the first n points, in their order.
fn gather(rows: &[Row], at: &Places, n: usize, code: &mut [Instruction])
    requires all_placed { AllPlaced rows.now at.now n }
    requires n_in_bounds { n ≤ length code.old }
    ensures { Coded (points_in rows.now at.now n) code.new }
{
    for p in 0..n {
        code[p] = instruction_from(instruction_row(rows, at, p));
    }
}

// The run of a listing of at most so many lines and points, or what turns it back.
fn started<const LINES: usize, const POINTS: usize>(
    listing: &[u8],
    state: State,
    trays: &[u8],
    results: &mut [u8],
    budget: u32,
) -> Result<Outcome, Refusal>
    requires lines_bound { (LINES ≤ greatest_lines) × (POINTS ≤ greatest_lines) }
    requires listing_fits { length listing.now ≤ greatest_listing → length listing.now / line_bytes ≤ LINES }
    requires code_room { CodeRoom (length listing.now) POINTS }
    ensures { RunByValue (Run.run listing.now state (lent trays.now results.old) budget) (outcome_of state result) results.new }
{
    let mut rows = [Row::BLANK; LINES];
    let mut at = [Place::NONE; PLACES];
    let count = judged_listing(listing, &mut rows, &mut at)?;
    let sizes = [trays.len(), results.len()];
    state_judged(&rows, &at, count, state.point, state.registers, sizes)?;
    let mut code = [Instruction::Stop; POINTS];
    gather(&rows, &at, count, &mut code);
    Ok(run_code(listing, &code, state, trays, results, budget))
}

// The same as an outcome. It stays a function of its own for each number of lines: the rows of many take a large part of the stack, which a
// run of few lines does not touch.
#[inline(never)]
fn run_within<const LINES: usize, const POINTS: usize>(
    listing: &[u8],
    state: State,
    trays: &[u8],
    results: &mut [u8],
    budget: u32,
) -> Outcome
    requires lines_bound { (LINES ≤ greatest_lines) × (POINTS ≤ greatest_lines) }
    requires listing_fits { length listing.now ≤ greatest_listing → length listing.now / line_bytes ≤ LINES }
    requires code_room { CodeRoom (length listing.now) POINTS }
    ensures { RunByValue (Run.run listing.now state (lent trays.now results.old) budget) result results.new }
{
    match started::<LINES, POINTS>(listing, state, trays, results, budget) {
        Ok(outcome) => outcome,
        Err(r) => Outcome {
            report: Report::Refused(r),
            state,
            steps: 0,
        },
    }
}

// A run of a listing from a state over both tables, with a budget of steps. It repeats 1 to 14 and 19, then tests 15 to 17.
// A run that is turned back hands back the state as it was with 0 steps, and leaves every byte of the results.
// A listing of few lines has few rows and little code, so that its call does not pay for the longest.
pub fn run(listing: &[u8], state: State, trays: &[u8], results: &mut [u8], budget: u32) -> Outcome
    ensures { RunByValue (Run.run listing.now state (lent trays.now results.old) budget) result results.new }
{
    match listing.len() {
        0..=FEW_LISTING => {
            run_within::<FEW_LINES, FEW_LINES>(listing, state, trays, results, budget)
        }
        0..=SHORT_LISTING => {
            run_within::<SHORT_LINES, SHORT_LINES>(listing, state, trays, results, budget)
        }
        0..=LONG_LISTING => {
            run_within::<LONG_LINES, GREATEST_POINTS>(listing, state, trays, results, budget)
        }
        _ => run_within::<GREATEST_LINES, GREATEST_POINTS>(listing, state, trays, results, budget),
    }
}

// The same from a point and registers.
pub fn run_from(
    listing: &[u8],
    point: usize,
    registers: [u32; REGISTERS],
    trays: &[u8],
    results: &mut [u8],
    budget: u32,
) -> Outcome
    ensures { RunByValue (Run.run listing.now (state point registers) (lent trays.now results.old) budget) result results.new }
{
    run(listing, State { point, registers }, trays, results, budget)
}
