// The checker, the bound on steps, the claim lines and the runner for C and Rust.
#![tactic(auto)]

ghost use Rattle.std.specs.Prelude.{◌≡◌};
ghost use Rattle.model.specs.Listing.{claim_part};
ghost use Rattle.model.specs.Check.{check};
ghost use Rattle.model.specs.Output.{printed};
ghost use Rattle.model.specs.Bound.{step_bound};
ghost use Rattle.model.specs.Machine.{lent};
ghost use Rattle.model.specs.Run as Run;
ghost use Rattle.answer_numbers.specs.Arrays.{answer_of, bound_answer, part_answer, run_answer};
ghost use Rattle.output.specs.BoundLine.{bound_line};
ghost use Rattle.state_tests.specs.States.{state};
ghost use Rattle.exports.specs.Answer.{RunAnswered, RunAnsweredInPlace};

use answer_numbers::arrays::{answer_numbers, part_numbers, run_numbers};
use model::limits::REGISTERS;
use model::machine::State;
use runner::Ending;

// The checker's answer for a listing: number, place, second place, points.
#[unsafe(no_mangle)]
pub extern "C" fn rithwellu_check(listing: &[u8], answer: &mut [u64; 4])
    ensures { answer.new ≡ answer_of (check listing.now) }
{
    let points = checker::check(listing).map(|n| n as u64);
    *answer = answer_numbers(points);
}

// The line that the program prints for a listing.
#[unsafe(no_mangle)]
pub extern "C" fn rithwellu_print(listing: &[u8], line: &mut [u8; 40])
    ensures { line.new ≡ printed (check listing.now) }
{
    *line = checker::report(listing);
}

// How many steps a listing needs at most: number, place and second place of the refusal, or 0; the bound.
#[unsafe(no_mangle)]
pub extern "C" fn rithwellu_step_bound(listing: &[u8], answer: &mut [u64; 4])
    ensures { answer.new ≡ bound_answer (step_bound listing.now) }
{
    let b = step_bound::step_bound(listing);
    *answer = answer_numbers(b);
}

// The line that the program prints for the steps of a listing.
#[unsafe(no_mangle)]
pub extern "C" fn rithwellu_print_bound(listing: &[u8], line: &mut [u8; 40])
    ensures { line.new ≡ bound_line (step_bound listing.now) }
{
    *line = step_bound::report(listing);
}

// The claim lines of a point as a part of the listing: number and place of the refusal, or 0; offset and length of the part.
#[unsafe(no_mangle)]
pub extern "C" fn rithwellu_claim_lines(listing: &[u8], point: usize, answer: &mut [u64; 4])
    ensures { answer.new ≡ part_answer (claim_part listing.now point) }
{
    *answer = part_numbers(claim_parts::claim_part(listing, point));
}

// A run from a point and registers, which then hold the state handed back with the point of the answer:
// 0 stopped, 1 paused or 2 turned back; number, place and second place of the refusal; steps; point.
#[unsafe(no_mangle)]
pub extern "C" fn rithwellu_run(
    listing: &[u8],
    point: usize,
    registers: &mut [u32; REGISTERS],
    trays: &[u8],
    results: &mut [u8],
    budget: u32,
    answer: &mut [u64; 6],
)
    ensures { RunAnswered (Run.run listing.now (state point registers.old) (lent trays.now results.old) budget) registers.new results.new answer.new }
{
    let start = *registers;
    let o = runner::run_from(listing, point, start, trays, results, budget);
    let after = o.state;
    let end = after.registers;
    *registers = end;
    let report = o.report;
    *answer = run_numbers(report, o.steps, after.point);
}

// The answer of a run that ended at a point, written.
fn set_answer(e: Ending, point: usize, answer: &mut [u64; 6])
    ensures { answer.new ≡ run_answer e.report e.steps point }
{
    let report = e.report;
    *answer = run_numbers(report, e.steps, point);
}

// The same run on a lent state, which it changes in place, with the same answer.
#[unsafe(no_mangle)]
pub extern "C" fn rithwellu_run_in_place(
    listing: &[u8],
    state: &mut State,
    trays: &[u8],
    results: &mut [u8],
    budget: u32,
    answer: &mut [u64; 6],
)
    ensures { RunAnsweredInPlace (Run.run listing.now state.old (lent trays.now results.old) budget) state.new results.new answer.new }
{
    let e = in_place::run_in_place(listing, state, trays, results, budget);
    set_answer(e, state.point, answer);
}
