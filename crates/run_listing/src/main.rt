// Runs a listing over files: run_listing LISTING TRAYS RESULTS STATE BUDGET. It claims its new files, reads all four files, runs at most
// BUDGET steps, replaces the results and the state, and prints one line. A refusal or an error changes no file.
// The wrapper, which holds the locks of the files on a descriptor, names that descriptor after them, and then the names that it was given
// for the results and the state: the new files are there already. run_listing RESULTS STATE LOCK puts right what a run has left that was
// broken off.
#![tactic(auto)]

ghost use Rattle.std.specs.Prelude.{◌≡◌, IsSome};
ghost use Rattle.saved.specs.Numbers.{number_in};
ghost use Rattle.saved.specs.States.{saved_in};

use broken_off::{is_left_over, new_name_of, put_right};
use file_run::run_of;
use files::{Reported, claim, read, remove, remove_both, say};
use recovery::left::Left;
use run_parts::{Inputs, is_made};
use run_saved::{WRAPPED, explain_report, print, save};
use saved::numbers::parse;
use saved::states::read_state;
use streams::text::{Path, Text};
use streams::{argument, argument_count, write};

// Runs, saves and prints, and answers what is left of the new files. The results that were read are lent twice: the run changes one of
// them, since what is saved and printed is what the run makes of those that were read.
fn run_on(rt: HostRuntime, inputs: &Inputs, results: &mut [u8]) -> Left
    requires before_value { inputs.now.results.now ≡ results.old }
    requires state_given { IsSome (saved_in inputs.now.state.now) }
    requires budget_given { IsSome (number_in inputs.now.budget.now) }
{
    let made = run_of(
        inputs.listing,
        inputs.trays,
        results,
        inputs.state,
        inputs.budget,
    );
    if is_made(made.report) {
        let left = save(rt, inputs, results, &made.state);
        if left == Left::Nothing {
            print(rt, inputs, &made.line, b"results and state are replaced");
        }
        return left;
    }
    explain_report(rt, inputs, made.report);
    print(rt, inputs, &made.line, b"no file was changed");
    Left::Begun
}

// Reads the file that an argument names.
fn read_named<const N: usize>(
    rt: HostRuntime,
    i: usize,
    text: &mut Text<N>,
) -> Result<(), Reported> {
    let path: Path = argument(rt, i);
    read(rt, path.as_bytes(), text)
}

// Says that the file of the state holds none.
fn say_no_state(rt: HostRuntime) {
    let path: Path = argument(rt, 4);
    say(
        rt.stderr(),
        path.as_bytes(),
        b"it is no state: a JUMP line and 16 SETC lines, registers 0 to 15",
    );
}

// Reads the four files, and runs. The answer is what is left of the new files.
fn run_claimed(rt: HostRuntime, budget: &[u8]) -> Result<Left, Reported>
    requires { IsSome (number_in budget.now) }
{
    let mut listing = Text::<65521>::empty();
    read_named(rt, 1, &mut listing)?;
    let mut trays = Text::<65537>::empty();
    read_named(rt, 2, &mut trays)?;
    let mut state = Text::<681>::empty();
    read_named(rt, 4, &mut state)?;
    if read_state(state.as_bytes()).is_none() {
        say_no_state(rt);
        return Err(Reported);
    }
    let mut results = Text::<65537>::empty();
    read_named(rt, 3, &mut results)?;
    let before = results;
    let n = results.length;
    let inputs = Inputs {
        listing: listing.as_bytes(),
        trays: trays.as_bytes(),
        results: before.as_bytes(),
        state: state.as_bytes(),
        budget,
    };
    Ok(run_on(rt, &inputs, &mut results.bytes[..n]))
}

// The whole work with new files that are claimed. Where nothing was changed they are removed again.
fn with_claimed(rt: HostRuntime, budget: &[u8], results_new: &[u8], state_new: &[u8])
    requires { IsSome (number_in budget.now) }
{
    match run_claimed(rt, budget) {
        Ok(Left::Nothing | Left::Half) => {}
        Ok(Left::Begun) | Err(_) => {
            let _ = remove_both(rt, results_new, state_new);
        }
    }
}

// Gives up before anything is read: what the wrapper has prepared is removed.
fn give_up(rt: HostRuntime, prepared: bool, results_new: &[u8], state_new: &[u8]) {
    if prepared {
        let _ = remove_both(rt, results_new, state_new);
    }
}

// The whole work with a budget: claims the new files before anything is read, the results' first.
fn with_budget(rt: HostRuntime, budget: &[u8], prepared: bool, results_new: &[u8], state_new: &[u8])
    requires { IsSome (number_in budget.now) }
{
    if claim(rt, results_new, prepared).is_err() {
        give_up(rt, prepared, results_new, state_new);
        return;
    }
    if claim(rt, state_new, prepared).is_err() {
        give_up(rt, prepared, results_new, state_new);
        let _ = remove(rt, results_new);
        return;
    }
    with_claimed(rt, budget, results_new, state_new);
}

// A run with the budget that is given, where it is a number.
fn run_files(rt: HostRuntime, prepared: bool) {
    let results_new = new_name_of(rt, 3);
    let state_new = new_name_of(rt, 4);
    let budget: Text<16> = argument(rt, 5);
    match parse(budget.as_bytes()) {
        Some(_) => with_budget(
            rt,
            budget.as_bytes(),
            prepared,
            results_new.as_bytes(),
            state_new.as_bytes(),
        ),
        None => {
            write(
                rt.stderr(),
                b"run_listing: the budget is a number from 0 to 4294967295\n",
            );
            give_up(rt, prepared, results_new.as_bytes(), state_new.as_bytes());
        }
    }
}

fn main(rt: HostRuntime) {
    match argument_count(rt) {
        4 => put_right(rt),
        6 => {
            if !is_left_over(rt) {
                run_files(rt, false);
            }
        }
        WRAPPED => run_files(rt, true),
        _ => write(
            rt.stderr(),
            b"usage: run_listing LISTING TRAYS RESULTS STATE BUDGET\n",
        ),
    }
}
