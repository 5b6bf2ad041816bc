// Reads a listing from standard input and prints the checker's line: check_listing [NAME]. With a second argument, whatever it is, the
// line is that of the listing's bound on steps. Where the line is FAIL, standard error says in words what it means. NAME stands there
// for the listing, or 'standard input' where no name is given or an empty one.
#![tactic(auto)]

ghost use Rattle.std.specs.Prelude.{◌≡◌};
ghost use Rattle.check_listing.specs.Program.{Tells, input_listing, line_of, judged_of};

use explain::write_explanation;
use model::answers::{Judgement, Refusal};
use output::bound_line::bound_line;
use output::printed::printed;
use std::io;
use std::io::{Read, Stderr, Stdout};
use streams::text::{Path, Text};
use streams::{argument, is_more, read_full, write_all};

// What is asked: whether the steps are, what was read, and whether there is more behind it.
#[derive(Clone, Copy)]
struct Asked<'a> {
    steps: bool,
    listing: &'a [u8],
    more: &'a io::Result<bool>,
}

// What is told of a listing: the line, and whether the listing is turned back.
#[derive(Clone, Copy)]
struct Told {
    line: [u8; 40],
    judgement: Judgement,
}

// The answer for a listing: its bound where the steps are asked for, else the checker's.
fn answer(steps: bool, listing: &[u8]) -> Told
    ensures { Tells result steps listing.now }
{
    if steps {
        let bound = step_bound::step_bound(listing);
        return Told {
            line: bound_line(bound),
            judgement: bound.map(|_| ()),
        };
    }
    let verdict = checker::check(listing);
    Told {
        line: printed(verdict),
        judgement: verdict.map(|_| ()),
    }
}

// The answer for what was read, where the input ended there. Anything else, a failed read too, is turned back like an empty listing,
// so that no part of a listing can pass for the whole.
fn input_answer(asked: &Asked) -> Told
    ensures { Tells result asked.now.steps (input_listing asked.now.listing.now asked.now.more.now) }
{
    match asked.more {
        Ok(false) => answer(asked.steps, asked.listing),
        Ok(true) | Err(_) => answer(asked.steps, &[]),
    }
}

// Prints the line of what was read. The prover refuses a caller that has another line.
fn print(to: Stdout, asked: &Asked, line: &[u8; 40])
    requires { line.now ≡ line_of asked.now.steps (input_listing asked.now.listing.now asked.now.more.now) }
{
    let _ = to.write_all(line);
}

// Explains the refusal of what was read, or says that reading failed. The prover refuses a caller that has another refusal.
fn explain_refusal(to: Stderr, name: &[u8], asked: &Asked, r: Refusal)
    requires { judged_of asked.now.steps (input_listing asked.now.listing.now asked.now.more.now) ≡ Err r }
{
    match asked.more {
        Ok(_) => write_explanation(to, name, asked.listing, r),
        Err(_) => write_all(to, &[name, b": it could not be read whole\n"]),
    }
}

// Explains the judgement of what was read, where it is a refusal, under the name that the program was given.
fn explain_judgement(rt: HostRuntime, asked: &Asked, j: Judgement)
    requires { j ≡ judged_of asked.now.steps (input_listing asked.now.listing.now asked.now.more.now) }
{
    if let Err(r) = j {
        let given: Path = argument(rt, 1);
        let name = match given.as_bytes() {
            [] => b"standard input",
            name => name,
        };
        explain_refusal(rt.stderr(), name, asked, r);
    }
}

// Whether the steps are asked for.
fn asks_steps(rt: HostRuntime) -> bool {
    let word: Path = argument(rt, 2);
    !word.as_bytes().is_empty()
}

fn main(rt: HostRuntime) {
    let mut input = rt.stdin();
    let mut text = Text::<65521>::empty();
    read_full(&mut input, &mut text);
    let mut rest = [0; 1];
    let more = is_more(input.read(&mut rest));
    let steps = asks_steps(rt);
    let listing = text.as_bytes();
    let more = &more;
    let asked = Asked {
        steps,
        listing,
        more,
    };
    let told = input_answer(&asked);
    print(rt.stdout(), &asked, &told.line);
    explain_judgement(rt, &asked, told.judgement);
}
