// What a run that was broken off has left of its new files: told, and put right.
#![tactic(auto)]

use files::{is_there, read, remove_both, rename, say};
use recovery::left::{Left, left_by};
use recovery::names::beside;
use saved::states::read_state;
use std::io::Stderr;
use streams::text::{Path, Text};
use streams::{argument, write_all};

// The name of the new file beside argument i.
pub fn new_name_of(rt: HostRuntime, i: usize) -> Path {
    let path: Path = argument(rt, i);
    beside(path.as_bytes())
}

// Says what was done, or is to be done, with the new files that a run has only begun: that of the state where it is there, and then that
// of the results.
fn tell_begun(
    to: Stderr,
    what: &[u8],
    state_new: Option<&[u8]>,
    between: &[u8],
    results_new: &[u8],
) {
    match state_new {
        Some(name) => write_all(
            to,
            &[b"run_listing: ", what, name, between, results_new, b"\n"],
        ),
        None => write_all(to, &[b"run_listing: ", what, results_new, b"\n"]),
    }
}

// The new file of the state, where it is there.
fn where_there(rt: HostRuntime, state_new: &[u8]) -> Option<&[u8]> {
    is_there(rt, state_new).then_some(state_new)
}

// Names every new file that is there, of the results in argument 3 and the state in argument 4, and says what that means. Whether the run
// that made them still goes on is not known here, so nothing is changed. The answer is whether there are any.
pub fn is_left_over(rt: HostRuntime) -> bool {
    let results_name = new_name_of(rt, 3);
    let results_new = results_name.as_bytes();
    let state_name = new_name_of(rt, 4);
    let state_new = state_name.as_bytes();
    let state_there = where_there(rt, state_new);
    let left = left_by(is_there(rt, results_new), state_there.is_some());
    match left {
        Left::Nothing => {}
        Left::Begun => tell_begun(
            rt.stderr(),
            b"left by a run that goes on or was broken off. If none goes on, nothing was changed: remove ",
            state_there,
            b", then ",
            results_new,
        ),
        Left::Half => say(
            rt.stderr(),
            state_new,
            b"left by a run that goes on or was broken off. If none goes on, the results are replaced and the state is here: rename it to the name of the state",
        ),
    }
    left != Left::Nothing
}

// Removes what a run that has changed nothing has left, and says so.
fn remove_begun(rt: HostRuntime, results_new: &[u8], state_new: &[u8]) {
    let state_there = where_there(rt, state_new);
    if remove_both(rt, results_new, state_new).is_ok() {
        tell_begun(
            rt.stderr(),
            b"a run was broken off before it changed anything; removed ",
            state_there,
            b" and ",
            results_new,
        );
    }
}

// Whether a file holds a whole state.
fn holds_state(rt: HostRuntime, path: &[u8]) -> bool {
    let mut text = Text::<681>::empty();
    read(rt, path, &mut text).is_ok() && read_state(text.as_bytes()).is_some()
}

// Puts the state of a run in place whose results are, and says so.
fn place_state(rt: HostRuntime, state_new: &[u8]) {
    if !holds_state(rt, state_new) {
        say(
            rt.stderr(),
            state_new,
            b"left by a run that was broken off, and no whole state: nothing was changed",
        );
        return;
    }
    let name: Path = argument(rt, 2);
    let state = name.as_bytes();
    if rename(rt, state_new, state).is_ok() {
        write_all(
            rt.stderr(),
            &[
                b"run_listing: ",
                b"a run was broken off after it had replaced the results; renamed ",
                state_new,
                b" to ",
                state,
                b"\n",
            ],
        );
    }
}

// Puts right what a run over the results in argument 1 and the state in argument 2 has left. The caller sees to it that none goes on.
pub fn put_right(rt: HostRuntime) {
    let results_name = new_name_of(rt, 1);
    let results_new = results_name.as_bytes();
    let state_name = new_name_of(rt, 2);
    let state_new = state_name.as_bytes();
    let results_there = is_there(rt, results_new);
    match left_by(results_there, is_there(rt, state_new)) {
        Left::Nothing => {}
        Left::Begun => remove_begun(rt, results_new, state_new),
        Left::Half => place_state(rt, state_new),
    }
}
