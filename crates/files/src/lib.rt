// Files read whole; new files made beside others, written, and renamed.
#![tactic(auto)]

ghost use Rattle.std.specs.Prelude.{◌≡◌};
ghost use Rattle.recovery.specs.Names.{new_name};
ghost use Rattle.files.specs.Reading.{is_whole};

use recovery::left::Left;
use recovery::names::folder_length;
use std::fs::{File, OpenOptions};
use std::io::{Error, ErrorKind, Read, Stderr, Write};
use std::{fs, io};
use streams::text::Text;
use streams::{is_more, read_full, write_all, write_failure};

// A failure of which standard error has been told.
#[derive(Clone, Copy)]
pub struct Reported;

// A file that is to be replaced, the name of its new file, and the bytes of that.
#[derive(Clone, Copy)]
pub struct Replacement<'a> {
    pub name: &'a [u8],
    pub new: &'a [u8],
    pub bytes: &'a [u8],
    ghost beside: { new.now ≡ new_name name.now },
}

// Says what is wrong with a file, and why.
pub fn say(to: Stderr, path: &[u8], why: &[u8]) {
    write_all(to, &[b"run_listing: ", path, b": ", why, b"\n"]);
}

// What a call on a file answered. Where it failed, the system's words are written.
fn report<T>(rt: HostRuntime, path: &[u8], answer: io::Result<T>) -> Result<T, Reported> {
    answer.map_err(|error| {
        write_failure(rt.stderr(), path, error);
        Reported
    })
}

// The name as text, which alone the library takes.
fn text(path: &[u8]) -> io::Result<&str> {
    str::from_utf8(path).map_err(|_| Error::new(
        ErrorKind::InvalidInput,
        "its name is no UTF-8 text",
    ))
}

fn open_read(rt: HostRuntime, path: &[u8]) -> io::Result<File> {
    fs::open(&rt, text(path)?)
}

// Opens a file for reading, or says why it cannot be.
pub fn open(rt: HostRuntime, path: &[u8]) -> Result<File, Reported> {
    if path.is_empty() {
        say(rt.stderr(), b"an argument", b"it is empty or too long");
        return Err(Reported);
    }
    report(rt, path, open_read(rt, path))
}

// Whether n bytes are the whole of a file, by whether there is more behind them. A file that has more is taken up to the size of the
// buffer, which no listing and no table may have.
fn is_whole(more: &io::Result<bool>, n: usize, size: usize) -> bool
    ensures { result ≡ is_whole more.now n size }
{
    match more {
        Ok(more) => n == size || !*more,
        Err(_) => false,
    }
}

// Puts the bytes of a file behind a text, of a file that is too long those for which there is room; or says why they cannot be read.
pub fn read<const N: usize>(
    rt: HostRuntime,
    path: &[u8],
    text: &mut Text<N>,
) -> Result<(), Reported> {
    let mut file = open(rt, path)?;
    read_full(&mut file, text);
    let mut rest = [0; 1];
    let more = is_more(file.read(&mut rest));
    if is_whole(&more, text.length, N) {
        return Ok(());
    }
    match more {
        Ok(_) => say(rt.stderr(), path, b"it could not be read whole"),
        Err(error) => write_failure(rt.stderr(), path, error),
    }
    Err(Reported)
}

// Whether an error of a call on a file says that there is no such file: Linux's ENOENT and ENAMETOOLONG. Any other may be one of a file
// that is there.
fn is_missing(error: &Error) -> bool {
    matches!(
        error.kind(),
        ErrorKind::NotFound | ErrorKind::InvalidFilename
    )
}

// Whether there is a file of this name. No run makes one whose name is no text.
pub fn is_there(rt: HostRuntime, path: &[u8]) -> bool {
    if path.is_empty() {
        return false;
    }
    let Ok(name) = text(path) else {
        return false;
    };
    match fs::open(&rt, name) {
        Ok(_) => true,
        Err(error) => !is_missing(&error),
    }
}

// Opens the new file that a run claims: one that the caller has prepared, or one that is made here and was not there before.
fn open_claimed(rt: HostRuntime, path: &[u8], prepared: bool) -> io::Result<File> {
    OpenOptions::new()
        .read(prepared)
        .write(true)
        .create_new(!prepared)
        .open(&rt, text(path)?)
}

// Claims a new file, or says why it cannot be claimed.
pub fn claim(rt: HostRuntime, path: &[u8], prepared: bool) -> Result<(), Reported> {
    if path.is_empty() {
        say(
            rt.stderr(),
            b"RESULTS or STATE",
            b"its path is empty or too long",
        );
        return Err(Reported);
    }
    report(rt, path, open_claimed(rt, path, prepared))?;
    Ok(())
}

// Syncs the folder of a file, so that a name given or taken away there lasts. Where that fails it is said and nothing else is done: the
// files are in place all the same.
pub(crate) fn sync_folder(rt: HostRuntime, path: &[u8]) {
    let n = folder_length(path);
    let folder = if n == 0 { b"." } else { &path[..n] };
    let _ = report(rt, folder, try_sync(rt, folder));
}

fn try_sync(rt: HostRuntime, folder: &[u8]) -> io::Result<()> {
    open_read(rt, folder)?.sync_all()
}

// Writes the bytes of a new file that was claimed, and syncs it, also where not all could be written.
fn try_write(rt: HostRuntime, path: &[u8], bytes: &[u8]) -> io::Result<()> {
    let mut file = open_claimed(rt, path, true)?;
    let put = file.write_all(bytes);
    file.sync_all()?;
    put
}

// Writes the bytes of a new file that was claimed, and syncs it and its folder, or says why it cannot be.
fn write_new(rt: HostRuntime, path: &[u8], bytes: &[u8]) -> Result<(), Reported> {
    report(rt, path, try_write(rt, path, bytes))?;
    sync_folder(rt, path);
    Ok(())
}

fn try_rename(rt: HostRuntime, from: &[u8], to: &[u8]) -> io::Result<()> {
    fs::rename(&rt, text(from)?, text(to)?)
}

// Gives a new file its name, or says why it cannot be.
pub fn rename(rt: HostRuntime, from: &[u8], to: &[u8]) -> Result<(), Reported> {
    report(rt, to, try_rename(rt, from, to))?;
    sync_folder(rt, to);
    Ok(())
}

fn try_remove(rt: HostRuntime, path: &[u8]) -> io::Result<()> {
    fs::remove_file(&rt, text(path)?)
}

// Sees to it that no file of this name is there any more, or says why it could not be removed.
pub fn remove(rt: HostRuntime, path: &[u8]) -> Result<(), Reported> {
    match try_remove(rt, path) {
        Err(error) if is_missing(&error) => Ok(()),
        answer => report(rt, path, answer),
    }
}

// Removes the new files of a run that has changed nothing: the state's first, so that it never stands alone.
pub fn remove_both(rt: HostRuntime, results_new: &[u8], state_new: &[u8]) -> Result<(), Reported> {
    remove(rt, state_new)?;
    sync_folder(rt, state_new);
    remove(rt, results_new)
}

// Writes both new files, and gives the first its name.
fn replace_first(rt: HostRuntime, first: Replacement, second: Replacement) -> Result<(), Reported> {
    write_new(rt, first.new, first.bytes)?;
    write_new(rt, second.new, second.bytes)?;
    rename(rt, first.new, first.name)
}

// Replaces two files by new ones that were claimed: both are written, then the first is renamed, then the second. The answer says what
// is left then: before the first rename both files are as they were, and between the two the second's new file is left, whole.
pub fn replace_both(rt: HostRuntime, first: Replacement, second: Replacement) -> Left {
    if replace_first(rt, first, second).is_err() {
        return Left::Begun;
    }
    if rename(rt, second.new, second.name).is_err() {
        say(
            rt.stderr(),
            second.new,
            b"the results are replaced, the state is still here; the next call of run-listing puts it in place",
        );
        return Left::Half;
    }
    Left::Nothing
}
