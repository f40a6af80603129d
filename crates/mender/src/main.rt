// The program: an old list of codes mended into a new file. Two arguments, the old list and the file to be made, which
// must not be there. How a list is mended is `course`'s; this file has the arguments and the files. Whatever fails is
// said on standard error, and then there is no new file.
#![tactic(auto)]

use course::carry_over;
use failure::Failure;
use lines::{argument, fail, is_given};
use std::fs::{Files, OpenFile, OpenOptions};
use std::io::{ErrorKind, Read, Write};
use std::{fs, str};

mod changes;
mod course;
mod failure;
mod walk;

fn say_usage<E: Eprint>(rt: &E) {
    let _ = eprintln!(rt; "two arguments, a list of codes and a file to be made");
}

// The whole list in the new file, and the file on its disk. It is closed then.
fn make<R: Read, W: Write + OpenFile + Drop, P: Print>(
    rt: &P,
    from: &mut R,
    mut to: W,
) -> Result<(), Failure<'static>> {
    carry_over(from, &mut to, rt)?;
    to.sync_all().map_err(|error| Failure {
        what: "the new list",
        error,
    })
}

// Into a file that is made here, and is gone where it is not whole.
fn mend_into<R: Read, F: Files + Print>(
    rt: &F,
    from: &mut R,
    new: &str,
) -> Result<(), Failure<'static>> {
    let to = OpenOptions::new()
        .write(true)
        .create_new(true)
        .open(rt, new)
        .map_err(|error| Failure {
            what: "the new list",
            error,
        })?;
    let made = make(rt, from, to);
    if made.is_err() {
        let _ = fs::remove_file(rt, new);
    }
    made
}

// The files of these names. A name that is no text is invalid.
fn mend_named<'a, F: Files + Print>(rt: &F, old: &'a [u8], new: &[u8]) -> Result<(), Failure<'a>> {
    let invalid = ErrorKind::InvalidFilename;
    let old = str::from_utf8(old).map_err(|_| Failure::of("the old list", invalid))?;
    let new = str::from_utf8(new).map_err(|_| Failure::of("the new list", invalid))?;
    let mut from = fs::open(rt, old).map_err(|error| Failure { what: old, error })?;
    mend_into(rt, &mut from, new)
}

fn main(rt: HostRuntime) {
    if !is_given(&rt, 2) || is_given(&rt, 3) {
        say_usage(&rt);
        return;
    }
    // Stays two buffers of their own size: a longer name counts as none, which is said as no such file.
    let mut old = [0u8; 4096];
    let mut new = [0u8; 4096];
    let old = argument(&rt, 1, &mut old);
    let new = argument(&rt, 2, &mut new);
    if let Err(failure) = mend_named(&rt, old, new) {
        fail(&rt, failure.what, failure.error);
    }
}
