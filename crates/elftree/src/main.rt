//! Prints which libraries a program gets, as `ldd` does, without running anything.
//!
//! `elftree FILE..` writes the tree of the libraries of each program: below each object the libraries
//! that it is the first to ask for, with the list by which each was found and its place in the order
//! in which names are looked up. A name that is missing is below each object that asks for it. Then come the
//! versions that are missing. `--start` adds the order in which the libraries start; `--list` writes
//! the paths alone. With `--json` before all of these each line is a JSON object. The files are opened for
//! reading.
#![tactic(auto)]

ghost use Rattle.std.specs.Prelude.{◌≡◌, ◌≢◌, ◌≤◌, IsTrue};
ghost use Rattle.program_ends.specs.declared.TheConstants.{CLOSED};
ghost use Rattle.program_libraries.specs.Complete.{IsComplete};

use crate::lines::Lines;
use crate::options::{Options, asked};
use elf_search::versions::Lack;
use program_ends::{CLOSED, Stop, Watched, arguments, exit_code, say, write_about, write_buffered};
use program_libraries::{
    Finder, LackedVersion, StoredFile, Tree, is_complete, lacked_versions, say_error,
};
use std::alloc::Global;
use std::io;
use std::io::Write;
use std::process::ExitCode;

mod lines;
mod options;
mod records;
mod texts;

const NAME: &str = "elftree";

const USAGE: &str =
    "elftree [--json] [--root DIR] [--library-path LIST] [--cache FILE | --no-cache] [--start | --list] <binary_path>..";

const HELP: &str =
    "Prints the libraries that a program gets, and how each is found, as the loader finds them. Files are
opened for reading, and nothing is run.
--json               before the other options: each line as a JSON object
--root DIR           the program and its libraries are under DIR, the root of another system
--library-path LIST  the value of LD_LIBRARY_PATH
--cache FILE         another cache than /etc/ld.so.cache
--no-cache           no cache
--start              also the order in which the libraries start
--list               only the paths, in the order in which names are looked up";

/// Writes the tree of a program to `out`, or the reason why it can't to `err`, and returns the exit
/// status.
///
/// The status is 0 once all is written and flushed and nothing is missing, `CLOSED`, and nothing is
/// said, if a write failed since nobody reads the output, and 1 otherwise. What an auxiliary entry asks
/// for, and a version that is needed weakly or of a library without versions, may be missing. By the
/// contract the status is 0 only if each name that the files of the objects ask for, other than by an
/// auxiliary entry, found an object, and if each other version that is needed of that object is defined
/// there.
pub fn run<'t, W: Write, E: Write>(
    alloc: Global,
    options: &Options<'_>,
    files: &'t [StoredFile],
    tree: &'t Tree,
    out: &mut Watched<W>,
    err: &mut E,
) -> u8
    ensures bound { result ≢ CLOSED → result ≤ 1 }
    ensures closed { result ≡ CLOSED → IsTrue out.new.closed }
    ensures complete { result ≡ 0 → IsComplete files.now tree.now.objects.items }
{
    let lacked = match lacked_versions(alloc, files, tree) {
        Ok(lacked) => lacked,
        Err(error) => return say_error(NAME, &error, err),
    };
    let lines = Lines {
        form: options.form,
        is_list: options.is_list,
        has_starts: options.has_starts,
        tree,
        lacked: &lacked,
    };
    let is_whole = is_complete(files, &tree.objects) && !has_strong(&lacked);
    match write_buffered(alloc, &lines, &mut *out) {
        Ok(_) => status_of(is_whole),
        Err(stop) => say_stop(stop, out.is_closed(), err),
    }
}

// The status once all is written: 0 if nothing is missing.
fn status_of(is_whole: bool) -> u8
    ensures bound { result ≤ 1 }
    ensures whole { result ≡ 0 → IsTrue is_whole }
{
    if is_whole { 0 } else { 1 }
}

// Says why not all is written, unless nobody reads the output, and returns the status.
fn say_stop<E: Write>(stop: Stop<()>, closed: bool, err: &mut E) -> u8
    ensures bound { result ≢ CLOSED → result ≤ 1 }
    ensures closed { result ≡ CLOSED → IsTrue closed }
    ensures some { result ≢ 0 }
{
    match stop {
        Stop::Write if closed => CLOSED,
        Stop::Memory => say(NAME, &"not enough memory", err),
        Stop::Write | Stop::Failed(_) => say(NAME, &"cannot write", err),
    }
}

// Whether a version is missing without which the program doesn't start.
fn has_strong(lacked: &[LackedVersion<'_>]) -> bool {
    lacked.iter().any(|version| version.lack == Lack::Strong)
}

fn main(rt: HostRuntime) -> ExitCode {
    exit_code(NAME, run_on_arguments(&rt), &mut rt.stderr())
}

// The status, or why the arguments can't be read: for want of memory, or since one is not UTF-8.
fn run_on_arguments(rt: &HostRuntime) -> io::Result<u8> {
    let words = arguments(rt)?;
    let (mut out, mut err) = (Watched::new(rt.stdout()), rt.stderr());
    if let Some(status) = write_about(NAME, USAGE, HELP, &words, &mut out, &mut err) {
        return Ok(status);
    }
    let Some((options, paths)) = asked(&words) else {
        return Ok(say("usage", &USAGE, &mut out));
    };
    match Finder::new(rt, options.settings) {
        Ok(mut finder) => Ok(run_on_paths(rt, &options, paths, &mut finder, &mut out, &mut err)),
        Err(error) => Ok(say_error(NAME, &error, &mut err)),
    }
}

// Writes the trees of the programs at these paths. The status is the greatest of theirs; once nobody reads the output, no
// other tree is written.
fn run_on_paths<W: Write, E: Write>(
    rt: &HostRuntime,
    options: &Options<'_>,
    paths: &[String],
    finder: &mut Finder<'_>,
    out: &mut Watched<W>,
    err: &mut E,
) -> u8 {
    let mut status: u8 = 0;
    for path in paths {
        if out.is_closed() {
            break;
        }
        let text = path.as_str();
        let own = run_on_path(rt, options, text, &mut *finder, &mut *out, &mut *err);
        status = own.max(status);
    }
    status
}

// Writes the tree of the program at a path, or why there is none.
fn run_on_path<W: Write, E: Write>(
    rt: &HostRuntime,
    options: &Options<'_>,
    path: &str,
    finder: &mut Finder<'_>,
    out: &mut Watched<W>,
    err: &mut E,
) -> u8
    ensures { result ≢ CLOSED → result ≤ 1 }
{
    match finder.find(rt, path) {
        Ok(tree) => {
            let files = finder.files();
            run(rt.alloc(), options, files, &tree, out, err)
        }
        Err(error) => say_error(NAME, &error, err),
    }
}
