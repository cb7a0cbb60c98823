//! Runs on the files at the paths that the arguments name.

ghost use Rattle.std.specs.Prelude.{◌<◌};

use crate::arguments::{asked, asked_of_loader, asked_of_start};
use crate::plans::AnyError;
use crate::verdicts::run_verdicts;
use crate::{HELP, NAME, Options, USAGE, run, run_found, run_start, run_together};
use elf_loading::Loader;
use linking_programs::read_inputs;
use program_ends::json::{Form, form_asked};
use program_ends::{Watched, arguments, say, write_about};
use program_libraries::{Finder, Given, Settings, say_error, say_lacked_given};
use std::io;
use std::io::Write;

/// The status, or why the arguments can't be read: for want of memory, or since one is not UTF-8.
pub(crate) fn run_on_arguments(rt: &HostRuntime) -> io::Result<u8> {
    let words = arguments(rt)?;
    let (mut out, mut err) = (Watched::new(rt.stdout()), rt.stderr());
    if let Some(status) = write_about(NAME, USAGE, HELP, &words, &mut out, &mut err) {
        return Ok(status);
    }
    let (form, rest) = form_asked(&words);
    if let Some((by, page, paths)) = asked_of_loader(rest) {
        return Ok(run_on_each(rt, by, form, page, paths, &mut out, &mut err));
    }
    if let Some((page, settings, path)) = asked_of_start(rest) {
        return Ok(run_start_on(rt, form, page, settings, path, &mut out, &mut err));
    }
    let Some((asked, given)) = asked(form, rest) else {
        return Ok(say("usage", &USAGE, &mut out));
    };
    match given {
        Given::Program(settings, path) => {
            Ok(run_on_program(rt, asked, settings, path, &mut out, &mut err))
        }
        Given::Files(paths) => Ok(run_on_files(rt, asked, paths, &mut out, &mut err)),
    }
}

// Writes what is asked of the program at a path and its libraries, or why there is none.
fn run_on_program<W: Write, E: Write>(
    rt: &HostRuntime,
    asked: Options<'_>,
    settings: Settings<'_>,
    path: &str,
    out: &mut Watched<W>,
    err: &mut E,
) -> u8
    requires { 0 < asked.page }
{
    let mut finder = match Finder::new(rt, settings) {
        Ok(finder) => finder,
        Err(error) => return say_error(NAME, &error, err),
    };
    match finder.find(rt, path) {
        Ok(tree) => run_found(rt.alloc(), asked, finder.files(), &tree, out, err),
        Err(error) => say_error(NAME, &error, err),
    }
}

// Writes which functions run when the program at a path starts, or why there is no such program.
fn run_start_on<W: Write, E: Write>(
    rt: &HostRuntime,
    form: Form,
    page: u64,
    settings: Settings<'_>,
    path: &str,
    out: &mut Watched<W>,
    err: &mut E,
) -> u8
    requires { 0 < page }
{
    let mut finder = match Finder::new(rt, settings) {
        Ok(finder) => finder,
        Err(error) => return say_error(NAME, &error, err),
    };
    match finder.find(rt, path) {
        Ok(tree) => run_start(rt.alloc(), form, page, finder.files(), &tree, out, err),
        Err(error) => say_error(NAME, &error, err),
    }
}

// Writes what is asked of a file by itself, or of a program and its libraries, at these paths, and which versions they lack
// of each other, or which file can't be read.
fn run_on_files<W: Write, E: Write>(
    rt: &HostRuntime,
    asked: Options<'_>,
    paths: &[String],
    out: &mut Watched<W>,
    err: &mut E,
) -> u8
    requires { 0 < asked.page }
{
    match read_inputs::<_, AnyError>(rt, paths) {
        Ok(inputs) if paths.len() == 1 => run(rt.alloc(), asked, &inputs, out, err),
        Ok(inputs) => {
            let missing = say_lacked_given(rt.alloc(), NAME, &inputs, &mut *err);
            run_together(rt.alloc(), asked, missing, &inputs, out, err)
        }
        Err(fault) => say(NAME, &fault, err),
    }
}

// Writes whether a loader maps each of the files at some paths, or which can't be read.
fn run_on_each<W: Write, E: Write>(
    rt: &HostRuntime,
    by: Loader,
    form: Form,
    page: u64,
    paths: &[String],
    out: &mut Watched<W>,
    err: &mut E,
) -> u8
    requires { 0 < page }
{
    match read_inputs::<_, AnyError>(rt, paths) {
        Ok(inputs) => run_verdicts(by, form, page, &inputs, out, err),
        Err(fault) => say(NAME, &fault, err),
    }
}
