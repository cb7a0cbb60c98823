//! Writes how many bytes of ELF files belong to each of their parts.
//!
//! `elfsize FILE..` writes for each file a line for each part that has bytes, the largest first: the
//! number of bytes, their share, and the part. The last line is their sum, which is the size of the
//! file. After more than one file it writes their bytes by kind of part. `--segments` before the
//! files lists the parts of each file without its section header table. `--symbols` lists the bytes
//! of sections by the symbol of `.symtab` that owns them, or of the separate debug file if the file has
//! no such section. `elfsize --diff OLD NEW` writes a line for each part whose size differs. `--json`
//! writes each line as a JSON object.
#![tactic(auto)]

ghost use Rattle.std.specs.Prelude.{◌≡◌, ◌≤◌, ◌&&◌, ◌==◌, MatchResult, Result, cond};
ghost use Rattle.elfsize.specs.Ends.{AreEnds, IsEnd, IsEndAt, IsFault, IsFaultOf, IsStatus, OfFile};
ghost use Rattle.elfsize.specs.Ends.{fault_of, sums_after};
ghost use Rattle.elfsize.specs.Lines.{IsInputText};
ghost use Rattle.elfsize.specs.Sides.{IsInputError, IsInputThere};
ghost use Rattle.elfsize.specs.Sums.{AreInputSums};
ghost use Rattle.elfsize.specs.declared.sums.Sums.{Sums};
ghost use Rattle.elfsize.specs.declared.lines.AnyError.{AnyError};
ghost use Rattle.program_ends.specs.Appended.{AppendsSome};
ghost use Rattle.program_ends.specs.Ends.{status_of};
ghost use Rattle.program_ends.specs.declared.Fault.{Fault};
ghost use Rattle.program_ends.specs.declared.TheConstants.{CLOSED};

use crate::difference::{compare_paths, compared};
use crate::lines::{AnyError, Lines};
use crate::naming::{debug_bytes, side_of};
use crate::sums::{Sums, input_sums, write_sums};
use crate::view::{Options, View, read_shown};
use program_debug::DEBUG_FOLDER;
use program_ends::json::Form;
use program_ends::{
    CLOSED, Fault, Stop, Watched, arguments, exit_code, say, write_about, write_buffered,
};
use std::alloc::Global;
use std::convert::AsStr;
use std::fs::File;
use std::io;
use std::io::{IsTerminal, Read, Write};
use std::process::ExitCode;
use std::rt::{Clock, Files};
use std::time::Instant;

mod changes;
mod difference;
mod lines;
mod naming;
mod parts;
mod records;
mod side;
mod split;
mod sums;
mod symbols;
mod totals;
mod view;

const NAME: &str = "elfsize";

const USAGE: &str =
    "elfsize [--json] [--diff [--fail-above BYTES]] [--segments | --symbols [--debug DIR | --no-debug]] <binary_path>..";

const HELP: &str = "Prints how many bytes of each file belong to which part, the largest first;
after more than one file the bytes of all by kind of part.
--json       each line as a JSON object
--segments   as if the file had no sections
--symbols    bytes in sections by symbol; the line of a section is for the bytes in no symbol.
             A file without a symbol table has the symbols of its separate debug file, if there is one
--debug DIR  the folder of debug files, /usr/lib/debug without it
--no-debug   no debug file
--diff       what changed from the first of two files to the second, the greatest change first;
             with --fail-above the status is 2 if the second is larger by more than BYTES";

/// Writes the sizes of the parts of a view of a file to `out`, or the reason why it can't to `err`, and returns
/// the exit status.
///
/// `file` is `None` where the path does not open. If symbols and debug files are asked for, and it has
/// no symbol table, a debug file is looked for, and `err` is told of other files in its place. The status
/// is 0 once all is written and flushed, and 1 otherwise. The contract says which fault there can be then:
/// the error of the file's header or of the symbols that are asked for; a write that failed, if they have
/// none; that the file can't be read; or that memory is short. Nothing is said of a write that failed since
/// nobody reads the output. It says nothing of what `out` and `err` hold. The bytes of the file by kind of
/// part are added to `sums`, if the status is 0.
pub fn run<F: Files, R: Read + Drop, W: Write, E: Write>(
    alloc: Global,
    rt: &F,
    options: Options<'_>,
    path: &str,
    file: Option<R>,
    out: &mut Watched<W>,
    err: &mut E,
    sums: &mut Sums,
) -> u8
    ensures bound { result ≤ 1 }
    ensures ends { (end : Result Sums (Fault AnyError))
        × IsEnd options.entry path.entry R.remaining file end × (result ≡ status_of end)
        × (sums.new ≡ sums_after sums.old end) }
{
    match answer(alloc, rt, options, path, file, &mut *out, &mut *err) {
        Ok(own) => {
            *sums = sums.with(&own);
            0
        }
        Err(Fault::Write) if out.is_closed() => 1,
        Err(fault) => say(NAME, &fault, err),
    }
}

// Reads the file whole, writes the sizes of its parts, and returns those by kind.
#[tactic(auto, using(crate::proofs::Compared::lines_ended))]
fn answer<'a, F: Files, R: Read + Drop, W: Write, E: Write>(
    alloc: Global,
    rt: &F,
    options: Options<'_>,
    path: &'a str,
    file: Option<R>,
    out: &mut W,
    err: &mut E,
) -> Result<Sums, Fault<'a, AnyError>>
    ensures { IsEnd options.entry path.entry R.remaining file result }
{
    match print_lines(alloc, rt, options, path, file, &mut *out, err) {
        Ok((_, sums)) => Ok(sums),
        Err(fault) => Err(fault),
    }
}

// Writes the sizes of the parts of the file that is all that the reader has left, and gives the
// writer back, and the sizes by kind.
#[tactic(auto, using(crate::proofs::Compared::lines_done, crate::proofs::Compared::lines_failed))]
fn print_lines<'a, F: Files, R: Read + Drop, W: Write + Drop, E: Write>(
    alloc: Global,
    rt: &F,
    options: Options<'_>,
    path: &'a str,
    file: Option<R>,
    out: W,
    err: &mut E,
) -> Result<(W, Sums), Fault<'a, AnyError>>
    ensures { MatchResult result
        (λ back. OfFile options.entry.view R.remaining file (λ input.
        AppendsSome (IsInputText options.entry path.entry.now input) (W.contents out) (W.contents back.0)
        × AreInputSums input back.1))
        (IsFaultOf options.entry path.entry R.remaining file
        (OfFile options.entry.view R.remaining file (IsInputThere options.entry))) }
{
    let Some(input) = read_shown(alloc, options.view, file) else {
        return Err(Fault::Read { path });
    };
    match print_input(alloc, rt, options, path, &input, out, err) {
        Ok(back) => Ok(back),
        Err(fault) => Err(fault),
    }
}

// Writes the sizes of the parts of the file that these bytes are, and gives the writer back, and the
// sizes by kind.
#[tactic(auto, using(crate::proofs::Inputs::text_found, crate::proofs::Inputs::input_fault, crate::proofs::Inputs::stopped))]
fn print_input<'a, F: Files, W: Write + Drop, E: Write>(
    alloc: Global,
    rt: &F,
    options: Options<'_>,
    path: &'a str,
    input: &[u8],
    out: W,
    err: &mut E,
) -> Result<(W, Sums), Fault<'a, AnyError>>
    ensures { MatchResult result
        (λ back. AppendsSome (IsInputText options.entry path.entry.now input.entry)
        (W.contents out) (W.contents back.0) × AreInputSums input.entry back.1)
        (IsFault path.entry (IsInputError options.entry input.entry)
        (IsInputThere options.entry input.entry)) }
{
    let Ok(sums) = input_sums(alloc, input) else {
        return Err(Fault::Memory);
    };
    let Ok(found) = debug_bytes(alloc, rt, options, path, input, err) else {
        return Err(Fault::Memory);
    };
    let side = match side_of(options, input, &found) {
        Ok(side) => side,
        Err(failure) => return Err(fault_of(Stop::Failed(failure), path)),
    };
    let lines = Lines {
        alloc,
        form: options.form,
        path,
        side: &side,
    };
    match write_buffered(alloc, &lines, out) {
        Ok(out) => Ok((out, sums)),
        Err(stop) => Err(fault_of(stop, path)),
    }
}

// What the program says where lines aren't written to their end.
pub(crate) fn fault_of(stop: Stop<AnyError>, path: &str) -> Fault<'_, AnyError>
    ensures { result ≡ fault_of path.entry stop }
{
    match stop {
        Stop::Failed(AnyError::Elf(error)) => Fault::Failed {
            path,
            error: AnyError::Elf(error),
        },
        Stop::Failed(AnyError::Many) => Fault::Failed {
            path,
            error: AnyError::Many,
        },
        Stop::Failed(AnyError::Memory) => Fault::Memory,
        Stop::Write => Fault::Write,
        Stop::Memory => Fault::Memory,
    }
}

fn main(rt: HostRuntime) -> ExitCode {
    exit_code(NAME, run_on_arguments(&rt), &mut rt.stderr())
}

// The status, or why the arguments can't be read: for want of memory, or since one is not UTF-8.
fn run_on_arguments(rt: &HostRuntime) -> io::Result<u8> {
    let words = arguments(rt)?;
    let about = write_about(
        NAME,
        USAGE,
        HELP,
        &words,
        &mut rt.stdout(),
        &mut rt.stderr(),
    );
    if let Some(status) = about {
        return Ok(status);
    }
    let (mut out, mut err) = (Watched::new(rt.stdout()), rt.stderr());
    let status = run_asked(rt.alloc(), rt, &words, &mut out, &mut err);
    Ok(quiet_status(status, out.is_closed()))
}

// The exit status of the program: `CLOSED` in place of 1 where nobody reads the output.
fn quiet_status(status: u8, closed: bool) -> u8
    ensures { result ≡ cond (closed && status == 1) CLOSED status }
{
    if closed && status == 1 {
        CLOSED
    } else {
        status
    }
}

// What the arguments ask for.
#[derive(Clone, Copy)]
struct Asked<'a> {
    // The parts that are listed.
    view: View,
    // How lines are written.
    form: Form,
    // The folder of debug files; `None` if no debug file is looked for.
    debug: Option<&'a str>,
    // Whether the difference of two files is asked for.
    difference: bool,
    // The word after `--fail-above`.
    limit: Option<&'a str>,
}

// Writes what the arguments ask for, or how the program is used.
fn run_asked<R: Files + Clock, S: AsStr, W: Write, E: Write + IsTerminal>(
    alloc: Global,
    rt: &R,
    words: &[S],
    out: &mut Watched<W>,
    err: &mut E,
) -> u8 {
    let (asked, paths) = asked_of(words);
    let options = Options {
        view: asked.view,
        form: asked.form,
        debug: asked.debug,
    };
    if asked.difference {
        return match compared(options, asked.limit, paths) {
            Some(comparison) => compare_paths(alloc, rt, &comparison, out, err),
            None => say("usage", &USAGE, out),
        };
    }
    if paths.is_empty() || asked.limit.is_some() {
        return say("usage", &USAGE, out);
    }
    run_on_paths(alloc, rt, options, paths, out, err)
}

// What the options before the paths ask for, and the paths.
fn asked_of<S: AsStr>(words: &[S]) -> (Asked<'_>, &[S]) {
    let mut asked = Asked {
        view: View::Whole,
        form: Form::Text,
        debug: Some(DEBUG_FOLDER),
        difference: false,
        limit: None,
    };
    let mut rest = words;
    for _ in 0..words.len() {
        let Some((next, after)) = with_option(asked, rest) else {
            break;
        };
        asked = next;
        rest = after;
    }
    (asked, rest)
}

// What is asked for with the option that comes first, and the arguments after it; `None` if none comes first.
fn with_option<'w, S: AsStr>(asked: Asked<'w>, words: &'w [S]) -> Option<(Asked<'w>, &'w [S])> {
    let (first, mut rest) = words.split_first()?;
    let mut asked = asked;
    match first.as_str() {
        "--diff" => asked.difference = true,
        "--json" => asked.form = Form::Json,
        "--no-debug" => asked.debug = None,
        "--segments" => asked.view = View::Segments,
        "--symbols" => asked.view = View::Symbols,
        // Without a word after it no path is left.
        "--debug" => {
            if let Some((folder, after)) = rest.split_first() {
                asked.debug = Some(folder.as_str());
                rest = after;
            }
        }
        "--fail-above" => {
            if let Some((limit, after)) = rest.split_first() {
                asked.limit = Some(limit.as_str());
                rest = after;
            }
        }
        _ => return None,
    }
    Some((asked, rest))
}

// Writes the sizes of the files at these paths, and the sums of more than one. The status is 1 if that
// of a file is, or if the sums can't be written.
fn run_on_paths<R: Files + Clock, S: AsStr, W: Write, E: Write + IsTerminal>(
    alloc: Global,
    rt: &R,
    options: Options<'_>,
    paths: &[S],
    out: &mut Watched<W>,
    err: &mut E,
) -> u8
    ensures { IsStatus options.entry R.File.Read.remaining S.text (λ watched. W.contents watched.to) paths.now out.new result }
{
    let (status, sums) = run_on_each(alloc, rt, options, paths, &mut *out, &mut *err);
    if paths.len() < 2 {
        return status;
    }
    match write_sums(options.form, &sums, out) {
        Ok(()) => status,
        Err(_) if out.is_closed() => 1,
        Err(_) => {
            let fault: Fault<'_, AnyError> = Fault::Write;
            say(NAME, &fault, err)
        }
    }
}

// Writes the sizes of the files at these paths. The status is 1 if that of one is; and their sums.
fn run_on_each<R: Files + Clock, S: AsStr, W: Write, E: Write + IsTerminal>(
    alloc: Global,
    rt: &R,
    options: Options<'_>,
    paths: &[S],
    out: &mut Watched<W>,
    err: &mut E,
) -> (u8, Sums)
    ensures { AreEnds options.entry R.File.Read.remaining S.text paths.now result.0 result.1 }
{
    let (mut status, mut sums) = (0, Sums::NONE);
    for path in paths {
        let text = path.as_str();
        let own = run_on_path(alloc, rt, options, text, &mut *out, &mut *err, &mut sums);
        status = own.max(status);
    }
    (status, sums)
}

// Writes the sizes of the file at a path, as `run` does.
fn run_on_path<R: Files + Clock, W: Write, E: Write + IsTerminal>(
    alloc: Global,
    rt: &R,
    options: Options<'_>,
    path: &str,
    out: &mut Watched<W>,
    err: &mut E,
    sums: &mut Sums,
) -> u8
    ensures { (end : Result Sums (Fault AnyError))
        × IsEndAt options.entry R.File.Read.remaining path.now end × (result ≡ status_of end)
        × (sums.new ≡ sums_after sums.old end) }
{
    let began = Instant::now(rt);
    let file = File::open(rt, path).ok();
    let status = run(alloc, rt, options, path, file, &mut *out, &mut *err, sums);
    tell_progress(rt, began, path, err);
    status
}

// After a file that took longer than a second, says so where `err` is a terminal.
fn tell_progress<R: Clock, E: Write + IsTerminal>(
    rt: &R,
    began: io::Result<Instant>,
    path: &str,
    err: &mut E,
) {
    let Ok(began) = began else { return };
    let Ok(took) = began.elapsed(rt) else { return };
    if took.as_secs() > 0 && err.is_terminal() {
        let _ = writeln!(err, "elfsize: {path}: {} s", took.as_secs());
    }
}
