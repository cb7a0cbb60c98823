//! Looks symbols of an ELF file up by their names and versions, as a dynamic linker does: by the
//! dynamic segment, with no section header.
//!
//! `elfsym PATH NAME..` writes a line for each name, with the value and the size of the symbol that
//! `dlsym` finds by it: `ab 0x1016 0xb`, or `ab: none`. `NAME@VERSION` asks for the symbol that
//! `dlvsym` finds by that name and version: `ab@V1 0x1016 0xb`. `elfsym --needed PATH` writes the
//! names of the libraries that the file needs, a line for each: their bytes, with control characters
//! escaped. `elfsym --scope PROGRAM NAME..` looks each name up in the program and the libraries that its
//! loader finds, and writes the path of the file that has it after its value and size. With `--json`
//! before all of these each line is a JSON object.
#![tactic(auto)]

ghost use Rattle.std.specs.Prelude.{◌≡◌, ◌≢◌, ◌≤◌, IfErr, IfOk, IfSome, IsOk, IsSomeAnd, OnOk};
ghost use Rattle.std.specs.Prelude.{Result};
ghost use Rattle.elf_base.specs.FileHeader.{header_of};
ghost use Rattle.elf_linking.specs.declared.error.LinkError.{LinkError};
ghost use Rattle.elfsym.specs.Ends.{IsEnd};
ghost use Rattle.elfsym.specs.Libraries.{AreInputLibraries, AreInputLibrariesBegun};
ghost use Rattle.elfsym.specs.Libraries.{AreInputLibrariesFailed};
ghost use Rattle.elfsym.specs.Lines.{AreInputLines, AreInputLinesBegun, AreInputLinesFailed};
ghost use Rattle.program_ends.specs.Appended.{AppendsSome};
ghost use Rattle.program_ends.specs.Ends.{IsFault, OfFile, quiet_status_of};
ghost use Rattle.program_ends.specs.Stops.{HasBegun};
ghost use Rattle.program_ends.specs.declared.Fault.{Fault};
ghost use Rattle.program_ends.specs.declared.TheConstants.{CLOSED};

use crate::libraries::Libraries;
use crate::lines::Lines;
use crate::scope::run_on_program;
use elf_linking::LinkError;
use program_ends::json::{Form, form_asked};
use program_ends::{
    CLOSED, Fault, Watched, arguments, exit_code, fault_of, quiet_status_of, read_whole, say,
    write_about, write_buffered,
};
use std::alloc::Global;
use std::convert::AsStr;
use std::fs::File;
use std::io;
use std::io::{Read, Write};
use std::process::ExitCode;

mod libraries;
mod lines;
mod scope;

const NAME: &str = "elfsym";

const USAGE: &str =
    "elfsym [--json] <binary_path> <name>[@<version>].. | elfsym [--json] --needed <binary_path> | elfsym [--json] --scope [--root DIR] [--library-path LIST] [--cache FILE | --no-cache] <binary_path> <name>[@<version>]..";

const HELP: &str =
    "Prints the value and the size of the symbol that dlsym finds by each name in the dynamic segment of
a file, and by a name and a version what dlvsym finds.
--json               each line as a JSON object
--needed             the names of the libraries that the file needs instead
--scope              looks the names up in a program and its libraries, which are found, and prints the file of
                     each symbol after its size
--root DIR           the program and its libraries are under DIR, the root of another system
--library-path LIST  the value of LD_LIBRARY_PATH
--cache FILE         another cache than /etc/ld.so.cache
--no-cache           no cache";

/// What is asked of a file.
#[derive(Drop)]
pub enum Question<'a, S> {
    /// The libraries that it needs.
    Needed,
    /// The symbols that these references get, each a name or `NAME@VERSION`.
    Symbols(&'a [S]),
}

/// Writes what is asked of the file to `out`, or the reason why it can't to `err`,
/// and returns the exit status.
///
/// `file` is `None` where the path does not open. The status is 0 once all is written and flushed,
/// `CLOSED`, and nothing is said, if a write failed since nobody reads the output, and 1 otherwise.
/// The contract says which fault there can be then: the error of the file; a write
/// that failed, if no error comes before the first line; that the file can't be read; or that
/// memory is short. It says nothing of what `out` and `err` hold.
pub fn run<S: AsStr, R: Read + Drop, W: Write, E: Write>(
    alloc: Global,
    path: &str,
    form: Form,
    question: Question<'_, S>,
    file: Option<R>,
    out: &mut Watched<W>,
    err: &mut E,
) -> u8
    ensures bound { result ≢ CLOSED → result ≤ 1 }
    ensures accepted { result ≡ 0 → IsSomeAnd file (λ reader.
        IfSome (R.remaining reader) (λ bytes. IsOk (header_of bytes))) }
    ensures ends { (end : Result (Unit {0}) (Fault LinkError))
        × IsEnd form S.text path.entry question.entry R.remaining file end × (result ≡ quiet_status_of end out.new.closed) }
{
    let ended = answer(alloc, path, form, question, file, &mut *out);
    quiet_status_of(NAME, ended, out.is_closed(), err)
}

// Reads the file whole, and writes what is asked of it.
fn answer<'a, S: AsStr, R: Read + Drop, W: Write>(
    alloc: Global,
    path: &'a str,
    form: Form,
    question: Question<'_, S>,
    file: Option<R>,
    out: &mut W,
) -> Result<(), Fault<'a, LinkError>>
    ensures accepted { OnOk result (IsSomeAnd file (λ reader.
        IfSome (R.remaining reader) (λ bytes. IsOk (header_of bytes)))) }
    ensures end { IsEnd form S.text path.entry question.entry R.remaining file result }
{
    match question {
        Question::Needed => match print_libraries(alloc, path, form, file, &mut *out) {
            Ok(_) => Ok(()),
            Err(fault) => Err(fault),
        },
        Question::Symbols(references) => {
            match print_lines(alloc, path, form, references, file, &mut *out) {
                Ok(_) => Ok(()),
                Err(fault) => Err(fault),
            }
        }
    }
}

// Writes a line for each library that a file needs, which is all that the reader has left, and
// gives the writer back.
fn print_libraries<'a, R: Read + Drop, W: Write + Drop>(
    alloc: Global,
    path: &'a str,
    form: Form,
    file: Option<R>,
    out: W,
) -> Result<W, Fault<'a, LinkError>>
    ensures written { IfOk result (λ back. OfFile R.remaining file (λ input.
        AppendsSome (AreInputLibraries form input) (W.contents out) (W.contents back))) }
    ensures fault { IfErr result (IsFault path.entry
        (λ error. OfFile R.remaining file (λ input. AreInputLibrariesFailed form input error))
        (OfFile R.remaining file (λ input. HasBegun (AreInputLibrariesBegun input)
        (AppendsSome (AreInputLibraries form input))))) }
{
    let Some(input) = read_whole(alloc, file) else {
        return Err(Fault::Read { path });
    };
    let libraries = Libraries {
        input: &input,
        form,
    };
    match write_buffered(alloc, &libraries, out) {
        Ok(out) => Ok(out),
        Err(stop) => Err(fault_of(stop, path)),
    }
}

// Writes a line for each reference in the file that is all that the reader has left, and gives the
// writer back.
fn print_lines<'a, S: AsStr, R: Read + Drop, W: Write + Drop>(
    alloc: Global,
    path: &'a str,
    form: Form,
    references: &[S],
    file: Option<R>,
    out: W,
) -> Result<W, Fault<'a, LinkError>>
    ensures written { IfOk result (λ back. OfFile R.remaining file (λ input.
        AppendsSome (AreInputLines form S.text input references.now)
        (W.contents out) (W.contents back))) }
    ensures fault { IfErr result (IsFault path.entry
        (λ error. OfFile R.remaining file (λ input.
        AreInputLinesFailed form S.text input references.now error))
        (OfFile R.remaining file (λ input.
        HasBegun (AreInputLinesBegun form S.text input references.now)
        (AppendsSome (AreInputLines form S.text input references.now))))) }
{
    let Some(input) = read_whole(alloc, file) else {
        return Err(Fault::Read { path });
    };
    let lines = Lines {
        input: &input,
        references,
        form,
    };
    match write_buffered(alloc, &lines, out) {
        Ok(out) => Ok(out),
        Err(stop) => Err(fault_of(stop, path)),
    }
}

fn main(rt: HostRuntime) -> ExitCode {
    exit_code(NAME, run_on_arguments(&rt), &mut rt.stderr())
}

// The status, or why the arguments can't be read: for want of memory, or since one is not UTF-8.
fn run_on_arguments(rt: &HostRuntime) -> io::Result<u8> {
    let words = arguments(rt)?;
    let (mut out, mut err) = (Watched::new(rt.stdout()), rt.stderr());
    if let Some(status) = write_about(NAME, USAGE, HELP, &words, &mut out, &mut err) {
        return Ok(status);
    }
    let (form, rest) = form_asked(&words);
    let status = match rest.split_first() {
        Some((first, others)) if first.as_str() == "--scope" => {
            run_on_program(rt, form, others, &mut out, &mut err)
        }
        _ => run_on_file(rt, form, rest, &mut out, &mut err),
    };
    match status {
        Some(status) => Ok(status),
        None => Ok(say("usage", &USAGE, &mut out)),
    }
}

// The status after what the arguments ask of a file; `None` if they are not as they should be.
fn run_on_file<W: Write, E: Write>(
    rt: &HostRuntime,
    form: Form,
    arguments: &[String],
    out: &mut Watched<W>,
    err: &mut E,
) -> Option<u8> {
    let (path, question) = asked(arguments)?;
    let file = File::open(rt, path).ok();
    Some(run(rt.alloc(), path, form, question, file, out, err))
}

// What the arguments ask, and of which file, if they are as they should be.
fn asked<S: AsStr>(arguments: &[S]) -> Option<(&str, Question<'_, S>)> {
    let (first, others) = arguments.split_first()?;
    let second = others.first()?;
    if first.as_str() != "--needed" {
        return Some((first.as_str(), Question::Symbols(others)));
    }
    if others.len() > 1 {
        return None;
    }
    Some((second.as_str(), Question::Needed))
}
