//! Writes what is at addresses of an ELF file: the symbol that each is in, and the offset there.
//!
//! `elfaddr PATH ADDRESS..` writes a line for each address, which is a number in hexadecimal:
//! `NAME+0xOFFSET`, or `SECTION+0xOFFSET` if no symbol covers it, or `?` if no section contains it
//! either. `elfaddr PATH -` reads the addresses from standard input, one on a line. The symbols are
//! those of `.symtab` if the file has it, otherwise those of its separate debug file, if there is one,
//! otherwise those of the dynamic segment. `--debug DIR` before the path is the folder of debug files,
//! and `--no-debug` looks for none. `--json` writes each line as a JSON object. `--dynamic` asks for the symbols of the dynamic segment, and
//! `--dladdr` for those that `dladdr` finds. `elfaddr --stack` copies standard input, with such a name
//! in place of the address in each line that glibc's `backtrace_symbols` wrote.
#![tactic(auto)]

ghost use Rattle.std.specs.Prelude.{◌≡◌, ◌≢◌, ◌≤◌, IfErr, IfOk, IfSome, IsOk, IsSomeAnd};
ghost use Rattle.std.specs.Prelude.{MatchResult, OnOk, Result};
ghost use Rattle.elf_base.specs.FileHeader.{header_of};
ghost use Rattle.elf_linking.specs.declared.error.LinkError.{LinkError};
ghost use Rattle.elfaddr.specs.Ends.{AreInputLines, AreInputFailed, AreInputThere, IsEnd};
ghost use Rattle.elfaddr.specs.Ends.{AreNamedLines, AreNamedThere, IsNamedError};
ghost use Rattle.program_ends.specs.Appended.{AppendsSome};
ghost use Rattle.program_ends.specs.Ends.{IsFault, OfFile, quiet_status_of};
ghost use Rattle.program_ends.specs.declared.Fault.{Fault};
ghost use Rattle.program_ends.specs.declared.TheConstants.{CLOSED};

use crate::debug::debug_bytes;
use crate::print::print_file;
use crate::stack::{path_of, write_stack_line};
use elf_linking::LinkError;
use program_debug::{DEBUG_FOLDER, is_file};
use program_ends::json::Form;
use program_ends::{
    CLOSED, Fault, Watched, arguments, exit_code, quiet_status_of, read_whole, say, write_about,
};
use std::alloc::Global;
use std::convert::AsStr;
use std::fs::File;
use std::io;
use std::io::{BufRead, BufReader, Read, Write};
use std::process::ExitCode;
use xmas_elf::ElfFile;

mod debug;
mod lines;
mod names;
mod print;
mod stack;

const NAME: &str = "elfaddr";

const USAGE: &str =
    "elfaddr [--debug DIR | --no-debug] (--stack | [--json] [--dynamic | --dladdr] <binary_path> (<address>.. | -))";

const HELP: &str =
    "Prints the symbol that each address of a file is in, and the offset there; otherwise the section.
Addresses are in hexadecimal; - reads them from standard input, one on a line.
A file without a symbol table has the symbols of its separate debug file, if there is one. Symbols in
.gnu_debugdata and on servers (debuginfod) are left out.
--json       a JSON object for each address, on a line of its own
--dynamic    by the dynamic symbols, also if the file has a symbol table
--dladdr     by the symbols that dladdr finds
--debug DIR  the folder of debug files, /usr/lib/debug without it
--no-debug   no debug file
--stack      copies standard input, with names in lines PATH(+0xOFFSET) and PATH 0xOFFSET";

/// The symbols that name addresses.
#[derive(Clone, Copy, Debug)]
pub enum Source {
    /// Those of `.symtab` if the file has it, otherwise the dynamic symbols.
    Symtab,
    /// The dynamic symbols.
    Dynamic,
    /// The dynamic symbols that `dladdr` finds.
    Dladdr,
}

/// What the options ask for.
#[derive(Clone, Copy, Debug)]
pub struct Options<'a> {
    /// The symbols that name addresses.
    pub source: Source,
    /// How lines are written.
    pub form: Form,
    /// The folder of debug files; `None` if no debug file is looked for.
    pub debug: Option<&'a str>,
}

/// Writes what is at each address to `out`, or the reason why it can't to `err`, and returns the
/// exit status.
///
/// `file` is `None` where the path does not open. If it has no symbol table, and the options ask for this
/// and for a debug file, one is looked for, and `err` is told of other files in its place. The status is 0
/// once all is written and flushed, `CLOSED`, and nothing is said, if a write failed since nobody reads
/// the output, and 1 otherwise. The contract says by which bytes the lines are, and which fault there can
/// be: the error of these bytes or of their symbols; a write that failed, if they have none; that the file
/// can't be read; or that memory is short. It says nothing of what `out` and `err` hold.
pub fn run<R: Read + Drop, W: Write, E: Write>(
    rt: &HostRuntime,
    path: &str,
    options: Options<'_>,
    addresses: &[u64],
    file: Option<R>,
    out: &mut Watched<W>,
    err: &mut E,
) -> u8
    ensures bound { result ≢ CLOSED → result ≤ 1 }
    ensures accepted { result ≡ 0 → IsSomeAnd file (λ reader.
        IfSome (R.remaining reader) (λ bytes. IsOk (header_of bytes))) }
    ensures ends { (end : Result (Unit {0}) (Fault LinkError))
        × IsEnd path.entry options.entry addresses.now R.remaining file end
        × (result ≡ quiet_status_of end out.new.closed) }
{
    let ended = answer(rt, path, options, addresses, file, &mut *out, &mut *err);
    quiet_status_of(NAME, ended, out.is_closed(), err)
}

// Reads the file whole, and writes a line for each address.
fn answer<'a, R: Read + Drop, W: Write, E: Write>(
    rt: &HostRuntime,
    path: &'a str,
    options: Options<'_>,
    addresses: &[u64],
    file: Option<R>,
    out: &mut W,
    err: &mut E,
) -> Result<(), Fault<'a, LinkError>>
    ensures accepted { OnOk result (IsSomeAnd file (λ reader.
        IfSome (R.remaining reader) (λ bytes. IsOk (header_of bytes)))) }
    ensures end { IsEnd path.entry options.entry addresses.now R.remaining file result }
{
    match print_addresses(rt, path, options, addresses, file, &mut *out, err) {
        Ok(_) => Ok(()),
        Err(fault) => Err(fault),
    }
}

// Writes a line for each address by the file that is all that the reader has left, and gives the
// writer back.
fn print_addresses<'a, R: Read + Drop, W: Write + Drop, E: Write>(
    rt: &HostRuntime,
    path: &'a str,
    options: Options<'_>,
    addresses: &[u64],
    file: Option<R>,
    out: W,
    err: &mut E,
) -> Result<W, Fault<'a, LinkError>>
    ensures written { IfOk result (λ back. OfFile R.remaining file (λ input.
        AppendsSome (AreNamedLines options.entry addresses.now input)
        (W.contents out) (W.contents back))) }
    ensures fault { IfErr result (IsFault path.entry
        (λ error. OfFile R.remaining file (λ input. IsNamedError options.entry input error))
        (OfFile R.remaining file (λ input. AreNamedThere options.entry input))) }
{
    let Some(input) = read_whole(rt.alloc(), file) else {
        return Err(Fault::Read { path });
    };
    match print_named(rt, path, &input, options, addresses, out, err) {
        Ok(out) => Ok(out),
        Err(fault) => Err(fault),
    }
}

// Writes a line for each address by the bytes that name the addresses of a file, and gives the writer
// back.
fn print_named<'a, W: Write + Drop, E: Write>(
    rt: &HostRuntime,
    path: &'a str,
    input: &[u8],
    options: Options<'_>,
    addresses: &[u64],
    out: W,
    err: &mut E,
) -> Result<W, Fault<'a, LinkError>>
    ensures { MatchResult result
        (λ back. AppendsSome (AreNamedLines options.entry addresses.now input.entry)
        (W.contents out) (W.contents back))
        (IsFault path.entry (IsNamedError options.entry input.entry)
        (AreNamedThere options.entry input.entry)) }
{
    let (form, source) = (options.form, options.source);
    match debug_bytes(rt, path, options, input, err) {
        Ok(Some(debug)) => print_input(rt.alloc(), path, &debug, form, source, addresses, out),
        Ok(None) => print_input(rt.alloc(), path, input, form, source, addresses, out),
        Err(_) => Err(Fault::Memory),
    }
}

// Writes a line for each address by the file that these bytes are, and gives the writer back.
fn print_input<'a, W: Write + Drop>(
    alloc: Global,
    path: &'a str,
    input: &[u8],
    form: Form,
    source: Source,
    addresses: &[u64],
    out: W,
) -> Result<W, Fault<'a, LinkError>>
    ensures { MatchResult result
        (λ back. AppendsSome (AreInputLines form source addresses.now input.entry)
        (W.contents out) (W.contents back))
        (IsFault path.entry (AreInputFailed source input.entry)
        (AreInputThere source input.entry)) }
{
    match ElfFile::new(input) {
        Ok(file) => print_file(alloc, path, &file, form, source, addresses, out),
        Err(error) => Err(Fault::Failed {
            path,
            error: LinkError::Elf(error),
        }),
    }
}

fn main(rt: HostRuntime) -> ExitCode {
    exit_code(NAME, run_on_arguments(&rt), &mut rt.stderr())
}

// The status, or why the arguments can't be read: for want of memory, or since one is not UTF-8.
fn run_on_arguments(rt: &HostRuntime) -> io::Result<u8> {
    let words = arguments(rt)?;
    let about = write_about(
        NAME,
        USAGE,
        HELP,
        &words,
        &mut rt.stdout(),
        &mut rt.stderr(),
    );
    if let Some(status) = about {
        return Ok(status);
    }
    let (options, words) = options_of(&words);
    match words.split_first() {
        Some((word, [])) if word.as_str() == "--stack" => match options.form {
            Form::Text => run_on_stack(rt, options),
            Form::Json => Ok(say("usage", &USAGE, &mut rt.stdout())),
        },
        Some((path, [word])) if word.as_str() == "-" => {
            let text = io::read_to_string(rt.alloc(), rt.stdin())?;
            run_on_lines(rt, path.as_str(), options, &text)
        }
        Some((path, words)) if !words.is_empty() => {
            let mut addresses = Vec::new(rt.alloc());
            for word in words {
                match address_of(word.as_str()) {
                    Some(address) => addresses.push(address)?,
                    None => return Ok(say("usage", &USAGE, &mut rt.stdout())),
                }
            }
            Ok(run_on_file(rt, path.as_str(), options, &addresses))
        }
        _ => Ok(say("usage", &USAGE, &mut rt.stdout())),
    }
}

// A file that lines of a stack name, and its bytes, or those of its debug file.
#[derive(Drop)]
struct Opened {
    path: String,
    input: Vec<u8>,
}

// Copies standard input line by line, with names in place of addresses. The status is 1 if a write
// fails, and `CLOSED` if nobody reads the output.
fn run_on_stack(rt: &HostRuntime, options: Options<'_>) -> io::Result<u8> {
    let mut out = Watched::new(rt.stdout());
    let mut reader = BufReader::new(rt.alloc(), rt.stdin())?;
    let (mut opened, mut line) = (Vec::new(rt.alloc()), Vec::new(rt.alloc()));
    for _ in 0..u64::MAX {
        line.clear();
        if reader.read_until(b'\n', &mut line)? == 0 {
            break;
        }
        let written = copy_line(rt, options, &mut opened, &line)?;
        if out.write_all(&written).is_err() {
            let ended: Result<(), Fault<'_, LinkError>> = Err(Fault::Write);
            return Ok(quiet_status_of(NAME, ended, out.is_closed(), &mut rt.stderr()));
        }
    }
    Ok(0)
}

// What is written of a line. The file that it names is read if no line before has named it.
fn copy_line(
    rt: &HostRuntime,
    options: Options<'_>,
    opened: &mut Vec<Opened>,
    line: &[u8],
) -> io::Result<Vec<u8>> {
    let mut written = Vec::new(rt.alloc());
    let input = match path_of(line) {
        Some(path) => input_at(rt, options, opened, path)?,
        None => None,
    };
    match input {
        Some(input) => write_stack_line(rt.alloc(), input, line, &mut written)?,
        None => written.extend_from_slice(line)?,
    }
    Ok(written)
}

// The bytes of the file at a path, if it is one and can be read, or those of its debug file. A pipe or a
// device is not opened: the text before an address is any text. What can't be read is not kept.
fn input_at<'o>(
    rt: &HostRuntime,
    options: Options<'_>,
    opened: &'o mut Vec<Opened>,
    path: &str,
) -> io::Result<Option<&'o [u8]>> {
    let place = match opened.iter().position(|one| one.path.as_str() == path) {
        Some(place) => place,
        None => {
            if !is_file(rt, path) {
                return Ok(None);
            }
            let Some(input) = read_whole(rt.alloc(), File::open(rt, path).ok()) else {
                return Ok(None);
            };
            let debug = debug_bytes(rt, path, options, &input, &mut rt.stderr())?;
            let input = debug.unwrap_or(input);
            let path = String::from_str(rt.alloc(), path)?;
            opened.push(Opened { path, input })?;
            opened.len().saturating_sub(1)
        }
    };
    Ok(match opened.get(place) {
        Some(one) => Some(one.input.as_slice()),
        None => None,
    })
}

// The status for the addresses on the lines of a text.
fn run_on_lines(rt: &HostRuntime, path: &str, options: Options<'_>, text: &str) -> io::Result<u8> {
    let mut addresses = Vec::new(rt.alloc());
    for line in text.lines() {
        match address_of(line) {
            Some(address) => addresses.push(address)?,
            None => return Ok(say("usage", &USAGE, &mut rt.stdout())),
        }
    }
    Ok(run_on_file(rt, path, options, &addresses))
}

// The status for these addresses.
fn run_on_file(rt: &HostRuntime, path: &str, options: Options<'_>, addresses: &[u64]) -> u8 {
    let file = File::open(rt, path).ok();
    let (mut out, mut err) = (Watched::new(rt.stdout()), rt.stderr());
    run(rt, path, options, addresses, file, &mut out, &mut err)
}

// What the options before the path ask for, and the arguments after them.
fn options_of<S: AsStr>(words: &[S]) -> (Options<'_>, &[S]) {
    let mut options = Options {
        source: Source::Symtab,
        form: Form::Text,
        debug: Some(DEBUG_FOLDER),
    };
    let mut rest = words;
    for _ in 0..words.len() {
        let Some((next, after)) = with_option(options, rest) else {
            break;
        };
        options = next;
        rest = after;
    }
    (options, rest)
}

// The options with the one that comes first, and the arguments after it; `None` if none comes first.
fn with_option<'w, S: AsStr>(
    options: Options<'w>,
    words: &'w [S],
) -> Option<(Options<'w>, &'w [S])> {
    let (first, mut rest) = words.split_first()?;
    let mut options = options;
    match first.as_str() {
        "--dynamic" => options.source = Source::Dynamic,
        "--dladdr" => options.source = Source::Dladdr,
        "--json" => options.form = Form::Json,
        "--no-debug" => options.debug = None,
        "--debug" => {
            let (folder, after) = rest.split_first()?;
            options.debug = Some(folder.as_str());
            rest = after;
        }
        _ => return None,
    }
    Some((options, rest))
}

// The address that a word is in hexadecimal, with or without `0x`.
fn address_of(word: &str) -> Option<u64> {
    let digits = word.strip_prefix("0x").unwrap_or(word);
    u64::from_str_radix(digits, 16).ok()
}
